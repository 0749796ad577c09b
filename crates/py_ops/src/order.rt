ghost use Rattle.std.specs.Prelude.{◌≡◌, length};
ghost use Rattle.py_heap.specs.Objects.{items_at};
ghost use Rattle.py_machine.specs.Runs.{Still};
ghost use Rattle.py_meaning.specs.Acts.{run};
ghost use Rattle.py_meaning.specs.Compared as spec;

use crate::equal::pair_equal;
use crate::kind_of;
use crate::numbers::as_number;
use crate::positions::item_of;
use py_heap::Object;
use py_machine::{Fault, Machine, not_ordered, recursion_error};
use py_tree::Op;
use py_value::Value;
use std::alloc::Global;
use std::cmp::Ordering;

/// Whether a comparison of order holds between two values with this ordering.
fn order_holds(op: Op, order: Ordering) -> bool
    ensures { result ≡ spec.order_holds op order }
{
    match (op, order) {
        (Op::Less, Ordering::Less) => true,
        (Op::AtMost, Ordering::Less) => true,
        (Op::AtMost, Ordering::Equal) => true,
        (Op::More, Ordering::Greater) => true,
        (Op::AtLeast, Ordering::Greater) => true,
        (Op::AtLeast, Ordering::Equal) => true,
        _ => false,
    }
}

#[tactic(auto, unfolding(py_meaning::specs::Compared::no_order))]
fn no_order(
    alloc: Global,
    machine: &Machine,
    op: Op,
    value: &Value,
    other: &Value,
) -> Result<bool, Fault>
    ensures { Still (run (spec.no_order op value.now other.now)) machine.now result machine.now }
{
    let left = kind_of(machine, value)?;
    let right = kind_of(machine, other)?;
    Err(Fault::Raised(not_ordered(alloc, op, left, right)?))
}

/// Compares two lists or two tuples: the first pair that isn't equal decides, and else the lengths.
#[cycle(order)]
fn items_ordered(
    alloc: Global,
    left: u32,
    machine: &mut Machine,
    op: Op,
    a: u32,
    b: u32,
    count: usize,
    others: usize,
) -> Result<bool, Fault>
    requires first { length (items_at machine.old.state.heap a) ≡ count }
    requires second { length (items_at machine.old.state.heap b) ≡ others }
    ensures runs { Still (run (spec.items_ordered (spec.pair_equal left) (spec.pair_ordered left) op (items_at machine.old.state.heap a) (items_at machine.old.state.heap b))) machine.old result machine.new }
    ensures drawn { machine.new.drawn ≡ machine.old.drawn }
{
    for position in 0..count.min(others) {
        let item = item_of(machine, a, position)?;
        let other = item_of(machine, b, position)?;
        if !pair_equal(alloc, left, machine, &item, &other)? {
            return pair_ordered(alloc, left, machine, op, &item, &other);
        }
    }
    Ok(order_holds(op, count.cmp(&others)))
}

/// Compares the objects at two addresses: two lists or two tuples.
#[cycle(order)]
#[tactic(auto, unfolding(py_meaning::specs::Compared::refs_ordered, py_machine::specs::Runs::object_at))]
fn refs_ordered(
    alloc: Global,
    left: u32,
    machine: &mut Machine,
    op: Op,
    a: u32,
    b: u32,
) -> Result<bool, Fault>
    ensures runs { Still (run (spec.refs_ordered (spec.pair_equal left) (spec.pair_ordered left) op a b)) machine.old result machine.new }
    ensures drawn { machine.new.drawn ≡ machine.old.drawn }
{
    match machine.object_at(a) {
        Some(Object::List(items)) => match machine.object_at(b) {
            Some(Object::List(others)) => {
                let count = items.len();
                let others = others.len();
                items_ordered(alloc, left, machine, op, a, b, count, others)
            }
            Some(Object::Tuple(_) | Object::Dict(_) | Object::Function(_) | Object::Handle { .. })
            | None => no_order(alloc, machine, op, &Value::Ref(a), &Value::Ref(b)),
        },
        Some(Object::Tuple(items)) => match machine.object_at(b) {
            Some(Object::Tuple(others)) => {
                let count = items.len();
                let others = others.len();
                items_ordered(alloc, left, machine, op, a, b, count, others)
            }
            Some(Object::List(_) | Object::Dict(_) | Object::Function(_) | Object::Handle { .. })
            | None => no_order(alloc, machine, op, &Value::Ref(a), &Value::Ref(b)),
        },
        Some(Object::Dict(_) | Object::Function(_) | Object::Handle { .. }) | None => no_order(
            alloc,
            machine,
            op,
            &Value::Ref(a),
            &Value::Ref(b),
        ),
    }
}

/// Compares two values that aren't both numbers.
#[cycle(order)]
#[inline(never)]
fn others_ordered(
    alloc: Global,
    left: u32,
    machine: &mut Machine,
    op: Op,
    value: &Value,
    other: &Value,
) -> Result<bool, Fault>
    ensures runs { Still (run (spec.others_ordered (spec.pair_equal left) (spec.pair_ordered left) op value.now other.now)) machine.old result machine.new }
    ensures drawn { machine.new.drawn ≡ machine.old.drawn }
{
    match (value, other) {
        (Value::Text(text), Value::Text(more)) => {
            Ok(order_holds(op, text.as_str().cmp(more.as_str())))
        }
        (Value::Ref(a), Value::Ref(b)) => refs_ordered(alloc, left, machine, op, *a, *b),
        _ => no_order(alloc, machine, op, value, other),
    }
}

/// Whether a comparison of order holds between two values: numbers, texts by characters, lists and tuples by their first pair that isn't
/// equal. Pairs inside have `left` levels left.
#[cycle(order)]
#[inline(always)]
#[tactic(auto, unfolding(py_meaning::specs::Compared::values_ordered))]
pub fn values_ordered(
    alloc: Global,
    left: u32,
    machine: &mut Machine,
    op: Op,
    value: &Value,
    other: &Value,
) -> Result<bool, Fault>
    ensures runs { Still (run (spec.values_ordered (spec.pair_equal left) (spec.pair_ordered left) op value.now other.now)) machine.old result machine.new }
    ensures drawn { machine.new.drawn ≡ machine.old.drawn }
{
    match (as_number(value), as_number(other)) {
        (Some(a), Some(b)) => Ok(order_holds(op, a.cmp(&b))),
        _ => others_ordered(alloc, left, machine, op, value, other),
    }
}

/// Compares a pair of elements that isn't equal, with `left` levels left.
#[cycle(order)]
fn pair_ordered(
    alloc: Global,
    left: u32,
    machine: &mut Machine,
    op: Op,
    value: &Value,
    other: &Value,
) -> Result<bool, Fault>
    ensures runs { Still (run (spec.pair_ordered left op value.now other.now)) machine.old result machine.new }
    ensures drawn { machine.new.drawn ≡ machine.old.drawn }
{
    if left == 0 {
        return Err(Fault::Raised(recursion_error(alloc)?));
    }
    values_ordered(alloc, left - 1, machine, op, value, other)
}
