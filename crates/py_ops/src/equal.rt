ghost use Rattle.std.specs.Prelude.{◌≡◌, length, OnOk};
ghost use Rattle.py_heap.specs.Objects.{items_at, pairs_at};
ghost use Rattle.py_machine.specs.Runs.{Still};
ghost use Rattle.py_meaning.specs.Acts.{run};
ghost use Rattle.py_meaning.specs.Compared as spec;

use crate::numbers::as_number;
use crate::positions::{item_of, values_of};
use py_heap::Object;
use py_machine::{Fault, Machine, recursion_error};
use py_value::Value;
use std::alloc::Global;

/// Whether two values are references to one object.
fn is_one(left: &Value, right: &Value) -> bool
    ensures { result ≡ spec.is_one left.now right.now }
{
    match (left, right) {
        (Value::Ref(a), Value::Ref(b)) => *a == *b,
        _ => false,
    }
}

/// Compares the items of two lists or two tuples, pair by pair, up to the first one that isn't equal.
#[cycle(equal)]
fn items_equal(
    alloc: Global,
    left: u32,
    machine: &mut Machine,
    a: u32,
    b: u32,
    count: usize,
) -> Result<bool, Fault>
    requires first { length (items_at machine.old.state.heap a) ≡ count }
    requires second { length (items_at machine.old.state.heap b) ≡ count }
    ensures runs { Still (run (spec.items_equal (spec.pair_equal left) (items_at machine.old.state.heap a) (items_at machine.old.state.heap b))) machine.old result machine.new }
    ensures drawn { machine.new.drawn ≡ machine.old.drawn }
    ensures same { OnOk result (machine.new.state ≡ machine.old.state) }
{
    for position in 0..count {
        let item = item_of(machine, a, position)?;
        let other = item_of(machine, b, position)?;
        if !pair_equal(alloc, left, machine, &item, &other)? {
            return Ok(false);
        }
    }
    Ok(true)
}

/// Compares the lists or the tuples at two addresses, which have `count` and `others` items.
#[cycle(equal)]
fn sequences_equal(
    alloc: Global,
    left: u32,
    machine: &mut Machine,
    a: u32,
    b: u32,
    count: usize,
    others: usize,
) -> Result<bool, Fault>
    requires first { length (items_at machine.old.state.heap a) ≡ count }
    requires second { length (items_at machine.old.state.heap b) ≡ others }
    ensures runs { Still (run (spec.sequences_equal (spec.pair_equal left) (items_at machine.old.state.heap a) (items_at machine.old.state.heap b))) machine.old result machine.new }
    ensures drawn { machine.new.drawn ≡ machine.old.drawn }
    ensures same { OnOk result (machine.new.state ≡ machine.old.state) }
{
    if count == others {
        items_equal(alloc, left, machine, a, b, count)
    } else {
        Ok(false)
    }
}

/// Compares a value with one that is under the same key, if there is one.
#[cycle(equal)]
fn with_equal(
    alloc: Global,
    left: u32,
    machine: &mut Machine,
    value: &Value,
    other: &Option<Value>,
) -> Result<bool, Fault>
    ensures runs { Still (run (spec.with_equal (spec.pair_equal left) value.now other.now)) machine.old result machine.new }
    ensures drawn { machine.new.drawn ≡ machine.old.drawn }
    ensures same { OnOk result (machine.new.state ≡ machine.old.state) }
{
    match other {
        Some(other) => pair_equal(alloc, left, machine, value, other),
        None => Ok(false),
    }
}

/// Compares the values under equal keys, in the order of the first dict, up to the first that differ.
#[cycle(equal)]
fn pairs_equal(
    alloc: Global,
    left: u32,
    machine: &mut Machine,
    a: u32,
    b: u32,
    count: usize,
) -> Result<bool, Fault>
    requires { length (pairs_at machine.old.state.heap a) ≡ count }
    ensures runs { Still (run (spec.pairs_equal (spec.pair_equal left) (pairs_at machine.old.state.heap a) (pairs_at machine.old.state.heap b))) machine.old result machine.new }
    ensures drawn { machine.new.drawn ≡ machine.old.drawn }
    ensures same { OnOk result (machine.new.state ≡ machine.old.state) }
{
    for position in 0..count {
        let (value, other) = values_of(machine, a, b, position)?;
        if !with_equal(alloc, left, machine, &value, &other)? {
            return Ok(false);
        }
    }
    Ok(true)
}

/// Compares the objects at two addresses.
#[cycle(equal)]
#[tactic(auto, unfolding(py_meaning::specs::Compared::refs_equal, py_machine::specs::Runs::object_at))]
fn refs_equal(
    alloc: Global,
    left: u32,
    machine: &mut Machine,
    a: u32,
    b: u32,
) -> Result<bool, Fault>
    ensures runs { Still (run (spec.refs_equal (spec.pair_equal left) a b)) machine.old result machine.new }
    ensures drawn { machine.new.drawn ≡ machine.old.drawn }
    ensures same { OnOk result (machine.new.state ≡ machine.old.state) }
{
    match machine.object_at(a) {
        Some(Object::List(items)) => match machine.object_at(b) {
            Some(Object::List(others)) => {
                let count = items.len();
                let others = others.len();
                sequences_equal(alloc, left, machine, a, b, count, others)
            }
            Some(Object::Tuple(_) | Object::Dict(_) | Object::Function(_) | Object::Handle { .. })
            | None => Ok(a == b),
        },
        Some(Object::Tuple(items)) => match machine.object_at(b) {
            Some(Object::Tuple(others)) => {
                let count = items.len();
                let others = others.len();
                sequences_equal(alloc, left, machine, a, b, count, others)
            }
            Some(Object::List(_) | Object::Dict(_) | Object::Function(_) | Object::Handle { .. })
            | None => Ok(a == b),
        },
        Some(Object::Dict(pairs)) => match machine.object_at(b) {
            Some(Object::Dict(others)) => {
                let count = pairs.len();
                if count != others.len() {
                    return Ok(false);
                }
                pairs_equal(alloc, left, machine, a, b, count)
            }
            Some(Object::List(_) | Object::Tuple(_) | Object::Function(_) | Object::Handle { .. })
            | None => Ok(a == b),
        },
        Some(Object::Function(_)) | Some(Object::Handle { .. }) | None => Ok(a == b),
    }
}

/// Compares two values that aren't both numbers.
#[cycle(equal)]
fn others_equal(
    alloc: Global,
    left: u32,
    machine: &mut Machine,
    value: &Value,
    other: &Value,
) -> Result<bool, Fault>
    ensures runs { Still (run (spec.others_equal (spec.pair_equal left) value.now other.now)) machine.old result machine.new }
    ensures drawn { machine.new.drawn ≡ machine.old.drawn }
    ensures same { OnOk result (machine.new.state ≡ machine.old.state) }
{
    match (value, other) {
        (Value::Nothing, Value::Nothing) => Ok(true),
        (Value::Text(text), Value::Text(more)) => Ok(text.as_str() == more.as_str()),
        (Value::Builtin(b), Value::Builtin(c)) => Ok(b.number() == c.number()),
        (Value::Ref(a), Value::Ref(b)) => refs_equal(alloc, left, machine, *a, *b),
        _ => Ok(false),
    }
}

/// Whether two values are equal: numbers by value, texts by characters, lists, tuples and dicts by what they hold. Pairs inside have `left`
/// levels left.
#[cycle(equal)]
#[tactic(auto, unfolding(py_meaning::specs::Compared::values_equal))]
pub fn values_equal(
    alloc: Global,
    left: u32,
    machine: &mut Machine,
    value: &Value,
    other: &Value,
) -> Result<bool, Fault>
    ensures runs { Still (run (spec.values_equal (spec.pair_equal left) value.now other.now)) machine.old result machine.new }
    ensures drawn { machine.new.drawn ≡ machine.old.drawn }
    ensures same { OnOk result (machine.new.state ≡ machine.old.state) }
{
    match (as_number(value), as_number(other)) {
        (Some(a), Some(b)) => Ok(a == b),
        (None, None) => others_equal(alloc, left, machine, value, other),
        _ => Ok(false),
    }
}

/// Compares two elements. One object is equal to itself without a look inside.
#[cycle(equal)]
fn elements_equal(
    alloc: Global,
    left: u32,
    machine: &mut Machine,
    value: &Value,
    other: &Value,
) -> Result<bool, Fault>
    ensures runs { Still (run (spec.elements_equal (spec.pair_equal left) value.now other.now)) machine.old result machine.new }
    ensures drawn { machine.new.drawn ≡ machine.old.drawn }
    ensures same { OnOk result (machine.new.state ≡ machine.old.state) }
{
    if is_one(value, other) {
        return Ok(true);
    }
    values_equal(alloc, left, machine, value, other)
}

#[cycle(equal)]
#[tactic(auto, unfolding(py_machine::specs::Runs::step))]
fn one_equal(
    alloc: Global,
    left: u32,
    machine: &mut Machine,
    value: &Value,
    other: &Value,
) -> Result<bool, Fault>
    ensures runs { Still (run (spec.one_equal (spec.pair_equal left) value.now other.now)) machine.old result machine.new }
    ensures drawn { machine.new.drawn ≡ machine.old.drawn }
    ensures same { OnOk result (machine.new.state ≡ machine.old.state) }
{
    machine.step(alloc)?;
    elements_equal(alloc, left, machine, value, other)
}

/// Compares a pair of elements with `left` levels left.
#[cycle(equal)]
pub fn pair_equal(
    alloc: Global,
    left: u32,
    machine: &mut Machine,
    value: &Value,
    other: &Value,
) -> Result<bool, Fault>
    ensures runs { Still (run (spec.pair_equal left value.now other.now)) machine.old result machine.new }
    ensures drawn { machine.new.drawn ≡ machine.old.drawn }
    ensures same { OnOk result (machine.new.state ≡ machine.old.state) }
{
    if left == 0 {
        return Err(Fault::Raised(recursion_error(alloc)?));
    }
    one_equal(alloc, left - 1, machine, value, other)
}
