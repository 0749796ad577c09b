ghost use Rattle.std.specs.Prelude.{◌≡◌, length, slice_get, sum_by, Some, IfOk};
ghost use Rattle.py_ops.specs.Signs.{number_of};
ghost use Rattle.py_value.specs.Values.{weight as weight_of};
ghost use Rattle.py_machine.specs.Changes.{list_in};
ghost use Rattle.py_machine.specs.Runs.{Is, Still, charge as meter_charge};
ghost use Rattle.py_meaning.specs.Acts.{run};
ghost use Rattle.py_meaning.specs.Numbers.{as_number};
ghost use Rattle.py_meaning.specs.Methods as spec;

use plain_data::Items;
use py_heap::Object;
use py_items::{clipped, position_in, short_position};
use py_machine::{Change, Fault, Machine, no_popped_index, popped_empty, wrong_argument};
use py_ops::{Signed, charge_items, copy_items, sign_of, take_steps};
use py_value::{Value, weight};
use std::alloc::{AllocError, Global};

#[tactic(auto, unfolding(py_meaning::specs::Methods::append))]
pub(crate) fn append(
    alloc: Global,
    machine: &mut Machine,
    at: u32,
    value: &Value,
) -> Result<Value, Fault>
    ensures runs { Still (run (spec.append at value.now)) machine.old result machine.new }
    ensures drawn { machine.new.drawn ≡ machine.old.drawn }
{
    machine.charge(alloc, weight(value))?;
    machine.change(at, Change::Push(value.copy()?))?;
    Ok(Value::Nothing)
}

/// How many items the list at an address has.
fn count_at(machine: &Machine, at: u32) -> usize
    ensures { result ≡ length (spec.items_in (slice_get machine.now.state.heap at)) }
{
    match machine.object_at(at) {
        Some(Object::List(items)) => items.len(),
        _ => 0,
    }
}

#[tactic(auto, unfolding(py_meaning::specs::Methods::inserted, py_machine::specs::Runs::object_at))]
fn inserted(
    alloc: Global,
    machine: &mut Machine,
    at: u32,
    index: Signed,
    value: &Value,
) -> Result<Value, Fault>
    ensures runs { Still (run (spec.insert_at at (Some (number_of index)) value.now)) machine.old result machine.new }
    ensures drawn { machine.new.drawn ≡ machine.old.drawn }
{
    let position = short_position(clipped(count_at(machine, at), index))?;
    machine.charge(alloc, weight(value))?;
    let item = value.copy()?;
    machine.change(at, Change::Insert { at: position, item })?;
    Ok(Value::Nothing)
}

/// Puts a value into a list. The index is clipped to the list.
pub(crate) fn insert_at(
    alloc: Global,
    machine: &mut Machine,
    at: u32,
    index: &Value,
    value: &Value,
) -> Result<Value, Fault>
    ensures runs { Still (run (spec.insert_at at (as_number index.now) value.now)) machine.old result machine.new }
    ensures drawn { machine.new.drawn ≡ machine.old.drawn }
{
    match sign_of(index) {
        Some(index) => inserted(alloc, machine, at, index, value),
        None => Err(Fault::Raised(wrong_argument(alloc, "insert")?)),
    }
}

/// A copy of the item at a position of the list at an address, if it is there.
fn item_in(machine: &Machine, at: u32, position: usize) -> Result<Option<Value>, AllocError>
    ensures { IfOk result (λ item. item ≡ slice_get (spec.items_in (slice_get machine.now.state.heap at)) position) }
{
    match machine.object_at(at) {
        Some(Object::List(items)) => match items.get(position) {
            Some(item) => Ok(Some(item.copy()?)),
            None => Ok(None),
        },
        _ => Ok(None),
    }
}

fn taken_out(machine: &mut Machine, at: u32, position: usize, item: Value) -> Result<Value, Fault>
    ensures runs { Still (run (spec.taken_out at (Some position) item)) machine.old result machine.new }
    ensures drawn { machine.new.drawn ≡ machine.old.drawn }
{
    let short = short_position(position)?;
    machine.change(at, Change::Remove { at: short })?;
    Ok(item)
}

fn popped_at(alloc: Global, machine: &mut Machine, at: u32, position: usize) -> Result<Value, Fault>
    ensures runs { Still (run (spec.popped_at at (spec.items_in (slice_get machine.old.state.heap at)) (Some position))) machine.old result machine.new }
    ensures drawn { machine.new.drawn ≡ machine.old.drawn }
{
    let found = item_in(machine, at, position)?;
    match found {
        Some(item) => taken_out(machine, at, position, item),
        None => Err(Fault::Raised(no_popped_index(alloc)?)),
    }
}

/// Takes the item at an index out of a list, and gives it.
#[tactic(auto, unfolding(py_meaning::specs::Methods::pop_at, py_machine::specs::Runs::object_at))]
pub(crate) fn pop_at(
    alloc: Global,
    machine: &mut Machine,
    at: u32,
    index: Signed,
) -> Result<Value, Fault>
    ensures runs { Still (run (spec.pop_at at (number_of index))) machine.old result machine.new }
    ensures drawn { machine.new.drawn ≡ machine.old.drawn }
{
    let count = count_at(machine, at);
    if count == 0 {
        return Err(Fault::Raised(popped_empty(alloc)?));
    }
    match position_in(count, index) {
        Some(position) => popped_at(alloc, machine, at, position),
        None => Err(Fault::Raised(no_popped_index(alloc)?)),
    }
}

pub(crate) fn pop_number(
    alloc: Global,
    machine: &mut Machine,
    at: u32,
    index: &Value,
) -> Result<Value, Fault>
    ensures runs { Still (run (spec.pop_number at (as_number index.now))) machine.old result machine.new }
    ensures drawn { machine.new.drawn ≡ machine.old.drawn }
{
    match sign_of(index) {
        Some(index) => pop_at(alloc, machine, at, index),
        None => Err(Fault::Raised(wrong_argument(alloc, "pop")?)),
    }
}

/// The charge of items that are stored, by their weights.
fn charge_all(alloc: Global, machine: &mut Machine, items: &Items<Value>) -> Result<(), Fault>
    ensures runs { Is (meter_charge (sum_by weight_of items.now) machine.old) result machine.new }
    ensures drawn { machine.new.drawn ≡ machine.old.drawn }
{
    charge_items(alloc, machine, items.as_slice())
}

/// Puts items after the end of the list at an address: they are charged by their weights, and each takes a step. A MemoryError
/// if the meter has no room, a StepLimitError if no steps are left. (Python reference: mutable sequence types.)
#[tactic(auto, unfolding(py_meaning::specs::Methods::extend))]
pub fn extend(
    alloc: Global,
    machine: &mut Machine,
    at: u32,
    items: Items<Value>,
) -> Result<(), Fault>
    ensures runs { Still (run (spec.extend at items)) machine.old result machine.new }
    ensures drawn { machine.new.drawn ≡ machine.old.drawn }
{
    charge_all(alloc, machine, &items)?;
    take_steps(alloc, machine, items.len())?;
    machine.change(at, Change::Extend(items))
}

/// A copy of the items of the list at an address, if there is one.
fn items_at(alloc: Global, machine: &Machine, at: u32) -> Result<Option<Items<Value>>, AllocError>
    ensures { IfOk result (λ items. items ≡ list_in (slice_get machine.now.state.heap at)) }
{
    match machine.object_at(at) {
        Some(Object::List(items)) => Ok(Some(copy_items(alloc, items.as_slice())?)),
        _ => Ok(None),
    }
}

fn extended_by(
    alloc: Global,
    machine: &mut Machine,
    at: u32,
    items: Option<Items<Value>>,
) -> Result<Value, Fault>
    ensures runs { Still (run (spec.extended_by at items)) machine.old result machine.new }
    ensures drawn { machine.new.drawn ≡ machine.old.drawn }
{
    match items {
        Some(items) => {
            extend(alloc, machine, at, items)?;
            Ok(Value::Nothing)
        }
        None => Err(Fault::Raised(wrong_argument(alloc, "extend")?)),
    }
}

#[tactic(auto, unfolding(py_meaning::specs::Methods::extended_at, py_machine::specs::Runs::object_at))]
fn extended_at(alloc: Global, machine: &mut Machine, at: u32, more: u32) -> Result<Value, Fault>
    ensures runs { Still (run (spec.extended_at at more)) machine.old result machine.new }
    ensures drawn { machine.new.drawn ≡ machine.old.drawn }
{
    let items = items_at(alloc, machine, more)?;
    extended_by(alloc, machine, at, items)
}

pub(crate) fn extend_with(
    alloc: Global,
    machine: &mut Machine,
    at: u32,
    more: &Value,
) -> Result<Value, Fault>
    ensures runs { Still (run (spec.extend_with at more.now)) machine.old result machine.new }
    ensures drawn { machine.new.drawn ≡ machine.old.drawn }
{
    match more {
        Value::Ref(more) => extended_at(alloc, machine, at, *more),
        Value::Nothing | Value::Bool(_) | Value::Number(_) | Value::Text(_) | Value::Builtin(_) =>
            Err(Fault::Raised(wrong_argument(alloc, "extend")?)),
    }
}

/// Takes all items out of a list, or all pairs out of a dict.
#[tactic(auto, unfolding(py_meaning::specs::Methods::clear))]
pub(crate) fn clear(machine: &mut Machine, at: u32) -> Result<Value, Fault>
    ensures runs { Still (run (spec.clear at)) machine.old result machine.new }
    ensures drawn { machine.new.drawn ≡ machine.old.drawn }
{
    machine.change(at, Change::Clear)?;
    Ok(Value::Nothing)
}
