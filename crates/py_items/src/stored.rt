ghost use Rattle.std.specs.Prelude.{◌≡◌, length, slice_get};
ghost use Rattle.py_value.specs.Keys.{value_of};
ghost use Rattle.py_value.specs.Values.{weight as weight_of};
ghost use Rattle.py_machine.specs.Runs.{Still};
ghost use Rattle.py_meaning.specs.Acts.{run};
ghost use Rattle.py_meaning.specs.Numbers.{as_number};
ghost use Rattle.py_meaning.specs.Methods.{items_in, pairs_in};
ghost use Rattle.py_meaning.specs.Items as spec;
ghost use Rattle.py_meaning.specs.Meaning as meaning;

use crate::positions::{position_in, short_position};
use py_heap::Object;
use py_machine::{
    Change, Fault, Machine, ValueKind, no_assigned_index, no_item_assignment, not_an_index,
};
use py_ops::{charge, keyed, kind_of, sign_of};
use py_value::{Key, Value, weight};
use std::alloc::Global;

fn stored_at(
    alloc: Global,
    machine: &mut Machine,
    address: u32,
    value: Value,
    position: Option<usize>,
) -> Result<(), Fault>
    ensures runs { Still (run (spec.stored_at address value position)) machine.old result machine.new }
    ensures drawn { machine.new.drawn ≡ machine.old.drawn }
{
    match position {
        Some(position) => {
            let at = short_position(position)?;
            machine.charge(alloc, weight(&value))?;
            machine.change(address, Change::Set { at, item: value })
        }
        None => Err(Fault::Raised(no_assigned_index(alloc)?)),
    }
}

fn key_weight(key: &Key) -> u64
    ensures { result ≡ weight_of (value_of key.now) }
{
    match key {
        Key::Text(text) => 1 + text.as_str().len() as u64,
        Key::Nothing | Key::Bool(_) | Key::Number(_) => 1,
    }
}

/// What a pair costs that is put into the dict at an address: a key that is there isn't charged again.
fn pair_units(machine: &Machine, address: u32, key: &Key, value: &Value) -> u128
    ensures { result ≡ spec.pair_units (pairs_in (slice_get machine.now.state.heap address)) key.now value.now }
{
    let units = u128::from(weight(value));
    match machine.object_at(address) {
        Some(Object::Dict(pairs)) => {
            if pairs.get(key).is_some() {
                units
            } else {
                u128::from(key_weight(key)) + units
            }
        }
        _ => u128::from(key_weight(key)) + units,
    }
}

/// Puts a value under a key of the dict at an address: a key that is there keeps its position and its spelling. The charge comes
/// first; a MemoryError if the meter has no room. (Python reference: dictionary displays.)
#[tactic(auto, unfolding(py_meaning::specs::Meaning::put, py_meaning::specs::Items::put_in, py_machine::specs::Runs::object_at))]
pub fn put(
    alloc: Global,
    machine: &mut Machine,
    address: u32,
    key: Key,
    value: Value,
) -> Result<(), Fault>
    ensures runs { Still (run (meaning.put address key value)) machine.old result machine.new }
    ensures drawn { machine.new.drawn ≡ machine.old.drawn }
{
    let units = pair_units(machine, address, &key, &value);
    charge(alloc, machine, units)?;
    machine.change(address, Change::Put { key, value })
}

fn list_stored(
    alloc: Global,
    machine: &mut Machine,
    address: u32,
    count: usize,
    at: &Value,
    value: Value,
) -> Result<(), Fault>
    requires { length (items_in (slice_get machine.old.state.heap address)) ≡ count }
    ensures runs { Still (run (spec.list_stored address (items_in (slice_get machine.old.state.heap address)) value (as_number at.now))) machine.old result machine.new }
    ensures drawn { machine.new.drawn ≡ machine.old.drawn }
{
    match sign_of(at) {
        Some(index) => stored_at(alloc, machine, address, value, position_in(count, index)),
        None => Err(Fault::Raised(not_an_index(alloc)?)),
    }
}

#[tactic(auto, unfolding(py_meaning::specs::Items::dict_stored, py_meaning::specs::Meaning::put, py_machine::specs::Runs::object_at))]
fn dict_stored(
    alloc: Global,
    machine: &mut Machine,
    address: u32,
    at: &Value,
    value: Value,
) -> Result<(), Fault>
    ensures runs { Still (run (spec.dict_stored address (pairs_in (slice_get machine.old.state.heap address)) at.now value)) machine.old result machine.new }
    ensures drawn { machine.new.drawn ≡ machine.old.drawn }
{
    let key = keyed(alloc, machine, at)?;
    put(alloc, machine, address, key, value)
}

fn object_stored(
    alloc: Global,
    machine: &mut Machine,
    address: u32,
    at: &Value,
    value: Value,
) -> Result<(), Fault>
    ensures runs { Still (run (spec.object_stored address at.now value (slice_get machine.old.state.heap address))) machine.old result machine.new }
    ensures drawn { machine.new.drawn ≡ machine.old.drawn }
{
    match machine.object_at(address) {
        Some(Object::List(items)) => {
            let count = items.len();
            list_stored(alloc, machine, address, count, at, value)
        }
        Some(Object::Tuple(_)) => Err(Fault::Raised(no_item_assignment(alloc, ValueKind::Tuple)?)),
        Some(Object::Dict(_)) => dict_stored(alloc, machine, address, at, value),
        Some(Object::Function(_)) => {
            Err(Fault::Raised(no_item_assignment(alloc, ValueKind::Function)?))
        }
        Some(Object::Handle { .. }) => {
            Err(Fault::Raised(no_item_assignment(alloc, ValueKind::Handle)?))
        }
        None => Err(Fault::Raised(no_item_assignment(alloc, ValueKind::Nothing)?)),
    }
}

#[tactic(auto, unfolding(py_meaning::specs::Items::not_stored))]
fn not_stored(alloc: Global, machine: &Machine, container: &Value) -> Result<(), Fault>
    ensures { Still (run (spec.not_stored container.now)) machine.now result machine.now }
{
    let kind = kind_of(machine, container)?;
    Err(Fault::Raised(no_item_assignment(alloc, kind)?))
}

/// Stores a value as the item of another at an index or under a key. A new key goes last, and one that is there keeps its
/// spelling. The charge comes once the index or the key is found good: an IndexError past the ends, and a TypeError at a value
/// that holds no such items, at an index that is no number, and at a key that is none. A MemoryError if the meter has no room for
/// the charge. (Python reference: assignment statements.)
#[tactic(auto, unfolding(py_meaning::specs::Items::item_stored, py_machine::specs::Runs::object_at))]
pub fn store_item(
    alloc: Global,
    machine: &mut Machine,
    container: &Value,
    at: &Value,
    value: Value,
) -> Result<(), Fault>
    ensures runs { Still (run (spec.item_stored container.now at.now value)) machine.old result machine.new }
    ensures drawn { machine.new.drawn ≡ machine.old.drawn }
{
    match container {
        Value::Ref(address) => object_stored(alloc, machine, *address, at, value),
        Value::Nothing | Value::Bool(_) | Value::Number(_) | Value::Text(_) | Value::Builtin(_) =>
            not_stored(alloc, machine, container),
    }
}
