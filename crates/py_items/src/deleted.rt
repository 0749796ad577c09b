ghost use Rattle.std.specs.Prelude.{◌≡◌, length, slice_get, is_some};
ghost use Rattle.py_heap.specs.Dicts.{value_under};
ghost use Rattle.py_machine.specs.Runs.{Still};
ghost use Rattle.py_meaning.specs.Acts.{run};
ghost use Rattle.py_meaning.specs.Numbers.{as_number};
ghost use Rattle.py_meaning.specs.Methods.{items_in, pairs_in};
ghost use Rattle.py_meaning.specs.Items as spec;

use crate::positions::{position_in, short_position};
use py_heap::Object;
use py_machine::{
    Change, Fault, Machine, ValueKind, no_assigned_index, no_item_deletion, no_key, not_an_index,
};
use py_ops::{keyed, kind_of, sign_of};
use py_value::{Key, Value, key_text};
use std::alloc::Global;

fn deleted_at(
    alloc: Global,
    machine: &mut Machine,
    address: u32,
    position: Option<usize>,
) -> Result<(), Fault>
    ensures runs { Still (run (spec.deleted_at address position)) machine.old result machine.new }
    ensures drawn { machine.new.drawn ≡ machine.old.drawn }
{
    match position {
        Some(position) => {
            let at = short_position(position)?;
            machine.change(address, Change::Remove { at })
        }
        None => Err(Fault::Raised(no_assigned_index(alloc)?)),
    }
}

fn list_deleted(
    alloc: Global,
    machine: &mut Machine,
    address: u32,
    count: usize,
    at: &Value,
) -> Result<(), Fault>
    requires { length (items_in (slice_get machine.old.state.heap address)) ≡ count }
    ensures runs { Still (run (spec.list_deleted address (items_in (slice_get machine.old.state.heap address)) (as_number at.now))) machine.old result machine.new }
    ensures drawn { machine.new.drawn ≡ machine.old.drawn }
{
    match sign_of(at) {
        Some(index) => deleted_at(alloc, machine, address, position_in(count, index)),
        None => Err(Fault::Raised(not_an_index(alloc)?)),
    }
}

/// Whether the dict at an address has a key.
fn has_key(machine: &Machine, address: u32, key: &Key) -> bool
    ensures { result ≡ is_some (value_under (pairs_in (slice_get machine.now.state.heap address)) key.now) }
{
    match machine.object_at(address) {
        Some(Object::Dict(pairs)) => pairs.get(key).is_some(),
        _ => false,
    }
}

fn pair_deleted(alloc: Global, machine: &mut Machine, address: u32, key: Key) -> Result<(), Fault>
    ensures runs { Still (run (spec.pair_deleted address key (value_under (pairs_in (slice_get machine.old.state.heap address)) key))) machine.old result machine.new }
    ensures drawn { machine.new.drawn ≡ machine.old.drawn }
{
    if has_key(machine, address, &key) {
        return machine.change(address, Change::Drop(key));
    }
    Err(Fault::Raised(no_key(alloc, key_text(alloc, &key)?)?))
}

#[tactic(auto, unfolding(py_meaning::specs::Items::dict_deleted))]
fn dict_deleted(alloc: Global, machine: &mut Machine, address: u32, at: &Value) -> Result<(), Fault>
    ensures runs { Still (run (spec.dict_deleted address (pairs_in (slice_get machine.old.state.heap address)) at.now)) machine.old result machine.new }
    ensures drawn { machine.new.drawn ≡ machine.old.drawn }
{
    let key = keyed(alloc, machine, at)?;
    pair_deleted(alloc, machine, address, key)
}

fn object_deleted(
    alloc: Global,
    machine: &mut Machine,
    address: u32,
    at: &Value,
) -> Result<(), Fault>
    ensures runs { Still (run (spec.object_deleted address at.now (slice_get machine.old.state.heap address))) machine.old result machine.new }
    ensures drawn { machine.new.drawn ≡ machine.old.drawn }
{
    match machine.object_at(address) {
        Some(Object::List(items)) => {
            let count = items.len();
            list_deleted(alloc, machine, address, count, at)
        }
        Some(Object::Tuple(_)) => Err(Fault::Raised(no_item_deletion(alloc, ValueKind::Tuple)?)),
        Some(Object::Dict(_)) => dict_deleted(alloc, machine, address, at),
        Some(Object::Function(_)) => {
            Err(Fault::Raised(no_item_deletion(alloc, ValueKind::Function)?))
        }
        Some(Object::Handle { .. }) => {
            Err(Fault::Raised(no_item_deletion(alloc, ValueKind::Handle)?))
        }
        None => Err(Fault::Raised(no_item_deletion(alloc, ValueKind::Nothing)?)),
    }
}

#[tactic(auto, unfolding(py_meaning::specs::Items::not_deleted))]
fn not_deleted(alloc: Global, machine: &Machine, container: &Value) -> Result<(), Fault>
    ensures { Still (run (spec.not_deleted container.now)) machine.now result machine.now }
{
    let kind = kind_of(machine, container)?;
    Err(Fault::Raised(no_item_deletion(alloc, kind)?))
}

/// Deletes the item of a value at an index or under a key; the others keep their order. An IndexError past the ends, a
/// KeyError at a key that isn't there, and a TypeError at a value that holds no such items, at an index that is no number, and at
/// a key that is none. (Python reference: the `del` statement.)
#[tactic(auto, unfolding(py_meaning::specs::Items::item_deleted, py_machine::specs::Runs::object_at))]
pub fn delete_item(
    alloc: Global,
    machine: &mut Machine,
    container: &Value,
    at: &Value,
) -> Result<(), Fault>
    ensures runs { Still (run (spec.item_deleted container.now at.now)) machine.old result machine.new }
    ensures drawn { machine.new.drawn ≡ machine.old.drawn }
{
    match container {
        Value::Ref(address) => object_deleted(alloc, machine, *address, at),
        Value::Nothing | Value::Bool(_) | Value::Number(_) | Value::Text(_) | Value::Builtin(_) =>
            not_deleted(alloc, machine, container),
    }
}
