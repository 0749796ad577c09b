ghost use Rattle.std.specs.Prelude.{◌≡◌, None, IfOk, slice_get};
ghost use Rattle.py_meaning.specs.Operators.{steps};
ghost use Rattle.py_meaning.specs.Truth as truth;
ghost use Rattle.py_machine.specs.Changes.{object_kind};
ghost use Rattle.py_machine.specs.Runs.{Still};
ghost use Rattle.py_meaning.specs.Acts.{run};
ghost use Rattle.py_meaning.specs.Acts as spec;
ghost use Rattle.py_meaning.specs.Items as items;

use plain_data::Items;
use py_heap::Object;
use py_machine::{Fault, Machine, ValueKind, unhashable};
use py_value::{Key, KeyFault, Value, key_of};
use std::alloc::{AllocError, Global};

/// The kind of a value.
#[tactic(auto, unfolding(py_meaning::specs::Acts::kind_of, py_machine::specs::Runs::object_at))]
pub fn kind_of(machine: &Machine, value: &Value) -> Result<ValueKind, Fault>
    ensures { Still (run (spec.kind_of value.now)) machine.now result machine.now }
{
    match value {
        Value::Nothing => Ok(ValueKind::Nothing),
        Value::Bool(_) => Ok(ValueKind::Bool),
        Value::Number(_) => Ok(ValueKind::Number),
        Value::Text(_) => Ok(ValueKind::Text),
        Value::Ref(at) => Ok(kind_at(machine, *at)),
        Value::Builtin(_) => Ok(ValueKind::Builtin),
    }
}

/// The kind of the object at an address.
fn kind_at(machine: &Machine, at: u32) -> ValueKind
    ensures { result ≡ object_kind (slice_get machine.now.state.heap at) }
{
    match machine.object_at(at) {
        Some(Object::List(_)) => ValueKind::List,
        Some(Object::Tuple(_)) => ValueKind::Tuple,
        Some(Object::Dict(_)) => ValueKind::Dict,
        Some(Object::Function(_)) => ValueKind::Function,
        Some(Object::Handle { .. }) => ValueKind::Handle,
        None => ValueKind::Nothing,
    }
}

/// The items of the list at an address, if there is one.
#[tactic(auto, unfolding(py_meaning::specs::Acts::list_at, py_machine::specs::Runs::object_at))]
pub fn list_at(alloc: Global, machine: &Machine, at: u32) -> Result<Option<Items<Value>>, Fault>
    ensures { Still (run (spec.list_at at)) machine.now result machine.now }
{
    match machine.object_at(at) {
        Some(Object::List(items)) => Ok(Some(copy_items(alloc, items.as_slice())?)),
        _ => Ok(None),
    }
}

/// Equal items. Their texts are shared.
pub fn copy_items(alloc: Global, items: &[Value]) -> Result<Items<Value>, AllocError>
    ensures { IfOk result (λ copy. copy ≡ items.now) }
{
    let mut copy = Items::new(alloc);
    for item in items {
        copy.push(item.copy()?)?;
    }
    Ok(copy)
}

/// Whether the object at an address counts as true.
fn object_true(machine: &Machine, at: u32) -> bool
    ensures { result ≡ truth.object_true (slice_get machine.now.state.heap at) }
{
    match machine.object_at(at) {
        Some(Object::List(items) | Object::Tuple(items)) => items.len() != 0,
        Some(Object::Dict(dict)) => dict.len() != 0,
        Some(Object::Function(_)) | Some(Object::Handle { .. }) => true,
        None => false,
    }
}

/// Whether a value counts as true. (Python reference: truth value testing.)
#[inline(always)]
#[tactic(auto, unfolding(py_meaning::specs::Truth::truth_of, py_machine::specs::Runs::object_at))]
pub fn truth_of(machine: &Machine, value: &Value) -> Result<bool, Fault>
    ensures { Still (run (truth.truth_of value.now)) machine.now result machine.now }
{
    match value {
        Value::Ref(at) => Ok(object_true(machine, *at)),
        Value::Nothing | Value::Bool(_) | Value::Number(_) | Value::Text(_) | Value::Builtin(_) => {
            Ok(value.is_true())
        }
    }
}

/// Takes this many steps.
pub fn take_steps(alloc: Global, machine: &mut Machine, count: usize) -> Result<(), Fault>
    ensures runs { Still (run (steps count)) machine.old result machine.new }
    ensures drawn { machine.new.drawn ≡ machine.old.drawn }
{
    for _step in 0..count {
        machine.step(alloc)?;
    }
    Ok(())
}

/// The error of a value that is no key.
fn not_a_key(alloc: Global, machine: &Machine, value: &Value) -> Result<Key, Fault>
    ensures { Still (run (items.key_or value.now None)) machine.now result machine.now }
{
    let kind = kind_of(machine, value)?;
    Err(Fault::Raised(unhashable(alloc, kind)?))
}

/// The key with a value, or the TypeError of a value that is no key: an object or a built-in function. (Python reference:
/// mapping types.)
#[tactic(auto, unfolding(py_meaning::specs::Items::keyed))]
pub fn keyed(alloc: Global, machine: &Machine, value: &Value) -> Result<Key, Fault>
    ensures { Still (run (items.keyed value.now)) machine.now result machine.now }
{
    match key_of(value) {
        Ok(key) => Ok(key),
        Err(KeyFault::OutOfMemory) => Err(Fault::OutOfMemory),
        Err(KeyFault::Unhashable) => not_a_key(alloc, machine, value),
    }
}
