ghost use Rattle.std.specs.Prelude.{◌≡◌, slice_get, IfOk};
ghost use Rattle.py_heap.specs.Dicts.{value_under};
ghost use Rattle.py_machine.specs.Runs.{Still};
ghost use Rattle.py_meaning.specs.Acts.{run};
ghost use Rattle.py_meaning.specs.Methods as spec;

use py_heap::Object;
use py_machine::{Change, Fault, Machine, no_key};
use py_ops::keyed;
use py_value::{Key, Value, key_text};
use std::alloc::{AllocError, Global};

/// A copy of the value under a key of the dict at an address, if the key is there.
fn value_at(machine: &Machine, at: u32, key: &Key) -> Result<Option<Value>, AllocError>
    ensures { IfOk result (λ value. value ≡ value_under (spec.pairs_in (slice_get machine.now.state.heap at)) key.now) }
{
    match machine.object_at(at) {
        Some(Object::Dict(pairs)) => match pairs.get(key) {
            Some(value) => Ok(Some(value.copy()?)),
            None => Ok(None),
        },
        _ => Ok(None),
    }
}

/// The value under a key, or another one if the key isn't there.
#[tactic(auto, unfolding(py_meaning::specs::Methods::get, py_machine::specs::Runs::object_at))]
pub(crate) fn get(
    alloc: Global,
    machine: &Machine,
    at: u32,
    key: &Value,
    other: &Value,
) -> Result<Value, Fault>
    ensures { Still (run (spec.get at key.now other.now)) machine.now result machine.now }
{
    let key = keyed(alloc, machine, key)?;
    match value_at(machine, at, &key)? {
        Some(value) => Ok(value),
        None => Ok(other.copy()?),
    }
}

/// Takes the pair with a key out of a dict, and gives its value.
#[tactic(auto, unfolding(py_meaning::specs::Methods::pop_key, py_machine::specs::Runs::object_at))]
pub(crate) fn pop_key(
    alloc: Global,
    machine: &mut Machine,
    at: u32,
    key: &Value,
) -> Result<Value, Fault>
    ensures runs { Still (run (spec.pop_key at key.now)) machine.old result machine.new }
    ensures drawn { machine.new.drawn ≡ machine.old.drawn }
{
    let key = keyed(alloc, machine, key)?;
    match value_at(machine, at, &key)? {
        Some(value) => {
            machine.change(at, Change::Drop(key))?;
            Ok(value)
        }
        None => Err(Fault::Raised(no_key(alloc, key_text(alloc, &key)?)?)),
    }
}
