ghost use Rattle.std.specs.Prelude.{◌≡◌, ◌+◌, length, pos, slice_get};
ghost use Rattle.py_heap.specs.States.{raised};
ghost use Rattle.py_machine.specs.Runs.{Still};
ghost use Rattle.py_meaning.specs.Acts.{run};
ghost use Rattle.py_meaning.specs.Meaning as spec;

use plain_data::SharedText;
use py_heap::Object;
use py_machine::{Change, Fault, Machine, wrong_argument, wrong_number};
use py_value::Value;
use std::alloc::Global;

/// The units of a handle's name, and 1 more.
fn name_units(name: &SharedText) -> u64
    ensures { result ≡ 1 + length name.now }
{
    1 + name.as_str().len() as u64
}

/// A new handle with no uses.
#[tactic(auto, unfolding(py_meaning::specs::Meaning::opened))]
fn opened(alloc: Global, machine: &mut Machine, name: &SharedText) -> Result<Value, Fault>
    ensures runs { Still (run (spec.opened name.now)) machine.old result machine.new }
    ensures drawn { machine.new.drawn ≡ machine.old.drawn }
{
    machine.charge(alloc, name_units(name))?;
    let at = machine.add(Object::Handle {
        name: name.share()?,
        uses: 0,
    })?;
    Ok(Value::Ref(at))
}

fn open_handle(alloc: Global, machine: &mut Machine, value: &Value) -> Result<Value, Fault>
    ensures runs { Still (run (spec.open_handle value.now)) machine.old result machine.new }
    ensures drawn { machine.new.drawn ≡ machine.old.drawn }
{
    match value {
        Value::Text(name) => opened(alloc, machine, name),
        Value::Nothing | Value::Bool(_) | Value::Number(_) | Value::Ref(_) | Value::Builtin(_) =>
            Err(Fault::Raised(wrong_argument(alloc, "handle")?)),
    }
}

/// `handle` of its arguments: opens a handle with that name on the session's host.
pub fn handle_called(alloc: Global, machine: &mut Machine, args: &[Value]) -> Result<Value, Fault>
    ensures runs { Still (run (spec.handle_called args.now)) machine.old result machine.new }
    ensures drawn { machine.new.drawn ≡ machine.old.drawn }
{
    match args {
        [value] => open_handle(alloc, machine, value),
        _ => Err(Fault::Raised(wrong_number(alloc, "handle")?)),
    }
}

/// How often a handle is used with this use, as a number.
fn uses_value(uses: u64) -> Value
    ensures { result ≡ Value.Number (pos (raised uses)) }
{
    Value::Number(uses.saturating_add(1) as i128)
}

/// Uses the handle at an address once more.
#[tactic(auto, unfolding(py_meaning::specs::Meaning::told_at, py_machine::specs::Runs::object_at))]
fn told_at(alloc: Global, machine: &mut Machine, at: u32) -> Result<Value, Fault>
    ensures runs { Still (run (spec.told_at at)) machine.old result machine.new }
    ensures drawn { machine.new.drawn ≡ machine.old.drawn }
{
    match machine.object_at(at) {
        Some(Object::Handle { uses, .. }) => {
            let told = uses_value(*uses);
            machine.change(at, Change::Use)?;
            Ok(told)
        }
        Some(Object::List(_) | Object::Tuple(_) | Object::Dict(_) | Object::Function(_)) | None => {
            Err(Fault::Raised(wrong_argument(alloc, "tell")?))
        }
    }
}

fn tell(alloc: Global, machine: &mut Machine, value: &Value) -> Result<Value, Fault>
    ensures runs { Still (run (spec.tell value.now)) machine.old result machine.new }
    ensures drawn { machine.new.drawn ≡ machine.old.drawn }
{
    match value {
        Value::Ref(at) => told_at(alloc, machine, *at),
        Value::Nothing | Value::Bool(_) | Value::Number(_) | Value::Text(_) | Value::Builtin(_) =>
            Err(Fault::Raised(wrong_argument(alloc, "tell")?)),
    }
}

/// `tell` of its arguments: uses a handle once more, and says how often it was used.
pub fn tell_called(alloc: Global, machine: &mut Machine, args: &[Value]) -> Result<Value, Fault>
    ensures runs { Still (run (spec.tell_called args.now)) machine.old result machine.new }
    ensures drawn { machine.new.drawn ≡ machine.old.drawn }
{
    match args {
        [value] => tell(alloc, machine, value),
        _ => Err(Fault::Raised(wrong_number(alloc, "tell")?)),
    }
}
