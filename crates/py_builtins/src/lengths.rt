ghost use Rattle.std.specs.Prelude.{◌≡◌, pos, slice_get};
ghost use Rattle.py_machine.specs.Runs.{Still};
ghost use Rattle.py_meaning.specs.Acts.{run};
ghost use Rattle.py_meaning.specs.Meaning as spec;

use py_heap::Object;
use py_machine::{Fault, Machine, wrong_argument, wrong_number};
use py_value::Value;
use std::alloc::Global;

/// A length as a number.
fn length_value(length: usize) -> Value
    ensures { result ≡ Value.Number (pos length) }
{
    Value::Number(length as i128)
}

/// The length of the object at an address.
fn object_length(alloc: Global, machine: &Machine, at: u32) -> Result<Value, Fault>
    ensures { Still (run (spec.object_length (slice_get machine.now.state.heap at))) machine.now result machine.now }
{
    match machine.object_at(at) {
        Some(Object::List(items) | Object::Tuple(items)) => Ok(length_value(items.len())),
        Some(Object::Dict(dict)) => Ok(length_value(dict.len())),
        Some(Object::Function(_)) | Some(Object::Handle { .. }) | None => {
            Err(Fault::Raised(wrong_argument(alloc, "len")?))
        }
    }
}

/// How many characters, items or pairs a value has.
#[tactic(auto, unfolding(py_meaning::specs::Meaning::length_of, py_machine::specs::Runs::object_at))]
fn length_of(alloc: Global, machine: &Machine, value: &Value) -> Result<Value, Fault>
    ensures { Still (run (spec.length_of value.now)) machine.now result machine.now }
{
    match value {
        Value::Text(text) => Ok(length_value(text.len_chars())),
        Value::Ref(at) => object_length(alloc, machine, *at),
        Value::Nothing | Value::Bool(_) | Value::Number(_) | Value::Builtin(_) => {
            Err(Fault::Raised(wrong_argument(alloc, "len")?))
        }
    }
}

/// `len` of its arguments: how many characters, items or pairs the one has. (Python reference: `len`.)
pub fn len_called(alloc: Global, machine: &Machine, args: &[Value]) -> Result<Value, Fault>
    ensures { Still (run (spec.len_called args.now)) machine.now result machine.now }
{
    match args {
        [value] => length_of(alloc, machine, value),
        _ => Err(Fault::Raised(wrong_number(alloc, "len")?)),
    }
}
