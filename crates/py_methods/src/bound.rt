ghost use Rattle.std.specs.Prelude.{◌≡◌, slice_get};
ghost use Rattle.py_machine.specs.Methods as named;
ghost use Rattle.py_machine.specs.Runs.{Still};
ghost use Rattle.py_meaning.specs.Acts.{run};
ghost use Rattle.py_meaning.specs.Methods as spec;

use plain_data::{SharedText, Text};
use py_heap::Object;
use py_machine::{
    BoundMethod, Fault, Machine, ValueKind, dict_method_named, list_method_named, no_attribute,
    text_method_named,
};
use py_ops::kind_of;
use py_value::Value;
use std::alloc::Global;

fn list_bound(alloc: Global, machine: &Machine, at: u32, name: &Text) -> Result<BoundMethod, Fault>
    ensures { Still (run (spec.list_bound at name.now (named.list_method_named name.now))) machine.now result machine.now }
{
    match list_method_named(name.as_str()) {
        Some(method) => Ok(BoundMethod::List(method, at)),
        None => Err(Fault::Raised(no_attribute(alloc, ValueKind::List, name)?)),
    }
}

fn dict_bound(alloc: Global, machine: &Machine, at: u32, name: &Text) -> Result<BoundMethod, Fault>
    ensures { Still (run (spec.dict_bound at name.now (named.dict_method_named name.now))) machine.now result machine.now }
{
    match dict_method_named(name.as_str()) {
        Some(method) => Ok(BoundMethod::Dict(method, at)),
        None => Err(Fault::Raised(no_attribute(alloc, ValueKind::Dict, name)?)),
    }
}

fn text_bound(
    alloc: Global,
    machine: &Machine,
    text: &SharedText,
    name: &Text,
) -> Result<BoundMethod, Fault>
    ensures { Still (run (spec.text_bound text.now name.now (named.text_method_named name.now))) machine.now result machine.now }
{
    match text_method_named(name.as_str()) {
        Some(method) => Ok(BoundMethod::Text(method, text.share()?)),
        None => Err(Fault::Raised(no_attribute(alloc, ValueKind::Text, name)?)),
    }
}

fn object_bound(
    alloc: Global,
    machine: &Machine,
    at: u32,
    name: &Text,
) -> Result<BoundMethod, Fault>
    ensures { Still (run (spec.object_bound at name.now (slice_get machine.now.state.heap at))) machine.now result machine.now }
{
    match machine.object_at(at) {
        Some(Object::List(_)) => list_bound(alloc, machine, at, name),
        Some(Object::Tuple(_)) => Err(Fault::Raised(no_attribute(alloc, ValueKind::Tuple, name)?)),
        Some(Object::Dict(_)) => dict_bound(alloc, machine, at, name),
        Some(Object::Function(_)) => {
            Err(Fault::Raised(no_attribute(alloc, ValueKind::Function, name)?))
        }
        Some(Object::Handle { .. }) => {
            Err(Fault::Raised(no_attribute(alloc, ValueKind::Handle, name)?))
        }
        None => Err(Fault::Raised(no_attribute(alloc, ValueKind::Nothing, name)?)),
    }
}

#[tactic(auto, unfolding(py_meaning::specs::Methods::not_bound))]
fn not_bound(
    alloc: Global,
    machine: &Machine,
    value: &Value,
    name: &Text,
) -> Result<BoundMethod, Fault>
    ensures { Still (run (spec.not_bound value.now name.now)) machine.now result machine.now }
{
    let kind = kind_of(machine, value)?;
    Err(Fault::Raised(no_attribute(alloc, kind, name)?))
}

/// The method of a value with this name: lists, dicts and texts have methods. An AttributeError at any other name or value.
/// (Python reference: attribute references.)
#[tactic(auto, unfolding(py_meaning::specs::Methods::method_of, py_machine::specs::Runs::object_at))]
pub fn method_of(
    alloc: Global,
    machine: &Machine,
    value: &Value,
    name: &Text,
) -> Result<BoundMethod, Fault>
    ensures { Still (run (spec.method_of value.now name.now)) machine.now result machine.now }
{
    match value {
        Value::Text(text) => text_bound(alloc, machine, text, name),
        Value::Ref(at) => object_bound(alloc, machine, *at, name),
        Value::Nothing | Value::Bool(_) | Value::Number(_) | Value::Builtin(_) => {
            not_bound(alloc, machine, value, name)
        }
    }
}
