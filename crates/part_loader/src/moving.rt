//! Values and objects whose references are to other addresses.

ghost use Rattle.std.specs.Prelude.{ℕ, ◌≡◌, ◌+◌, map, IfOk};
ghost use Rattle.std.specs.List.{list_any};
ghost use Rattle.part_bytes.specs.Parts.{number_in, numbered, numbered_pair, numbered_object};
ghost use Rattle.part_loader.specs.References as spec;

use part_bytes::Numbers;
use plain_data::Items;
use py_heap::{Dict, Object};
use py_value::Value;
use std::alloc::{AllocError, Global};

/// The new address of each object.
pub(crate) trait Addresses {
    ghost goes_to: { Self → ℕ → ℕ };

    /// The new address of the object at that one. An address of 2^32 or more is want of memory.
    fn new_address(&self, at: u32) -> Result<u32, AllocError>
        ensures { IfOk result (λ new. new ≡ goes_to self.now at) };
}

/// Addresses after those of `base` other objects.
#[derive(Debug, Drop)]
pub(crate) struct Above {
    pub(crate) base: usize,
}

impl Addresses for Above {
    ghost use Rattle.std.specs.Prelude.{◌+◌};

    ghost goes_to = { λ above at. above.base + at };

    fn new_address(&self, at: u32) -> Result<u32, AllocError> {
        if self.base > (u32::MAX - at) as usize {
            return Err(AllocError);
        }
        Ok(self.base as u32 + at)
    }
}

impl Addresses for Numbers {
    ghost use Rattle.part_bytes.specs.Parts.{number_in};

    ghost goes_to = { λ numbers. number_in numbers.order };

    fn new_address(&self, at: u32) -> Result<u32, AllocError> {
        Ok(self.number(at))
    }
}

pub(crate) fn moved_value<P: Addresses>(addresses: &P, value: &Value) -> Result<Value, AllocError>
    ensures { IfOk result (λ moved. moved ≡ numbered (P.goes_to addresses.now) value.now) }
{
    match value {
        Value::Ref(at) => Ok(Value::Ref(addresses.new_address(*at)?)),
        Value::Nothing => Ok(Value::Nothing),
        Value::Bool(truth) => Ok(Value::Bool(*truth)),
        Value::Number(number) => Ok(Value::Number(*number)),
        Value::Text(text) => Ok(Value::Text(text.share()?)),
        Value::Builtin(builtin) => Ok(Value::Builtin(*builtin)),
    }
}

fn moved_items<P: Addresses>(
    alloc: Global,
    addresses: &P,
    items: &[Value],
) -> Result<Items<Value>, AllocError>
    ensures { IfOk result (λ moved. moved ≡ map (numbered (P.goes_to addresses.now)) items.now) }
{
    let mut moved = Items::new(alloc);
    for value in items {
        moved.push(moved_value(addresses, value)?)?;
    }
    Ok(moved)
}

fn moved_pairs<P: Addresses>(alloc: Global, addresses: &P, dict: &Dict) -> Result<Dict, AllocError>
    ensures { IfOk result (λ moved. moved ≡ map (numbered_pair (P.goes_to addresses.now)) dict.now) }
{
    let mut moved = Dict::new(alloc);
    for index in 0..dict.len() {
        let (key, value) = dict.pair_at(index);
        moved.put(key.copy()?, moved_value(addresses, value)?)?;
    }
    Ok(moved)
}

/// Whether the value is a reference.
fn is_reference(value: &Value) -> bool
    ensures { result ≡ spec.is_reference value.now }
{
    matches!(value, Value::Ref(_))
}

fn any_reference(values: &[Value]) -> bool
    ensures { result ≡ list_any spec.is_reference values.now }
{
    values.iter().any(|value| is_reference(value))
}

fn any_reference_under_a_key(dict: &Dict) -> bool
    ensures { result ≡ list_any (λ pair. spec.is_reference pair.1) dict.now }
{
    for index in 0..dict.len() {
        let (_, value) = dict.pair_at(index);
        if is_reference(value) {
            return true;
        }
    }
    false
}

/// Whether the object has a reference.
fn refers(object: &Object) -> bool
    ensures { result ≡ spec.refers object.now }
{
    match object {
        Object::List(items) | Object::Tuple(items) => any_reference(items.as_slice()),
        Object::Dict(dict) => any_reference_under_a_key(dict),
        Object::Function(_) | Object::Handle { .. } => false,
    }
}

pub(crate) fn moved_object<P: Addresses>(
    alloc: Global,
    addresses: &P,
    object: &Object,
) -> Result<Object, AllocError>
    ensures { IfOk result (λ moved. moved ≡ numbered_object (P.goes_to addresses.now) object.now) }
{
    match object {
        Object::List(items) => Ok(Object::List(moved_items(alloc, addresses, items.as_slice())?)),
        Object::Tuple(items) => {
            Ok(Object::Tuple(moved_items(alloc, addresses, items.as_slice())?))
        }
        Object::Dict(dict) => Ok(Object::Dict(moved_pairs(alloc, addresses, dict)?)),
        Object::Function(function) => Ok(Object::Function(function.share()?)),
        Object::Handle { name, uses } => Ok(Object::Handle {
            name: name.share()?,
            uses: *uses,
        }),
    }
}

/// The object with new addresses. One without references is as it was, and isn't copied.
#[tactic(auto, using(crate::proofs::Whole::without_references))]
pub(crate) fn into_moved<P: Addresses>(
    alloc: Global,
    addresses: &P,
    object: Object,
) -> Result<Object, AllocError>
    ensures { IfOk result (λ moved. moved ≡ numbered_object (P.goes_to addresses.now) object) }
{
    if refers(&object) {
        return moved_object(alloc, addresses, &object);
    }
    Ok(object)
}
