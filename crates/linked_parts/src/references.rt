ghost use Rattle.std.specs.Prelude.{◌≡◌, ◌++◌, flat_map, IfOk, OnOk};
ghost use Rattle.py_heap.specs.References.{value_refs, pair_refs, object_refs};

use plain_data::Items;
use py_heap::{Dict, Object};
use py_value::Value;
use std::alloc::{AllocError, Global};

/// The addresses that an object names, in order.
pub(crate) fn refs_of(alloc: Global, object: &Object) -> Result<Items<u32>, AllocError>
    ensures { IfOk result (λ refs. refs ≡ object_refs object.now) }
{
    match object {
        Object::List(items) | Object::Tuple(items) => refs_of_values(alloc, items.as_slice()),
        Object::Dict(dict) => refs_of_pairs(alloc, dict),
        Object::Function(_) | Object::Handle { .. } => Ok(Items::new(alloc)),
    }
}

/// The addresses that values name, in order.
fn refs_of_values(alloc: Global, values: &[Value]) -> Result<Items<u32>, AllocError>
    ensures { IfOk result (λ refs. refs ≡ flat_map value_refs values.now) }
{
    let mut refs = Items::new(alloc);
    for value in values {
        push_ref(&mut refs, value)?;
    }
    Ok(refs)
}

/// The addresses that the values of a dict name, in order.
fn refs_of_pairs(alloc: Global, dict: &Dict) -> Result<Items<u32>, AllocError>
    ensures { IfOk result (λ refs. refs ≡ flat_map pair_refs dict.now) }
{
    let mut refs = Items::new(alloc);
    for index in 0..dict.len() {
        let (_, value) = dict.pair_at(index);
        push_ref(&mut refs, value)?;
    }
    Ok(refs)
}

/// Puts the address that a value names at the end, if it names one.
fn push_ref(refs: &mut Items<u32>, value: &Value) -> Result<(), AllocError>
    ensures { OnOk result (refs.new ≡ refs.old ++ value_refs value.now) }
{
    if let Value::Ref(at) = value {
        refs.push(*at)?;
    }
    Ok(())
}
