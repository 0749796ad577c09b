ghost use Rattle.std.specs.Prelude.{◌≡◌, ◌<◌, ◌^◌, ◌++◌, All, length, map, OnOk};
ghost use Rattle.std.specs.List.{flat_map};
ghost use Rattle.py_heap.specs.References.{AreLive};
ghost use Rattle.part_bytes.specs.Parts.{number_in, numbered, numbered_pair, numbered_object, objects_of};
ghost use Rattle.part_bytes.specs.Texts as spec;
ghost use Rattle.part_bytes.specs.Spellings.{spells};
ghost use Rattle.part_bytes.specs.Plain.{IsPlain, IsPlainPair, IsPlainObject, IsPlainAt};

use crate::numbers::Numbers;
use crate::spelling::Spelling;
use crate::tag;
use crate::values::{write_count, write_key, write_spelled, write_value};
use plain_data::Items;
use py_heap::{Dict, Function, Object, State};
use py_value::Value;
use std::alloc::AllocError;

/// The items of a list or a tuple.
fn write_items(
    out: &mut Items<u8>,
    numbers: &Numbers,
    spelling: &Spelling,
    items: &[Value],
) -> Result<(), AllocError>
    ensures bytes { OnOk result (out.new ≡ out.old ++ flat_map (spec.spelled_value (spells spelling.now)) (map (numbered (number_in numbers.now.order)) items.now)) }
    ensures plain { OnOk result (All IsPlain items.now) }
{
    for value in items {
        write_value(out, numbers, spelling, value)?;
    }
    Ok(())
}

/// The pairs of a dict, in their order.
fn write_pairs(
    out: &mut Items<u8>,
    numbers: &Numbers,
    spelling: &Spelling,
    dict: &Dict,
) -> Result<(), AllocError>
    ensures bytes { OnOk result (out.new ≡ out.old ++ flat_map (spec.spelled_pair (spells spelling.now)) (map (numbered_pair (number_in numbers.now.order)) dict.now)) }
    ensures plain { OnOk result (All IsPlainPair dict.now) }
{
    for index in 0..dict.len() {
        let (key, value) = dict.pair_at(index);
        write_key(out, spelling, key)?;
        write_value(out, numbers, spelling, value)?;
    }
    Ok(())
}

/// A list or a tuple, after the byte that says which.
fn write_sequence(
    out: &mut Items<u8>,
    numbers: &Numbers,
    spelling: &Spelling,
    tag: u8,
    items: &Items<Value>,
) -> Result<(), AllocError>
    ensures bytes { OnOk result (out.new ≡ out.old ++ spec.spelled_sequence (spells spelling.now) tag (map (numbered (number_in numbers.now.order)) items.now)) }
    ensures few { OnOk result (length items.now < 2 ^ 32) }
    ensures plain { OnOk result (All IsPlain items.now) }
{
    out.push(tag)?;
    write_count(out, items.len())?;
    write_items(out, numbers, spelling, items.as_slice())
}

fn write_dict(
    out: &mut Items<u8>,
    numbers: &Numbers,
    spelling: &Spelling,
    dict: &Dict,
) -> Result<(), AllocError>
    ensures bytes { OnOk result (out.new ≡ out.old ++ spec.spelled_object (spells spelling.now) (numbered_object (number_in numbers.now.order) (Object.Dict dict.now))) }
    ensures plain { OnOk result (IsPlainObject (Object.Dict dict.now)) }
{
    out.push(tag::DICT)?;
    write_count(out, dict.len())?;
    write_pairs(out, numbers, spelling, dict)
}

/// A function, as its source.
fn write_function(
    out: &mut Items<u8>,
    spelling: &Spelling,
    function: &Function,
) -> Result<(), AllocError>
    ensures bytes { OnOk result (out.new ≡ out.old ++ spec.spelled_object (spells spelling.now) (Object.Function function.now)) }
    ensures plain { OnOk result (IsPlainObject (Object.Function function.now)) }
{
    out.push(tag::FUNCTION)?;
    let def = function.def();
    write_spelled(out, spelling, def.source.as_str())
}

/// An object. A handle has no bytes.
fn write_object(
    out: &mut Items<u8>,
    numbers: &Numbers,
    spelling: &Spelling,
    object: &Object,
) -> Result<(), AllocError>
    ensures bytes { OnOk result (out.new ≡ out.old ++ spec.spelled_object (spells spelling.now) (numbered_object (number_in numbers.now.order) object.now)) }
    ensures plain { OnOk result (IsPlainObject object.now) }
{
    match object {
        Object::List(items) => write_sequence(out, numbers, spelling, tag::LIST, items),
        Object::Tuple(items) => write_sequence(out, numbers, spelling, tag::TUPLE, items),
        Object::Dict(dict) => write_dict(out, numbers, spelling, dict),
        Object::Function(function) => write_function(out, spelling, function),
        Object::Handle { .. } => Ok(()),
    }
}

/// The objects, in their order.
pub(crate) fn write_objects(
    out: &mut Items<u8>,
    numbers: &Numbers,
    spelling: &Spelling,
    state: &State,
) -> Result<(), AllocError>
    requires { AreLive state.now.heap numbers.now.order }
    ensures bytes { OnOk result (out.new ≡ out.old ++ flat_map (spec.spelled_object (spells spelling.now)) (flat_map (objects_of state.now (number_in numbers.now.order)) numbers.now.order)) }
    ensures plain { OnOk result (All (IsPlainAt state.now) numbers.now.order) }
{
    for at in numbers.order.as_slice() {
        write_object(out, numbers, spelling, state.get(*at))?;
    }
    Ok(())
}
