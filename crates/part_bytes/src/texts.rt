//! The texts of a part, put into a table in the order in which its bytes refer to them.

ghost use Rattle.std.specs.Prelude.{◌≡◌, OnOk};
ghost use Rattle.std.specs.List.{flat_map};
ghost use Rattle.py_value.specs.Keys.{value_of};
ghost use Rattle.py_heap.specs.References.{AreLive, IsClosed};
ghost use Rattle.part_bytes.specs.Gathering.{held_texts_at, object_texts_at};
ghost use Rattle.part_bytes.specs.Tables.{with_texts};
ghost use Rattle.part_bytes.specs.Uses as spec;

use crate::table::TextTable;
use plain_data::Text;
use py_heap::{Dict, Object, State};
use py_value::{Key, Value};
use std::alloc::{AllocError, Global};

// After an error the table may have some of the texts, and is only dropped.

/// A value, if it is a text.
fn add_value<'a>(texts: &mut TextTable<'a>, value: &'a Value) -> Result<(), AllocError>
    ensures { OnOk result (texts.new ≡ with_texts texts.old (spec.value_texts value.now)) }
{
    if let Value::Text(text) = value {
        texts.number(text.as_str())?;
    }
    Ok(())
}

/// A key, if it is a text.
fn add_key<'a>(texts: &mut TextTable<'a>, key: &'a Key) -> Result<(), AllocError>
    ensures { OnOk result (texts.new ≡ with_texts texts.old (spec.value_texts (value_of key.now))) }
{
    if let Key::Text(text) = key {
        texts.number(text.as_str())?;
    }
    Ok(())
}

fn add_values<'a>(texts: &mut TextTable<'a>, values: &'a [Value]) -> Result<(), AllocError>
    ensures { OnOk result (texts.new ≡ with_texts texts.old (flat_map spec.value_texts values.now)) }
{
    for value in values {
        add_value(texts, value)?;
    }
    Ok(())
}

fn add_pairs<'a>(texts: &mut TextTable<'a>, dict: &'a Dict) -> Result<(), AllocError>
    ensures { OnOk result (texts.new ≡ with_texts texts.old (flat_map spec.pair_texts dict.now)) }
{
    for index in 0..dict.len() {
        let (key, value) = dict.pair_at(index);
        add_key(texts, key)?;
        add_value(texts, value)?;
    }
    Ok(())
}

fn add_object<'a>(texts: &mut TextTable<'a>, object: &'a Object) -> Result<(), AllocError>
    ensures { OnOk result (texts.new ≡ with_texts texts.old (spec.object_texts object.now)) }
{
    match object {
        Object::List(items) | Object::Tuple(items) => add_values(texts, items.as_slice()),
        Object::Dict(dict) => add_pairs(texts, dict),
        Object::Function(function) => {
            let def = function.def();
            texts.number(def.source.as_str())?;
            Ok(())
        }
        Object::Handle { .. } => Ok(()),
    }
}

/// The objects at these addresses.
fn add_objects<'a>(
    texts: &mut TextTable<'a>,
    state: &'a State,
    found: &[u32],
) -> Result<(), AllocError>
    requires { AreLive state.now.heap found.now }
    ensures { OnOk result (texts.new ≡ with_texts texts.old (flat_map (object_texts_at state.now) found.now)) }
{
    for at in found {
        add_object(texts, state.get(*at))?;
    }
    Ok(())
}

/// What a name has.
fn add_held<'a>(texts: &mut TextTable<'a>, state: &'a State, name: &Text) -> Result<(), AllocError>
    ensures { OnOk result (texts.new ≡ with_texts texts.old (held_texts_at state.now name.now)) }
{
    match state.look(name) {
        Some(value) => add_value(texts, value),
        None => Ok(()),
    }
}

/// What each of the names has.
fn add_all_held<'a>(
    texts: &mut TextTable<'a>,
    state: &'a State,
    names: &[Text],
) -> Result<(), AllocError>
    ensures { OnOk result (texts.new ≡ with_texts texts.old (flat_map (held_texts_at state.now) names.now)) }
{
    for name in names {
        add_held(texts, state, name)?;
    }
    Ok(())
}

/// Puts the texts of the part of a state with these names into the table, in the order in which the bytes of the part refer to them. Writes
/// nothing. After an error the table may have gained texts, and is only dropped.
pub fn add_part_texts<'a>(
    alloc: Global,
    state: &'a State,
    names: &[Text],
    texts: &mut TextTable<'a>,
) -> Result<(), AllocError>
    requires { IsClosed state.now }
    ensures { OnOk result (texts.new ≡ with_texts texts.old (spec.part_texts state.now names.now)) }
{
    let found = state.reach(alloc, names)?;
    add_all_held(texts, state, names)?;
    add_objects(texts, state, found.as_slice())?;
    Ok(())
}
