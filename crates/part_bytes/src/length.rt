ghost use Rattle.std.specs.Prelude.{◌≡◌, ◌+◌, ◌<◌, ◌^◌, length, IfOk, SomeIff};
ghost use Rattle.std.specs.List.{flat_map};
ghost use Rattle.py_value.specs.Keys.{value_of};
ghost use Rattle.py_heap.specs.References.{AreLive, IsClosed};
ghost use Rattle.part_bytes.specs.Lengths.{Adds, held_at, object_at};
ghost use Rattle.part_bytes.specs.Parts.{order};
ghost use Rattle.part_bytes.specs.Texts as spec;
ghost use Rattle.part_bytes.specs.Texts.{part_text};

use crate::part::PartValue;
use plain_data::{Items, Text};
use py_heap::{Dict, Function, Object, State};
use py_value::{Key, Value};
use std::alloc::{AllocError, Global};

/// The byte that says what is next.
const TAG: usize = 1;
/// A count, and the number of an object.
const COUNT: usize = 4;
/// A number of the language.
const NUMBER: usize = 16;
/// A built-in function.
const BUILTIN: usize = 1;
/// The length of a name.
const NAME_LENGTH: usize = 1;

// Each function that adds to a total answers None if that would be 2^32 or more.

/// Adds so many bytes to a total.
fn add(total: u32, more: usize) -> Option<u32>
    ensures { SomeIff result (total + more < 2 ^ 32) (total + more) }
{
    total.checked_add(u32::try_from(more).ok()?)
}

/// The length of a text with the byte that says so and its own length before it.
#[tactic(auto, using(crate::proofs::Lengths::lengths))]
fn text_len(text: &str) -> usize
    ensures { result ≡ 1 + length (spec.text_bytes text.now) }
{
    TAG + COUNT + text.len()
}

/// The length of a key, as the value that it is.
#[tactic(auto, using(crate::proofs::Lengths::lengths))]
fn key_len(key: &Key) -> usize
    ensures { result ≡ length (spec.value_bytes (value_of key.now)) }
{
    match key {
        Key::Nothing => TAG,
        Key::Bool(_) => TAG,
        Key::Number(_) => TAG + NUMBER,
        Key::Text(text) => text_len(text.as_str()),
    }
}

/// The length of a value. A reference has the length of any number of an object, so its object's own isn't needed.
#[tactic(auto, using(crate::proofs::Lengths::lengths))]
fn value_len(value: &Value) -> usize
    ensures { result ≡ length (spec.value_bytes value.now) }
{
    match value {
        Value::Nothing => TAG,
        Value::Bool(_) => TAG,
        Value::Number(_) => TAG + NUMBER,
        Value::Text(text) => text_len(text.as_str()),
        Value::Ref(_) => TAG + COUNT,
        Value::Builtin(_) => TAG + BUILTIN,
    }
}

/// Adds the items of a list or a tuple.
fn add_items(mut total: u32, items: &[Value]) -> Option<u32>
    ensures { Adds total (flat_map spec.value_bytes items.now) result }
{
    for value in items {
        total = add(total, value_len(value))?;
    }
    Some(total)
}

/// Adds the pairs of a dict.
fn add_pairs(mut total: u32, dict: &Dict) -> Option<u32>
    ensures { Adds total (flat_map spec.pair_bytes dict.now) result }
{
    for index in 0..dict.len() {
        let (key, value) = dict.pair_at(index);
        let keyed = add(total, key_len(key))?;
        total = add(keyed, value_len(value))?;
    }
    Some(total)
}

/// Adds a list, or a tuple, which is as long.
fn add_sequence(total: u32, items: &Items<Value>) -> Option<u32>
    ensures { Adds total (spec.object_bytes (Object.List items.now)) result }
{
    let counted = add(total, TAG + COUNT)?;
    add_items(counted, items.as_slice())
}

/// Adds a dict.
fn add_dict(total: u32, dict: &Dict) -> Option<u32>
    ensures { Adds total (spec.object_bytes (Object.Dict dict.now)) result }
{
    let counted = add(total, TAG + COUNT)?;
    add_pairs(counted, dict)
}

/// Adds a function, as its source.
#[tactic(auto, using(crate::proofs::Lengths::lengths))]
fn add_function(total: u32, function: &Function) -> Option<u32>
    ensures { Adds total (spec.object_bytes (Object.Function function.now)) result }
{
    let def = function.def();
    add(total, text_len(def.source.as_str()))
}

/// Adds an object. A handle has no bytes.
fn add_object(total: u32, object: &Object) -> Option<u32>
    ensures { Adds total (spec.object_bytes object.now) result }
{
    match object {
        Object::List(items) | Object::Tuple(items) => add_sequence(total, items),
        Object::Dict(dict) => add_dict(total, dict),
        Object::Function(function) => add_function(total, function),
        Object::Handle { .. } => Some(total),
    }
}

/// Adds the objects at these addresses.
fn add_objects(mut total: u32, state: &State, found: &[u32]) -> Option<u32>
    requires { AreLive state.now.heap found.now }
    ensures { Adds total (flat_map (object_at state.now) found.now) result }
{
    for at in found {
        total = add_object(total, state.get(*at))?;
    }
    Some(total)
}

/// Adds names, each after its length.
fn add_names(mut total: u32, names: &[Text]) -> Option<u32>
    ensures { Adds total (flat_map spec.name_bytes names.now) result }
{
    for name in names {
        let text = name.as_str();
        total = add(total, NAME_LENGTH + text.len())?;
    }
    Some(total)
}

/// The length of what a name has.
fn held_len(state: &State, name: &Text) -> usize
    ensures { result ≡ length (held_at state.now name.now) }
{
    match state.look(name) {
        Some(value) => value_len(value),
        None => TAG,
    }
}

/// Adds what each of the names has.
fn add_all_held(mut total: u32, state: &State, names: &[Text]) -> Option<u32>
    ensures { Adds total (flat_map (held_at state.now) names.now) result }
{
    for name in names {
        total = add(total, held_len(state, name))?;
    }
    Some(total)
}

/// The length of a part whose objects are at these addresses, in their order.
fn len_of(state: &State, names: &[Text], found: &[u32]) -> Option<u32>
    requires order { found.now ≡ order state.now names.now }
    requires live { AreLive state.now.heap found.now }
    ensures { SomeIff result (length (part_text state.now names.now) < 2 ^ 32) (length (part_text state.now names.now)) }
{
    let named = add_names(COUNT as u32, names)?;
    let held = add_all_held(named, state, names)?;
    let counted = add(held, COUNT)?;
    add_objects(counted, state, found)
}

/// The length of what a name has, or of no value.
fn option_len(held: &Option<Value>) -> usize
    ensures { result ≡ length (spec.held_bytes held.now) }
{
    match held {
        Some(value) => value_len(value),
        None => TAG,
    }
}

/// Adds what each of the names of a part has.
fn add_options(mut total: u32, values: &[Option<Value>]) -> Option<u32>
    ensures { Adds total (flat_map spec.held_bytes values.now) result }
{
    for held in values {
        total = add(total, option_len(held))?;
    }
    Some(total)
}

/// Adds the objects of a part.
fn add_part_objects(mut total: u32, objects: &[Object]) -> Option<u32>
    ensures { Adds total (flat_map spec.object_bytes objects.now) result }
{
    for object in objects {
        total = add_object(total, object)?;
    }
    Some(total)
}

/// The length in bytes of the text of a part in version 1, and None if it is 2^32 or more. Takes no memory, and time for each name, item and pair,
/// however long the texts are.
pub fn part_size(part: &PartValue) -> Option<u32>
    ensures { SomeIff result (length (spec.bytes_of part.now) < 2 ^ 32) (length (spec.bytes_of part.now)) }
{
    let named = add_names(COUNT as u32, part.names.as_slice())?;
    let held = add_options(named, part.values.as_slice())?;
    let counted = add(held, COUNT)?;
    add_part_objects(counted, part.objects.as_slice())
}

/// The length in bytes of the text of the part of a state with these names in version 1, and None if it is 2^32 or more.
///
/// The text isn't made: a text that a list refers to a thousand times is counted a thousand times and copied never. This takes
/// time for each object of the state and for each name, item and pair of the part, however long its texts are, and memory for a
/// mark at each object of the state and for the addresses that the names reach. Of a handle the text has nothing, as in
/// `write_part`. That call refuses a name of more than 255 bytes and a count of 2^32 or more; this one counts them, with the one
/// byte and the four bytes that the length of a name and a count take.
pub fn part_len(alloc: Global, state: &State, names: &[Text]) -> Result<Option<u32>, AllocError>
    requires { IsClosed state.now }
    ensures { IfOk result (λ found. SomeIff found (length (part_text state.now names.now) < 2 ^ 32) (length (part_text state.now names.now))) }
{
    let found = state.reach(alloc, names)?;
    Ok(len_of(state, names, found.as_slice()))
}
