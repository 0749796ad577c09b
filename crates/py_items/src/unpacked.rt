ghost use Rattle.std.specs.Prelude.{◌≡◌, encode_utf8, slice_get, IfOk};
ghost use Rattle.py_machine.specs.Runs.{Still};
ghost use Rattle.py_meaning.specs.Acts.{run, chain, pure};
ghost use Rattle.py_meaning.specs.Operators.{steps};
ghost use Rattle.py_meaning.specs.Unpacking as spec;

use plain_data::{Items, SharedText, Text};
use py_heap::{Dict, Object};
use py_machine::{Fault, Machine, ValueKind, not_unpacked, wrong_count};
use py_ops::{copy_items, kind_of, take_steps};
use py_value::Value;
use std::alloc::{AllocError, Global};

/// The keys of a dict.
fn keys_of(alloc: Global, pairs: &Dict) -> Result<Items<Value>, AllocError>
    ensures { IfOk result (λ keys. keys ≡ spec.keys_of pairs.now) }
{
    let mut keys = Items::new(alloc);
    for index in 0..pairs.len() {
        let (key, _) = pairs.pair_at(index);
        keys.push(key.value()?)?;
    }
    Ok(keys)
}

/// A text of one character.
fn text_of(alloc: Global, character: char) -> Result<SharedText, AllocError>
    ensures { IfOk result (λ text. text ≡ encode_utf8 character) }
{
    let text = format!(in alloc; "{character}")?;
    SharedText::new(alloc, Text::from_string(text))
}

/// The characters of a text.
fn characters_of(alloc: Global, text: &SharedText) -> Result<Items<Value>, AllocError>
    ensures { IfOk result (λ characters. characters ≡ spec.characters_of text.now) }
{
    let mut characters = Items::new(alloc);
    for character in text.as_str().chars() {
        characters.push(Value::Text(text_of(alloc, character)?))?;
    }
    Ok(characters)
}

/// Takes a step for each of `count` values, and gives them.
fn taken(
    alloc: Global,
    machine: &mut Machine,
    count: usize,
    values: Items<Value>,
) -> Result<Items<Value>, Fault>
    ensures runs { Still (run (chain (steps count) (λ _. pure values))) machine.old result machine.new }
    ensures drawn { machine.new.drawn ≡ machine.old.drawn }
{
    take_steps(alloc, machine, count)?;
    Ok(values)
}

/// Unpacks a text. Its characters are counted before they are copied.
#[tactic(auto, unfolding(py_meaning::specs::Unpacking::counted))]
fn text_unpacked(
    alloc: Global,
    machine: &mut Machine,
    count: usize,
    text: &SharedText,
) -> Result<Items<Value>, Fault>
    ensures runs { Still (run (spec.counted count (spec.characters_of text.now))) machine.old result machine.new }
    ensures drawn { machine.new.drawn ≡ machine.old.drawn }
{
    let found = text.len_chars();
    if found != count {
        return Err(Fault::Raised(wrong_count(alloc, count, found)?));
    }
    let values = characters_of(alloc, text)?;
    taken(alloc, machine, count, values)
}

/// Unpacks the object at an address. What it holds is counted before it is copied.
#[tactic(auto, unfolding(py_meaning::specs::Unpacking::counted))]
fn object_unpacked(
    alloc: Global,
    machine: &mut Machine,
    count: usize,
    at: u32,
) -> Result<Items<Value>, Fault>
    ensures runs { Still (run (spec.object_unpacked count (slice_get machine.old.state.heap at))) machine.old result machine.new }
    ensures drawn { machine.new.drawn ≡ machine.old.drawn }
{
    match machine.object_at(at) {
        Some(Object::List(items) | Object::Tuple(items)) => {
            let found = items.len();
            if found != count {
                return Err(Fault::Raised(wrong_count(alloc, count, found)?));
            }
            let values = copy_items(alloc, items.as_slice())?;
            taken(alloc, machine, count, values)
        }
        Some(Object::Dict(pairs)) => {
            let found = pairs.len();
            if found != count {
                return Err(Fault::Raised(wrong_count(alloc, count, found)?));
            }
            let values = keys_of(alloc, pairs)?;
            taken(alloc, machine, count, values)
        }
        Some(Object::Function(_)) => Err(Fault::Raised(not_unpacked(alloc, ValueKind::Function)?)),
        Some(Object::Handle { .. }) => Err(Fault::Raised(not_unpacked(alloc, ValueKind::Handle)?)),
        None => Err(Fault::Raised(not_unpacked(alloc, ValueKind::Nothing)?)),
    }
}

#[tactic(auto, unfolding(py_meaning::specs::Unpacking::nothing_unpacked))]
fn nothing_unpacked(alloc: Global, machine: &Machine, value: &Value) -> Result<Items<Value>, Fault>
    ensures { Still (run (spec.nothing_unpacked value.now)) machine.now result machine.now }
{
    let kind = kind_of(machine, value)?;
    Err(Fault::Raised(not_unpacked(alloc, kind)?))
}

/// What a value is unpacked into for `count` targets: the items of a list or a tuple, the keys of a dict, the characters of a
/// text, with a step for each. A ValueError if there are more or fewer, and a TypeError at any other value. (Python reference:
/// assignment statements.)
#[tactic(auto, unfolding(py_meaning::specs::Unpacking::unpacked, py_machine::specs::Runs::object_at))]
pub fn unpack(
    alloc: Global,
    machine: &mut Machine,
    count: usize,
    value: &Value,
) -> Result<Items<Value>, Fault>
    ensures runs { Still (run (spec.unpacked count value.now)) machine.old result machine.new }
    ensures drawn { machine.new.drawn ≡ machine.old.drawn }
{
    match value {
        Value::Text(text) => text_unpacked(alloc, machine, count, text),
        Value::Ref(at) => object_unpacked(alloc, machine, count, *at),
        Value::Nothing | Value::Bool(_) | Value::Number(_) | Value::Builtin(_) => {
            nothing_unpacked(alloc, machine, value)
        }
    }
}
