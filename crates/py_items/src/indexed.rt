ghost use Rattle.std.specs.Prelude.{◌≡◌, slice_get};
ghost use Rattle.py_machine.specs.Runs.{Still};
ghost use Rattle.py_meaning.specs.Acts.{run};
ghost use Rattle.py_meaning.specs.Numbers.{as_number};
ghost use Rattle.py_meaning.specs.Items as spec;

use crate::positions::{item_at, position_in};
use plain_data::{Items, SharedText, Text};
use py_heap::{Dict, Object, SequenceKind};
use py_machine::{
    Fault, Machine, ValueKind, no_index, no_key, no_text_index, not_an_index, not_subscriptable,
};
use py_ops::{keyed, kind_of, made_text, sign_of};
use py_value::{Value, key_text};
use std::alloc::Global;

fn sequence_indexed(
    alloc: Global,
    machine: &Machine,
    kind: SequenceKind,
    items: &Items<Value>,
    at: &Value,
) -> Result<Value, Fault>
    ensures { Still (run (spec.sequence_indexed kind items.now (as_number at.now))) machine.now result machine.now }
{
    match sign_of(at) {
        Some(index) => match item_at(items, index) {
            Some(item) => Ok(item.copy()?),
            None => Err(Fault::Raised(no_index(alloc, kind)?)),
        },
        None => Err(Fault::Raised(not_an_index(alloc)?)),
    }
}

#[tactic(auto, unfolding(py_meaning::specs::Items::dict_indexed))]
fn dict_indexed(alloc: Global, machine: &Machine, pairs: &Dict, at: &Value) -> Result<Value, Fault>
    ensures { Still (run (spec.dict_indexed pairs.now at.now)) machine.now result machine.now }
{
    let key = keyed(alloc, machine, at)?;
    match pairs.get(&key) {
        Some(value) => Ok(value.copy()?),
        None => Err(Fault::Raised(no_key(alloc, key_text(alloc, &key)?)?)),
    }
}

fn object_indexed(
    alloc: Global,
    machine: &Machine,
    address: u32,
    at: &Value,
) -> Result<Value, Fault>
    ensures { Still (run (spec.object_indexed at.now (slice_get machine.now.state.heap address))) machine.now result machine.now }
{
    match machine.object_at(address) {
        Some(Object::List(items)) => {
            sequence_indexed(alloc, machine, SequenceKind::List, items, at)
        }
        Some(Object::Tuple(items)) => {
            sequence_indexed(alloc, machine, SequenceKind::Tuple, items, at)
        }
        Some(Object::Dict(pairs)) => dict_indexed(alloc, machine, pairs, at),
        Some(Object::Function(_)) => {
            Err(Fault::Raised(not_subscriptable(alloc, ValueKind::Function)?))
        }
        Some(Object::Handle { .. }) => {
            Err(Fault::Raised(not_subscriptable(alloc, ValueKind::Handle)?))
        }
        None => Err(Fault::Raised(not_subscriptable(alloc, ValueKind::Nothing)?)),
    }
}

fn text_indexed(
    alloc: Global,
    machine: &mut Machine,
    text: &SharedText,
    at: &Value,
) -> Result<Value, Fault>
    ensures runs { Still (run (spec.text_indexed text.now (as_number at.now))) machine.old result machine.new }
    ensures drawn { machine.new.drawn ≡ machine.old.drawn }
{
    match sign_of(at) {
        Some(index) => match position_in(text.len_chars(), index) {
            Some(position) => {
                let character = Text::new(alloc, text.char_at(position))?;
                made_text(alloc, machine, character)
            }
            None => Err(Fault::Raised(no_text_index(alloc)?)),
        },
        None => Err(Fault::Raised(not_an_index(alloc)?)),
    }
}

/// The error of an index or a slice of a value without items.
#[tactic(auto, unfolding(py_meaning::specs::Items::not_indexed))]
pub(crate) fn not_indexed(alloc: Global, machine: &Machine, value: &Value) -> Result<Value, Fault>
    ensures { Still (run (spec.not_indexed value.now)) machine.now result machine.now }
{
    let kind = kind_of(machine, value)?;
    Err(Fault::Raised(not_subscriptable(alloc, kind)?))
}

/// What a value holds at an index or under a key: an item of a list or a tuple, a value of a dict, or a character of a text, which is a text
/// and charged by its bytes. A number below 0 counts from the end. An IndexError past the ends, a KeyError at a key that isn't
/// there, and a TypeError at a value that holds nothing, at an index that is no number, and at a key that is none. A MemoryError
/// if the meter has no room for a character. (Python reference: subscriptions.)
#[tactic(auto, unfolding(py_meaning::specs::Items::indexed, py_machine::specs::Runs::object_at))]
pub fn index(
    alloc: Global,
    machine: &mut Machine,
    container: &Value,
    at: &Value,
) -> Result<Value, Fault>
    ensures runs { Still (run (spec.indexed container.now at.now)) machine.old result machine.new }
    ensures drawn { machine.new.drawn ≡ machine.old.drawn }
{
    match container {
        Value::Text(text) => text_indexed(alloc, machine, text, at),
        Value::Ref(address) => object_indexed(alloc, machine, *address, at),
        Value::Nothing | Value::Bool(_) | Value::Number(_) | Value::Builtin(_) => {
            not_indexed(alloc, machine, container)
        }
    }
}
