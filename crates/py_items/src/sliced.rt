ghost use Rattle.std.specs.Prelude.{◌≡◌, ◌≤◌, length, slice_get, slice_range, IfOk};
ghost use Rattle.std.specs.Str.{chars, encode_utf8_all};
ghost use Rattle.py_machine.specs.Runs.{Still};
ghost use Rattle.py_meaning.specs.Acts.{run};
ghost use Rattle.py_meaning.specs.Items as spec;

use crate::indexed::not_indexed;
use crate::positions::clipped;
use plain_data::{Items, SharedText, Text};
use py_heap::{Object, SequenceKind};
use py_machine::{Fault, Machine, ValueKind, not_an_index, not_subscriptable};
use py_ops::{as_number, by_sign, copy_items, joined, made_text};
use py_value::Value;
use std::alloc::{AllocError, Global};

/// The number of a bound that is there.
fn bound(alloc: Global, machine: &Machine, bound: &Option<Value>) -> Result<Option<i128>, Fault>
    ensures { Still (run (spec.bound bound.now)) machine.now result machine.now }
{
    match bound {
        None => Ok(None),
        Some(value) => match as_number(value) {
            Some(number) => Ok(Some(number)),
            None => Err(Fault::Raised(not_an_index(alloc)?)),
        },
    }
}

fn from_position(count: usize, bound: &Option<i128>) -> usize
    ensures value { result ≡ spec.from_position count bound.now }
    ensures within { result ≤ count }
{
    match bound {
        None => 0,
        Some(number) => clipped(count, by_sign(number)),
    }
}

fn to_position(count: usize, bound: &Option<i128>) -> usize
    ensures value { result ≡ spec.to_position count bound.now }
    ensures within { result ≤ count }
{
    match bound {
        None => count,
        Some(number) => clipped(count, by_sign(number)),
    }
}

/// The characters from one position up to another, or none.
fn characters(text: &SharedText, from: usize, to: usize) -> &str
    requires { to ≤ length (chars text.now) }
    ensures { result.now ≡ encode_utf8_all (slice_range (chars text.now) from to) }
{
    if from <= to {
        text.slice_chars(from, to)
    } else {
        ""
    }
}

fn cut_text(
    alloc: Global,
    text: &SharedText,
    from: &Option<i128>,
    to: &Option<i128>,
) -> Result<Text, AllocError>
    ensures { IfOk result (λ cut. cut ≡ encode_utf8_all (spec.cut (chars text.now) from.now to.now)) }
{
    let count = text.len_chars();
    let from = from_position(count, from);
    let to = to_position(count, to);
    Text::new(alloc, characters(text, from, to))
}

#[tactic(auto, unfolding(py_meaning::specs::Items::text_sliced))]
fn text_sliced(
    alloc: Global,
    machine: &mut Machine,
    text: &SharedText,
    from: &Option<Value>,
    to: &Option<Value>,
) -> Result<Value, Fault>
    ensures runs { Still (run (spec.text_sliced text.now from.now to.now)) machine.old result machine.new }
    ensures drawn { machine.new.drawn ≡ machine.old.drawn }
{
    let from = bound(alloc, machine, from)?;
    let to = bound(alloc, machine, to)?;
    let slice = cut_text(alloc, text, &from, &to)?;
    made_text(alloc, machine, slice)
}

/// The items from one position up to another, or none.
fn range(items: &[Value], from: usize, to: usize) -> &[Value]
    requires { to ≤ length items.now }
    ensures { result.now ≡ slice_range items.now from to }
{
    if from <= to { &items[from..to] } else { &[] }
}

fn cut_items(
    alloc: Global,
    items: &Items<Value>,
    from: &Option<i128>,
    to: &Option<i128>,
) -> Result<Items<Value>, AllocError>
    ensures { IfOk result (λ cut. cut ≡ spec.cut items.now from.now to.now) }
{
    let count = items.len();
    let from = from_position(count, from);
    let to = to_position(count, to);
    copy_items(alloc, range(items.as_slice(), from, to))
}

#[tactic(auto, unfolding(py_meaning::specs::Items::sequence_sliced))]
fn ref_sliced(
    alloc: Global,
    machine: &mut Machine,
    address: u32,
    from: &Option<Value>,
    to: &Option<Value>,
) -> Result<Value, Fault>
    ensures runs { Still (run (spec.object_sliced from.now to.now (slice_get machine.old.state.heap address))) machine.old result machine.new }
    ensures drawn { machine.new.drawn ≡ machine.old.drawn }
{
    match machine.object_at(address) {
        Some(Object::List(items)) => {
            let from = bound(alloc, machine, from)?;
            let to = bound(alloc, machine, to)?;
            let slice = cut_items(alloc, items, &from, &to)?;
            joined(alloc, machine, SequenceKind::List, slice)
        }
        Some(Object::Tuple(items)) => {
            let from = bound(alloc, machine, from)?;
            let to = bound(alloc, machine, to)?;
            let slice = cut_items(alloc, items, &from, &to)?;
            joined(alloc, machine, SequenceKind::Tuple, slice)
        }
        Some(Object::Dict(_)) => Err(Fault::Raised(not_subscriptable(alloc, ValueKind::Dict)?)),
        Some(Object::Function(_)) => {
            Err(Fault::Raised(not_subscriptable(alloc, ValueKind::Function)?))
        }
        Some(Object::Handle { .. }) => {
            Err(Fault::Raised(not_subscriptable(alloc, ValueKind::Handle)?))
        }
        None => Err(Fault::Raised(not_subscriptable(alloc, ValueKind::Nothing)?)),
    }
}

/// The slice of a list or a tuple, as a new one, or of a text from one position up to another. A bound that is `None` is the start or the
/// end; one below 0 counts from the end, and one past an end is that end. A TypeError at a value that has no slices and at a
/// bound that is no number; a MemoryError if the meter has no room. (Python reference: slicings.)
#[tactic(auto, unfolding(py_meaning::specs::Items::sliced, py_machine::specs::Runs::object_at))]
pub fn slice(
    alloc: Global,
    machine: &mut Machine,
    container: &Value,
    from: &Option<Value>,
    to: &Option<Value>,
) -> Result<Value, Fault>
    ensures runs { Still (run (spec.sliced container.now from.now to.now)) machine.old result machine.new }
    ensures drawn { machine.new.drawn ≡ machine.old.drawn }
{
    match container {
        Value::Text(text) => text_sliced(alloc, machine, text, from, to),
        Value::Ref(address) => ref_sliced(alloc, machine, *address, from, to),
        Value::Nothing | Value::Bool(_) | Value::Number(_) | Value::Builtin(_) => {
            not_indexed(alloc, machine, container)
        }
    }
}
