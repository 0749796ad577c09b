ghost use Rattle.std.specs.Prelude.{◌≡◌, ◌<◌, ◌≤◌, ◌^◌, length, IfOk, MatchOption, SomeIff};
ghost use Rattle.py_machine.specs.Runs.{Is, Still, charge as meter_charge};
ghost use Rattle.py_meaning.specs.Acts.{run};
ghost use Rattle.py_meaning.specs.Operators.{joined as new_list, sequence_units};
ghost use Rattle.py_meaning.specs.Texts.{split_at};
ghost use Rattle.py_meaning.specs.Methods as spec;

use plain_data::{Items, SharedText};
use py_heap::{METER_LIMIT, SequenceKind};
use py_machine::{Fault, MAX_STEPS, Machine, empty_separator, memory_error, wrong_argument};
use py_ops::{joined, made, take_steps};
use py_value::Value;
use std::alloc::{AllocError, Global};

/// These units, if the meter's limit has room for them.
fn within(units: u128) -> Option<u64>
    ensures { SomeIff result (units ≤ METER_LIMIT) units }
{
    if units <= u128::from(METER_LIMIT) {
        Some(units as u64)
    } else {
        None
    }
}

/// How many bytes a text has.
fn bytes(text: &str) -> u128
    ensures value { result ≡ length text.now }
    ensures bound { result < 2 ^ 64 }
{
    text.len() as u128
}

/// The units of a list of the pieces of a text, if the meter's limit has room for them.
fn units_of(text: &str, separator: &str) -> Option<u64>
    requires { 0 < length separator.now }
    ensures { SomeIff result (sequence_units (spec.as_texts (split_at separator.now text.entry.now)) ≤ METER_LIMIT) (sequence_units (spec.as_texts (split_at separator.now text.entry.now))) }
{
    let mut units: u128 = 1;
    let mut rest = text;
    while let Some((piece, more)) = rest.split_once(separator) {
        if units > u128::from(METER_LIMIT) {
            return None;
        }
        let size = bytes(piece);
        units += 1 + size;
        rest = more;
    }
    let last = bytes(rest);
    within(units + 1 + last)
}

/// The charge of a list of the pieces of a text.
#[tactic(auto, unfolding(py_machine::specs::Runs::charge))]
fn charge_pieces(
    alloc: Global,
    machine: &mut Machine,
    text: &str,
    separator: &str,
) -> Result<(), Fault>
    requires { 0 < length separator.now }
    ensures runs { Is (meter_charge (sequence_units (spec.as_texts (split_at separator.now text.now))) machine.old) result machine.new }
    ensures drawn { machine.new.drawn ≡ machine.old.drawn }
{
    match units_of(text, separator) {
        Some(units) => machine.charge(alloc, units),
        None => Err(Fault::Raised(memory_error(alloc)?)),
    }
}

/// How many pieces a text has.
fn count_of(text: &str, separator: &str) -> usize
    requires { 0 < length separator.now }
    ensures { result ≡ length (spec.as_texts (split_at separator.now text.entry.now)) }
{
    let mut count = 1;
    let mut rest = text;
    while let Some((_, more)) = rest.split_once(separator) {
        count += 1;
        rest = more;
    }
    count
}

/// The pieces of a text between the occurrences of a separator, if they are at most `most`. Else what was made is dropped.
fn pieces(
    alloc: Global,
    text: &str,
    separator: &str,
    most: usize,
) -> Result<Option<Items<Value>>, AllocError>
    requires { 0 < length separator.now }
    ensures { IfOk result (λ found. MatchOption found (most < length (spec.as_texts (split_at separator.now text.entry.now))) (λ all. all ≡ spec.as_texts (split_at separator.now text.entry.now))) }
{
    let mut all = Items::new(alloc);
    let mut rest = text;
    while let Some((piece, more)) = rest.split_once(separator) {
        if all.len() >= most {
            return Ok(None);
        }
        all.push(Value::Text(SharedText::from_str(alloc, piece)?))?;
        rest = more;
    }
    if all.len() >= most {
        return Ok(None);
    }
    all.push(Value::Text(SharedText::from_str(alloc, rest)?))?;
    Ok(Some(all))
}

/// A new list of the pieces of a text. Its charge and its steps come before it is made.
#[tactic(auto, unfolding(py_meaning::specs::Operators::joined))]
fn split_into_many(
    alloc: Global,
    machine: &mut Machine,
    text: &str,
    separator: &str,
) -> Result<Value, Fault>
    requires { 0 < length separator.now }
    ensures runs { Still (run (new_list SequenceKind.List (spec.as_texts (split_at separator.now text.now)))) machine.old result machine.new }
    ensures drawn { machine.new.drawn ≡ machine.old.drawn }
{
    charge_pieces(alloc, machine, text, separator)?;
    let count = count_of(text, separator);
    take_steps(alloc, machine, count)?;
    match pieces(alloc, text, separator, count)? {
        Some(all) => made(machine, SequenceKind::List, all),
        None => unreachable!(),
    }
}

/// A new list of the pieces of a text. If the cell has a step left for each, one pass finds them; else they are counted
/// first.
fn split_text(
    alloc: Global,
    machine: &mut Machine,
    text: &str,
    separator: &str,
) -> Result<Value, Fault>
    requires { 0 < length separator.now }
    ensures runs { Still (run (new_list SequenceKind.List (spec.as_texts (split_at separator.now text.now)))) machine.old result machine.new }
    ensures drawn { machine.new.drawn ≡ machine.old.drawn }
{
    let left = MAX_STEPS.saturating_sub(machine.steps);
    match pieces(alloc, text, separator, left as usize)? {
        Some(all) => joined(alloc, machine, SequenceKind::List, all),
        None => split_into_many(alloc, machine, text, separator),
    }
}

/// A new list of the pieces of a text between the occurrences of a separator.
pub(crate) fn split(
    alloc: Global,
    machine: &mut Machine,
    text: &SharedText,
    separator: &Value,
) -> Result<Value, Fault>
    ensures runs { Still (run (spec.split text.now separator.now)) machine.old result machine.new }
    ensures drawn { machine.new.drawn ≡ machine.old.drawn }
{
    match separator {
        Value::Text(separator) => {
            if separator.is_empty() {
                return Err(Fault::Raised(empty_separator(alloc)?));
            }
            split_text(alloc, machine, text.as_str(), separator.as_str())
        }
        Value::Nothing | Value::Bool(_) | Value::Number(_) | Value::Ref(_) | Value::Builtin(_) =>
            Err(Fault::Raised(wrong_argument(alloc, "split")?)),
    }
}
