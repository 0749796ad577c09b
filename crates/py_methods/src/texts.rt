ghost use Rattle.std.specs.Prelude.{◌≡◌, ◌≤◌, ◌++◌, length, slice_get, IfOk, SomeIff};
ghost use Rattle.std.specs.List.{flat_map, join_by};
ghost use Rattle.py_machine.specs.Changes.{list_in};
ghost use Rattle.py_machine.specs.Runs.{Is, Still, charge as meter_charge};
ghost use Rattle.py_meaning.specs.Acts.{run};
ghost use Rattle.py_meaning.specs.Methods as spec;

use plain_data::{Items, SharedText, Text};
use py_heap::{METER_LIMIT, Object};
use py_machine::{Fault, Machine, memory_error, wrong_argument};
use py_ops::{begins, ends};
use py_value::Value;
use std::alloc::{AllocError, Global};

/// The texts of values, if all are texts. None of their bytes is copied.
#[tactic(auto, using(crate::proofs::Together::one_text_more))]
fn texts_of(alloc: Global, items: &[Value]) -> Result<Option<Items<SharedText>>, AllocError>
    ensures { IfOk result (λ texts. texts ≡ spec.texts_of items.now) }
{
    let mut texts = Items::new(alloc);
    for item in items {
        match item {
            Value::Text(text) => texts.push(text.share()?)?,
            Value::Nothing
            | Value::Bool(_)
            | Value::Number(_)
            | Value::Ref(_)
            | Value::Builtin(_) => return Ok(None),
        }
    }
    Ok(Some(texts))
}

/// How many bytes texts have with another between them, if the meter's limit has room for them.
fn joined_len(between: &str, texts: &[SharedText]) -> Option<u64>
    ensures { SomeIff result (length (join_by (λ text. text) between.now texts.now) ≤ METER_LIMIT) (length (join_by (λ text. text) between.now texts.now)) }
{
    match texts {
        [first, more @ ..] => more_len(between, first.as_str(), more),
        [] => Some(0),
    }
}

/// The same for a first text and those after it.
#[tactic(auto, using(crate::proofs::Together::lengths))]
fn more_len(between: &str, first: &str, more: &[SharedText]) -> Option<u64>
    ensures { SomeIff result (length (first.now ++ flat_map (λ text. between.now ++ text) more.entry.now) ≤ METER_LIMIT) (length (first.now ++ flat_map (λ text. between.now ++ text) more.entry.now)) }
{
    let limit = u128::from(METER_LIMIT);
    let mut units = first.len() as u128;
    let mut rest = more;
    while let [text, others @ ..] = rest {
        if units > limit {
            return None;
        }
        units += between.len() as u128 + text.as_str().len() as u128;
        rest = others;
    }
    if units > limit {
        return None;
    }
    Some(units as u64)
}

/// Texts with another between them.
fn joined(alloc: Global, between: &str, texts: &[SharedText]) -> Result<Text, AllocError>
    ensures { IfOk result (λ all. all ≡ join_by (λ text. text) between.now texts.now) }
{
    match texts {
        [first, more @ ..] => with_more(alloc, between, first.as_str(), more),
        [] => Text::new(alloc, ""),
    }
}

/// The same for a first text and those after it.
#[tactic(auto, using(crate::proofs::Together::grouped))]
fn with_more(
    alloc: Global,
    between: &str,
    first: &str,
    more: &[SharedText],
) -> Result<Text, AllocError>
    ensures { IfOk result (λ all. all ≡ first.now ++ flat_map (λ text. between.now ++ text) more.entry.now) }
{
    let mut all = Text::new(alloc, first)?;
    let mut rest = more;
    while let [text, others @ ..] = rest {
        all.push_str(between)?;
        all.push_str(text.as_str())?;
        rest = others;
    }
    Ok(all)
}

/// The charge of texts with another between them.
#[tactic(auto, unfolding(py_machine::specs::Runs::charge))]
fn charge_joined(
    alloc: Global,
    machine: &mut Machine,
    between: &str,
    texts: &[SharedText],
) -> Result<(), Fault>
    ensures runs { Is (meter_charge (length (join_by (λ text. text) between.now texts.now)) machine.old) result machine.new }
    ensures drawn { machine.new.drawn ≡ machine.old.drawn }
{
    match joined_len(between, texts) {
        Some(units) => machine.charge(alloc, units),
        None => Err(Fault::Raised(memory_error(alloc)?)),
    }
}

/// A text of texts with another between them. It is charged before it is made.
#[tactic(auto, unfolding(py_meaning::specs::Operators::made_text))]
fn texts_joined(
    alloc: Global,
    machine: &mut Machine,
    between: &str,
    texts: &Option<Items<SharedText>>,
) -> Result<Value, Fault>
    ensures runs { Still (run (spec.texts_joined between.now texts.now)) machine.old result machine.new }
    ensures drawn { machine.new.drawn ≡ machine.old.drawn }
{
    match texts {
        Some(texts) => {
            charge_joined(alloc, machine, between, texts.as_slice())?;
            let all = joined(alloc, between, texts.as_slice())?;
            Ok(Value::Text(SharedText::new(alloc, all)?))
        }
        None => Err(Fault::Raised(wrong_argument(alloc, "join")?)),
    }
}

/// The texts of the list at an address, if there is one and all its items are texts.
fn texts_at(
    alloc: Global,
    machine: &Machine,
    at: u32,
) -> Result<Option<Items<SharedText>>, AllocError>
    ensures { IfOk result (λ texts. texts ≡ spec.texts_in (list_in (slice_get machine.now.state.heap at))) }
{
    match machine.object_at(at) {
        Some(Object::List(items)) => texts_of(alloc, items.as_slice()),
        _ => Ok(None),
    }
}

#[tactic(auto, unfolding(py_meaning::specs::Methods::join_at, py_machine::specs::Runs::object_at))]
fn join_at(
    alloc: Global,
    machine: &mut Machine,
    between: &SharedText,
    at: u32,
) -> Result<Value, Fault>
    ensures runs { Still (run (spec.join_at between.now at)) machine.old result machine.new }
    ensures drawn { machine.new.drawn ≡ machine.old.drawn }
{
    let texts = texts_at(alloc, machine, at)?;
    texts_joined(alloc, machine, between.as_str(), &texts)
}

/// The texts of a list with this text between them.
pub(crate) fn join(
    alloc: Global,
    machine: &mut Machine,
    between: &SharedText,
    value: &Value,
) -> Result<Value, Fault>
    ensures runs { Still (run (spec.join between.now value.now)) machine.old result machine.new }
    ensures drawn { machine.new.drawn ≡ machine.old.drawn }
{
    match value {
        Value::Ref(at) => join_at(alloc, machine, between, *at),
        Value::Nothing | Value::Bool(_) | Value::Number(_) | Value::Text(_) | Value::Builtin(_) =>
            Err(Fault::Raised(wrong_argument(alloc, "join")?)),
    }
}

/// Whether a text begins with another.
pub(crate) fn starts_with(
    alloc: Global,
    machine: &Machine,
    text: &SharedText,
    piece: &Value,
) -> Result<Value, Fault>
    ensures { Still (run (spec.starts_with text.now piece.now)) machine.now result machine.now }
{
    match piece {
        Value::Text(piece) => Ok(Value::Bool(begins(piece.as_str(), text.as_str()))),
        Value::Nothing | Value::Bool(_) | Value::Number(_) | Value::Ref(_) | Value::Builtin(_) =>
            Err(Fault::Raised(wrong_argument(alloc, "startswith")?)),
    }
}

/// Whether a text ends with another.
pub(crate) fn ends_with(
    alloc: Global,
    machine: &Machine,
    text: &SharedText,
    piece: &Value,
) -> Result<Value, Fault>
    ensures { Still (run (spec.ends_with text.now piece.now)) machine.now result machine.now }
{
    match piece {
        Value::Text(piece) => Ok(Value::Bool(ends(piece.as_str(), text.as_str()))),
        Value::Nothing | Value::Bool(_) | Value::Number(_) | Value::Ref(_) | Value::Builtin(_) =>
            Err(Fault::Raised(wrong_argument(alloc, "endswith")?)),
    }
}
