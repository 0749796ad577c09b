ghost use Rattle.std.specs.Prelude.{◌≡◌, length, is_some};
ghost use Rattle.py_heap.specs.Dicts.{value_under};
ghost use Rattle.py_heap.specs.Objects.{items_at};
ghost use Rattle.py_machine.specs.Runs.{Still};
ghost use Rattle.py_meaning.specs.Acts.{run, chain, pure};
ghost use Rattle.py_meaning.specs.Compared as spec;
ghost use Rattle.py_meaning.specs.Items.{keyed as keyed_of};

use crate::affixes::occurs;
use crate::equal::pair_equal;
use crate::positions::item_of;
use crate::{keyed, kind_of};
use plain_data::SharedText;
use py_heap::{Dict, Object};
use py_machine::{Fault, Machine, ValueKind, not_in_text, not_searched};
use py_value::Value;
use std::alloc::Global;

#[tactic(auto, unfolding(py_meaning::specs::Compared::not_in_this_text))]
fn not_in_this_text(alloc: Global, machine: &Machine, value: &Value) -> Result<bool, Fault>
    ensures { Still (run (spec.not_in_this_text value.now)) machine.now result machine.now }
{
    let kind = kind_of(machine, value)?;
    Err(Fault::Raised(not_in_text(alloc, kind)?))
}

/// A text is searched for a text.
fn in_text(
    alloc: Global,
    machine: &Machine,
    value: &Value,
    text: &SharedText,
) -> Result<bool, Fault>
    ensures { Still (run (spec.in_text value.now text.now)) machine.now result machine.now }
{
    match value {
        Value::Text(piece) => Ok(occurs(piece.as_str(), text.as_str())),
        _ => not_in_this_text(alloc, machine, value),
    }
}

/// Whether one of the items of the list or the tuple at an address is the value or equal to it.
fn in_items(
    alloc: Global,
    left: u32,
    machine: &mut Machine,
    value: &Value,
    at: u32,
    count: usize,
) -> Result<bool, Fault>
    requires { length (items_at machine.old.state.heap at) ≡ count }
    ensures runs { Still (run (spec.in_items (spec.pair_equal left) value.now (items_at machine.old.state.heap at))) machine.old result machine.new }
    ensures drawn { machine.new.drawn ≡ machine.old.drawn }
{
    for position in 0..count {
        let item = item_of(machine, at, position)?;
        if pair_equal(alloc, left, machine, value, &item)? {
            return Ok(true);
        }
    }
    Ok(false)
}

/// Whether a dict has a key.
fn in_pairs(alloc: Global, machine: &Machine, value: &Value, pairs: &Dict) -> Result<bool, Fault>
    ensures { Still (run (chain (keyed_of value.now) (λ key. pure (is_some (value_under pairs.now key))))) machine.now result machine.now }
{
    let key = keyed(alloc, machine, value)?;
    Ok(pairs.get(&key).is_some())
}

#[tactic(auto, unfolding(py_meaning::specs::Compared::in_ref, py_machine::specs::Runs::object_at))]
fn in_ref(
    alloc: Global,
    left: u32,
    machine: &mut Machine,
    value: &Value,
    at: u32,
) -> Result<bool, Fault>
    ensures runs { Still (run (spec.in_ref (spec.pair_equal left) value.now at)) machine.old result machine.new }
    ensures drawn { machine.new.drawn ≡ machine.old.drawn }
{
    match machine.object_at(at) {
        Some(Object::List(items)) => {
            let count = items.len();
            in_items(alloc, left, machine, value, at, count)
        }
        Some(Object::Tuple(items)) => {
            let count = items.len();
            in_items(alloc, left, machine, value, at, count)
        }
        Some(Object::Dict(pairs)) => in_pairs(alloc, machine, value, pairs),
        Some(Object::Function(_)) => Err(Fault::Raised(not_searched(alloc, ValueKind::Function)?)),
        Some(Object::Handle { .. }) => Err(Fault::Raised(not_searched(alloc, ValueKind::Handle)?)),
        None => Err(Fault::Raised(not_searched(alloc, ValueKind::Nothing)?)),
    }
}

#[tactic(auto, unfolding(py_meaning::specs::Compared::not_searchable))]
fn not_searchable(alloc: Global, machine: &Machine, value: &Value) -> Result<bool, Fault>
    ensures { Still (run (spec.not_searchable value.now)) machine.now result machine.now }
{
    let kind = kind_of(machine, value)?;
    Err(Fault::Raised(not_searched(alloc, kind)?))
}

/// Whether a value is in another: a text is searched for a text, a list or a tuple for a value, and a dict for a key. Pairs have `left`
/// levels left.
pub(crate) fn is_in(
    alloc: Global,
    left: u32,
    machine: &mut Machine,
    value: &Value,
    container: &Value,
) -> Result<bool, Fault>
    ensures runs { Still (run (spec.is_in (spec.pair_equal left) value.now container.now)) machine.old result machine.new }
    ensures drawn { machine.new.drawn ≡ machine.old.drawn }
{
    match container {
        Value::Text(text) => in_text(alloc, machine, value, text),
        Value::Ref(at) => in_ref(alloc, left, machine, value, *at),
        _ => not_searchable(alloc, machine, container),
    }
}
