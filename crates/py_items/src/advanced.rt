ghost use Rattle.std.specs.Prelude.{◌≡◌, slice_get, IfOk};
ghost use Rattle.py_machine.specs.Runs.{Still};
ghost use Rattle.py_meaning.specs.Acts.{run};
ghost use Rattle.py_meaning.specs.Iterating as spec;

use py_heap::Object;
use py_machine::{Fault, Iteration, Machine, TextRest, changed_size};
use py_value::Value;
use std::alloc::{AllocError, Global};

fn next_item(machine: &Machine, at: u32, next: usize) -> Result<Option<(Value, Iteration)>, Fault>
    ensures { Still (run (spec.next_item at next (slice_get machine.now.state.heap at))) machine.now result machine.now }
{
    match machine.object_at(at) {
        Some(Object::List(items) | Object::Tuple(items)) => {
            if next >= items.len() {
                return Ok(None);
            }
            match items.get(next) {
                Some(item) => {
                    let next = next + 1;
                    Ok(Some((item.copy()?, Iteration::Items { at, next })))
                }
                None => Ok(None),
            }
        }
        _ => Ok(None),
    }
}

fn next_key(
    alloc: Global,
    machine: &Machine,
    at: u32,
    next: usize,
    size: usize,
) -> Result<Option<(Value, Iteration)>, Fault>
    ensures { Still (run (spec.next_key at next size (slice_get machine.now.state.heap at))) machine.now result machine.now }
{
    match machine.object_at(at) {
        Some(Object::Dict(pairs)) => {
            if pairs.len() != size {
                return Err(Fault::Raised(changed_size(alloc)?));
            }
            if next >= size {
                return Ok(None);
            }
            let (key, _) = pairs.pair_at(next);
            let next = next + 1;
            Ok(Some((key.value()?, Iteration::Keys { at, next, size })))
        }
        _ => Ok(None),
    }
}

fn next_character(alloc: Global, rest: TextRest) -> Result<Option<(Value, Iteration)>, AllocError>
    ensures { IfOk result (λ after. after ≡ spec.next_character rest) }
{
    Ok(match rest.cut_first(alloc)? {
        Some((character, rest)) => Some((Value::Text(character), Iteration::Characters(rest))),
        None => None,
    })
}

/// Whether a number comes before the stop, upwards or downwards.
fn is_before(number: &i128, stop: &i128, step: &i128) -> bool
    ensures { result ≡ spec.is_before number.now stop.now step.now }
{
    if *step > 0 {
        *number < *stop
    } else {
        *stop < *number
    }
}

/// The number after a step, if it fits in 128 bits.
fn following(number: &i128, step: &i128) -> Option<i128>
    ensures { result ≡ spec.following number.now step.now }
{
    number.checked_add(*step)
}

fn next_number(next: &Option<i128>, stop: &i128, step: &i128) -> Option<(Value, Iteration)>
    ensures { result ≡ spec.next_number next.now stop.now step.now }
{
    match next {
        Some(number) => {
            if !is_before(number, stop, step) {
                return None;
            }
            let rest = Iteration::Range {
                next: following(number, step),
                stop: *stop,
                step: *step,
            };
            Some((Value::Number(*number), rest))
        }
        None => None,
    }
}

/// What a `for` comes to next, and what is left after it, or `None` at the end. Items that come while a list is gone over are
/// seen; a dict that has more pairs or fewer than at the start is a RuntimeError. Takes no step. (Python reference: the `for`
/// statement.)
#[tactic(auto, unfolding(py_meaning::specs::Iterating::advance, py_machine::specs::Runs::object_at))]
pub fn advance(
    alloc: Global,
    machine: &Machine,
    iteration: Iteration,
) -> Result<Option<(Value, Iteration)>, Fault>
    ensures { Still (run (spec.advance iteration)) machine.now result machine.now }
{
    match iteration {
        Iteration::Items { at, next } => next_item(machine, at, next),
        Iteration::Keys { at, next, size } => next_key(alloc, machine, at, next, size),
        Iteration::Characters(rest) => Ok(next_character(alloc, rest)?),
        Iteration::Range { next, stop, step } => Ok(next_number(&next, &stop, &step)),
    }
}
