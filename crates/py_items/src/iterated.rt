ghost use Rattle.std.specs.Prelude.{◌≡◌, slice_get};
ghost use Rattle.py_machine.specs.Runs.{Still};
ghost use Rattle.py_meaning.specs.Acts.{run};
ghost use Rattle.py_meaning.specs.Iterating as spec;

use py_heap::Object;
use py_machine::{
    Fault, Iteration, Machine, TextRest, ValueKind, not_iterable, wrong_argument, wrong_number,
    zero_range_step,
};
use py_ops::{as_number, kind_of};
use py_value::Value;
use std::alloc::Global;

fn object_iterated(alloc: Global, machine: &Machine, at: u32) -> Result<Iteration, Fault>
    ensures { Still (run (spec.object_iterated at (slice_get machine.now.state.heap at))) machine.now result machine.now }
{
    match machine.object_at(at) {
        Some(Object::List(_) | Object::Tuple(_)) => Ok(Iteration::Items { at, next: 0 }),
        Some(Object::Dict(pairs)) => {
            let size = pairs.len();
            Ok(Iteration::Keys { at, next: 0, size })
        }
        Some(Object::Function(_)) => Err(Fault::Raised(not_iterable(alloc, ValueKind::Function)?)),
        Some(Object::Handle { .. }) => Err(Fault::Raised(not_iterable(alloc, ValueKind::Handle)?)),
        None => Err(Fault::Raised(not_iterable(alloc, ValueKind::Nothing)?)),
    }
}

#[tactic(auto, unfolding(py_meaning::specs::Iterating::not_iterated))]
fn not_iterated(alloc: Global, machine: &Machine, value: &Value) -> Result<Iteration, Fault>
    ensures { Still (run (spec.not_iterated value.now)) machine.now result machine.now }
{
    let kind = kind_of(machine, value)?;
    Err(Fault::Raised(not_iterable(alloc, kind)?))
}

/// What a `for` goes over: a list or a tuple by its items, a dict by its keys, a text by its characters. A TypeError at any other value.
/// (Python reference: the `for` statement.)
#[tactic(auto, unfolding(py_meaning::specs::Iterating::iterated, py_machine::specs::Runs::object_at))]
pub fn iterate(alloc: Global, machine: &Machine, value: &Value) -> Result<Iteration, Fault>
    ensures { Still (run (spec.iterated value.now)) machine.now result machine.now }
{
    match value {
        Value::Text(text) => {
            let text = text.share()?;
            Ok(Iteration::Characters(TextRest::new(text)))
        }
        Value::Ref(at) => object_iterated(alloc, machine, *at),
        Value::Nothing | Value::Bool(_) | Value::Number(_) | Value::Builtin(_) => {
            not_iterated(alloc, machine, value)
        }
    }
}

fn ranged(
    alloc: Global,
    machine: &Machine,
    start: &Option<i128>,
    stop: &Option<i128>,
    step: &Option<i128>,
) -> Result<Iteration, Fault>
    ensures { Still (run (spec.ranged start.now stop.now step.now)) machine.now result machine.now }
{
    match (start, stop, step) {
        (Some(start), Some(stop), Some(step)) => {
            if *step == 0 {
                return Err(Fault::Raised(zero_range_step(alloc)?));
            }
            Ok(Iteration::Range {
                next: Some(*start),
                stop: *stop,
                step: *step,
            })
        }
        _ => Err(Fault::Raised(wrong_argument(alloc, "range")?)),
    }
}

/// The numbers that a `range` with these arguments has: a stop; a start and a stop; or these and a step. A TypeError at any other
/// count of arguments and at one that is no number, and a ValueError at a step of 0. (Python reference: ranges.)
pub fn range_of(alloc: Global, machine: &Machine, args: &[Value]) -> Result<Iteration, Fault>
    ensures { Still (run (spec.range_of args.now)) machine.now result machine.now }
{
    match args {
        [stop] => ranged(alloc, machine, &Some(0), &as_number(stop), &Some(1)),
        [start, stop] => ranged(
            alloc,
            machine,
            &as_number(start),
            &as_number(stop),
            &Some(1),
        ),
        [start, stop, step] => {
            let step = as_number(step);
            ranged(alloc, machine, &as_number(start), &as_number(stop), &step)
        }
        _ => Err(Fault::Raised(wrong_number(alloc, "range")?)),
    }
}
