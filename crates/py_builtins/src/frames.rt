ghost use Rattle.std.specs.Prelude.{◌≡◌, IfOk, All};
ghost use Rattle.std.specs.FinMap as finite;
ghost use Rattle.py_machine.specs.declared.frame.FrameSlot.TheVariants as FrameSlot;
ghost use Rattle.py_machine.specs.Runs.{Still};
ghost use Rattle.py_machine.specs.Slots.{HasSlot};
ghost use Rattle.py_meaning.specs.Acts.{run};
ghost use Rattle.py_meaning.specs.Meaning as spec;

use plain_data::Text;
use py_heap::Function;
use py_machine::{Fault, Flow, Frame, Machine, Slots, not_callable};
use py_ops::kind_of;
use py_value::Value;
use std::alloc::{AllocError, Global};

/// The error of a call of a value that isn't a function.
#[tactic(auto, unfolding(py_meaning::specs::Meaning::not_called))]
pub fn not_called(alloc: Global, machine: &Machine, callee: &Value) -> Result<Value, Fault>
    ensures { Still (run (spec.not_called callee.now)) machine.now result machine.now }
{
    let kind = kind_of(machine, callee)?;
    Err(Fault::Raised(not_callable(alloc, kind)?))
}

/// Gives a local a value.
#[inline(always)]
fn hold(frame: &mut Frame, name: &Text, value: Value)
    requires { HasSlot frame.old.slots name.now }
    ensures { frame.new ≡ record { slots = finite.insert frame.old.slots name.now (FrameSlot.Held value) } }
{
    let _back = frame.slots.hold(name, value);
}

/// Gives locals values, as long as there are more of both.
#[inline(always)]
fn with_held(frame: Frame, names: &[Text], values: &[Value]) -> Result<Frame, AllocError>
    requires { All (HasSlot frame.slots) names.now }
    ensures { IfOk result (λ f. f ≡ spec.with_held frame names.now values.entry.now) }
{
    let mut frame = frame;
    let mut rest = values;
    for name in names {
        match rest {
            [value, more @ ..] => {
                hold(&mut frame, name, value.copy()?);
                rest = more;
            }
            [] => return Ok(frame),
        }
    }
    Ok(frame)
}

/// The locals of a call: each is empty but the parameters, which hold the arguments. Takes memory for one list of
/// slots; copies no name.
#[inline(always)]
#[tactic(auto, unfolding(py_meaning::specs::Meaning::frame_of))]
pub fn frame_of(alloc: Global, function: &Function, args: &[Value]) -> Result<Frame, AllocError>
    ensures { IfOk result (λ f. f ≡ spec.frame_of function.now args.now) }
{
    let numbers = function.numbers().share()?;
    let frame = Frame {
        slots: Slots::new(alloc, numbers, function.slots())?,
    };
    with_held(frame, function.def().params.as_slice(), args)
}

/// What a function gives if its body ended in this way.
#[inline(always)]
pub fn returned(ended: Flow) -> Value
    ensures { result ≡ spec.returned ended }
{
    match ended {
        Flow::Return(value) => value,
        Flow::Next | Flow::Break | Flow::Continue => Value::Nothing,
    }
}
