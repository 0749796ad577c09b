//! Brackets that end where an operand is to come.
ghost use Rattle.std.specs.Prelude.{Some, None};
ghost use Rattle.py_frames.specs.declared.frames.State.TheVariants.{Has};
ghost use Rattle.py_frames.specs.Gives.{Gives};
ghost use Rattle.py_frames.specs.Values.{shut};
ghost use Rattle.py_frames.specs.Steps.{ends_at, close_parenthesis_at_in, close_bracket_at_in, close_brace_at_in, colon_at_in};

use crate::brackets::enclosed;
use crate::chains::put;
use crate::closing::shut;
use crate::frames::{Frame, Hole, State};
use crate::nest::Nest;
use crate::stop::Stop;
use std::alloc::Global;
use std::mem::drop;

fn ended(alloc: Global, frames: Nest<Frame>, frame: Frame) -> Result<State, Stop>
    ensures { Gives result (Some (Has frames (shut frame))) }
{
    let value = shut(alloc, frame)?;
    Ok(State::Has(frames, value))
}

/// `)`
pub fn shut_parenthesis(alloc: Global, mut frames: Nest<Frame>) -> Result<State, Stop>
    ensures { Gives result (ends_at frames close_parenthesis_at_in) }
{
    let Some(frame) = frames.pop() else {
        return Err(Stop::Refused);
    };
    if matches!(&frame.hole, Hole::Tuple { .. }) {
        let value = shut(alloc, frame)?;
        enclosed(alloc, frames, value)
    } else if matches!(
        &frame.hole,
        Hole::Group | Hole::Call { .. } | Hole::Method { .. }
    ) {
        ended(alloc, frames, frame)
    } else {
        drop(frame);
        Err(Stop::Refused)
    }
}

/// `]`
pub fn shut_bracket(alloc: Global, mut frames: Nest<Frame>) -> Result<State, Stop>
    ensures { Gives result (ends_at frames close_bracket_at_in) }
{
    let Some(frame) = frames.pop() else {
        return Err(Stop::Refused);
    };
    if matches!(&frame.hole, Hole::Display(_) | Hole::Slice { .. }) {
        ended(alloc, frames, frame)
    } else {
        drop(frame);
        Err(Stop::Refused)
    }
}

/// `}`
pub fn shut_brace(alloc: Global, mut frames: Nest<Frame>) -> Result<State, Stop>
    ensures { Gives result (ends_at frames close_brace_at_in) }
{
    let Some(frame) = frames.pop() else {
        return Err(Stop::Refused);
    };
    if matches!(&frame.hole, Hole::Dict(_)) {
        ended(alloc, frames, frame)
    } else {
        drop(frame);
        Err(Stop::Refused)
    }
}

/// `:`
pub fn shut_start(mut frames: Nest<Frame>) -> Result<State, Stop>
    ensures { Gives result (ends_at frames colon_at_in) }
{
    let Some(Frame { from, under, hole }) = frames.pop() else {
        return Err(Stop::Refused);
    };
    match hole {
        Hole::Index(value) => {
            let hole = Hole::Slice { value, start: None };
            let frames = put(frames, Frame { from, under, hole })?;
            Ok(State::Wants(frames))
        }
        other => {
            drop(other);
            Err(Stop::Refused)
        }
    }
}
