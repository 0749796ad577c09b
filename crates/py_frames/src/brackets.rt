//! Brackets that end, and what is in them.
ghost use Rattle.std.specs.Prelude.{◌≡◌, [], ◌∷◌, Some, IfOk};
ghost use Rattle.py_frames.specs.declared.frames.Hole.TheVariants as h;
ghost use Rattle.py_frames.specs.declared.frames.State.TheVariants.{Wants};
ghost use Rattle.py_frames.specs.Gives.{Gives};
ghost use Rattle.py_frames.specs.Values.{begun_by};
ghost use Rattle.py_frames.specs.Steps.{enclosed, next_in, ends_with, close_parenthesis_in, close_bracket_in, close_brace_in, comma_after, colon_in};

use crate::chains::{one, put};
use crate::closing::{all_with, close, join, pair, places};
use crate::frames::{Frame, Hole, State, Value};
use crate::nest::Nest;
use crate::stop::Stop;
use plain_data::Boxed;
use std::alloc::{AllocError, Global};

/// Parentheses round a tuple.
pub fn enclosed(alloc: Global, mut frames: Nest<Frame>, value: Value) -> Result<State, Stop>
    ensures { Gives result (enclosed frames value) }
{
    let Some(frame) = frames.pop() else {
        return Err(Stop::Refused);
    };
    if !matches!(&frame.hole, Hole::Group) {
        return Err(Stop::Refused);
    }
    let value = close(alloc, frame, value)?;
    Ok(State::Has(frames, value))
}

/// `)` after an expression.
pub fn close_parenthesis(
    alloc: Global,
    mut frames: Nest<Frame>,
    value: Value,
) -> Result<State, Stop>
    ensures { Gives result (ends_with frames value close_parenthesis_in) }
{
    let Some(frame) = frames.pop() else {
        return Err(Stop::Refused);
    };
    if matches!(&frame.hole, Hole::Tuple { .. }) {
        let value = close(alloc, frame, value)?;
        return enclosed(alloc, frames, value);
    }
    if !matches!(
        &frame.hole,
        Hole::Group | Hole::Call { .. } | Hole::Method { .. }
    ) {
        return Err(Stop::Refused);
    }
    let value = close(alloc, frame, value)?;
    Ok(State::Has(frames, value))
}

/// `]` after an expression.
pub fn close_bracket(alloc: Global, mut frames: Nest<Frame>, value: Value) -> Result<State, Stop>
    ensures { Gives result (ends_with frames value close_bracket_in) }
{
    let Some(frame) = frames.pop() else {
        return Err(Stop::Refused);
    };
    if !matches!(
        &frame.hole,
        Hole::Display(_) | Hole::Index(_) | Hole::Slice { .. }
    ) {
        return Err(Stop::Refused);
    }
    let value = close(alloc, frame, value)?;
    Ok(State::Has(frames, value))
}

/// `}` after an expression.
pub fn close_brace(alloc: Global, mut frames: Nest<Frame>, value: Value) -> Result<State, Stop>
    ensures { Gives result (ends_with frames value close_brace_in) }
{
    let Some(frame) = frames.pop() else {
        return Err(Stop::Refused);
    };
    if !matches!(&frame.hole, Hole::Pair { .. }) {
        return Err(Stop::Refused);
    }
    let value = close(alloc, frame, value)?;
    Ok(State::Has(frames, value))
}

/// The first element of a tuple.
fn begin_tuple(alloc: Global, frames: Nest<Frame>, value: Value) -> Result<State, AllocError>
    ensures { IfOk result (λ s. s ≡ Wants (begun_by value (h.Tuple (value.tree ∷ []) value.target) ∷ frames)) }
{
    let Value {
        tree,
        from,
        under,
        target: targets,
    } = value;
    let before = one(alloc, tree)?;
    let under = places(from, under)?;
    let hole = Hole::Tuple { before, targets };
    let frames = put(frames, Frame { from, under, hole })?;
    Ok(State::Wants(frames))
}

/// `,` after an element or a pair of an open bracket or tuple.
fn next_element(frames: Nest<Frame>, frame: Frame, value: Value) -> Result<State, Stop>
    ensures { Gives result (next_in frame.hole frame frames value) }
{
    let Frame {
        from,
        under: left,
        hole,
    } = frame;
    let Value {
        tree,
        from: inner,
        under: below,
        target,
    } = value;
    let hole = match hole {
        Hole::Tuple { before, targets } => Hole::Tuple {
            before: all_with(before, tree)?,
            targets: targets && target,
        },
        Hole::Display(before) => Hole::Display(all_with(before, tree)?),
        Hole::Call { callee, args } => Hole::Call {
            callee,
            args: all_with(args, tree)?,
        },
        Hole::Method { value, name, args } => Hole::Method {
            value,
            name,
            args: all_with(args, tree)?,
        },
        Hole::Pair { before, key } => Hole::Dict(pair(before, key, tree)?),
        _other => return Err(Stop::Refused),
    };
    let under = join(left, inner, below)?;
    let frames = put(frames, Frame { from, under, hole })?;
    Ok(State::Wants(frames))
}

/// `,` after an expression.
pub fn comma(alloc: Global, mut frames: Nest<Frame>, value: Value) -> Result<State, Stop>
    ensures { Gives result (comma_after frames value) }
{
    let Some(frame) = frames.pop() else {
        return Ok(begin_tuple(alloc, frames, value)?);
    };
    if matches!(&frame.hole, Hole::Group) {
        let frames = put(frames, frame)?;
        return Ok(begin_tuple(alloc, frames, value)?);
    }
    next_element(frames, frame, value)
}

/// `:` after an expression.
pub fn colon(mut frames: Nest<Frame>, value: Value, alloc: Global) -> Result<State, Stop>
    ensures { Gives result (ends_with frames value colon_in) }
{
    let Some(
        Frame {
            from,
            under: left,
            hole,
        },
    ) = frames.pop()
    else {
        return Err(Stop::Refused);
    };
    let Value {
        tree,
        from: inner,
        under: below,
        ..
    } = value;
    let hole = match hole {
        Hole::Dict(before) => Hole::Pair { before, key: tree },
        Hole::Index(of) => Hole::Slice {
            value: of,
            start: Some(Boxed::new(alloc, tree)?),
        },
        _other => return Err(Stop::Refused),
    };
    let under = join(left, inner, below)?;
    let frames = put(frames, Frame { from, under, hole })?;
    Ok(State::Wants(frames))
}
