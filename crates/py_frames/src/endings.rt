//! What has been read, when it is to end.
ghost use Rattle.std.specs.Prelude.{◌≡◌, [], Some, None, true};
ghost use Rattle.py_frames.specs.declared.frames.Hole.TheVariants as h;
ghost use Rattle.py_frames.specs.declared.endings.Colon.TheVariants.{Ends};
ghost use Rattle.py_frames.specs.declared.frames.State.TheVariants.{Wants};
ghost use Rattle.py_frames.specs.Gives.{Gives};
ghost use Rattle.py_frames.specs.Steps.{with_both, colon_in};
ghost use Rattle.py_frames.specs.Forced.{is_nil};
ghost use Rattle.py_frames.specs.Values.{closes, finished, close};
ghost use Rattle.py_frames.specs.Ends.{either_of, ended, ended_in, ended_after, ended_at, is_bracket, is_tuple, enclosed_or, outermost, is_narrow, is_one, is_undivided, is_begun, colon_or_end, ends_or_goes, shuts_or_goes};

use crate::brackets::colon;
use crate::chains::{finished, put};
use crate::closing::{close, closes, shut};
use crate::empty_brackets::shut_start;
use crate::frames::{Chain, Frame, Hole, State, Value};
use crate::nest::Nest;
use crate::stop::Stop;
use std::alloc::Global;
use std::mem::drop;

/// Nothing has been read. Takes no memory.
pub fn begun(alloc: Global) -> State
    ensures { result ≡ Wants [] }
{
    State::Wants(Nest::none(alloc))
}

/// Whether it is a tuple.
pub fn is_tuple(hole: &Hole) -> bool
    ensures { result ≡ is_tuple hole.now }
{
    match hole {
        Hole::Tuple { .. } => true,
        _ => false,
    }
}

/// Whether nothing is open.
pub fn is_empty(frames: &Nest<Frame>) -> bool
    ensures { result ≡ is_nil frames.now }
{
    match frames.top() {
        None => true,
        Some(_) => false,
    }
}

/// A tuple ends with its last.
fn end_tuple(alloc: Global, frame: Frame, value: Value) -> Result<Value, Stop>
    ensures { Gives result (Some (close frame value)) }
{
    let value = close(alloc, frame, value)?;
    Ok(value)
}

/// The last part, which may be that of a tuple.
fn whole(alloc: Global, mut frames: Nest<Frame>, value: Value) -> Result<Value, Stop>
    ensures { Gives result (ended_after frames value) }
{
    let Some(frame) = frames.pop() else {
        return Ok(value);
    };
    if is_tuple(&frame.hole) {
        if is_empty(&frames) {
            drop(frames);
            return end_tuple(alloc, frame, value);
        }
    }
    drop(frames);
    drop(frame);
    drop(value);
    Err(Stop::Refused)
}

/// After the last comma of a tuple.
fn whole_at(alloc: Global, mut frames: Nest<Frame>) -> Result<Value, Stop>
    ensures { Gives result (ended_at frames) }
{
    let Some(frame) = frames.pop() else {
        return Err(Stop::Refused);
    };
    if is_tuple(&frame.hole) {
        if frames.top().is_none() {
            return Ok(shut(alloc, frame)?);
        }
    }
    drop(frame);
    Err(Stop::Refused)
}

/// As `end`, after a part that has ended.
fn end_after(alloc: Global, frames: Nest<Frame>, value: Value) -> Result<Value, Stop>
    ensures { Gives result (with_both (closes 2 frames value) ended_after) }
{
    let (frames, value) = closes(alloc, 2, frames, value)?;
    whole(alloc, frames, value)
}

/// As `end`, after a comparison.
fn end_compared(alloc: Global, frames: Nest<Frame>, chain: Chain) -> Result<Value, Stop>
    ensures { Gives result (with_both (closes 2 frames (finished chain)) ended_after) }
{
    let value = finished(alloc, chain)?;
    end_after(alloc, frames, value)
}

/// What has been read, as a whole. It is refused if it may not end.
pub fn end(alloc: Global, state: State) -> Result<Value, Stop>
    ensures { Gives result (ended state) }
{
    match state {
        State::Wants(frames) => whole_at(alloc, frames),
        State::Has(frames, value) => end_after(alloc, frames, value),
        State::Compared(frames, chain) => end_compared(alloc, frames, chain),
        other => {
            drop(other);
            Err(Stop::Refused)
        }
    }
}

/// What a `:` does: what has been read goes on with it, or has ended before it.
#[derive(Drop)]
pub enum Colon {
    Goes(State),
    Ends(Value),
}

/// What has been read ends with a tuple.
fn ends_with_tuple(alloc: Global, frame: Frame, value: Value) -> Result<Colon, Stop>
    ensures { Gives result (Some (Ends (close frame value))) }
{
    let value = close(alloc, frame, value)?;
    Ok(Colon::Ends(value))
}

/// A tuple ends with its last, if nothing is round it.
fn tuple_ends(alloc: Global, frames: Nest<Frame>, frame: Frame, value: Value) -> Result<Colon, Stop>
    ensures { Gives result (either_of (ended_in (h.Tuple [] true) frame frames value) None) }
{
    if is_empty(&frames) {
        drop(frames);
        return ends_with_tuple(alloc, frame, value);
    }
    drop(frames);
    drop(frame);
    drop(value);
    Err(Stop::Refused)
}

/// A part goes on after this one and a `:`.
fn goes(alloc: Global, frames: Nest<Frame>, frame: Frame, value: Value) -> Result<Colon, Stop>
    ensures { Gives result (either_of None (colon_in frame.hole frame frames value)) }
{
    let frames = put(frames, frame)?;
    let state = colon(frames, value, alloc)?;
    Ok(Colon::Goes(state))
}

/// After a part that has ended.
fn goes_or_ends(alloc: Global, mut frames: Nest<Frame>, value: Value) -> Result<Colon, Stop>
    ensures { Gives result (ends_or_goes frames value) }
{
    let Some(frame) = frames.pop() else {
        return Ok(Colon::Ends(value));
    };
    if is_tuple(&frame.hole) {
        return tuple_ends(alloc, frames, frame, value);
    }
    goes(alloc, frames, frame, value)
}

/// Where an operand is to come.
fn goes_or_shuts(alloc: Global, mut frames: Nest<Frame>) -> Result<Colon, Stop>
    ensures { Gives result (shuts_or_goes frames) }
{
    let Some(frame) = frames.pop() else {
        return Err(Stop::Refused);
    };
    if is_tuple(&frame.hole) {
        if frames.top().is_none() {
            return Ok(Colon::Ends(shut(alloc, frame)?));
        }
        drop(frame);
        return Err(Stop::Refused);
    }
    let frames = put(frames, frame)?;
    Ok(Colon::Goes(shut_start(frames)?))
}

/// As `colon_or_end`, after a part that has ended.
fn colon_after(alloc: Global, frames: Nest<Frame>, value: Value) -> Result<Colon, Stop>
    ensures { Gives result (with_both (closes 2 frames value) ends_or_goes) }
{
    let (frames, value) = closes(alloc, 2, frames, value)?;
    goes_or_ends(alloc, frames, value)
}

/// As `colon_or_end`, after a comparison.
fn colon_compared(alloc: Global, frames: Nest<Frame>, chain: Chain) -> Result<Colon, Stop>
    ensures { Gives result (with_both (closes 2 frames (finished chain)) ends_or_goes) }
{
    let value = finished(alloc, chain)?;
    colon_after(alloc, frames, value)
}

/// A `:` after what has been read. It belongs to the bracket that is open, and else ends what has been read.
pub fn colon_or_end(alloc: Global, state: State) -> Result<Colon, Stop>
    ensures { Gives result (colon_or_end state) }
{
    match state {
        State::Wants(frames) => goes_or_shuts(alloc, frames),
        State::Has(frames, value) => colon_after(alloc, frames, value),
        State::Compared(frames, chain) => colon_compared(alloc, frames, chain),
        other => {
            drop(other);
            Err(Stop::Refused)
        }
    }
}

fn is_bracket(hole: &Hole) -> bool
    ensures { result ≡ is_bracket hole.now }
{
    match hole {
        Hole::Group => true,
        Hole::Display(_) => true,
        Hole::Call { .. } => true,
        Hole::Method { .. } => true,
        Hole::Index(_) => true,
        Hole::Slice { .. } => true,
        Hole::Dict(_) => true,
        Hole::Pair { .. } => true,
        _ => false,
    }
}

/// Whether all is in a bracket, or else as `alone` says.
fn enclosed(frames: &Nest<Frame>, alone: bool) -> bool
    ensures { result ≡ enclosed_or alone (outermost frames.now) }
{
    match frames.outermost() {
        None => alone,
        Some(frame) => is_bracket(&frame.hole),
    }
}

/// Whether what has been read begins a primary and nothing wider.
pub fn is_narrow(state: &State) -> bool
    ensures { result ≡ is_narrow state.now }
{
    match state {
        State::Wants(frames) => enclosed(frames, true),
        State::Has(frames, _) => enclosed(frames, true),
        State::Compared(frames, _) => enclosed(frames, false),
        State::AfterIs(frames, _) => enclosed(frames, false),
        State::AfterIsNot(frames, _) => enclosed(frames, false),
        State::AfterNot(frames, _) => enclosed(frames, false),
        State::AfterDot(frames, _) => enclosed(frames, true),
        State::AfterMethod(frames, _, _) => enclosed(frames, true),
    }
}

fn is_one(frames: &Nest<Frame>) -> bool
    ensures { result ≡ is_one (outermost frames.now) }
{
    match frames.outermost() {
        None => true,
        Some(frame) => !is_tuple(&frame.hole),
    }
}

/// Whether what has been read begins an expression, and no tuple without parentheses.
pub fn is_undivided(state: &State) -> bool
    ensures { result ≡ is_undivided state.now }
{
    match state {
        State::Wants(frames) => is_one(frames),
        State::Has(frames, _) => is_one(frames),
        State::Compared(frames, _) => is_one(frames),
        State::AfterIs(frames, _) => is_one(frames),
        State::AfterIsNot(frames, _) => is_one(frames),
        State::AfterNot(frames, _) => is_one(frames),
        State::AfterDot(frames, _) => is_one(frames),
        State::AfterMethod(frames, _, _) => is_one(frames),
    }
}

/// Whether nothing has been read.
pub fn is_begun(state: &State) -> bool
    ensures { result ≡ is_begun state.now }
{
    match state {
        State::Wants(frames) => frames.top().is_none(),
        _ => false,
    }
}
