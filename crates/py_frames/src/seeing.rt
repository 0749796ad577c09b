//! What has been read, seen as targets: when a `=` comes.
ghost use Rattle.std.specs.Prelude.{◌≡◌, ◌&&◌, ◌++◌, [], ◌∷◌, true, false, map, drop, IfOk};
ghost use Rattle.py_tree.specs.declared.expressions.Target.{Target};
ghost use Rattle.py_frames.specs.Gives.{Gives};
ghost use Rattle.py_frames.specs.Steps.{with_both};
ghost use Rattle.py_frames.specs.Values.{closes, finished, beside};
ghost use Rattle.py_frames.specs.Targets.{target_of, sight_if, sight_in, sight_after, sight_at, sight};

use crate::chains::{finished, one};
use crate::closing::{all_with, closes, join};
use crate::endings::is_empty;
use crate::frames::{Chain, Frame, Hole, State, Value};
use crate::nest::Nest;
use crate::places::Places;
use crate::stop::Stop;
use plain_data::{Items, Text};
use py_tree::{Expr, Target};
use std::alloc::{AllocError, Global};
use std::mem::drop;

/// What has been read, as targets.
#[derive(Drop)]
pub struct Sight {
    /// The targets, in their order.
    pub targets: Items<Target>,
    /// Whether a comma is among them.
    pub divided: bool,
    /// The places of what is in them.
    pub under: Places,
}

#[tactic(auto, using(crate::proofs::Seen::name_target, crate::proofs::Seen::item_target))]
fn target(alloc: Global, tree: Expr) -> Result<Target, AllocError>
    ensures { IfOk result (λ target. target ≡ target_of tree) }
{
    Ok(match tree {
        Expr::Name(name) => Target::Name(name),
        Expr::Index { value, at } => Target::Item {
            value: value.into_inner(),
            at: at.into_inner(),
        },
        other => {
            drop(other);
            Target::Name(Text::new(alloc, "")?)
        }
    })
}

fn all_targets(alloc: Global, trees: Items<Expr>) -> Result<Items<Target>, AllocError>
    ensures { IfOk result (λ targets. targets ≡ map target_of trees) }
{
    let mut targets = Items::new(alloc);
    for tree in trees.into_vec() {
        targets.push(target(alloc, tree)?)?;
    }
    Ok(targets)
}

fn saw(
    alloc: Global,
    divided: bool,
    may: bool,
    trees: Items<Expr>,
    under: Places,
) -> Result<Sight, Stop>
    ensures { Gives result (sight_if divided may trees under) }
{
    if !may {
        return Err(Stop::Refused);
    }
    let targets = all_targets(alloc, trees)?;
    Ok(Sight {
        targets,
        divided,
        under,
    })
}

/// The only target.
fn only(alloc: Global, value: Value) -> Result<Sight, Stop>
    ensures { Gives result (sight_if false value.target (value.tree ∷ []) value.under) }
{
    let Value {
        tree,
        under,
        target,
        ..
    } = value;
    let trees = one(alloc, tree)?;
    saw(alloc, false, target, trees, under)
}

/// The last target of several.
fn last_of(
    alloc: Global,
    left: Places,
    before: Items<Expr>,
    targets: bool,
    value: Value,
) -> Result<Sight, Stop>
    ensures { Gives result (sight_if true (targets && value.target) (before ++ value.tree ∷ []) (drop 1 (beside left (value.from ∷ value.under)))) }
{
    let Value {
        tree,
        from,
        under,
        target,
    } = value;
    let all = all_with(before, tree)?;
    let places = join(left, from, under)?.below();
    saw(alloc, true, targets && target, all, places)
}

/// The last target, in this part and no other.
fn last_in(alloc: Global, frame: Frame, value: Value) -> Result<Sight, Stop>
    ensures { Gives result (sight_in frame.hole frame [] value) }
{
    let Frame {
        under: left,
        hole,
        ..
    } = frame;
    match hole {
        Hole::Tuple { before, targets } => last_of(alloc, left, before, targets, value),
        other => {
            drop(other);
            drop(left);
            drop(value);
            Err(Stop::Refused)
        }
    }
}

/// The last target.
fn last(alloc: Global, mut frames: Nest<Frame>, value: Value) -> Result<Sight, Stop>
    ensures { Gives result (sight_after frames value) }
{
    let Some(frame) = frames.pop() else {
        return only(alloc, value);
    };
    if is_empty(&frames) {
        drop(frames);
        return last_in(alloc, frame, value);
    }
    drop(frames);
    drop(frame);
    drop(value);
    Err(Stop::Refused)
}

/// After a comma.
fn last_at(alloc: Global, mut frames: Nest<Frame>) -> Result<Sight, Stop>
    ensures { Gives result (sight_at frames) }
{
    let Some(frame) = frames.pop() else {
        return Err(Stop::Refused);
    };
    if frames.top().is_some() {
        drop(frame);
        return Err(Stop::Refused);
    }
    let Frame {
        under: left,
        hole,
        ..
    } = frame;
    match hole {
        Hole::Tuple { before, targets } => saw(alloc, true, targets, before, left.below()),
        other => {
            drop(other);
            Err(Stop::Refused)
        }
    }
}

/// As `see`, after a part that has ended.
fn see_after(alloc: Global, frames: Nest<Frame>, value: Value) -> Result<Sight, Stop>
    ensures { Gives result (with_both (closes 2 frames value) sight_after) }
{
    let (frames, value) = closes(alloc, 2, frames, value)?;
    last(alloc, frames, value)
}

/// As `see`, after a comparison.
fn see_compared(alloc: Global, frames: Nest<Frame>, chain: Chain) -> Result<Sight, Stop>
    ensures { Gives result (with_both (closes 2 frames (finished chain)) sight_after) }
{
    let value = finished(alloc, chain)?;
    see_after(alloc, frames, value)
}

/// The targets that have been read. They are refused if they are none.
pub fn see(alloc: Global, state: State) -> Result<Sight, Stop>
    ensures { Gives result (sight state) }
{
    match state {
        State::Wants(frames) => last_at(alloc, frames),
        State::Has(frames, value) => see_after(alloc, frames, value),
        State::Compared(frames, chain) => see_compared(alloc, frames, chain),
        other => {
            drop(other);
            Err(Stop::Refused)
        }
    }
}
