ghost use Rattle.std.specs.Prelude.{◌≡◌, ℕ, List, [], IfOk, OnOk, OnErr};
ghost use Rattle.session_core.specs.Stepping.{cause_of, reason_of};

use crate::entry::{DiedCause, MoveRefusal};
use crate::reply::Done;
use crate::request::Ask;
use graph_model::{Certified, Tally, Weights};
use nb_outside::{Drawn, Feed};
use plain_data::{Items, Text};
use plan_model::WeightFault;
use std::alloc::{AllocError, Global};
use std::error::Error;
use std::fmt;

/// Why an engine gave no reply. The engine may only be dropped then.
#[derive(Debug, Drop)]
pub enum RunFault {
    OutOfMemory,
    /// With these draws, one of the six numbers of a session would reach 2^32.
    TooMany { which: Tally, draws: Items<Drawn> },
}

impl RunFault {
    /// Why the session dies.
    pub fn cause(self) -> DiedCause
        ensures { result ≡ cause_of self }
    {
        match self {
            RunFault::OutOfMemory => DiedCause::OutOfMemory,
            RunFault::TooMany { which, draws } => DiedCause::TooMany { which, draws },
        }
    }
}

impl fmt::Display for RunFault {
    fn fmt<W: fmt::Write>(&self, f: &mut fmt::Formatter<W>) -> fmt::Result {
        match self {
            RunFault::OutOfMemory => write!(f, "out of memory"),
            RunFault::TooMany { .. } => write!(f, "session full"),
        }
    }
}

impl Error for RunFault {}

/// What an engine is packed as, and the plan by which.
#[derive(Debug, Drop)]
pub struct Packed {
    pub bytes: Items<u8>,
    pub certified: Certified,
}

/// Why an engine isn't packed, in the order in which it is looked for. The engine is as before.
#[derive(Debug, Drop)]
pub enum PackFault {
    /// Memory ran out. The weights are admitted.
    OutOfMemory,
    /// A weight is over 1,000,000, or the finite weights sum to 2^63 or more.
    BadWeights(WeightFault),
    /// The version holds a handle and can't be copied, and the cell, which it needs, drew and can't run again.
    Stuck {
        version: u32,
        cell: u32,
        /// The names of the version.
        names: Items<Text>,
    },
}

impl PackFault {
    /// Why the session stays where it is; None for want of memory.
    pub fn reason(self) -> Option<MoveRefusal>
        ensures { result ≡ reason_of self }
    {
        match self {
            PackFault::OutOfMemory => None,
            PackFault::BadWeights(fault) => Some(MoveRefusal::BadWeights(fault)),
            PackFault::Stuck {
                version,
                cell,
                names,
            } => Some(MoveRefusal::Stuck {
                version,
                cell,
                names,
            }),
        }
    }
}

impl fmt::Display for PackFault {
    fn fmt<W: fmt::Write>(&self, f: &mut fmt::Formatter<W>) -> fmt::Result {
        match self {
            PackFault::OutOfMemory => write!(f, "out of memory"),
            PackFault::BadWeights(_) => write!(f, "the weights aren't admitted"),
            PackFault::Stuck { version, cell, .. } => {
                write!(
                    f,
                    "version {version} can't be copied, and cell {cell} can't run again"
                )
            }
        }
    }
}

impl Error for PackFault {}

/// What a session runs on: a kernel on a host, by the lists of asks that it may have served.
///
/// An engine may be used from the call that makes it until its `run` answers a fault.
pub trait Engine: Sized {
    ghost use Rattle.nb_outside.specs.Feeds.{Seen};
    ghost use Rattle.session_core.specs.Asks.{IsWork};
    ghost use Rattle.session_core.specs.Meanings.{Served, Meaning, more, HasNoEnd, IsPacked};
    ghost use Rattle.session_core.specs.Engines.{HasDrawn, RunsOn, Packs};
    ghost use Rattle.graph_model.specs.declared.graph.Graph.{Graph};
    ghost use Rattle.graph_model.specs.declared.plan.Plan.{Plan};
    ghost use Rattle.graph_model.specs.Faults.{IsGraph};
    ghost use Rattle.graph_model.specs.declared.plan.Tally.{Tally};
    ghost use Rattle.session_core.specs.declared.request.Ask.{Ask};
    ghost use Rattle.nb_outside.specs.declared.feed.Drawn.{Drawn};

    // The seven definitions under which a journal is legal.
    ghost meaning: { Meaning };

    // It is as one that served this list and never moved.
    ghost stands_for: { Self → List Served → Type 0 };

    ghost is_usable: { Self → Type 0 };

    ghost host_of: { Self → ℕ };

    // It is what these bytes restore on this host.
    ghost is_image: { Self → List ℕ → ℕ → Type 0 };

    /// An engine that has served nothing, on this host. Takes no memory.
    fn opened(alloc: Global, host: u32) -> Self
        ensures stands { stands_for result [] }
        ensures host { host_of result ≡ host };

    /// The count of the list that it has served. Takes no memory.
    fn count(&self) -> u32
        requires { is_usable self.now }
        ensures { (served : List Served) → stands_for self.now served → result ≡ meaning.count served };

    /// Serves one ask, which is no move, with words from the feed.
    fn run<F: Feed>(&mut self, alloc: Global, ask: &Ask, feed: &mut F) -> Result<Done, RunFault>
        requires work { IsWork ask.now }
        requires usable { is_usable self.old }
        ensures reply { (served : List Served) → stands_for self.old served → HasNoEnd served → RunsOn meaning served ask.now result }
        ensures stands { IfOk result (λ done. (served : List Served) → stands_for self.old served → HasNoEnd served
            → stands_for self.new (more served ask.now done.draws)) }
        ensures usable { OnOk result (is_usable self.new) }
        ensures host { OnOk result (host_of self.new ≡ host_of self.old) }
        ensures drawn { HasDrawn result (F.seen feed.old) (F.seen feed.new) };

    /// Packs it by a certified plan under these weights.
    fn pack(&self, alloc: Global, weights: &Weights) -> Result<Packed, PackFault>
        requires { is_usable self.now }
        ensures { (served : List Served) → stands_for self.now served → HasNoEnd served → Packs meaning served weights.now result };

    /// What a pack restores on this host, and how many objects it has.
    fn unpack(alloc: Global, bytes: &[u8], host: u32) -> Result<(Self, u32), AllocError>
        requires { (served : List Served) × (plan : Plan) × IsPacked meaning served plan bytes.now }
        ensures image { IfOk result (λ made. is_image made.0 bytes.now host) }
        ensures host { IfOk result (λ made. host_of made.0 ≡ host) }
        ensures usable { IfOk result (λ made. is_usable made.0) }
        ensures stands { IfOk result (λ made. (served : List Served) (plan : Plan) → IsPacked meaning served plan bytes.now
            → stands_for made.0 served × meaning.HasObjects served made.1) };

    // It stands for run lists alone. If it stands for one, it is usable.
    ghost runs: { (e : Self) (served : List Served) → stands_for e served → meaning.IsRun served };

    ghost used: { (e : Self) (served : List Served) → stands_for e served → is_usable e };

    // A run list has one graph, which is a history graph. With one more ask that would pass a number, it is no run list.
    ghost one_graph: { (served : List Served) (g h : Graph) → meaning.IsGraph served g → meaning.IsGraph served h → g ≡ h };

    ghost graphs: { (served : List Served) (g : Graph) → meaning.IsGraph served g → IsGraph g };

    ghost passes_none: { (served : List Served) (ask : Ask) (draws : List Drawn) (which : Tally) → meaning.Passes served ask draws which → ¬ meaning.IsRun (more served ask draws) };
}
