use crate::PartFault;
use graph_model::GraphFault;
use plan_model::Item;
use std::alloc::AllocError;
use std::error::Error;
use std::fmt;

/// Why bytes are no checkpoint. Places are byte offsets.
#[derive(Clone, Copy, Debug, PartialEq, Eq)]
pub enum CheckpointFault {
    OutOfMemory,
    /// The bytes don't begin with `ENCK`, and `ENCK` doesn't begin with them.
    BadMagic,
    /// The version of the format, which is neither 1 nor 2. It is at byte 4.
    BadVersion(u16),
    /// The bytes end within the field at that place.
    Cut(usize),
    /// No text of a part begins at that place. The places in its fault count from there.
    Part { at: usize, fault: PartFault },
    /// The graph has a fault.
    Graph(GraphFault),
    /// A copied version that isn't as its part, or a version or cell at which the plan isn't feasible.
    PlanDisagrees(Item),
    /// The first byte after the last version.
    Trailing(usize),
    /// A field that has a value which it can't have; a text of the table that is equal to an earlier one; or one to which nothing refers.
    BadField(usize),
}

impl From<AllocError> for CheckpointFault {
    ghost use Rattle.std.specs.Prelude.{◌≡◌};
    ghost use Rattle.checkpoint_reader.specs.declared.fault.CheckpointFault.TheVariants.{OutOfMemory};

    ghost from_gives = { λ _ e. e ≡ OutOfMemory };

    fn from(_: AllocError) -> CheckpointFault {
        CheckpointFault::OutOfMemory
    }
}

impl fmt::Display for CheckpointFault {
    fn fmt<W: fmt::Write>(&self, f: &mut fmt::Formatter<W>) -> fmt::Result {
        match *self {
            CheckpointFault::OutOfMemory => write!(f, "out of memory"),
            CheckpointFault::BadMagic => write!(f, "no checkpoint"),
            CheckpointFault::BadVersion(version) => write!(f, "unsupported version {version}"),
            CheckpointFault::Cut(at) => write!(f, "cut at byte {at}"),
            CheckpointFault::Part { at, fault } => write!(f, "in the part at byte {at}: {fault}"),
            CheckpointFault::Graph(fault) => write!(f, "in the graph: {fault}"),
            CheckpointFault::PlanDisagrees(item) => write!(f, "the plan disagrees at {item}"),
            CheckpointFault::Trailing(at) => write!(f, "bytes after the end, at byte {at}"),
            CheckpointFault::BadField(at) => write!(f, "bad field at byte {at}"),
        }
    }
}

impl Error for CheckpointFault {}
