ghost use Rattle.std.specs.Prelude.{◌≡◌};
ghost use Rattle.history_graph.specs.declared.fault.HistoryFault.TheVariants.{OutOfMemory};

use graph_model::Tally;
use std::alloc::AllocError;
use std::error::Error;
use std::fmt;

/// Why a cell isn't added to a history.
#[derive(Clone, Copy, Debug, PartialEq, Eq)]
pub enum HistoryFault {
    OutOfMemory,
    /// With the cell this number would be 2^32 or more.
    TooMany(Tally),
}

impl From<AllocError> for HistoryFault {
    ghost from_gives = { λ _ e. e ≡ OutOfMemory };

    fn from(_error: AllocError) -> HistoryFault {
        HistoryFault::OutOfMemory
    }
}

impl fmt::Display for HistoryFault {
    fn fmt<W: fmt::Write>(&self, f: &mut fmt::Formatter<W>) -> fmt::Result {
        match *self {
            HistoryFault::OutOfMemory => write!(f, "out of memory"),
            HistoryFault::TooMany(tally) => write!(f, "too many: {tally:?}"),
        }
    }
}

impl Error for HistoryFault {}
