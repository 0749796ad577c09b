use std::alloc::AllocError;
use std::error::Error;
use std::fmt;

/// Why a checkpoint wasn't written to its end.
#[derive(Clone, Copy, Debug, PartialEq, Eq)]
pub enum PieceFault {
    /// Memory ran out.
    OutOfMemory,
    /// The sink met a fault.
    Sink,
}

impl From<AllocError> for PieceFault {
    ghost use Rattle.std.specs.Prelude.{◌≡◌};
    ghost use Rattle.checkpoint_bytes.specs.declared.fault.PieceFault.TheVariants.{OutOfMemory};

    ghost from_gives = { λ _ e. e ≡ OutOfMemory };

    fn from(_: AllocError) -> PieceFault {
        PieceFault::OutOfMemory
    }
}

impl fmt::Display for PieceFault {
    fn fmt<W: fmt::Write>(&self, f: &mut fmt::Formatter<W>) -> fmt::Result {
        match self {
            PieceFault::OutOfMemory => write!(f, "out of memory"),
            PieceFault::Sink => write!(f, "the sink met a fault"),
        }
    }
}

impl Error for PieceFault {}
