use checkpoint_reader::CheckpointFault;
use plain_data::Text;
use std::alloc::AllocError;
use std::error::Error;
use std::fmt;

/// Why bytes aren't restored: the first of these that holds. For bytes that were written of a session, under a feasible plan of
/// its history, `OutOfMemory` is the only one.
#[derive(Debug, Drop)]
pub enum RestoreFault {
    OutOfMemory,
    /// The bytes are no checkpoint.
    Checkpoint(CheckpointFault),
    /// The first cell that is run again and calls `draw()`.
    DrewAgain(u32),
    /// The least version that holds at the end and isn't as the graph says: it is absent and its name has a value, or its names aren't
    /// one part with its handle and its size.
    Unlike(u32),
    /// The least name that has a value and is in no version that holds at the end.
    Loose(Text),
}

impl From<AllocError> for RestoreFault {
    ghost use Rattle.std.specs.Prelude.{◌≡◌};
    ghost use Rattle.restore_run.specs.declared.fault.RestoreFault.TheVariants.{OutOfMemory};

    ghost from_gives = { λ _ e. e ≡ OutOfMemory };

    fn from(_: AllocError) -> RestoreFault {
        RestoreFault::OutOfMemory
    }
}

impl fmt::Display for RestoreFault {
    fn fmt<W: fmt::Write>(&self, f: &mut fmt::Formatter<W>) -> fmt::Result {
        match self {
            RestoreFault::OutOfMemory => write!(f, "out of memory"),
            RestoreFault::Checkpoint(fault) => write!(f, "no checkpoint: {fault}"),
            RestoreFault::DrewAgain(cell) => write!(f, "cell {cell} draws again"),
            RestoreFault::Unlike(version) => write!(f, "version {version} isn't as it was"),
            RestoreFault::Loose(name) => write!(f, "{} is in no version", name.as_str()),
        }
    }
}

impl Error for RestoreFault {}
