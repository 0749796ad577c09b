use std::alloc::AllocError;
use std::error::Error;
use std::fmt;

/// Why bytes begin with no text of a part. Places are byte offsets.
#[derive(Clone, Copy, Debug, PartialEq, Eq)]
pub enum PartFault {
    OutOfMemory,
    /// The bytes end within the part.
    Cut,
    /// A tag that can't be there, or a byte that no built-in function has.
    BadTag(usize),
    /// A reference whose number is neither that of an object referred to before nor the next one; an object that nothing
    /// before it refers to; fewer objects than were referred to; or such a number of a text, or one that no text has.
    BadRef(usize),
    /// A key equal to an earlier one of its dict.
    BadKey(usize),
    /// No names, or a name that a program can't bind or that isn't after the one before it.
    BadName(usize),
    /// A text that isn't UTF-8, or a source that is no function.
    BadText(usize),
}

impl From<AllocError> for PartFault {
    ghost use Rattle.std.specs.Prelude.{◌≡◌};
    ghost use Rattle.checkpoint_reader.specs.declared.part_fault.PartFault.TheVariants.{OutOfMemory};

    ghost from_gives = { λ _ e. e ≡ OutOfMemory };

    fn from(_: AllocError) -> PartFault {
        PartFault::OutOfMemory
    }
}

impl fmt::Display for PartFault {
    fn fmt<W: fmt::Write>(&self, f: &mut fmt::Formatter<W>) -> fmt::Result {
        match *self {
            PartFault::OutOfMemory => write!(f, "out of memory"),
            PartFault::Cut => write!(f, "the part is cut"),
            PartFault::BadTag(at) => write!(f, "bad tag at byte {at}"),
            PartFault::BadRef(at) => write!(f, "bad reference at byte {at}"),
            PartFault::BadKey(at) => write!(f, "a key twice at byte {at}"),
            PartFault::BadName(at) => write!(f, "bad name at byte {at}"),
            PartFault::BadText(at) => write!(f, "bad text at byte {at}"),
        }
    }
}

impl Error for PartFault {}
