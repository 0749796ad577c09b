ghost use Rattle.std.specs.Prelude.{◌≡◌};
ghost use Rattle.jupyter_messages.specs.Outcomes.{is_told};

use plain_data::Text;
use std::alloc::AllocError;
use std::error::Error;
use std::fmt;

/// Why no message was read: the fault of the first check that fails. The checks come in this order: JSON, the object, its
/// header, its channel, its kernel, its type, whether the channel is one of the type's, its content.
#[derive(Debug, Drop)]
pub enum MessageFault {
    /// Memory ran out.
    OutOfMemory,
    /// The bytes are no JSON.
    NotJson,
    /// A member that has to be there isn't.
    NoField(Text),
    /// A member of another kind, length, range or value.
    WrongKind(Text),
    /// The kernel's text is none of a UUID's spellings.
    BadUuid,
    /// No request has this type.
    UnknownType(Text),
}

/// What is wrong, and with which member or type.
impl fmt::Display for MessageFault {
    ghost use Rattle.std.specs.Prelude.{Some};
    ghost use Rattle.jupyter_messages.specs.Texts.{fault_text};

    ghost output = { λ fault. Some (fault_text fault) };

    fn fmt<W: fmt::Write>(&self, f: &mut fmt::Formatter<W>) -> fmt::Result {
        match self {
            MessageFault::OutOfMemory => write!(f, "out of memory"),
            MessageFault::NotJson => write!(f, "no JSON"),
            MessageFault::NoField(name) => {
                let name = name.as_str();
                write!(f, "no field {name}")
            }
            MessageFault::WrongKind(name) => {
                let name = name.as_str();
                write!(f, "wrong kind {name}")
            }
            MessageFault::BadUuid => write!(f, "bad UUID"),
            MessageFault::UnknownType(name) => {
                let name = name.as_str();
                write!(f, "unknown type {name}")
            }
        }
    }
}

impl Error for MessageFault {}

impl From<AllocError> for MessageFault {
    ghost use Rattle.std.specs.Prelude.{◌≡◌};
    ghost use Rattle.jupyter_messages.specs.declared.fault.MessageFault.TheVariants.{OutOfMemory};

    ghost from_gives = { λ _ e. e ≡ OutOfMemory };

    fn from(_: AllocError) -> MessageFault {
        MessageFault::OutOfMemory
    }
}

impl MessageFault {
    /// Whether it tells something of the message: it does, unless memory ran out.
    pub fn is_told(&self) -> bool
        ensures { result ≡ is_told self.now }
    {
        !matches!(self, MessageFault::OutOfMemory)
    }
}
