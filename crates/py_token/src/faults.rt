use std::alloc::AllocError;
use std::error::Error;
use std::fmt;

/// Why a text has no tokens: what offends first, and its place, a byte offset.
#[derive(Clone, Copy, Debug, PartialEq, Eq)]
pub enum TokenFault {
    /// A character that can't be there.
    BadChar(u32),
    /// The opening quote of a text that its line ends in.
    OpenText(u32),
    /// The first token of a line whose depth isn't open.
    BadIndent(u32),
    /// The first tab in the indentation of a line that has a token.
    Tab(u32),
    /// A number above 2^127 - 1.
    WideNumber(u32),
    /// A name of more than 255 bytes.
    LongName(u32),
}

/// What offends, and at which byte.
impl fmt::Display for TokenFault {
    ghost use Rattle.std.specs.Prelude.{Some};
    ghost use Rattle.py_token.specs.Texts.{fault_text};

    ghost output = { λ fault. Some (fault_text fault) };

    fn fmt<W: fmt::Write>(&self, f: &mut fmt::Formatter<W>) -> fmt::Result {
        match *self {
            TokenFault::BadChar(at) => write!(f, "bad character at byte {at}"),
            TokenFault::OpenText(at) => write!(f, "open text at byte {at}"),
            TokenFault::BadIndent(at) => write!(f, "bad indent at byte {at}"),
            TokenFault::Tab(at) => write!(f, "tab in indent at byte {at}"),
            TokenFault::WideNumber(at) => write!(f, "number too wide at byte {at}"),
            TokenFault::LongName(at) => write!(f, "name too long at byte {at}"),
        }
    }
}

impl Error for TokenFault {}

/// Why `tokens` gives no tokens.
#[derive(Clone, Copy, Debug, PartialEq, Eq)]
pub enum TokenError {
    OutOfMemory,
    Fault(TokenFault),
}

impl From<AllocError> for TokenError {
    ghost use Rattle.std.specs.Prelude.{◌≡◌};
    ghost use Rattle.py_token.specs.declared.faults.TokenError.TheVariants.{OutOfMemory};

    ghost from_gives = { λ _ e. e ≡ OutOfMemory };

    fn from(_: AllocError) -> TokenError {
        TokenError::OutOfMemory
    }
}

impl fmt::Display for TokenError {
    fn fmt<W: fmt::Write>(&self, f: &mut fmt::Formatter<W>) -> fmt::Result {
        match self {
            TokenError::OutOfMemory => write!(f, "out of memory"),
            TokenError::Fault(fault) => write!(f, "{fault}"),
        }
    }
}

impl Error for TokenError {}
