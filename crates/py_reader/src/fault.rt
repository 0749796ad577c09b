ghost use Rattle.std.specs.Prelude.{◌≡◌};
ghost use Rattle.py_reader.specs.Gives.{of_token};

use py_grammar::Construct;
use py_token::{TokenError, TokenFault};
use std::alloc::AllocError;

/// Why a code has no tree. Places are byte offsets.
#[derive(Clone, Copy, Debug, PartialEq, Eq)]
pub enum SyntaxFault {
    /// The code has more than 262,144 bytes.
    TooLong,
    /// It has no tokens.
    Token(TokenFault),
    /// The first token such that no cell begins with the tokens up to it, and whether that is the end of the text.
    NoParse { at: u32, end: bool },
    /// The first node at depth 65.
    TooDeep(u32),
    /// That first token, if it begins this construct, which Python has and this language doesn't.
    Outside(u32, Construct),
}

/// Why a call gives no tree.
#[derive(Clone, Copy, Debug, PartialEq, Eq)]
pub enum ReadError {
    OutOfMemory,
    Fault(SyntaxFault),
}

impl From<AllocError> for ReadError {
    ghost use Rattle.std.specs.Prelude.{◌≡◌};
    ghost use Rattle.py_reader.specs.declared.fault.ReadError.TheVariants.{OutOfMemory};

    ghost from_gives = { λ _ e. e ≡ OutOfMemory };

    fn from(_: AllocError) -> ReadError {
        ReadError::OutOfMemory
    }
}

/// Why a code has no tokens.
pub fn token_error(error: TokenError) -> ReadError
    ensures { result ≡ of_token error }
{
    match error {
        TokenError::OutOfMemory => ReadError::OutOfMemory,
        TokenError::Fault(fault) => ReadError::Fault(SyntaxFault::Token(fault)),
    }
}
