ghost use Rattle.std.specs.Prelude.{◌≡◌, IfOk};
ghost use Rattle.py_reader.specs.Texts.{construct_words, fault_text};

use crate::fault::{ReadError, SyntaxFault};
use plain_data::Text;
use py_grammar::Construct;
use py_token::word;
use std::alloc::{AllocError, Global};
use std::error::Error;
use std::fmt;

fn construct_words(construct: Construct) -> &'static str
    ensures { result.now ≡ construct_words construct }
{
    match construct {
        Construct::Word(keyword) => word(keyword),
        Construct::Comprehension => "comprehension",
        Construct::Set => "set",
        Construct::Is => "is",
        Construct::Attribute => "attribute",
        Construct::ChainedAssignment => "chained assignment",
        Construct::KeywordArgument => "keyword argument",
        Construct::Default => "default",
        Construct::NestedFunction => "nested function",
    }
}

/// What offends, and at which byte.
impl fmt::Display for SyntaxFault {
    ghost use Rattle.std.specs.Prelude.{Some};
    ghost use Rattle.py_reader.specs.Texts.{fault_text};

    ghost output = { λ fault. Some (fault_text fault) };

    fn fmt<W: fmt::Write>(&self, f: &mut fmt::Formatter<W>) -> fmt::Result {
        match *self {
            SyntaxFault::TooLong => write!(f, "cell too long"),
            SyntaxFault::Token(fault) => write!(f, "{fault}"),
            SyntaxFault::NoParse { at, end: _ } => write!(f, "no parse at byte {at}"),
            SyntaxFault::TooDeep(at) => write!(f, "too deep at byte {at}"),
            SyntaxFault::Outside(at, construct) => {
                let words = construct_words(construct);
                write!(f, "{words} is outside this subset at byte {at}")
            }
        }
    }
}

impl Error for SyntaxFault {}

impl fmt::Display for ReadError {
    fn fmt<W: fmt::Write>(&self, f: &mut fmt::Formatter<W>) -> fmt::Result {
        match self {
            ReadError::OutOfMemory => write!(f, "out of memory"),
            ReadError::Fault(fault) => write!(f, "{fault}"),
        }
    }
}

impl Error for ReadError {}

impl SyntaxFault {
    /// What the fault says, as a SyntaxError does: what offends, and at which byte.
    pub fn text(&self, alloc: Global) -> Result<Text, AllocError>
        ensures { IfOk result (λ text. text ≡ fault_text self.now) }
    {
        Ok(Text::from_string(format!(in alloc; "{self}")?))
    }
}
