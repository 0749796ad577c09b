ghost use Rattle.std.specs.Prelude.{◌≡◌, ◌≤◌, length, IfOk};
ghost use Rattle.std.specs.Option.{option_copied};
ghost use Rattle.py_token.specs.Lines.{tokens_of};
ghost use Rattle.py_reader.specs.Verdict.{verdict};
ghost use Rattle.py_reader.specs.Completeness as spec;
ghost use Rattle.py_reader.specs.Completeness.{IsCompleteness};

use crate::answer::Completeness;
use crate::fault::{ReadError, SyntaxFault};
use crate::read::{MAX_CODE, read_cell};
use py_blocks::last_word;
use py_token::{Kind, Symbol, Token, TokenError, tokens};
use std::alloc::{AllocError, Global};

/// How many bytes are after the last LF.
fn last_line_length(bytes: &[u8]) -> usize
    ensures exact { result ≡ spec.last_line_length bytes.now }
    ensures bound { result ≤ length bytes.now }
{
    bytes
        .iter()
        .rev()
        .take_while(|byte| **byte != b'\n')
        .count()
}

/// What is after the last LF.
fn last_line(bytes: &[u8]) -> &[u8]
    ensures { result.now ≡ spec.last_line bytes.now }
{
    &bytes[bytes.len() - last_line_length(bytes)..]
}

/// How many spaces the line begins with.
fn spaces(line: &[u8]) -> usize
    ensures exact { result ≡ spec.spaces line.now }
    ensures bound { result ≤ length line.now }
{
    line.iter().take_while(|byte| **byte == b' ').count()
}

/// How many spaces further in the next line is.
fn further(kind: &Kind) -> usize
    ensures exact { result ≡ spec.further kind.now }
    ensures bound { result ≤ 4 }
{
    match kind {
        Kind::Symbol(Symbol::Colon) => 4,
        _ => 0,
    }
}

/// How many spaces the line of the last word begins with, and four more after a colon.
fn indent_behind(code: &str, last: Option<&Token>) -> usize
    ensures { result ≡ spec.indent_behind code.now (option_copied last.entry) }
{
    match last {
        Some(last) => {
            let end = code.len().min(last.start as usize);
            spaces(last_line(&code.as_bytes()[..end])) + further(&last.kind)
        }
        None => 0,
    }
}

/// How many spaces the line after a code that isn't too long is to begin with.
fn indent(alloc: Global, code: &str) -> Result<usize, AllocError>
    requires { length code.now ≤ 262144 }
    ensures { IfOk result (λ indent. indent ≡ spec.indent_of code.now (tokens_of code.now)) }
{
    match tokens(alloc, code) {
        Ok(tokens) => Ok(indent_behind(code, last_word(tokens.as_slice()))),
        Err(TokenError::Fault(_)) => Ok(0),
        Err(TokenError::OutOfMemory) => Err(AllocError),
    }
}

/// How far a text is a cell: whether `read_cell` gives a tree, or refuses just the end of the text, or anything else.
///
/// After a text that is incomplete the next line is as far in as the line of the last token that isn't a line's end,
/// and four spaces further after a `:`. (Jupyter messaging 5.3, `is_complete_request`.)
#[tactic(auto, using(crate::proofs::Told::told))]
pub fn completeness(alloc: Global, code: &str) -> Result<Completeness, AllocError>
    // By the verdict as a definition that computes.
    ensures exact { IfOk result (λ answer. answer ≡ spec.completeness_of code.now (verdict code.now)) }

    // By the verdict in the words of the grammar.
    ensures meaning { IfOk result (IsCompleteness code.now) }
{
    if MAX_CODE < code.len() {
        return Ok(Completeness::Invalid);
    }
    match read_cell(alloc, code) {
        Ok(_) => Ok(Completeness::Complete),
        Err(ReadError::Fault(SyntaxFault::NoParse { end: true, .. })) => {
            Ok(Completeness::Incomplete(indent(alloc, code)?))
        }
        Err(ReadError::Fault(_)) => Ok(Completeness::Invalid),
        Err(ReadError::OutOfMemory) => Err(AllocError),
    }
}
