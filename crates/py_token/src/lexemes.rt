ghost use Rattle.std.specs.Prelude.{◌≡◌, ◌+◌, ◌≤◌, length};
ghost use Rattle.py_token.specs.Lexemes.{operator_at, lexeme_at};
ghost use Rattle.py_token.specs.Bodies.{EndsText};
ghost use Rattle.py_token.specs.Gives.{Gives};

use crate::faults::{TokenError, TokenFault};
use crate::kinds::Kind;
use crate::lines::Lexeme;
use crate::names::{is_quote, name_at};
use crate::numbers::number_at;
use crate::texts::text_at;
use crate::words::{operator_of, sign_width};
use py_names::begins_name;
use std::alloc::Global;

/// The operator at the front of the bytes, which begin at that place.
#[tactic(auto, unfolding(crate::specs::Lexemes::operator_at))]
fn operator_at(at: u32, bytes: &[u8]) -> Result<Lexeme, TokenError>
    ensures { Gives result (operator_at at bytes.now) }
{
    match operator_of(bytes) {
        Some(op) => Ok(Lexeme {
            kind: Kind::Symbol(op),
            width: sign_width(op) as u32,
        }),
        None => Err(TokenError::Fault(TokenFault::BadChar(at))),
    }
}

/// The lexeme at the front of the bytes, which begin at that place.
#[tactic(auto, unfolding(crate::specs::Lexemes::lexeme_at))]
pub fn lexeme_at(alloc: Global, at: u32, bytes: &[u8]) -> Result<Lexeme, TokenError>
    requires text { EndsText bytes.now }
    requires short { at + length bytes.now ≤ 262144 }
    ensures { Gives result (lexeme_at at bytes.now) }
{
    match bytes {
        [first, ..] if begins_name(*first) => name_at(alloc, at, bytes),
        [first, ..] if first.is_ascii_digit() => number_at(at, bytes),
        [first, rest @ ..] if is_quote(*first) => text_at(alloc, at, *first, rest),
        [_, ..] => operator_at(at, bytes),
        [] => Err(TokenError::Fault(TokenFault::BadChar(at))),
    }
}
