ghost use Rattle.std.specs.Prelude.{◌≡◌, ◌+◌, ◌≤◌, length, IfOk};
ghost use Rattle.std.specs.List.{prefix_len};
ghost use Rattle.std.specs.Str.{IsUtf8};
ghost use Rattle.py_names.specs.Names.{continues_name};
ghost use Rattle.py_token.specs.Spellings.{is_quote};
ghost use Rattle.py_token.specs.Lexemes.{next_is, keyword_of, named, name_at};
ghost use Rattle.py_token.specs.Gives.{Gives};

use crate::faults::{TokenError, TokenFault};
use crate::kinds::Kind;
use crate::lines::Lexeme;
use crate::words::keyword_of;
use plain_data::Text;
use py_names::{MAX_NAME, continues_name};
use std::alloc::{AllocError, Global};
use std::str;

/// Whether the byte is a quote.
pub fn is_quote(byte: u8) -> bool
    ensures { result ≡ is_quote byte }
{
    byte == b'\'' || byte == b'"'
}

/// Whether the first byte is a quote.
pub fn quote_follows(bytes: &[u8]) -> bool
    ensures { result ≡ next_is is_quote bytes.now }
{
    match bytes {
        [first, ..] => is_quote(*first),
        [] => false,
    }
}

/// The text that the bytes are.
pub fn text_of(alloc: Global, bytes: &[u8]) -> Result<Text, AllocError>
    requires { IsUtf8 bytes.now }
    ensures { IfOk result (λ text. text ≡ bytes.now) }
{
    match str::from_utf8(bytes) {
        Ok(text) => Text::new(alloc, text),
        Err(_) => unreachable!(),
    }
}

#[tactic(auto, using(crate::proofs::Bytes::widths))]
fn name_width(bytes: &[u8]) -> usize
    ensures value { result ≡ prefix_len continues_name bytes.now }
    ensures within { result ≤ length bytes.now }
{
    bytes
        .iter()
        .take_while(|byte| continues_name(**byte))
        .count()
}

/// The kind of a name or keyword.
fn kind_of(alloc: Global, name: &[u8]) -> Result<Kind, AllocError>
    requires { IsUtf8 name.now }
    ensures { IfOk result (λ kind. kind ≡ named (keyword_of name.now) name.now) }
{
    match keyword_of(name) {
        Some(keyword) => Ok(Kind::Keyword(keyword)),
        None => Ok(Kind::Name(text_of(alloc, name)?)),
    }
}

/// The name or keyword at the front of the bytes, which begin at that place.
#[tactic(auto, using(crate::proofs::Bytes::name_is_utf8), unfolding(crate::specs::Lexemes::name_at))]
pub fn name_at(alloc: Global, at: u32, bytes: &[u8]) -> Result<Lexeme, TokenError>
    requires { at + length bytes.now ≤ 262144 }
    ensures { Gives result (name_at at bytes.now) }
{
    let width = name_width(bytes);
    if width > MAX_NAME {
        return Err(TokenError::Fault(TokenFault::LongName(at)));
    }
    if quote_follows(&bytes[width..]) {
        return Err(TokenError::Fault(TokenFault::BadChar(at + width as u32)));
    }
    let kind = kind_of(alloc, &bytes[..width])?;
    Ok(Lexeme {
        kind,
        width: width as u32,
    })
}
