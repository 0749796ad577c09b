ghost use Rattle.std.specs.Prelude.{◌≡◌, ◌+◌, ◌*◌, ◌<◌, ◌≤◌, zero, length, IfOk, OnOk, Some, true, ◌++◌, encode_utf8};
ghost use Rattle.std.specs.Char.{is_ascii_hexdigit, digit_value};
ghost use Rattle.std.specs.Str.{IsUtf8};
ghost use Rattle.py_token.specs.Spellings.{hexadecimal, escape};
ghost use Rattle.py_token.specs.Lexemes.{ends_line, piece, body, text_at};
ghost use Rattle.py_token.specs.Gives.{Gives};
ghost use Rattle.py_token.specs.Bodies.{closed, IsWithin};

use crate::faults::{TokenError, TokenFault};
use crate::kinds::Kind;
use crate::lines::Lexeme;
use crate::names::{is_quote, quote_follows, text_of};
use crate::pieces::{Body, Escape, Piece};
use plain_data::Items;
use std::alloc::{AllocError, Global};

/// Whether the first byte is an LF.
pub fn ends_line(bytes: &[u8]) -> bool
    ensures { result ≡ ends_line bytes.now }
{
    match bytes {
        [first, ..] => *first == b'\n',
        [] => false,
    }
}

fn hexadecimal_value(byte: u8) -> u8
    requires { is_ascii_hexdigit byte ≡ true }
    ensures value { result ≡ digit_value byte }
    ensures small { result < 16 }
{
    match byte {
        b'0'..=b'9' => byte - b'0',
        b'A'..=b'F' => byte - 55,
        _ => byte - 87,
    }
}

fn hexadecimal(bytes: &[u8]) -> Option<Escape>
    ensures { result ≡ hexadecimal bytes.now }
{
    match bytes {
        [high, low, ..] if high.is_ascii_hexdigit() && low.is_ascii_hexdigit() => Some(Escape {
            character: hexadecimal_value(*high) * 16 + hexadecimal_value(*low),
            width: 3,
        }),
        _ => None,
    }
}

fn short_escape(character: u8) -> Option<Escape>
    ensures { result ≡ Some (record { character = character; width = 1 }) }
{
    Some(Escape {
        character,
        width: 1,
    })
}

/// The escape whose backslash is before these bytes.
fn escape(bytes: &[u8]) -> Option<Escape>
    ensures { result ≡ escape bytes.now }
{
    match bytes {
        [first, ..] if *first == b'\\' || is_quote(*first) => short_escape(*first),
        [b'n', ..] => short_escape(b'\n'),
        [b'r', ..] => short_escape(b'\r'),
        [b't', ..] => short_escape(b'\t'),
        [b'x', rest @ ..] => hexadecimal(rest),
        _ => None,
    }
}

/// What is at a place after an opening quote: this byte, and these after it.
#[tactic(auto, unfolding(crate::specs::Lexemes::piece))]
fn piece(quote: u8, byte: u8, rest: &[u8]) -> Piece
    ensures { result ≡ piece quote byte rest.now }
{
    if byte == quote {
        Piece::Quote
    } else if byte == b'\n' {
        Piece::LineEnd
    } else if byte == b'\r' {
        if ends_line(rest) {
            Piece::LineEnd
        } else {
            Piece::Bad
        }
    } else if byte == b'\\' {
        match escape(rest) {
            Some(escape) => Piece::Escaped(escape),
            None => Piece::Bad,
        }
    } else {
        Piece::Plain(byte)
    }
}

fn push_character(written: &mut Items<u8>, character: u8) -> Result<(), AllocError>
    ensures { OnOk result (written.new ≡ written.old ++ encode_utf8 character) }
{
    let mut buffer = [0u8; 4];
    for byte in char::from(character).encode_utf8(&mut buffer).as_bytes() {
        written.push(*byte)?;
    }
    Ok(())
}

/// The closing quote comes, after these bytes and this first bad character.
fn closed(written: Items<u8>, bad: Option<usize>, width: usize) -> Body
    ensures { result ≡ closed written bad width }
{
    match bad {
        Some(place) => Body::Spoiled(place),
        None => Body::Closed(written, width),
    }
}

/// What is after an opening quote.
fn body(alloc: Global, quote: u8, bytes: &[u8]) -> Result<Body, AllocError>
    ensures value { IfOk result (λ found. found ≡ body quote zero bytes.now) }
    ensures within { IfOk result (λ found. IsWithin found (length bytes.now)) }
{
    let mut written = Items::new(alloc);
    let mut bad = None;
    let mut at = 0;
    while at < bytes.len() {
        match piece(quote, bytes[at], &bytes[at + 1..]) {
            Piece::Quote => return Ok(closed(written, bad, at + 1)),
            Piece::LineEnd => return Ok(Body::Unclosed),
            Piece::Bad => {
                bad = Some(bad.unwrap_or(at));
                at += 1;
            }
            Piece::Plain(byte) => {
                written.push(byte)?;
                at += 1;
            }
            Piece::Escaped(escape) => {
                push_character(&mut written, escape.character)?;
                at += 1 + escape.width;
            }
        }
    }
    Ok(Body::Unclosed)
}

/// The text at the front of some bytes: its opening quote, which is at that place, and the bytes after it.
#[tactic(auto, unfolding(crate::specs::Lexemes::text_at))]
pub fn text_at(alloc: Global, at: u32, quote: u8, rest: &[u8]) -> Result<Lexeme, TokenError>
    requires ascii { quote < 128 }
    requires text { IsUtf8 rest.now }
    requires short { at + (1 + length rest.now) ≤ 262144 }
    ensures { Gives result (text_at at quote rest.now) }
{
    match body(alloc, quote, rest)? {
        Body::Unclosed => Err(TokenError::Fault(TokenFault::OpenText(at))),
        Body::Spoiled(place) => Err(TokenError::Fault(TokenFault::BadChar(at + 1 + place as u32))),
        Body::Closed(written, width) => {
            if quote_follows(&rest[width..]) {
                return Err(TokenError::Fault(TokenFault::BadChar(at + 1 + width as u32)));
            }
            Ok(Lexeme {
                kind: Kind::Text(text_of(alloc, written.as_slice())?),
                width: 1 + width as u32,
            })
        }
    }
}
