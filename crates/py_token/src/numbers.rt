ghost use Rattle.std.specs.Prelude.{◌≡◌, ◌+◌, ◌-◌, ◌^◌, ◌<◌, ◌≤◌, zero, length, drop, min};
ghost use Rattle.py_token.specs.Spellings.{decimal};
ghost use Rattle.py_token.specs.Lexemes.{next_is, belongs, digits_after, follows_no_number, number_width, number_at};
ghost use Rattle.py_token.specs.Gives.{Gives};

use crate::faults::{TokenError, TokenFault};
use crate::kinds::Kind;
use crate::lines::Lexeme;
use py_names::continues_name;

fn belongs(first: u8, byte: u8) -> bool
    ensures { result ≡ belongs first byte }
{
    if first == b'0' {
        byte == b'0'
    } else {
        byte.is_ascii_digit()
    }
}

/// How many bytes carry the number on: a digit, an underscore and a digit, or none.
fn next_digit(first: u8, bytes: &[u8]) -> usize
    ensures within { result ≤ length bytes.now }
    ensures rest { digits_after first bytes.now ≡ result + digits_after first (drop result bytes.now) }
    ensures none { result ≡ 0 → digits_after first bytes.now ≡ 0 }
{
    match bytes {
        [byte, ..] if belongs(first, *byte) => 1,
        [b'_', byte, ..] if belongs(first, *byte) => 2,
        _ => 0,
    }
}

fn number_width(bytes: &[u8]) -> usize
    requires { 0 < length bytes.now }
    ensures value { result ≡ number_width bytes.now }
    ensures within { result ≤ length bytes.now }
{
    let mut width = 1;
    loop {
        let more = next_digit(bytes[0], &bytes[width..]);
        if more == 0 {
            return width;
        }
        width += more;
    }
}

/// The number that the digits write, or 2^128 - 1 if it is larger.
fn decimal(digits: &[u8]) -> u128
    ensures { result ≡ min (2 ^ 128 - 1) (decimal digits.now) }
{
    let mut value: u128 = 0;
    for byte in digits {
        if *byte != b'_' {
            let digit = byte.saturating_sub(b'0');
            value = value.saturating_mul(10).saturating_add(u128::from(digit));
        }
    }
    value
}

fn follows_no_number(bytes: &[u8]) -> bool
    ensures { result ≡ next_is follows_no_number bytes.now }
{
    match bytes {
        [byte, ..] => continues_name(*byte) || *byte == b'.',
        [] => false,
    }
}

/// One past the greatest number.
const LIMIT: u128 = 1 << 127;

/// The number at the front of the bytes, which begin at that place.
#[tactic(auto, unfolding(crate::specs::Lexemes::number_at))]
pub fn number_at(at: u32, bytes: &[u8]) -> Result<Lexeme, TokenError>
    requires nonempty { 0 < length bytes.now }
    requires short { at + length bytes.now ≤ 262144 }
    ensures { Gives result (number_at at bytes.now) }
{
    let width = number_width(bytes);
    let value = decimal(&bytes[..width]);
    if value >= LIMIT {
        return Err(TokenError::Fault(TokenFault::WideNumber(at)));
    }
    if follows_no_number(&bytes[width..]) {
        return Err(TokenError::Fault(TokenFault::BadChar(at + width as u32)));
    }
    Ok(Lexeme {
        kind: Kind::Number(value as i128),
        width: width as u32,
    })
}
