ghost use Rattle.std.specs.Prelude.{◌≡◌, ◌<◌, ◌≤◌, ◌+◌, ◌-◌, ◌*◌, ◌^◌, SomeIff};
ghost use Rattle.std.specs.Char.{is_ascii_digit};
ghost use Rattle.std.specs.List.{list_all};
ghost use Rattle.py_value.specs.Numbers as spec;

use std::error::Error;
use std::fmt;

/// Why a text spells no number.
#[derive(Clone, Copy, Debug, PartialEq, Eq)]
pub enum NumberFault {
    /// The text isn't of the form.
    Invalid,
    /// The number is outside -2^127 to 2^127 - 1.
    Wide,
}

impl fmt::Display for NumberFault {
    fn fmt<W: fmt::Write>(&self, f: &mut fmt::Formatter<W>) -> fmt::Result {
        match self {
            NumberFault::Invalid => write!(f, "the text spells no number"),
            NumberFault::Wide => write!(f, "the number has more than 128 bits"),
        }
    }
}

impl Error for NumberFault {}

/// One past the greatest number, and the size of the least.
const LIMIT: u128 = 1 << 127;

fn is_space(byte: u8) -> bool
    ensures { result ≡ spec.is_space byte }
{
    byte == b' ' || (9..=13).contains(&byte)
}

/// The bytes without the white space in front.
#[tactic(auto, unfolding(crate::specs::Numbers::without_front))]
fn without_front(bytes: &[u8]) -> &[u8]
    ensures { result.now ≡ spec.without_front bytes.now }
{
    let mut rest = bytes;
    while let [first, more @ ..] = rest {
        if !is_space(*first) {
            break;
        }
        rest = more;
    }
    rest
}

/// The bytes without the white space at the end.
#[tactic(auto, unfolding(crate::specs::Numbers::without_front), using(crate::proofs::Ends::reversed_end, crate::proofs::Ends::reversed_twice))]
fn without_end(bytes: &[u8]) -> &[u8]
    ensures { result.now ≡ spec.without_end bytes.now }
{
    let mut rest = bytes;
    while let [more @ .., last] = rest {
        if !is_space(*last) {
            break;
        }
        rest = more;
    }
    rest
}

fn all_digits(bytes: &[u8]) -> bool
    ensures { result ≡ list_all is_ascii_digit bytes.now }
{
    bytes.iter().all(|byte| byte.is_ascii_digit())
}

fn are_digits(bytes: &[u8]) -> bool
    ensures { result ≡ spec.are_digits bytes.now }
{
    all_digits(bytes) && !bytes.is_empty()
}

/// The number with one digit more, up to 2^127.
fn with_digit(number: u128, digit: u8) -> Option<u128>
    ensures { SomeIff result (number * 10 + (digit - 48) ≤ 2 ^ 127) (number * 10 + (digit - 48)) }
{
    let digit = u128::from(digit.saturating_sub(48));
    let number = number.checked_mul(10)?.checked_add(digit)?;
    if number <= LIMIT { Some(number) } else { None }
}

/// The number that digits spell, up to 2^127.
#[tactic(auto, unfolding(crate::specs::Numbers::decimal_from))]
fn decimal(bytes: &[u8]) -> Option<u128>
    ensures { result ≡ spec.up_to_limit (spec.decimal_from 0 bytes.now) }
{
    let mut number: u128 = 0;
    for byte in bytes {
        match with_digit(number, *byte) {
            Some(longer) => number = longer,
            None => return None,
        }
    }
    Some(number)
}

/// The number that digits spell after a plus or no sign.
#[tactic(auto, unfolding(crate::specs::Numbers::positive))]
fn positive(digits: &[u8]) -> Result<i128, NumberFault>
    ensures { result ≡ spec.positive digits.now }
{
    if !are_digits(digits) {
        return Err(NumberFault::Invalid);
    }
    match decimal(digits) {
        Some(number) if number < LIMIT => Ok(number as i128),
        _ => Err(NumberFault::Wide),
    }
}

/// The number that digits spell after a minus.
#[tactic(auto, unfolding(crate::specs::Numbers::negative))]
fn negative(digits: &[u8]) -> Result<i128, NumberFault>
    ensures { result ≡ spec.negative digits.now }
{
    if !are_digits(digits) {
        return Err(NumberFault::Invalid);
    }
    match decimal(digits) {
        Some(LIMIT) => Ok(i128::MIN),
        Some(number) if number < LIMIT => Ok(-(number as i128)),
        _ => Err(NumberFault::Wide),
    }
}

/// The number that a text spells: one or more ASCII digits after a sign or none, with ASCII white space around them
/// (space, TAB, LF, VT, FF, CR). Takes no memory.
#[tactic(auto, unfolding(crate::specs::Numbers::signed))]
pub fn number_of(text: &str) -> Result<i128, NumberFault>
    ensures { result ≡ spec.number_of text.now }
{
    match without_end(without_front(text.as_bytes())) {
        [b'-', digits @ ..] => negative(digits),
        [b'+', digits @ ..] => positive(digits),
        digits => positive(digits),
    }
}
