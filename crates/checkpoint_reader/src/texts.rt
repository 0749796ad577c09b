ghost use Rattle.std.specs.Prelude.{◌≡◌, ◌<◌, ◌^◌, [], false, true, MatchResult};
ghost use Rattle.std.specs.Str.{is_utf8};
ghost use Rattle.checkpoint_reader.specs.Reads.{Is, many};
ghost use Rattle.checkpoint_reader.specs.PartReading.{known_after};
ghost use Rattle.checkpoint_reader.specs.Fields as spec;

use crate::bytes::{read_byte, read_four, take_bytes};
use crate::fault::CheckpointFault;
use crate::forms::Texts;
use plain_data::{Items, SharedText, Text};
use std::alloc::Global;
use std::str::from_utf8;

/// The most bytes that a cell's code has.
const LONGEST: usize = 262_148;

/// The text with these bytes, whose field is at that place.
pub(crate) fn text_of(xs: &[u8], at: usize) -> Result<&str, CheckpointFault>
    ensures { MatchResult result (λ text. (text.now ≡ xs.now) × (is_utf8 xs.now ≡ true)) (λ e. (e ≡ CheckpointFault.BadField at) × (is_utf8 xs.now ≡ false)) }
{
    match from_utf8(xs) {
        Ok(text) => Ok(text),
        Err(_) => Err(CheckpointFault::BadField(at)),
    }
}

/// A cell's code, after its length.
#[tactic(auto, using(std::proofs::lemmas::Bool::Decides::nat_tests), unfolding(crate::specs::Fields::code))]
fn read_spelled_code(alloc: Global, bytes: &[u8], spot: &mut usize) -> Result<Text, CheckpointFault>
    ensures { Is (spec.code bytes.now spot.old) result spot.new }
{
    let at = *spot;
    let len = read_four(bytes, spot)?;
    let xs = take_bytes(bytes, spot, at, len as usize)?;
    if xs.len() > LONGEST {
        return Err(CheckpointFault::BadField(at));
    }
    let text = text_of(xs, at)?;
    Ok(Text::new(alloc, text)?)
}

/// How many texts were referred to after the one of that number.
#[tactic(auto, using(std::proofs::lemmas::Bool::Decides::nat_tests))]
fn known_after(known: usize, number: usize) -> usize
    requires { number < 2 ^ 32 }
    ensures { result ≡ known_after known number }
{
    if number == known { number + 1 } else { known }
}

/// The text of that number as a code, whose field is at that place: a text that was referred to before, or the next one. And how many texts were
/// referred to after it.
#[tactic(auto, using(std::proofs::lemmas::Bool::Decides::nat_tests))]
fn numbered_code(
    alloc: Global,
    table: &Items<SharedText>,
    known: usize,
    at: usize,
    number: u32,
    spot: usize,
) -> Result<(Text, usize), CheckpointFault>
    ensures { Is (spec.numbered_code table.now known at number spot) result spot }
{
    let place = number as usize;
    if place > known {
        return Err(CheckpointFault::BadField(at));
    }
    let Some(text) = table.get(place) else {
        return Err(CheckpointFault::BadField(at));
    };
    if text.len() > LONGEST {
        return Err(CheckpointFault::BadField(at));
    }
    let code = Text::new(alloc, text.as_str())?;
    Ok((code, known_after(known, place)))
}

/// A code by its number in the table, and how many texts were referred to after it.
#[tactic(auto, unfolding(crate::specs::Fields::code_by_number))]
fn read_numbered_code(
    alloc: Global,
    bytes: &[u8],
    spot: &mut usize,
    table: &Items<SharedText>,
    known: usize,
) -> Result<(Text, usize), CheckpointFault>
    ensures { Is (spec.code_by_number bytes.now table.now known spot.old) result spot.new }
{
    let at = *spot;
    let number = read_four(bytes, spot)?;
    numbered_code(alloc, table, known, at, number, *spot)
}

/// A cell's code, if so many texts were referred to before it; and how many were after it.
pub(crate) fn read_code(
    alloc: Global,
    bytes: &[u8],
    spot: &mut usize,
    texts: &Texts,
    known: usize,
) -> Result<(Text, usize), CheckpointFault>
    ensures { Is (spec.code_as bytes.now texts.now known spot.old) result spot.new }
{
    match texts {
        Texts::InPlace => {
            let code = read_spelled_code(alloc, bytes, spot)?;
            Ok((code, known))
        }
        Texts::Numbered(table) => read_numbered_code(alloc, bytes, spot, table, known),
    }
}

/// A name, after its length.
#[tactic(auto, unfolding(crate::specs::Fields::name))]
fn read_name(alloc: Global, bytes: &[u8], spot: &mut usize) -> Result<Text, CheckpointFault>
    ensures { Is (spec.name bytes.now spot.old) result spot.new }
{
    let at = *spot;
    let len = read_byte(bytes, spot)?;
    let xs = take_bytes(bytes, spot, at, len as usize)?;
    let text = text_of(xs, at)?;
    Ok(Text::new(alloc, text)?)
}

/// `count` names.
fn read_all_names(
    alloc: Global,
    bytes: &[u8],
    spot: &mut usize,
    count: u32,
) -> Result<Items<Text>, CheckpointFault>
    ensures { Is (many (spec.name bytes.now) count spot.old) result spot.new }
{
    let mut all = Items::new(alloc);
    for index in 0..count {
        let next = read_name(alloc, bytes, spot)?;
        all.push(next)?;
    }
    Ok(all)
}

/// The names, after how many there are.
#[tactic(auto, unfolding(crate::specs::Fields::names))]
pub(crate) fn read_names(
    alloc: Global,
    bytes: &[u8],
    spot: &mut usize,
) -> Result<Items<Text>, CheckpointFault>
    ensures { Is (spec.names bytes.now spot.old) result spot.new }
{
    let count = read_four(bytes, spot)?;
    read_all_names(alloc, bytes, spot, count)
}

/// `count` numbers.
fn read_all_numbers(
    alloc: Global,
    bytes: &[u8],
    spot: &mut usize,
    count: u32,
) -> Result<Items<u32>, CheckpointFault>
    ensures { Is (many (spec.four bytes.now) count spot.old) result spot.new }
{
    let mut all = Items::new(alloc);
    for index in 0..count {
        let next = read_four(bytes, spot)?;
        all.push(next)?;
    }
    Ok(all)
}

/// The numbers, after how many there are.
#[tactic(auto, unfolding(crate::specs::Fields::numbers))]
pub(crate) fn read_numbers(
    alloc: Global,
    bytes: &[u8],
    spot: &mut usize,
) -> Result<Items<u32>, CheckpointFault>
    ensures { Is (spec.numbers bytes.now spot.old) result spot.new }
{
    let count = read_four(bytes, spot)?;
    read_all_numbers(alloc, bytes, spot, count)
}
