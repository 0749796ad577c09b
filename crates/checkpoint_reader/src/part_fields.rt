ghost use Rattle.std.specs.Prelude.{◌≡◌, true, false, length, IfOk, MatchResult, Ok, Err};
ghost use Rattle.std.specs.Str.{is_utf8};
ghost use Rattle.checkpoint_reader.specs.PartReads.{Is};
ghost use Rattle.checkpoint_reader.specs.PartReading as spec;

use crate::forms::Texts;
use crate::part_fault::PartFault;
use crate::spot::Spot;
use byteorder::{BigEndian, ByteOrder};
use plain_data::{Items, SharedText};
use std::alloc::Global;
use std::str::from_utf8;

/// The next bytes.
#[tactic(auto, using(std::proofs::lemmas::Bool::Decides::nat_tests), unfolding(crate::specs::PartReading::taken))]
pub(crate) fn take_bytes<'a>(
    bytes: &'a [u8],
    spot: &mut Spot,
    n: usize,
) -> Result<&'a [u8], PartFault>
    ensures exact { MatchResult result (λ xs. spec.taken bytes.now n spot.old ≡ Ok (xs.now, spot.new)) (λ e. spec.taken bytes.now n spot.old ≡ Err e) }
    ensures len { IfOk result (λ xs. length xs.now ≡ n) }
{
    let from = spot.at;
    if bytes.len() < n || bytes.len() - n < from {
        return Err(PartFault::Cut);
    }
    let end = from + n;
    spot.at = end;
    Ok(&bytes[from..end])
}

#[tactic(auto, unfolding(crate::specs::PartReading::byte))]
pub(crate) fn read_byte(bytes: &[u8], spot: &mut Spot) -> Result<u8, PartFault>
    ensures { Is (spec.byte bytes.now spot.old) result spot.new }
{
    let xs = take_bytes(bytes, spot, 1)?;
    Ok(xs[0])
}

/// A number in four bytes.
#[tactic(auto, unfolding(crate::specs::PartReading::four))]
pub(crate) fn read_four(bytes: &[u8], spot: &mut Spot) -> Result<u32, PartFault>
    ensures { Is (spec.four bytes.now spot.old) result spot.new }
{
    let xs = take_bytes(bytes, spot, 4)?;
    Ok(BigEndian::read_u32(xs))
}

/// A number in sixteen bytes.
#[tactic(auto, unfolding(crate::specs::PartReading::sixteen))]
pub(crate) fn read_sixteen(bytes: &[u8], spot: &mut Spot) -> Result<i128, PartFault>
    ensures { Is (spec.sixteen bytes.now spot.old) result spot.new }
{
    let xs = take_bytes(bytes, spot, 16)?;
    Ok(BigEndian::read_i128(xs))
}

/// The text with these bytes, whose length is at that place.
fn text_of(xs: &[u8], at: usize) -> Result<&str, PartFault>
    ensures { MatchResult result (λ text. (text.now ≡ xs.now) × (is_utf8 xs.now ≡ true)) (λ e. (e ≡ PartFault.BadText at) × (is_utf8 xs.now ≡ false)) }
{
    match from_utf8(xs) {
        Ok(text) => Ok(text),
        Err(_) => Err(PartFault::BadText(at)),
    }
}

/// A text after its length.
#[tactic(auto, unfolding(crate::specs::PartReading::spelled_text))]
fn read_spelled_text(alloc: Global, bytes: &[u8], spot: &mut Spot) -> Result<SharedText, PartFault>
    ensures { Is (spec.spelled_text bytes.now spot.old) result spot.new }
{
    let at = spot.at;
    let n = read_four(bytes, spot)?;
    let xs = take_bytes(bytes, spot, n as usize)?;
    let text = text_of(xs, at)?;
    Ok(SharedText::from_str(alloc, text)?)
}

/// The text of that number, which is at that place: one that was referred to before, or the next one.
#[tactic(auto, using(std::proofs::lemmas::Bool::Decides::nat_tests))]
fn numbered_text(
    table: &Items<SharedText>,
    at: usize,
    number: u32,
    spot: &mut Spot,
) -> Result<SharedText, PartFault>
    ensures { Is (spec.numbered_text table.now at number spot.old) result spot.new }
{
    let place = number as usize;
    if place > spot.known {
        return Err(PartFault::BadRef(at));
    }
    let Some(text) = table.get(place) else {
        return Err(PartFault::BadRef(at));
    };
    let shared = text.share()?;
    if place == spot.known {
        spot.known = place + 1;
    }
    Ok(shared)
}

/// A text by its number in a table.
#[tactic(auto, unfolding(crate::specs::PartReading::text_by_number))]
fn read_text_by_number(
    bytes: &[u8],
    spot: &mut Spot,
    table: &Items<SharedText>,
) -> Result<SharedText, PartFault>
    ensures { Is (spec.text_by_number bytes.now table.now spot.old) result spot.new }
{
    let at = spot.at;
    let n = read_four(bytes, spot)?;
    numbered_text(table, at, n, spot)
}

/// A text, which is in its place or in a table.
#[tactic(auto, unfolding(crate::specs::PartReading::text))]
pub(crate) fn read_text(
    alloc: Global,
    bytes: &[u8],
    spot: &mut Spot,
    texts: &Texts,
) -> Result<SharedText, PartFault>
    ensures { Is (spec.text texts.now bytes.now spot.old) result spot.new }
{
    match texts {
        Texts::InPlace => read_spelled_text(alloc, bytes, spot),
        Texts::Numbered(table) => read_text_by_number(bytes, spot, table),
    }
}
