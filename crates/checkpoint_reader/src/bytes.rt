ghost use Rattle.std.specs.Prelude.{◌≡◌, ◌≤◌, true, length, drop, IfOk, MatchResult, Ok, Err};
ghost use Rattle.checkpoint_reader.specs.Reads.{Is};
ghost use Rattle.checkpoint_reader.specs.Fields as spec;

use crate::fault::CheckpointFault;
use byteorder::{BigEndian, ByteOrder};

/// The next bytes, of the field at that place.
#[tactic(auto, using(std::proofs::lemmas::Bool::Decides::nat_tests), unfolding(crate::specs::Fields::taken))]
pub(crate) fn take_bytes<'a>(
    bytes: &'a [u8],
    spot: &mut usize,
    field: usize,
    n: usize,
) -> Result<&'a [u8], CheckpointFault>
    ensures exact { MatchResult result (λ xs. spec.taken bytes.now field n spot.old ≡ Ok (xs.now, spot.new)) (λ e. spec.taken bytes.now field n spot.old ≡ Err e) }
    ensures len { IfOk result (λ xs. length xs.now ≡ n) }
{
    let from = *spot;
    if bytes.len() < n || bytes.len() - n < from {
        return Err(CheckpointFault::Cut(field));
    }
    let end = from + n;
    *spot = end;
    Ok(&bytes[from..end])
}

#[tactic(auto, unfolding(crate::specs::Fields::byte))]
pub(crate) fn read_byte(bytes: &[u8], spot: &mut usize) -> Result<u8, CheckpointFault>
    ensures { Is (spec.byte bytes.now spot.old) result spot.new }
{
    let at = *spot;
    let xs = take_bytes(bytes, spot, at, 1)?;
    Ok(xs[0])
}

/// A number in two bytes.
#[tactic(auto, unfolding(crate::specs::Fields::two))]
pub(crate) fn read_two(bytes: &[u8], spot: &mut usize) -> Result<u16, CheckpointFault>
    ensures { Is (spec.two bytes.now spot.old) result spot.new }
{
    let at = *spot;
    let xs = take_bytes(bytes, spot, at, 2)?;
    Ok(BigEndian::read_u16(xs))
}

/// A number in four bytes.
#[tactic(auto, unfolding(crate::specs::Fields::four))]
pub(crate) fn read_four(bytes: &[u8], spot: &mut usize) -> Result<u32, CheckpointFault>
    ensures { Is (spec.four bytes.now spot.old) result spot.new }
{
    let at = *spot;
    let xs = take_bytes(bytes, spot, at, 4)?;
    Ok(BigEndian::read_u32(xs))
}

/// A number in four bytes that isn't above a bound.
#[tactic(auto, using(std::proofs::lemmas::Bool::Decides::nat_tests), unfolding(crate::specs::Fields::at_most))]
pub(crate) fn read_at_most(
    bytes: &[u8],
    spot: &mut usize,
    most: u32,
) -> Result<u32, CheckpointFault>
    ensures exact { Is (spec.at_most bytes.now most spot.old) result spot.new }
    ensures bound { IfOk result (λ n. n ≤ most) }
{
    let at = *spot;
    let n = read_four(bytes, spot)?;
    if n > most {
        return Err(CheckpointFault::BadField(at));
    }
    Ok(n)
}

/// A byte that is 0 for false or 1 for true.
#[tactic(auto, using(std::proofs::lemmas::Bool::Decides::nat_tests), unfolding(crate::specs::Fields::truth))]
pub(crate) fn read_truth(bytes: &[u8], spot: &mut usize) -> Result<bool, CheckpointFault>
    ensures { Is (spec.truth bytes.now spot.old) result spot.new }
{
    let at = *spot;
    let byte = read_byte(bytes, spot)?;
    match byte {
        0 => Ok(false),
        1 => Ok(true),
        _ => Err(CheckpointFault::BadField(at)),
    }
}

/// The bytes from a place on.
pub(crate) fn rest_of(bytes: &[u8], from: usize) -> &[u8]
    ensures { result.now ≡ drop from bytes.now }
{
    if from <= bytes.len() {
        &bytes[from..]
    } else {
        &[]
    }
}
