ghost use Rattle.std.specs.Prelude.{◌≡◌, true, IfOk, MatchResult, Ok, Err};
ghost use Rattle.std.specs.Option.{option_copied};
ghost use Rattle.checkpoint_reader.specs.Reads.{Is, tells};
ghost use Rattle.checkpoint_reader.specs.Fields as spec;
ghost use Rattle.checkpoint_reader.specs.Numbered.{AreFields, IsRestorable};
ghost use Rattle.checkpoint_reader.specs.Judging.{IsAnswer};

use crate::bytes::{read_at_most, read_four, read_two, take_bytes};
use crate::cells::{MOST_METER, read_cells};
use crate::checkpoint::Checkpoint;
use crate::fault::CheckpointFault;
use crate::fields::Fields;
use crate::judged::judged;
use crate::table::read_table;
use crate::versions::read_versions;
use std::alloc::Global;

/// `ENCK`, with which a checkpoint begins.
const LETTERS: [u8; 4] = [69, 78, 67, 75];

/// Whether the bytes begin with the letters, or are too few and begin the letters.
fn begins(bytes: &[u8]) -> bool
    ensures { result ≡ spec.begins bytes.now }
{
    bytes.starts_with(&LETTERS) || LETTERS.starts_with(bytes)
}

/// The four letters.
#[tactic(auto, unfolding(crate::specs::Fields::magic))]
fn read_magic<'a>(bytes: &'a [u8], spot: &mut usize) -> Result<&'a [u8], CheckpointFault>
    ensures { MatchResult result (λ xs. spec.magic bytes.now spot.old ≡ Ok (xs.now, spot.new)) (λ e. spec.magic bytes.now spot.old ≡ Err e) }
{
    let known = begins(bytes);
    if !known {
        return Err(CheckpointFault::BadMagic);
    }
    take_bytes(bytes, spot, 0, 4)
}

/// The version of the format, which is 1 or 2.
#[tactic(auto, using(std::proofs::lemmas::Bool::Decides::nat_tests), unfolding(crate::specs::Fields::format))]
fn read_format(bytes: &[u8], spot: &mut usize) -> Result<u16, CheckpointFault>
    ensures { Is (spec.format bytes.now spot.old) result spot.new }
{
    let format = read_two(bytes, spot)?;
    if format == 1 || format == 2 {
        return Ok(format);
    }
    Err(CheckpointFault::BadVersion(format))
}

/// What was read, unless a text of the table is left to which nothing refers: the next one, at this place.
fn all_used(unused: Option<&usize>, spot: usize, read: Fields) -> Result<Fields, CheckpointFault>
    ensures { MatchResult result (λ now. (now ≡ read) × (spec.all_used (option_copied unused.entry) read spot ≡ Ok (read, spot))) (λ e. spec.all_used (option_copied unused.entry) read spot ≡ Err e) }
{
    match unused {
        Some(place) => Err(CheckpointFault::BadField(*place)),
        None => Ok(read),
    }
}

/// What was read, if no byte is left.
#[tactic(auto, using(std::proofs::lemmas::Bool::Decides::nat_tests), unfolding(crate::specs::Fields::ended))]
fn ended(bytes: &[u8], spot: usize, read: Fields) -> Result<Fields, CheckpointFault>
    ensures { MatchResult result (λ now. (now ≡ read) × (spec.ended bytes.now read spot ≡ Ok (read, spot))) (λ e. spec.ended bytes.now read spot ≡ Err e) }
{
    if spot == bytes.len() {
        return Ok(read);
    }
    Err(CheckpointFault::Trailing(spot))
}

/// The fields in their order, up to the end of the bytes.
#[tactic(auto, unfolding(crate::specs::Fields::fields))]
fn read_fields(alloc: Global, bytes: &[u8], spot: &mut usize) -> Result<Fields, CheckpointFault>
    ensures exact { Is (spec.fields bytes.now spot.old) result spot.new }
    ensures sound { IfOk result AreFields }
{
    read_magic(bytes, spot)?;
    let version = read_format(bytes, spot)?;
    let count = read_four(bytes, spot)?;
    let meter = read_at_most(bytes, spot, MOST_METER)?;
    let table = read_table(alloc, bytes, spot, version)?;
    let cells = read_cells(alloc, bytes, spot, &table.texts)?;
    let versions = read_versions(alloc, bytes, spot, &table.texts, cells.known)?;
    let unused = table.places.get(versions.known);
    let read = Fields {
        count,
        meter,
        cells,
        versions,
    };
    let read = all_used(unused, *spot, read)?;
    ended(bytes, *spot, read)
}

/// Reads a checkpoint of either version of the format: its value, or the first of its faults. The fields come first, in their order, then a text
/// of the table to which nothing refers, and then any byte that is left; then the graph; then the plan.
pub fn read_checkpoint(alloc: Global, bytes: &[u8]) -> Result<Checkpoint, CheckpointFault>
    ensures exact { tells result ≡ true → IsAnswer (spec.fields bytes.now 0) result }
    // What its text brings: its meter and its cells are within their bounds, its deleted names have no handle and no size, and each version
    // that its plan copies has its part.
    ensures restorable { IfOk result IsRestorable }
{
    let mut spot = 0;
    let read = read_fields(alloc, bytes, &mut spot)?;
    judged(alloc, read)
}
