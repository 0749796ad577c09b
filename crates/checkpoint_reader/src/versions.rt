ghost use Rattle.std.specs.Prelude.{◌≡◌, ◌==◌, ◌<◌, ◌+◌, ◌^◌, length, IfOk};
ghost use Rattle.part_bytes.specs.Texts.{bytes_of};
ghost use Rattle.checkpoint_reader.specs.Reads.{Is, turns};
ghost use Rattle.checkpoint_reader.specs.Fields as spec;
ghost use Rattle.checkpoint_reader.specs.Numbered.{AreVersions};

use crate::bytes::{read_byte, read_four, read_truth, rest_of};
use crate::fault::CheckpointFault;
use crate::fields::Versions;
use crate::forms::Texts;
use crate::texts::read_names;
use crate::{PartFault, read_part2};
use graph_model::Version;
use part_bytes::{PartValue, part_size};
use plain_data::Items;
use py_value::Value;
use std::alloc::{AllocError, Global};

/// 0 for a part without a handle, 1 for a name that was deleted, 2 for a part with a handle.
#[tactic(auto, using(std::proofs::lemmas::Bool::Decides::nat_tests), unfolding(crate::specs::Fields::flag))]
fn read_flag(bytes: &[u8], spot: &mut usize) -> Result<u8, CheckpointFault>
    ensures { Is (spec.flag bytes.now spot.old) result spot.new }
{
    let at = *spot;
    let flag = read_byte(bytes, spot)?;
    if flag > 2 {
        return Err(CheckpointFault::BadField(at));
    }
    Ok(flag)
}

/// The size of a version with that flag: only a part without a handle has one.
#[tactic(auto, using(std::proofs::lemmas::Bool::Decides::nat_tests), unfolding(crate::specs::Fields::size))]
fn read_size(bytes: &[u8], spot: &mut usize, flag: u8) -> Result<u32, CheckpointFault>
    ensures { Is (spec.size bytes.now flag spot.old) result spot.new }
{
    let at = *spot;
    let size = read_four(bytes, spot)?;
    if flag == 0 || size == 0 {
        return Ok(size);
    }
    Err(CheckpointFault::BadField(at))
}

/// A version, and whether the plan copies it.
#[tactic(auto, unfolding(crate::specs::Fields::version))]
fn read_version(
    alloc: Global,
    bytes: &[u8],
    spot: &mut usize,
) -> Result<(Version, bool), CheckpointFault>
    ensures { Is (spec.version bytes.now spot.old) result spot.new }
{
    let writer = read_four(bytes, spot)?;
    let replaced = read_four(bytes, spot)?;
    let flag = read_flag(bytes, spot)?;
    let size = read_size(bytes, spot, flag)?;
    let names = read_names(alloc, bytes, spot)?;
    let copied = read_truth(bytes, spot)?;
    let version = Version {
        names,
        writer,
        replaced,
        absent: flag == 1,
        handle: flag == 2,
        size,
    };
    Ok((version, copied))
}

/// The next part, if so many texts were referred to before it, and how many were after it.
#[tactic(auto, unfolding(crate::specs::Fields::part))]
fn read_next_part(
    alloc: Global,
    bytes: &[u8],
    spot: &mut usize,
    texts: &Texts,
    known: usize,
) -> Result<(PartValue, usize), CheckpointFault>
    ensures { Is (spec.part bytes.now texts.now known spot.old) result spot.new }
{
    let at = *spot;
    match read_part2(alloc, rest_of(bytes, at), texts, known) {
        Ok((part, size, known)) => {
            *spot = at + size;
            Ok((part, known))
        }
        Err(PartFault::OutOfMemory) => Err(CheckpointFault::OutOfMemory),
        Err(fault) => Err(CheckpointFault::Part { at, fault }),
    }
}

/// Whether the first of the values is none.
fn has_no_value(values: &[Option<Value>]) -> bool
    ensures { result ≡ spec.has_no_value values.now }
{
    match values {
        [first, ..] => first.is_none(),
        [] => false,
    }
}

/// Whether the text of a part in version 1 is so long.
fn is_of_size(part: &PartValue, size: u32) -> bool
    ensures { result ≡ (length (bytes_of part.now) == size) }
{
    match part_size(part) {
        Some(len) => len == size,
        None => false,
    }
}

/// Whether an absent version's part has a value, or another version's part has none or isn't of the version's size.
#[tactic(auto, using(std::proofs::lemmas::Bool::Decides::nat_tests))]
fn is_otherwise(version: &Version, part: &PartValue) -> bool
    ensures { result ≡ spec.is_otherwise version.now part.now }
{
    let empty = has_no_value(part.values.as_slice());
    if version.absent {
        return !empty;
    }
    empty || !is_of_size(part, version.size)
}

/// Whether a copied version can't be copied, or isn't as its part.
#[tactic(auto, using(std::proofs::lemmas::Bool::Decides::nat_tests))]
fn is_unlike(version: &Version, part: &PartValue) -> bool
    ensures { result ≡ spec.is_unlike version.now part.now }
{
    let same = part.names.as_slice() == version.names.as_slice();
    !(version.replaced == 0) || (version.handle || (!same || is_otherwise(version, part)))
}

/// The versions, and one more.
fn with_version(mut versions: Versions, version: Version) -> Result<Versions, AllocError>
    ensures { IfOk result (λ now. now ≡ spec.with_version versions version) }
{
    versions.records.push(version)?;
    Ok(versions)
}

/// The number that was found before, or else this one if it is found.
fn first_found(before: Option<u32>, number: u32, found: bool) -> Option<u32>
    ensures { result ≡ spec.first_found before number found }
{
    match before {
        Some(first) => Some(first),
        None => { if found { Some(number) } else { None } }
    }
}

/// The versions, and one more that is copied, with its number, its part, and how many texts were referred to after it.
fn with_copy(
    mut versions: Versions,
    number: u32,
    version: Version,
    part: PartValue,
    known: usize,
) -> Result<Versions, AllocError>
    requires { number ≡ length versions.records + 1 }
    ensures { IfOk result (λ now. now ≡ spec.with_copy versions version (part, known)) }
{
    let unlike = is_unlike(&version, &part);
    versions.unlike = first_found(versions.unlike, number, unlike);
    versions.records.push(version)?;
    versions.copied.push(number)?;
    versions.parts.push(part)?;
    versions.known = known;
    Ok(versions)
}

/// The versions and one more, and its part if it is copied.
#[tactic(auto, unfolding(crate::specs::Fields::kept))]
fn keep_version(
    alloc: Global,
    bytes: &[u8],
    spot: &mut usize,
    texts: &Texts,
    number: u32,
    before: Versions,
    version: Version,
    copied: bool,
) -> Result<Versions, CheckpointFault>
    requires { number ≡ length before.records + 1 }
    ensures { Is (spec.kept bytes.now texts.now before version copied spot.old) result spot.new }
{
    if copied {
        let (part, known) = read_next_part(alloc, bytes, spot, texts, before.known)?;
        return Ok(with_copy(before, number, version, part, known)?);
    }
    Ok(with_version(before, version)?)
}

/// The versions, and the next one, which has that number.
#[tactic(auto, unfolding(crate::specs::Fields::next_version))]
fn read_next_version(
    alloc: Global,
    bytes: &[u8],
    spot: &mut usize,
    texts: &Texts,
    number: u32,
    before: Versions,
) -> Result<Versions, CheckpointFault>
    requires { number ≡ length before.records + 1 }
    ensures { Is (spec.next_version bytes.now texts.now before spot.old) result spot.new }
{
    let (version, copied) = read_version(alloc, bytes, spot)?;
    keep_version(alloc, bytes, spot, texts, number, before, version, copied)
}

/// `count` versions.
fn read_all_versions(
    alloc: Global,
    bytes: &[u8],
    spot: &mut usize,
    texts: &Texts,
    known: usize,
    count: u32,
) -> Result<Versions, CheckpointFault>
    ensures exact { Is (turns (spec.next_version bytes.now texts.now) count (spec.no_versions known) spot.old) result spot.new }
    ensures sound { IfOk result (AreVersions count) }
{
    let mut versions = Versions {
        records: Items::new(alloc),
        copied: Items::new(alloc),
        parts: Items::new(alloc),
        unlike: None,
        known,
    };
    for index in 0..count {
        versions = read_next_version(alloc, bytes, spot, texts, index + 1, versions)?;
    }
    Ok(versions)
}

/// The versions, after how many there are, if so many texts were referred to before them.
#[tactic(auto, unfolding(crate::specs::Fields::versions))]
pub(crate) fn read_versions(
    alloc: Global,
    bytes: &[u8],
    spot: &mut usize,
    texts: &Texts,
    known: usize,
) -> Result<Versions, CheckpointFault>
    ensures exact { Is (spec.versions bytes.now texts.now known spot.old) result spot.new }
    ensures sound { IfOk result (λ versions. AreVersions (length versions.records) versions × (length versions.records < 2 ^ 32)) }
{
    let count = read_four(bytes, spot)?;
    read_all_versions(alloc, bytes, spot, texts, known, count)
}
