//! The table of texts of version 2.

ghost use Rattle.std.specs.Prelude.{◌≡◌, [], ◌∷◌, ◌++◌, IfOk, OnOk};
ghost use Rattle.checkpoint_reader.specs.Reads.{Is, turns};
ghost use Rattle.checkpoint_reader.specs.Fields as spec;
ghost use Rattle.part_bytes.specs.Tables.{has_text, with_text};

use crate::bytes::{read_four, take_bytes};
use crate::fault::CheckpointFault;
use crate::fields::{Listed, Table};
use crate::forms::Texts;
use crate::texts::text_of;
use part_bytes::TextTable;
use plain_data::{Items, SharedText};
use std::alloc::{AllocError, Global};

/// Puts a text at the end of those that are seen, if it is none of them, and says whether it was.
fn see<'a>(seen: &mut TextTable<'a>, text: &'a str) -> Result<bool, AllocError>
    ensures known { IfOk result (λ known. known ≡ has_text seen.old text.now) }
    ensures seen { OnOk result (seen.new ≡ with_text seen.old text.now) }
{
    let count = seen.len();
    let number = seen.number(text)?;
    Ok(number < count)
}

/// The texts so far and one more.
fn with_next(alloc: Global, mut listed: Listed, text: &str, at: usize) -> Result<Listed, AllocError>
    ensures texts { IfOk result (λ now. now.texts ≡ listed.texts ++ text.now ∷ []) }
    ensures places { IfOk result (λ now. now.places ≡ listed.places ++ at ∷ []) }
{
    listed.texts.push(SharedText::from_str(alloc, text)?)?;
    listed.places.push(at)?;
    Ok(listed)
}

/// The texts so far and the next one, which is none of them. Those that are seen are the texts so far.
#[tactic(auto, unfolding(crate::specs::Fields::next_text))]
fn read_next_text<'a>(
    alloc: Global,
    bytes: &'a [u8],
    spot: &mut usize,
    seen: &mut TextTable<'a>,
    before: Listed,
) -> Result<Listed, CheckpointFault>
    requires { seen.old ≡ before.texts }
    ensures exact { Is (spec.next_text bytes.now before spot.old) result spot.new }
    ensures seen { IfOk result (λ now. seen.new ≡ now.texts) }
{
    let at = *spot;
    let len = read_four(bytes, spot)?;
    let xs = take_bytes(bytes, spot, at, len as usize)?;
    let text = text_of(xs, at)?;
    let known = see(seen, text)?;
    if known {
        return Err(CheckpointFault::BadField(at));
    }
    Ok(with_next(alloc, before, text, at)?)
}

/// `count` texts.
fn read_all_texts(
    alloc: Global,
    bytes: &[u8],
    spot: &mut usize,
    count: u32,
) -> Result<Listed, CheckpointFault>
    ensures { Is (turns (spec.next_text bytes.now) count spec.none_listed spot.old) result spot.new }
{
    let mut seen = TextTable::new(alloc);
    let mut listed = Listed {
        texts: Items::new(alloc),
        places: Items::new(alloc),
    };
    for index in 0..count {
        listed = read_next_text(alloc, bytes, spot, &mut seen, listed)?;
    }
    Ok(listed)
}

/// The table of texts of a version of the format: none in version 1.
#[tactic(auto, using(std::proofs::lemmas::Bool::Decides::nat_tests), unfolding(crate::specs::Fields::table))]
pub(crate) fn read_table(
    alloc: Global,
    bytes: &[u8],
    spot: &mut usize,
    version: u16,
) -> Result<Table, CheckpointFault>
    ensures { Is (spec.table bytes.now version spot.old) result spot.new }
{
    if version == 1 {
        return Ok(Table {
            texts: Texts::InPlace,
            places: Items::new(alloc),
        });
    }
    let count = read_four(bytes, spot)?;
    let listed = read_all_texts(alloc, bytes, spot, count)?;
    let Listed { texts, places } = listed;
    Ok(Table {
        texts: Texts::Numbered(texts),
        places,
    })
}
