ghost use Rattle.std.specs.Prelude.{◌≡◌, [], true};
ghost use Rattle.checkpoint_reader.specs.PartReads.{Is, more, tells};
ghost use Rattle.checkpoint_reader.specs.PartReading as spec;
ghost use Rattle.checkpoint_reader.specs.PartReading.{part_read, part_read2};

use crate::forms::Texts;
use crate::part_fault::PartFault;
use crate::part_fields::{read_byte, read_four, take_bytes};
use crate::part_objects::read_objects;
use crate::part_values::read_held;
use crate::spot::Spot;
use part_bytes::PartValue;
use plain_data::{Items, Text};
use py_names::is_variable;
use py_value::Value;
use std::alloc::Global;
use std::cmp::Ordering;
use std::str::from_utf8;

/// How many objects four bytes can number.
const MOST_OBJECTS: usize = 4_294_967_296;

/// Whether a name is after the last of the names.
#[tactic(auto, unfolding(crate::specs::PartReading::follows))]
fn follows(names: &Items<Text>, name: &Text) -> bool
    ensures { result ≡ spec.follows names.now name.now }
{
    let all = names.as_slice();
    match all.last() {
        None => true,
        Some(last) => match last.cmp(name) {
            Ordering::Less => true,
            Ordering::Equal => false,
            Ordering::Greater => false,
        },
    }
}

/// The name with this text, whose length is at that place.
fn variable_of(
    alloc: Global,
    before: &Items<Text>,
    text: &str,
    at: usize,
    spot: Spot,
) -> Result<Text, PartFault>
    ensures { Is (spec.name_of at before.now text.now spot) result spot }
{
    let variable = is_variable(text);
    if !variable {
        return Err(PartFault::BadName(at));
    }
    let name = Text::new(alloc, text)?;
    let next = follows(before, &name);
    if !next {
        return Err(PartFault::BadName(at));
    }
    Ok(name)
}

/// The name with these bytes, whose length is at that place.
fn name_of(
    alloc: Global,
    before: &Items<Text>,
    xs: &[u8],
    at: usize,
    spot: Spot,
) -> Result<Text, PartFault>
    ensures { Is (spec.name_of at before.now xs.now spot) result spot }
{
    match from_utf8(xs) {
        Ok(text) => variable_of(alloc, before, text, at, spot),
        Err(_) => Err(PartFault::BadName(at)),
    }
}

/// The next name.
#[tactic(auto, unfolding(crate::specs::PartReading::name))]
fn read_name(
    alloc: Global,
    bytes: &[u8],
    spot: &mut Spot,
    before: &Items<Text>,
) -> Result<Text, PartFault>
    ensures { Is (spec.name bytes.now before.now spot.old) result spot.new }
{
    let at = spot.at;
    let len = read_byte(bytes, spot)?;
    let xs = take_bytes(bytes, spot, len as usize)?;
    name_of(alloc, before, xs, at, *spot)
}

/// `count` names.
fn read_all_names(
    alloc: Global,
    bytes: &[u8],
    spot: &mut Spot,
    count: u32,
) -> Result<Items<Text>, PartFault>
    ensures { Is (more (spec.name bytes.now) count [] spot.old) result spot.new }
{
    let mut all = Items::new(alloc);
    for index in 0..count {
        let next = read_name(alloc, bytes, spot, &all)?;
        all.push(next)?;
    }
    Ok(all)
}

/// The names, after how many there are.
#[tactic(auto, using(std::proofs::lemmas::Bool::Decides::nat_tests), unfolding(crate::specs::PartReading::names))]
fn read_names(alloc: Global, bytes: &[u8], spot: &mut Spot) -> Result<Items<Text>, PartFault>
    ensures { Is (spec.names bytes.now spot.old) result spot.new }
{
    let at = spot.at;
    let count = read_four(bytes, spot)?;
    if count == 0 {
        return Err(PartFault::BadName(at));
    }
    read_all_names(alloc, bytes, spot, count)
}

/// What each of `count` names has.
fn read_all_held(
    alloc: Global,
    bytes: &[u8],
    spot: &mut Spot,
    texts: &Texts,
    count: usize,
    alone: bool,
) -> Result<Items<Option<Value>>, PartFault>
    ensures { Is (more (λ before. spec.held texts.now bytes.now alone) count [] spot.old) result spot.new }
{
    let mut all = Items::new(alloc);
    for index in 0..count {
        let next = read_held(alloc, bytes, spot, texts, alone)?;
        all.push(next)?;
    }
    Ok(all)
}

#[tactic(auto, unfolding(crate::specs::PartReading::part, crate::specs::PartReading::values))]
fn read_whole(
    alloc: Global,
    bytes: &[u8],
    spot: &mut Spot,
    texts: &Texts,
) -> Result<PartValue, PartFault>
    ensures { Is (spec.part texts.now bytes.now spot.old) result spot.new }
{
    let names = read_names(alloc, bytes, spot)?;
    let count = names.len();
    let alone = count == 1;
    let values = read_all_held(alloc, bytes, spot, texts, count, alone)?;
    let objects = read_objects(alloc, bytes, spot, texts)?;
    Ok(PartValue {
        names,
        values,
        objects,
    })
}

/// Reads the part of a checkpoint that the bytes begin with, whose texts are read so, and before which `known` texts of the table were referred to.
/// Says how many bytes it has, and how many texts were referred to after it; or the first fault in the bytes.
#[tactic(auto, unfolding(crate::specs::PartReading::part_read2))]
pub fn read_part2(
    alloc: Global,
    bytes: &[u8],
    texts: &Texts,
    known: usize,
) -> Result<(PartValue, usize, usize), PartFault>
    ensures { tells result ≡ true → part_read2 texts.now known bytes.now ≡ result }
{
    let mut spot = Spot {
        at: 0,
        met: 0,
        most: MOST_OBJECTS,
        known,
    };
    let part = read_whole(alloc, bytes, &mut spot, texts)?;
    Ok((part, spot.at, spot.known))
}

/// Reads the part that the bytes begin with in version 1, and says how many bytes it has; or the first fault in the text.
#[tactic(auto, unfolding(crate::specs::PartReading::part_read))]
pub fn read_part(alloc: Global, bytes: &[u8]) -> Result<(PartValue, usize), PartFault>
    ensures { tells result ≡ true → part_read bytes.now ≡ result }
{
    let mut spot = Spot {
        at: 0,
        met: 0,
        most: MOST_OBJECTS,
        known: 0,
    };
    let part = read_whole(alloc, bytes, &mut spot, &Texts::InPlace)?;
    Ok((part, spot.at))
}
