ghost use Rattle.std.specs.Prelude.{◌≡◌, false, [], is_some, IfOk};
ghost use Rattle.py_heap.specs.Dicts.{value_under};
ghost use Rattle.py_reader.specs.DefinitionVerdict.{verdict_alone};
ghost use Rattle.checkpoint_reader.specs.PartReads.{Is, more};
ghost use Rattle.checkpoint_reader.specs.PartReading as spec;

use crate::forms::Texts;
use crate::part_fault::PartFault;
use crate::part_fields::{read_byte, read_four, read_text};
use crate::part_values::{read_key, read_value, read_values};
use crate::spot::Spot;
use part_bytes::tag::{DICT, FUNCTION, LIST, TUPLE};
use plain_data::Items;
use py_heap::{Dict, Function, Object, SequenceKind};
use py_reader::{ReadError, read_def};
use py_value::{Key, Value};
use std::alloc::Global;

#[tactic(auto, unfolding(crate::specs::PartReading::list_or_tuple))]
fn read_sequence(
    alloc: Global,
    bytes: &[u8],
    spot: &mut Spot,
    texts: &Texts,
    kind: SequenceKind,
) -> Result<Object, PartFault>
    ensures { Is (spec.list_or_tuple texts.now bytes.now kind spot.old) result spot.new }
{
    let count = read_four(bytes, spot)?;
    let items = read_values(alloc, bytes, spot, texts, count)?;
    Ok(Object::sequence(kind, items))
}

/// The next pair of a dict, whose key is none of those before it.
#[tactic(auto, unfolding(crate::specs::PartReading::pair))]
fn read_pair(
    alloc: Global,
    bytes: &[u8],
    spot: &mut Spot,
    texts: &Texts,
    before: &Dict,
) -> Result<(Key, Value), PartFault>
    ensures exact { Is (spec.pair texts.now bytes.now before.now spot.old) result spot.new }
    ensures fresh { IfOk result (λ pair. is_some (value_under before.now pair.0) ≡ false) }
{
    let at = spot.at;
    let tag = read_byte(bytes, spot)?;
    let key = read_key(alloc, bytes, spot, texts, at, tag)?;
    let known = before.get(&key).is_some();
    if known {
        return Err(PartFault::BadKey(at));
    }
    let value = read_value(alloc, bytes, spot, texts)?;
    Ok((key, value))
}

/// `count` pairs.
fn read_pairs(
    alloc: Global,
    bytes: &[u8],
    spot: &mut Spot,
    texts: &Texts,
    count: u32,
) -> Result<Dict, PartFault>
    ensures { Is (more (spec.pair texts.now bytes.now) count [] spot.old) result spot.new }
{
    let mut dict = Dict::new(alloc);
    for index in 0..count {
        let next = read_pair(alloc, bytes, spot, texts, &dict)?;
        dict.put(next.0, next.1)?;
    }
    Ok(dict)
}

#[tactic(auto, unfolding(crate::specs::PartReading::dict))]
fn read_dict(
    alloc: Global,
    bytes: &[u8],
    spot: &mut Spot,
    texts: &Texts,
) -> Result<Object, PartFault>
    ensures { Is (spec.dict texts.now bytes.now spot.old) result spot.new }
{
    let count = read_four(bytes, spot)?;
    let dict = read_pairs(alloc, bytes, spot, texts, count)?;
    Ok(Object::Dict(dict))
}

/// The function with that source, whose length is at that place.
fn function_of(alloc: Global, source: &str, at: usize, spot: Spot) -> Result<Object, PartFault>
    ensures { Is (spec.function_of at (verdict_alone source.now) spot) result spot }
{
    match read_def(alloc, source) {
        Ok(def) => Ok(Object::Function(Function::new(alloc, def)?)),
        Err(ReadError::OutOfMemory) => Err(PartFault::OutOfMemory),
        Err(ReadError::Fault(_)) => Err(PartFault::BadText(at)),
    }
}

#[tactic(auto, unfolding(crate::specs::PartReading::function))]
fn read_function(
    alloc: Global,
    bytes: &[u8],
    spot: &mut Spot,
    texts: &Texts,
) -> Result<Object, PartFault>
    ensures { Is (spec.function texts.now bytes.now spot.old) result spot.new }
{
    let at = spot.at;
    let source = read_text(alloc, bytes, spot, texts)?;
    function_of(alloc, source.as_str(), at, *spot)
}

fn is_object_tag(tag: u8) -> bool
    ensures { result ≡ spec.is_object_tag tag }
{
    tag == LIST || (tag == DICT || (tag == FUNCTION || tag == TUPLE))
}

/// An object with this tag.
#[tactic(auto, using(std::proofs::lemmas::Bool::Decides::nat_tests), unfolding(crate::specs::PartReading::content))]
fn read_content(
    alloc: Global,
    bytes: &[u8],
    spot: &mut Spot,
    texts: &Texts,
    tag: u8,
) -> Result<Object, PartFault>
    ensures { Is (spec.content texts.now bytes.now tag spot.old) result spot.new }
{
    if tag == LIST {
        return read_sequence(alloc, bytes, spot, texts, SequenceKind::List);
    }
    if tag == DICT {
        return read_dict(alloc, bytes, spot, texts);
    }
    if tag == FUNCTION {
        return read_function(alloc, bytes, spot, texts);
    }
    read_sequence(alloc, bytes, spot, texts, SequenceKind::Tuple)
}

/// An object of that number with this tag, which is at that place.
#[tactic(auto, using(std::proofs::lemmas::Bool::Decides::nat_tests), unfolding(crate::specs::PartReading::object_by))]
fn read_object_by(
    alloc: Global,
    bytes: &[u8],
    spot: &mut Spot,
    texts: &Texts,
    number: usize,
    at: usize,
    tag: u8,
) -> Result<Object, PartFault>
    ensures { Is (spec.object_by texts.now bytes.now number at tag spot.old) result spot.new }
{
    let known = is_object_tag(tag);
    if !known {
        return Err(PartFault::BadTag(at));
    }
    if number < spot.met {
        return read_content(alloc, bytes, spot, texts, tag);
    }
    Err(PartFault::BadRef(at))
}

/// The next object, after these.
#[tactic(auto, unfolding(crate::specs::PartReading::object))]
fn read_object(
    alloc: Global,
    bytes: &[u8],
    spot: &mut Spot,
    texts: &Texts,
    before: &Items<Object>,
) -> Result<Object, PartFault>
    ensures { Is (spec.object texts.now bytes.now before.now spot.old) result spot.new }
{
    let at = spot.at;
    let tag = read_byte(bytes, spot)?;
    read_object_by(alloc, bytes, spot, texts, before.len(), at, tag)
}

/// `count` objects.
fn read_all_objects(
    alloc: Global,
    bytes: &[u8],
    spot: &mut Spot,
    texts: &Texts,
    count: u32,
) -> Result<Items<Object>, PartFault>
    ensures { Is (more (spec.object texts.now bytes.now) count [] spot.old) result spot.new }
{
    let mut all = Items::new(alloc);
    for index in 0..count {
        let next = read_object(alloc, bytes, spot, texts, &all)?;
        all.push(next)?;
    }
    Ok(all)
}

/// The objects, after how many there are.
#[tactic(auto, using(std::proofs::lemmas::Bool::Decides::nat_tests), unfolding(crate::specs::PartReading::objects))]
pub(crate) fn read_objects(
    alloc: Global,
    bytes: &[u8],
    spot: &mut Spot,
    texts: &Texts,
) -> Result<Items<Object>, PartFault>
    ensures { Is (spec.objects texts.now bytes.now spot.old) result spot.new }
{
    let at = spot.at;
    let count = read_four(bytes, spot)?;
    let most = count as usize;
    if most < spot.met {
        return Err(PartFault::BadRef(at));
    }
    spot.most = most;
    read_all_objects(alloc, bytes, spot, texts, count)
}
