ghost use Rattle.std.specs.Prelude.{◌≡◌, []};
ghost use Rattle.checkpoint_reader.specs.PartReads.{Is, more};
ghost use Rattle.checkpoint_reader.specs.PartReading as spec;

use crate::forms::Texts;
use crate::part_fault::PartFault;
use crate::part_fields::{read_byte, read_four, read_sixteen, read_text};
use crate::spot::Spot;
use part_bytes::tag::{ABSENT, BUILTIN, FALSE, NOTHING, NUMBER, REFERENCE, TEXT, TRUE};
use plain_data::Items;
use py_value::{Builtin, Key, Value};
use std::alloc::Global;

/// A key with this tag, which is at that place.
#[tactic(auto, using(std::proofs::lemmas::Bool::Decides::nat_tests), unfolding(crate::specs::PartReading::key_by))]
pub(crate) fn read_key(
    alloc: Global,
    bytes: &[u8],
    spot: &mut Spot,
    texts: &Texts,
    at: usize,
    tag: u8,
) -> Result<Key, PartFault>
    ensures { Is (spec.key_by texts.now bytes.now at tag spot.old) result spot.new }
{
    match tag {
        NOTHING => Ok(Key::Nothing),
        FALSE => Ok(Key::Bool(false)),
        TRUE => Ok(Key::Bool(true)),
        NUMBER => {
            let number = read_sixteen(bytes, spot)?;
            Ok(Key::Number(number))
        }
        TEXT => {
            let text = read_text(alloc, bytes, spot, texts)?;
            Ok(Key::Text(text))
        }
        _ => Err(PartFault::BadTag(at)),
    }
}

/// A reference whose tag is at that place.
#[tactic(auto, using(std::proofs::lemmas::Bool::Decides::nat_tests), unfolding(crate::specs::PartReading::reference))]
fn read_reference(bytes: &[u8], spot: &mut Spot, at: usize) -> Result<Value, PartFault>
    ensures { Is (spec.reference bytes.now at spot.old) result spot.new }
{
    let n = read_four(bytes, spot)?;
    let number = n as usize;
    if number < spot.met {
        return Ok(Value::Ref(n));
    }
    if number == spot.met && number < spot.most {
        spot.met = number + 1;
        return Ok(Value::Ref(n));
    }
    Err(PartFault::BadRef(at))
}

#[tactic(auto, using(std::proofs::lemmas::Bool::Decides::nat_tests))]
fn builtin_of(byte: u8) -> Option<Builtin>
    ensures { result ≡ spec.builtin_of byte }
{
    match byte {
        0 => Some(Builtin::Print),
        1 => Some(Builtin::Len),
        2 => Some(Builtin::Str),
        3 => Some(Builtin::Repr),
        4 => Some(Builtin::Int),
        5 => Some(Builtin::Range),
        6 => Some(Builtin::Draw),
        7 => Some(Builtin::Handle),
        8 => Some(Builtin::Tell),
        _ => None,
    }
}

#[tactic(auto, unfolding(crate::specs::PartReading::builtin))]
fn read_builtin(bytes: &[u8], spot: &mut Spot) -> Result<Value, PartFault>
    ensures { Is (spec.builtin bytes.now spot.old) result spot.new }
{
    let at = spot.at;
    let code = read_byte(bytes, spot)?;
    match builtin_of(code) {
        Some(builtin) => Ok(Value::Builtin(builtin)),
        None => Err(PartFault::BadTag(at)),
    }
}

/// A value with this tag, which is at that place.
#[tactic(auto, using(std::proofs::lemmas::Bool::Decides::nat_tests), unfolding(crate::specs::PartReading::value_by))]
pub(crate) fn read_value_by(
    alloc: Global,
    bytes: &[u8],
    spot: &mut Spot,
    texts: &Texts,
    at: usize,
    tag: u8,
) -> Result<Value, PartFault>
    ensures { Is (spec.value_by texts.now bytes.now at tag spot.old) result spot.new }
{
    if tag == REFERENCE {
        return read_reference(bytes, spot, at);
    }
    if tag == BUILTIN {
        return read_builtin(bytes, spot);
    }
    let key = read_key(alloc, bytes, spot, texts, at, tag)?;
    Ok(key.value()?)
}

#[tactic(auto, unfolding(crate::specs::PartReading::value))]
pub(crate) fn read_value(
    alloc: Global,
    bytes: &[u8],
    spot: &mut Spot,
    texts: &Texts,
) -> Result<Value, PartFault>
    ensures { Is (spec.value texts.now bytes.now spot.old) result spot.new }
{
    let at = spot.at;
    let tag = read_byte(bytes, spot)?;
    read_value_by(alloc, bytes, spot, texts, at, tag)
}

/// What a name has; only a name that is alone may have no value.
#[tactic(auto, using(std::proofs::lemmas::Bool::Decides::nat_tests), unfolding(crate::specs::PartReading::held))]
pub(crate) fn read_held(
    alloc: Global,
    bytes: &[u8],
    spot: &mut Spot,
    texts: &Texts,
    alone: bool,
) -> Result<Option<Value>, PartFault>
    ensures { Is (spec.held texts.now bytes.now alone spot.old) result spot.new }
{
    let at = spot.at;
    let tag = read_byte(bytes, spot)?;
    if tag == ABSENT && alone {
        return Ok(None);
    }
    let value = read_value_by(alloc, bytes, spot, texts, at, tag)?;
    Ok(Some(value))
}

/// `count` values.
pub(crate) fn read_values(
    alloc: Global,
    bytes: &[u8],
    spot: &mut Spot,
    texts: &Texts,
    count: u32,
) -> Result<Items<Value>, PartFault>
    ensures { Is (more (λ before. spec.value texts.now bytes.now) count [] spot.old) result spot.new }
{
    let mut all = Items::new(alloc);
    for index in 0..count {
        let next = read_value(alloc, bytes, spot, texts)?;
        all.push(next)?;
    }
    Ok(all)
}
