ghost use Rattle.std.specs.Prelude.{◌≡◌, ◌<◌, ◌^◌, [], ◌∷◌, ◌++◌, length, OnOk, FitsSigned};
ghost use Rattle.std.specs.Int.{w128};
ghost use Rattle.std.specs.List.{flat_map};
ghost use Rattle.py_value.specs.Keys.{value_of};
ghost use Rattle.py_value.specs.Values.{builtin_number};
ghost use Rattle.part_bytes.specs.Parts.{number_in, numbered};
ghost use Rattle.part_bytes.specs.Texts as spec;
ghost use Rattle.part_bytes.specs.Spellings.{spells};
ghost use Rattle.part_bytes.specs.Plain.{IsText, IsPlain};

use crate::numbers::{Numbers, count_of};
use crate::spelling::Spelling;
use crate::table::TextTable;
use crate::tag;
use byteorder::{BigEndian, ByteOrder};
use plain_data::{Items, SharedText};
use py_value::{Builtin, Key, Value};
use std::alloc::AllocError;

// Each function puts bytes at the end. After an error the bytes mean nothing, and are only dropped.

/// A number in four bytes.
#[tactic(auto, unfolding(crate::specs::Texts::four))]
pub fn write_four(out: &mut Items<u8>, n: u32) -> Result<(), AllocError>
    ensures { OnOk result (out.new ≡ out.old ++ spec.four n) }
{
    let mut bytes = [0u8; 4];
    BigEndian::write_u32(&mut bytes, n);
    out.extend_from_slice(&bytes)
}

/// A count. One of 2^32 or more is want of memory.
pub fn write_count(out: &mut Items<u8>, n: usize) -> Result<(), AllocError>
    ensures bytes { OnOk result (out.new ≡ out.old ++ spec.four n) }
    ensures few { OnOk result (n < 2 ^ 32) }
{
    write_four(out, count_of(n)?)
}

/// A number in sixteen bytes.
#[tactic(auto, unfolding(crate::specs::Texts::sixteen))]
fn write_sixteen(out: &mut Items<u8>, n: i128) -> Result<(), AllocError>
    ensures { OnOk result (out.new ≡ out.old ++ spec.sixteen n) }
{
    let mut bytes = [0u8; 16];
    BigEndian::write_i128(&mut bytes, n);
    out.extend_from_slice(&bytes)
}

/// A text after its length.
pub fn write_text(out: &mut Items<u8>, text: &str) -> Result<(), AllocError>
    ensures bytes { OnOk result (out.new ≡ out.old ++ spec.text_bytes text.now) }
    ensures plain { OnOk result (IsText text.now) }
{
    write_count(out, text.len())?;
    out.extend_from_slice(text.as_bytes())
}

/// A text by its number in a table. One of 2^32 bytes or more is want of memory.
pub fn write_text_number(
    out: &mut Items<u8>,
    texts: &TextTable,
    text: &str,
) -> Result<(), AllocError>
    ensures bytes { OnOk result (out.new ≡ out.old ++ spec.by_number texts.now text.now) }
    ensures plain { OnOk result (IsText text.now) }
{
    if text.len() > u32::MAX as usize {
        return Err(AllocError);
    }
    write_four(out, texts.place(text))
}

/// A text, spelled in its place or by its number.
pub(crate) fn write_spelled(
    out: &mut Items<u8>,
    spelling: &Spelling,
    text: &str,
) -> Result<(), AllocError>
    ensures bytes { OnOk result (out.new ≡ out.old ++ spells spelling.now text.now) }
    ensures plain { OnOk result (IsText text.now) }
{
    match spelling {
        Spelling::InPlace => write_text(out, text),
        Spelling::Numbered(texts) => write_text_number(out, texts, text),
    }
}

fn write_truth(out: &mut Items<u8>, truth: bool) -> Result<(), AllocError>
    ensures { OnOk result (out.new ≡ out.old ++ spec.truth_tag truth ∷ []) }
{
    out.push(if truth { tag::TRUE } else { tag::FALSE })
}

fn write_number(out: &mut Items<u8>, number: i128) -> Result<(), AllocError>
    ensures bytes { OnOk result (out.new ≡ out.old ++ 3 ∷ spec.sixteen number) }
    ensures plain { FitsSigned w128 number }
{
    out.push(tag::NUMBER)?;
    write_sixteen(out, number)
}

fn write_text_value(
    out: &mut Items<u8>,
    spelling: &Spelling,
    text: &SharedText,
) -> Result<(), AllocError>
    ensures bytes { OnOk result (out.new ≡ out.old ++ 4 ∷ spells spelling.now text.now) }
    ensures plain { OnOk result (IsText text.now) }
{
    out.push(tag::TEXT)?;
    write_spelled(out, spelling, text.as_str())
}

fn write_reference(out: &mut Items<u8>, number: u32) -> Result<(), AllocError>
    ensures { OnOk result (out.new ≡ out.old ++ 5 ∷ spec.four number) }
{
    out.push(tag::REFERENCE)?;
    write_four(out, number)
}

fn write_builtin(out: &mut Items<u8>, builtin: Builtin) -> Result<(), AllocError>
    ensures { OnOk result (out.new ≡ out.old ++ 6 ∷ builtin_number builtin ∷ []) }
{
    out.push(tag::BUILTIN)?;
    out.push(builtin.number())
}

/// A key, as the value that it is.
pub(crate) fn write_key(
    out: &mut Items<u8>,
    spelling: &Spelling,
    key: &Key,
) -> Result<(), AllocError>
    ensures bytes { OnOk result (out.new ≡ out.old ++ spec.spelled_value (spells spelling.now) (value_of key.now)) }
    ensures plain { OnOk result (IsPlain (value_of key.now)) }
{
    match key {
        Key::Nothing => out.push(tag::NOTHING),
        Key::Bool(truth) => write_truth(out, *truth),
        Key::Number(number) => write_number(out, *number),
        Key::Text(text) => write_text_value(out, spelling, text),
    }
}

/// A value, with the number of its object in place of an address.
pub(crate) fn write_value(
    out: &mut Items<u8>,
    numbers: &Numbers,
    spelling: &Spelling,
    value: &Value,
) -> Result<(), AllocError>
    ensures bytes { OnOk result (out.new ≡ out.old ++ spec.spelled_value (spells spelling.now) (numbered (number_in numbers.now.order) value.now)) }
    ensures plain { OnOk result (IsPlain value.now) }
{
    match value {
        Value::Nothing => out.push(tag::NOTHING),
        Value::Bool(truth) => write_truth(out, *truth),
        Value::Number(number) => write_number(out, *number),
        Value::Text(text) => write_text_value(out, spelling, text),
        Value::Ref(at) => write_reference(out, numbers.number(*at)),
        Value::Builtin(builtin) => write_builtin(out, *builtin),
    }
}
