ghost use Rattle.std.specs.Prelude.{◌≡◌, ◌++◌, false, All, map, length, IfOk, OnOk};
ghost use Rattle.std.specs.List.{flat_map};
ghost use Rattle.py_heap.specs.References.{IsClosed};
ghost use Rattle.part_bytes.specs.Parts.{number_in, held_of, part_of};
ghost use Rattle.part_bytes.specs.Tables.{with_texts};
ghost use Rattle.part_bytes.specs.Texts as spec;
ghost use Rattle.part_bytes.specs.Texts.{part_text, part_text2};
ghost use Rattle.part_bytes.specs.Uses.{part_texts};
ghost use Rattle.part_bytes.specs.Spellings.{spells};
ghost use Rattle.part_bytes.specs.Sizing.{holds_handle};
ghost use Rattle.part_bytes.specs.Plain.{IsPlainIn, IsPlainPart};

use crate::numbers::Numbers;
use crate::objects::write_objects;
use crate::spelling::Spelling;
use crate::table::TextTable;
use crate::tag;
use crate::texts::add_part_texts;
use crate::values::{write_count, write_value};
use plain_data::{Items, Text};
use py_heap::State;
use std::alloc::{AllocError, Global};

/// The most bytes of a name: its length is one byte.
const LONGEST_NAME: usize = 255;

/// A name after its length. One of more than 255 bytes is want of memory.
fn write_name(out: &mut Items<u8>, name: &Text) -> Result<(), AllocError>
    ensures { OnOk result (out.new ≡ out.old ++ spec.name_bytes name.now) }
{
    let len = name.len();
    if len > LONGEST_NAME {
        return Err(AllocError);
    }
    out.push(len as u8)?;
    let text = name.as_str();
    out.extend_from_slice(text.as_bytes())
}

/// Names, each after its length. One of more than 255 bytes is want of memory.
pub fn write_names(out: &mut Items<u8>, names: &[Text]) -> Result<(), AllocError>
    ensures { OnOk result (out.new ≡ out.old ++ flat_map spec.name_bytes names.now) }
{
    for name in names {
        write_name(out, name)?;
    }
    Ok(())
}

/// What a name has.
fn write_held(
    out: &mut Items<u8>,
    numbers: &Numbers,
    spelling: &Spelling,
    state: &State,
    name: &Text,
) -> Result<(), AllocError>
    ensures bytes { OnOk result (out.new ≡ out.old ++ spec.spelled_held (spells spelling.now) (held_of state.now (number_in numbers.now.order) name.now)) }
    ensures plain { OnOk result (IsPlainIn state.now name.now) }
{
    match state.look(name) {
        Some(value) => write_value(out, numbers, spelling, value),
        None => out.push(tag::ABSENT),
    }
}

/// What each of the names has.
fn write_all_held(
    out: &mut Items<u8>,
    numbers: &Numbers,
    spelling: &Spelling,
    state: &State,
    names: &[Text],
) -> Result<(), AllocError>
    ensures bytes { OnOk result (out.new ≡ out.old ++ flat_map (spec.spelled_held (spells spelling.now)) (map (held_of state.now (number_in numbers.now.order)) names.now)) }
    ensures plain { OnOk result (All (IsPlainIn state.now) names.now) }
{
    for name in names {
        write_held(out, numbers, spelling, state, name)?;
    }
    Ok(())
}

/// The bytes of the part of a state with these names, with texts spelled so.
fn write_whole(
    alloc: Global,
    state: &State,
    names: &[Text],
    spelling: &Spelling,
) -> Result<Items<u8>, AllocError>
    requires { IsClosed state.now }
    ensures bytes { IfOk result (λ bytes. bytes ≡ spec.spelled_part (spells spelling.now) (part_of state.now names.now)) }
    ensures plain { OnOk result (IsPlainPart state.now names.now) }
{
    let numbers = Numbers::new(alloc, state, names)?;
    let mut out = Items::new(alloc);
    write_count(&mut out, names.len())?;
    write_names(&mut out, names)?;
    write_all_held(&mut out, &numbers, spelling, state, names)?;
    write_count(&mut out, numbers.order.len())?;
    write_objects(&mut out, &numbers, spelling, state)?;
    Ok(out)
}

/// The text of the part of a state with these names, which reach no handle, in version 1: a part, or one name without a value. A part with a
/// count of 2^32 or more, or a name of more than 255 bytes, has no text: that is want of memory.
pub fn write_part(alloc: Global, state: &State, names: &[Text]) -> Result<Items<u8>, AllocError>
    requires closed { IsClosed state.now }
    requires movable { holds_handle names.now state.now ≡ false }
    ensures bytes { IfOk result (λ bytes. bytes ≡ part_text state.now names.now) }
    ensures plain { OnOk result (IsPlainPart state.now names.now) }
{
    write_whole(alloc, state, names, &Spelling::InPlace)
}

/// The text of such a part in version 2, whose texts are in the table already. Its other conditions are those of `write_part`.
pub fn write_numbered_part(
    alloc: Global,
    state: &State,
    names: &[Text],
    texts: &TextTable,
) -> Result<Items<u8>, AllocError>
    requires closed { IsClosed state.now }
    requires movable { holds_handle names.now state.now ≡ false }
    ensures bytes { IfOk result (λ bytes. bytes ≡ part_text2 texts.now state.now names.now) }
    ensures plain { OnOk result (IsPlainPart state.now names.now) }
{
    write_whole(alloc, state, names, &Spelling::Numbered(texts))
}

/// The text of such a part in version 2, with its texts put into the table. After an error the table may have gained texts, and is only
/// dropped.
pub fn write_part2<'a>(
    alloc: Global,
    state: &'a State,
    names: &[Text],
    texts: &mut TextTable<'a>,
) -> Result<Items<u8>, AllocError>
    requires closed { IsClosed state.now }
    requires movable { holds_handle names.now state.now ≡ false }
    ensures table { OnOk result (texts.new ≡ with_texts texts.old (part_texts state.now names.now)) }
    ensures bytes { IfOk result (λ bytes. bytes ≡ part_text2 texts.new state.now names.now) }
    ensures plain { OnOk result (IsPlainPart state.now names.now) }
{
    add_part_texts(alloc, state, names, texts)?;
    write_numbered_part(alloc, state, names, texts)
}
