ghost use Rattle.std.specs.Prelude.{◌≡◌, ◌++◌, ◌<◌, ◌^◌, length, OnOk};
ghost use Rattle.std.specs.List.{flat_map};
ghost use Rattle.part_bytes.specs.Texts.{four, by_number};
ghost use Rattle.part_bytes.specs.Plain.{IsText};
ghost use Rattle.checkpoint_bytes.specs.Texts as spec;
ghost use Rattle.checkpoint_bytes.specs.Plain.{IsPlainCell, IsPlainVersion};

use graph_model::{CellRecord, Version};
use part_bytes::{TextTable, write_count, write_four, write_names, write_text_number};
use plain_data::{Items, Text};
use py_heap::State;
use std::alloc::AllocError;

// Each function puts bytes at the end. After an error the bytes mean nothing, and are only dropped.

/// The letters that a checkpoint begins with, and the version of the format.
const MAGIC: [u8; 6] = [69, 78, 67, 75, 0, 2];

fn truth_byte(truth: bool) -> u8
    ensures { result ≡ spec.truth_byte truth }
{
    if truth { 1 } else { 0 }
}

/// Whether a version is a part, an absent name, or a part with a handle.
fn kind_byte(version: &Version) -> u8
    ensures { result ≡ spec.kind_byte version.now }
{
    if version.absent {
        1
    } else if version.handle {
        2
    } else {
        0
    }
}

fn write_numbers(out: &mut Items<u8>, numbers: &[u32]) -> Result<(), AllocError>
    ensures { OnOk result (out.new ≡ out.old ++ flat_map four numbers.now) }
{
    for number in numbers {
        write_four(out, *number)?;
    }
    Ok(())
}

/// How many names, and the names.
fn write_counted_names(out: &mut Items<u8>, names: &[Text]) -> Result<(), AllocError>
    ensures bytes { OnOk result (out.new ≡ out.old ++ spec.names_bytes names.now) }
    ensures few { OnOk result (length names.now < 2 ^ 32) }
{
    write_count(out, names.len())?;
    write_names(out, names)
}

/// The number of a cell's code in the table, its meter and steps, whether it drew, and whether it is to run again.
fn write_cell_head(
    out: &mut Items<u8>,
    texts: &TextTable,
    rerun: bool,
    cell: &CellRecord,
) -> Result<(), AllocError>
    ensures bytes { OnOk result (out.new ≡ out.old ++ spec.cell_head_bytes (by_number texts.now) rerun cell.now) }
    ensures plain { OnOk result (IsText cell.now.code) }
{
    write_text_number(out, texts, cell.code.as_str())?;
    write_four(out, cell.meter)?;
    write_four(out, cell.steps)?;
    out.push(truth_byte(cell.drew))?;
    out.push(truth_byte(rerun))
}

/// A cell, and whether it is to run again.
pub(crate) fn write_cell(
    out: &mut Items<u8>,
    texts: &TextTable,
    rerun: bool,
    cell: &CellRecord,
) -> Result<(), AllocError>
    ensures bytes { OnOk result (out.new ≡ out.old ++ spec.cell_bytes (by_number texts.now) rerun cell.now) }
    ensures plain { OnOk result (IsPlainCell cell.now) }
{
    write_cell_head(out, texts, rerun, cell)?;
    write_count(out, cell.reads.len())?;
    write_numbers(out, cell.reads.as_slice())?;
    write_counted_names(out, cell.missing.as_slice())
}

/// A version, and whether it is to be copied.
pub(crate) fn write_version(
    out: &mut Items<u8>,
    copied: bool,
    version: &Version,
) -> Result<(), AllocError>
    ensures bytes { OnOk result (out.new ≡ out.old ++ spec.plain_version_bytes copied version.now) }
    ensures plain { OnOk result (IsPlainVersion version.now) }
{
    write_four(out, version.writer)?;
    write_four(out, version.replaced)?;
    out.push(kind_byte(version))?;
    write_four(out, version.size)?;
    write_counted_names(out, version.names.as_slice())?;
    out.push(truth_byte(copied))
}

/// The letters and the version of the format, and the session's count and meter.
pub(crate) fn write_head(out: &mut Items<u8>, state: &State) -> Result<(), AllocError>
    ensures bytes { OnOk result (out.new ≡ out.old ++ spec.head_bytes 2 state.now.count state.now.meter) }
    ensures few { OnOk result (state.now.count < 2 ^ 32) }
{
    out.extend_from_slice(&MAGIC)?;
    write_four(out, state.count())?;
    write_four(out, state.meter())
}
