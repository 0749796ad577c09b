//! A checkpoint written to a sink, cell by cell and version by version.

ghost use Rattle.std.specs.Prelude.{ℕ, ◌≡◌, ◌≤◌, ◌+◌, ◌++◌, ◌<◌, ◌^◌, [], true, false, All, length, slice_index_or, IfOk, OnOk, OnErr, Err};
ghost use Rattle.std.specs.List.{flat_map};
ghost use Rattle.graph_model.specs.declared.graph.Version.{Version};
ghost use Rattle.py_heap.specs.References.{IsClosed};
ghost use Rattle.graph_model.specs.Plans.{NamesOf, IsFeasible};
ghost use Rattle.nb_outside.specs.Counts.{HasRisen};
ghost use Rattle.nb_outside.specs.Streams.{Adds};
ghost use Rattle.part_bytes.specs.Sizing.{holds_handle};
ghost use Rattle.part_bytes.specs.Texts.{four, text_bytes, by_number, part_text2};
ghost use Rattle.part_bytes.specs.Plain.{IsPlainPart};
ghost use Rattle.checkpoint_bytes.specs.Marks.{AreMarksOf};
ghost use Rattle.checkpoint_bytes.specs.Texts as spec;
ghost use Rattle.checkpoint_bytes.specs.Written.{AddsFront, WritesSoFar};
ghost use Rattle.checkpoint_bytes.specs.Sessions.{IsWithinBounds, IsMovableIfCopied, TellsOf};
ghost use Rattle.checkpoint_bytes.specs.Plain.{IsPlainCell, IsPlainVersion, IsPlainIfCopied, IsPlainCheckpoint};

use crate::fault::PieceFault;
use crate::gathered::Gathered;
use crate::marks::marks_of;
use crate::texts::texts_of;
use crate::write::{write_cell, write_head, write_version};
use graph_model::{CellRecord, Graph, Plan, Version};
use nb_outside::{Sink, WriteEnd};
use part_bytes::{TextTable, write_count, write_four, write_numbered_part, write_text};
use plain_data::Items;
use py_heap::State;
use std::alloc::{AllocError, Global};

/// So many bytes are held before they are written: a write costs some microseconds, however few its bytes.
const HELD: usize = 65_536;

/// Writes all the bytes. After an error a prefix of them is written.
fn send<K: Sink>(sink: &mut K, bytes: &[u8]) -> Result<(), PieceFault>
    ensures ok { OnOk result (Adds (K.written sink.old) (K.written sink.new) bytes.now) }
    ensures err { OnErr result (AddsFront (K.written sink.old) (K.written sink.new) bytes.now) }
    ensures fault { OnErr result (HasRisen (K.faults sink.old) (K.faults sink.new)) }
    ensures faults_stay { K.faults sink.old ≤ K.faults sink.new }
{
    let mut rest = bytes;
    while !rest.is_empty() {
        match sink.write(rest) {
            WriteEnd::Wrote(count) => {
                let (_, more) = rest.split_at(count);
                rest = more;
            }
            WriteEnd::Failed => return Err(PieceFault::Sink),
        }
    }
    Ok(())
}

/// Writes what is held, and then nothing is.
fn flush<K: Sink>(sink: &mut K, held: &mut Items<u8>) -> Result<(), PieceFault>
    ensures ok { OnOk result (Adds (K.written sink.old) (K.written sink.new) held.old) }
    ensures empty { OnOk result (held.new ≡ []) }
    ensures err { OnErr result (AddsFront (K.written sink.old) (K.written sink.new) held.old) }
    ensures fault { OnErr result (HasRisen (K.faults sink.old) (K.faults sink.new)) }
    ensures faults_stay { K.faults sink.old ≤ K.faults sink.new }
{
    send(sink, held.as_slice())?;
    held.clear();
    Ok(())
}

/// Writes what is held, if it is much.
fn flush_much<K: Sink>(sink: &mut K, held: &mut Items<u8>) -> Result<(), PieceFault>
    ensures ok { OnOk result (WritesSoFar (K.written sink.old) (K.written sink.new) held.old held.new) }
    ensures err { OnErr result (AddsFront (K.written sink.old) (K.written sink.new) held.old) }
    ensures fault { OnErr result (HasRisen (K.faults sink.old) (K.faults sink.new)) }
    ensures faults_stay { K.faults sink.old ≤ K.faults sink.new }
{
    if held.len() < HELD {
        return Ok(());
    }
    flush(sink, held)
}

/// Holds a text after what is held, and writes all if it is much.
fn put_text<K: Sink>(sink: &mut K, held: &mut Items<u8>, text: &str) -> Result<(), PieceFault>
    ensures ok { OnOk result (WritesSoFar (K.written sink.old) (K.written sink.new) (held.old ++ text_bytes text.now) held.new) }
    ensures err { OnErr result (AddsFront (K.written sink.old) (K.written sink.new) (held.old ++ text_bytes text.now)) }
    ensures fault { result ≡ Err PieceFault.Sink → HasRisen (K.faults sink.old) (K.faults sink.new) }
    ensures faults_stay { K.faults sink.old ≤ K.faults sink.new }
{
    write_text(held, text)?;
    flush_much(sink, held)
}

/// Writes the table of texts after what is held, but for what is held then.
fn put_table<K: Sink>(
    sink: &mut K,
    held: &mut Items<u8>,
    texts: &TextTable,
) -> Result<(), PieceFault>
    ensures ok { OnOk result (WritesSoFar (K.written sink.old) (K.written sink.new) (held.old ++ spec.table_bytes texts.now) held.new) }
    ensures err { OnErr result (AddsFront (K.written sink.old) (K.written sink.new) (held.old ++ spec.table_bytes texts.now)) }
    ensures few { OnOk result (length texts.now < 2 ^ 32) }
    ensures fault { result ≡ Err PieceFault.Sink → HasRisen (K.faults sink.old) (K.faults sink.new) }
    ensures faults_stay { K.faults sink.old ≤ K.faults sink.new }
{
    let count = texts.len();
    write_four(held, count)?;
    for number in 0..count {
        put_text(sink, held, texts.text(number))?;
    }
    Ok(())
}

/// Holds a cell, and whether it is to run again, after what is held, and writes all if it is much.
fn put_cell<K: Sink>(
    sink: &mut K,
    held: &mut Items<u8>,
    texts: &TextTable,
    rerun: bool,
    cell: &CellRecord,
) -> Result<(), PieceFault>
    ensures ok { OnOk result (WritesSoFar (K.written sink.old) (K.written sink.new) (held.old ++ spec.cell_bytes (by_number texts.now) rerun cell.now) held.new) }
    ensures err { OnErr result (AddsFront (K.written sink.old) (K.written sink.new) (held.old ++ spec.cell_bytes (by_number texts.now) rerun cell.now)) }
    ensures plain { OnOk result (IsPlainCell cell.now) }
    ensures fault { result ≡ Err PieceFault.Sink → HasRisen (K.faults sink.old) (K.faults sink.new) }
    ensures faults_stay { K.faults sink.old ≤ K.faults sink.new }
{
    write_cell(held, texts, rerun, cell)?;
    flush_much(sink, held)
}

/// Writes the part of the state with a version's names, after what is held. A large one isn't held.
fn put_part<K: Sink>(
    alloc: Global,
    sink: &mut K,
    held: &mut Items<u8>,
    texts: &TextTable,
    state: &State,
    version: &Version,
) -> Result<(), PieceFault>
    requires closed { IsClosed state.now }
    requires movable { holds_handle version.now.names state.now ≡ false }
    ensures ok { OnOk result (WritesSoFar (K.written sink.old) (K.written sink.new) (held.old ++ part_text2 texts.now state.now version.now.names) held.new) }
    ensures err { OnErr result (AddsFront (K.written sink.old) (K.written sink.new) (held.old ++ part_text2 texts.now state.now version.now.names)) }
    ensures part { OnOk result (IsPlainPart state.now version.now.names) }
    ensures fault { result ≡ Err PieceFault.Sink → HasRisen (K.faults sink.old) (K.faults sink.new) }
    ensures faults_stay { K.faults sink.old ≤ K.faults sink.new }
{
    let part = write_numbered_part(alloc, state, version.names.as_slice(), texts)?;
    if part.len() < HELD {
        held.extend_from_slice(part.as_slice())?;
        return flush_much(sink, held);
    }
    flush(sink, held)?;
    send(sink, part.as_slice())
}

/// Holds a version after what is held, writes all if it is much, and then its part if it is to be copied.
fn put_version<K: Sink>(
    alloc: Global,
    sink: &mut K,
    held: &mut Items<u8>,
    texts: &TextTable,
    state: &State,
    copied: bool,
    version: &Version,
) -> Result<(), PieceFault>
    requires closed { IsClosed state.now }
    requires movable { copied ≡ true → holds_handle version.now.names state.now ≡ false }
    ensures ok { OnOk result (WritesSoFar (K.written sink.old) (K.written sink.new) (held.old ++ spec.version_bytes (by_number texts.now) state.now copied version.now) held.new) }
    ensures err { OnErr result (AddsFront (K.written sink.old) (K.written sink.new) (held.old ++ spec.version_bytes (by_number texts.now) state.now copied version.now)) }
    ensures plain { OnOk result (IsPlainVersion version.now) }
    ensures part { OnOk result (copied ≡ true → IsPlainPart state.now version.now.names) }
    ensures fault { result ≡ Err PieceFault.Sink → HasRisen (K.faults sink.old) (K.faults sink.new) }
    ensures faults_stay { K.faults sink.old ≤ K.faults sink.new }
{
    write_version(held, copied, version)?;
    if copied {
        return put_part(alloc, sink, held, texts, state, version);
    }
    flush_much(sink, held)
}

/// Writes each of the cells after what is held, but for what is held then.
fn put_each_cell<K: Sink>(
    sink: &mut K,
    held: &mut Items<u8>,
    texts: &TextTable,
    marks: &Items<bool>,
    cells: &[CellRecord],
    plan: &Plan,
) -> Result<(), PieceFault>
    requires { AreMarksOf plan.now.rerun (length cells.now + 1) marks.now }
    ensures ok { OnOk result (WritesSoFar (K.written sink.old) (K.written sink.new) (held.old ++ spec.each_from (λ n cell. spec.cell_bytes (by_number texts.now) (spec.lists plan.now.rerun n) cell) 1 cells.now) held.new) }
    ensures err { OnErr result (AddsFront (K.written sink.old) (K.written sink.new) (held.old ++ spec.each_from (λ n cell. spec.cell_bytes (by_number texts.now) (spec.lists plan.now.rerun n) cell) 1 cells.now)) }
    ensures plain { OnOk result (All IsPlainCell cells.now) }
    ensures fault { result ≡ Err PieceFault.Sink → HasRisen (K.faults sink.old) (K.faults sink.new) }
    ensures faults_stay { K.faults sink.old ≤ K.faults sink.new }
{
    for index in 0..cells.len() {
        put_cell(
            sink,
            held,
            texts,
            marks.as_slice()[index + 1],
            &cells[index],
        )?;
    }
    Ok(())
}

/// Writes the cells after what is held, but for what is held then.
fn put_cells<K: Sink>(
    sink: &mut K,
    held: &mut Items<u8>,
    texts: &TextTable,
    marks: &Items<bool>,
    cells: &[CellRecord],
    plan: &Plan,
) -> Result<(), PieceFault>
    requires { AreMarksOf plan.now.rerun (length cells.now + 1) marks.now }
    ensures ok { OnOk result (WritesSoFar (K.written sink.old) (K.written sink.new) (held.old ++ spec.cells_bytes (by_number texts.now) plan.now cells.now) held.new) }
    ensures err { OnErr result (AddsFront (K.written sink.old) (K.written sink.new) (held.old ++ spec.cells_bytes (by_number texts.now) plan.now cells.now)) }
    ensures plain { OnOk result (All IsPlainCell cells.now) }
    ensures fault { result ≡ Err PieceFault.Sink → HasRisen (K.faults sink.old) (K.faults sink.new) }
    ensures faults_stay { K.faults sink.old ≤ K.faults sink.new }
{
    write_count(held, cells.len())?;
    put_each_cell(sink, held, texts, marks, cells, plan)
}

/// Writes each of the versions after what is held, but for what is held then.
fn put_each_version<K: Sink>(
    alloc: Global,
    sink: &mut K,
    held: &mut Items<u8>,
    texts: &TextTable,
    state: &State,
    marks: &Items<bool>,
    versions: &[Version],
    plan: &Plan,
) -> Result<(), PieceFault>
    requires closed { IsClosed state.now }
    requires movable { (k : ℕ) (d : Version) → k < length versions.now → IsMovableIfCopied state.now plan.now (k + 1) (slice_index_or versions.now k d) }
    requires marks { AreMarksOf plan.now.copied (length versions.now + 1) marks.now }
    ensures ok { OnOk result (WritesSoFar (K.written sink.old) (K.written sink.new) (held.old ++ spec.each_from (λ n version. spec.version_bytes (by_number texts.now) state.now (spec.lists plan.now.copied n) version) 1 versions.now) held.new) }
    ensures err { OnErr result (AddsFront (K.written sink.old) (K.written sink.new) (held.old ++ spec.each_from (λ n version. spec.version_bytes (by_number texts.now) state.now (spec.lists plan.now.copied n) version) 1 versions.now)) }
    ensures plain { OnOk result (All IsPlainVersion versions.now) }
    ensures parts { OnOk result ((k : ℕ) (d : Version) → k < length versions.now → IsPlainIfCopied state.now plan.now (k + 1) (slice_index_or versions.now k d)) }
    ensures fault { result ≡ Err PieceFault.Sink → HasRisen (K.faults sink.old) (K.faults sink.new) }
    ensures faults_stay { K.faults sink.old ≤ K.faults sink.new }
{
    for index in 0..versions.len() {
        put_version(
            alloc,
            sink,
            held,
            texts,
            state,
            marks.as_slice()[index + 1],
            &versions[index],
        )?;
    }
    Ok(())
}

/// Writes the versions after what is held, but for what is held then.
fn put_versions<K: Sink>(
    alloc: Global,
    sink: &mut K,
    held: &mut Items<u8>,
    texts: &TextTable,
    state: &State,
    marks: &Items<bool>,
    versions: &[Version],
    plan: &Plan,
) -> Result<(), PieceFault>
    requires closed { IsClosed state.now }
    requires movable { (k : ℕ) (d : Version) → k < length versions.now → IsMovableIfCopied state.now plan.now (k + 1) (slice_index_or versions.now k d) }
    requires marks { AreMarksOf plan.now.copied (length versions.now + 1) marks.now }
    ensures ok { OnOk result (WritesSoFar (K.written sink.old) (K.written sink.new) (held.old ++ spec.versions_bytes (by_number texts.now) state.now plan.now versions.now) held.new) }
    ensures err { OnErr result (AddsFront (K.written sink.old) (K.written sink.new) (held.old ++ spec.versions_bytes (by_number texts.now) state.now plan.now versions.now)) }
    ensures plain { OnOk result (All IsPlainVersion versions.now) }
    ensures parts { OnOk result ((k : ℕ) (d : Version) → k < length versions.now → IsPlainIfCopied state.now plan.now (k + 1) (slice_index_or versions.now k d)) }
    ensures fault { result ≡ Err PieceFault.Sink → HasRisen (K.faults sink.old) (K.faults sink.new) }
    ensures faults_stay { K.faults sink.old ≤ K.faults sink.new }
{
    write_count(held, versions.len())?;
    put_each_version(alloc, sink, held, texts, state, marks, versions, plan)
}

/// Writes the text of a session under a plan that is feasible to a sink, in version 2 and piece by piece: its state, its history graph, and the plan with
/// the parts that it copies. It holds some bytes and one part, a mark for each cell and version, and where each text is. The conditions are
/// those of `write_checkpoint`. After an error a prefix of the text is out.
pub fn write_pieces<K: Sink>(
    alloc: Global,
    state: &State,
    graph: &Graph,
    plan: &Plan,
    sink: &mut K,
) -> Result<(), PieceFault>
    requires session { TellsOf graph.now state.now }
    requires cells { All IsWithinBounds graph.now.cells }
    requires names { NamesOf graph.now plan.now }
    requires feasible { IsFeasible graph.now plan.now }
    ensures ok { OnOk result (Adds (K.written sink.old) (K.written sink.new) (spec.checkpoint_text state.now graph.now plan.now)) }
    ensures err { OnErr result (AddsFront (K.written sink.old) (K.written sink.new) (spec.checkpoint_text state.now graph.now plan.now)) }
    ensures plain { OnOk result (IsPlainCheckpoint state.now graph.now plan.now) }
    ensures fault { result ≡ Err PieceFault.Sink → HasRisen (K.faults sink.old) (K.faults sink.new) }
    ensures faults_stay { K.faults sink.old ≤ K.faults sink.new }
{
    let cells = graph.cells.as_slice();
    let versions = graph.versions.as_slice();
    let rerun = marks_of(alloc, plan.rerun.as_slice(), cells.len() + 1)?;
    let copied = marks_of(alloc, plan.copied.as_slice(), versions.len() + 1)?;
    let texts = texts_of(alloc, state, graph, &copied, plan)?;
    let mut held = Items::new(alloc);
    write_head(&mut held, state)?;
    put_table(sink, &mut held, &texts)?;
    put_cells(sink, &mut held, &texts, &rerun, cells, plan)?;
    put_versions(
        alloc, sink, &mut held, &texts, state, &copied, versions, plan,
    )?;
    flush(sink, &mut held)
}

/// The text of a session under a plan that is feasible, in version 2: its state, its history graph, and the plan with the parts that it copies.
/// The graph has to be without a fault, its versions that hold the parts of the state, and its cells within the bounds that a
/// reader allows. The state's count, and all that the text counts, number fewer than 2^32, and names have at most 255 bytes: else it
/// is want of memory.
pub fn write_checkpoint(
    alloc: Global,
    state: &State,
    graph: &Graph,
    plan: &Plan,
) -> Result<Items<u8>, AllocError>
    requires session { TellsOf graph.now state.now }
    requires cells { All IsWithinBounds graph.now.cells }
    requires names { NamesOf graph.now plan.now }
    requires feasible { IsFeasible graph.now plan.now }
    ensures bytes { IfOk result (λ bytes. bytes ≡ spec.checkpoint_text state.now graph.now plan.now) }
    ensures plain { OnOk result (IsPlainCheckpoint state.now graph.now plan.now) }
{
    let mut out = Gathered::new(alloc);
    match write_pieces(alloc, state, graph, plan, &mut out) {
        Ok(()) => Ok(out.bytes),
        Err(_) => Err(AllocError),
    }
}
