//! The frames of errors and journals, written one after the other.

ghost use Rattle.std.specs.Prelude.{◌≡◌, ◌≢◌, ◌+◌, ◌≤◌, ◌++◌, [], Err, IfOk, IfSome, OnOk, OnErr};
ghost use Rattle.std.specs.List.{sum_by};
ghost use Rattle.std.specs.Thread.{IsSync};
ghost use Rattle.nb_outside.specs.Counts.{HasRisen};
ghost use Rattle.nb_outside.specs.Streams.{Adds};
ghost use Rattle.reply_frames.specs.Nodes.{frame_of};
ghost use Rattle.reply_frames.specs.Replies.{entry_frames, entry_length};
ghost use Rattle.node_run.specs.Frames.{AddsFront, AddsErrorsBefore, AddsEntriesFrom, AddsEntriesBefore, AddsBatchBefore, IsBatch, parts_together, AddsRunsBefore, AddsServedBefore, WritesSoFar, error_frames, journal_frames, run_frames};

use crate::render::{FEW, Made, batch_len, make_batch};
use crate::streams::write_all;
use nb_outside::Sink;
use plain_data::Items;
use reply_frames::{NodeError, frames_of, node_error_frame};
use session_core::{Alone, Engine, Entry};
use std::alloc::Global;
use std::error::Error;
use std::fmt;
use std::thread::{Threads, join_mut};

/// Why writing ended early.
#[derive(Clone, Copy, Debug, PartialEq, Eq)]
pub enum WriteFault {
    /// Memory ran out.
    OutOfMemory,
    /// The sink met a fault.
    Sink,
}

impl fmt::Display for WriteFault {
    fn fmt<W: fmt::Write>(&self, f: &mut fmt::Formatter<W>) -> fmt::Result {
        match self {
            WriteFault::OutOfMemory => write!(f, "out of memory"),
            WriteFault::Sink => write!(f, "the sink met a fault"),
        }
    }
}

impl Error for WriteFault {}

/// Writes all the bytes. After an error a prefix of them is written. The same holds for each function here.
fn send<K: Sink>(sink: &mut K, bytes: &[u8]) -> Result<(), WriteFault>
    ensures ok { OnOk result (Adds (K.written sink.old) (K.written sink.new) bytes.now) }
    ensures err { OnErr result (AddsFront (K.written sink.old) (K.written sink.new) bytes.now) }
    ensures fault { result ≡ Err WriteFault.Sink → HasRisen (K.faults sink.old) (K.faults sink.new) }
    ensures memory { result ≢ Err WriteFault.OutOfMemory }
    ensures faults_stay { K.faults sink.old ≤ K.faults sink.new }
{
    match write_all(sink, bytes) {
        Ok(()) => Ok(()),
        Err(_) => Err(WriteFault::Sink),
    }
}

/// Writes an error's frame under this running number.
fn write_error<K: Sink>(
    alloc: Global,
    sink: &mut K,
    running: u64,
    error: &NodeError,
) -> Result<(), WriteFault>
    ensures ok { OnOk result (Adds (K.written sink.old) (K.written sink.new) (frame_of running error.now)) }
    ensures err { OnErr result (AddsFront (K.written sink.old) (K.written sink.new) (frame_of running error.now)) }
    ensures fault { result ≡ Err WriteFault.Sink → HasRisen (K.faults sink.old) (K.faults sink.new) }
    ensures memory { result ≡ Err WriteFault.OutOfMemory → Adds (K.written sink.old) (K.written sink.new) [] }
    ensures faults_stay { K.faults sink.old ≤ K.faults sink.new }
{
    match node_error_frame(alloc, running, error) {
        Ok(frame) => send(sink, frame.as_slice()),
        Err(_) => Err(WriteFault::OutOfMemory),
    }
}

/// Writes the errors' frames, numbered from 1.
fn write_errors<K: Sink>(
    alloc: Global,
    sink: &mut K,
    errors: &[NodeError],
) -> Result<(), WriteFault>
    ensures ok { OnOk result (Adds (K.written sink.old) (K.written sink.new) (error_frames 1 errors.now)) }
    ensures err { OnErr result (AddsFront (K.written sink.old) (K.written sink.new) (error_frames 1 errors.now)) }
    ensures fault { result ≡ Err WriteFault.Sink → HasRisen (K.faults sink.old) (K.faults sink.new) }
    ensures memory { result ≡ Err WriteFault.OutOfMemory → AddsErrorsBefore (K.written sink.old) (K.written sink.new) errors.now }
    ensures faults_stay { K.faults sink.old ≤ K.faults sink.new }
{
    for (at, error) in errors.iter().enumerate() {
        match write_error(alloc, sink, at as u64 + 1, error) {
            Ok(()) => {}
            Err(fault) => return Err(fault),
        }
    }
    Ok(())
}

/// So many bytes are gathered before they are written: a write costs some microseconds, however few its bytes.
const GATHERED: usize = 65_536;

/// Writes what was gathered, and then nothing is.
fn flush<K: Sink>(sink: &mut K, gathered: &mut Items<u8>) -> Result<(), WriteFault>
    ensures ok { OnOk result (Adds (K.written sink.old) (K.written sink.new) gathered.old) }
    ensures empty { OnOk result (gathered.new ≡ []) }
    ensures err { OnErr result (AddsFront (K.written sink.old) (K.written sink.new) gathered.old) }
    ensures fault { result ≡ Err WriteFault.Sink → HasRisen (K.faults sink.old) (K.faults sink.new) }
    ensures memory { result ≢ Err WriteFault.OutOfMemory }
    ensures faults_stay { K.faults sink.old ≤ K.faults sink.new }
{
    match send(sink, gathered.as_slice()) {
        Ok(()) => {
            gathered.clear();
            Ok(())
        }
        Err(fault) => Err(fault),
    }
}

/// Ends for want of memory. What was gathered is written before.
fn give_up<K: Sink>(sink: &mut K, gathered: &mut Items<u8>) -> WriteFault
    ensures front { AddsFront (K.written sink.old) (K.written sink.new) gathered.old }
    ensures fault { result ≡ WriteFault.Sink → HasRisen (K.faults sink.old) (K.faults sink.new) }
    ensures memory { result ≡ WriteFault.OutOfMemory → Adds (K.written sink.old) (K.written sink.new) gathered.old }
    ensures faults_stay { K.faults sink.old ≤ K.faults sink.new }
{
    match flush(sink, gathered) {
        Ok(()) => WriteFault::OutOfMemory,
        Err(fault) => fault,
    }
}

/// Adds bytes to those that are gathered, and writes all if they are many.
fn gather<K: Sink>(sink: &mut K, gathered: &mut Items<u8>, bytes: &[u8]) -> Result<(), WriteFault>
    ensures ok { OnOk result (WritesSoFar (K.written sink.old) (K.written sink.new) (gathered.old ++ bytes.now) gathered.new) }
    ensures err { OnErr result (AddsFront (K.written sink.old) (K.written sink.new) (gathered.old ++ bytes.now)) }
    ensures fault { result ≡ Err WriteFault.Sink → HasRisen (K.faults sink.old) (K.faults sink.new) }
    ensures memory { result ≡ Err WriteFault.OutOfMemory → Adds (K.written sink.old) (K.written sink.new) gathered.old }
    ensures faults_stay { K.faults sink.old ≤ K.faults sink.new }
{
    match gathered.extend_from_slice(bytes) {
        Ok(()) => {
            if gathered.len() < GATHERED {
                return Ok(());
            }
            flush(sink, gathered)
        }
        Err(_) => Err(give_up(sink, gathered)),
    }
}

/// Gathers the frames of an entry of this kernel's journal, with running numbers from this one on, and gives the next number.
fn gather_entry<K: Sink>(
    alloc: Global,
    sink: &mut K,
    gathered: &mut Items<u8>,
    kernel: u128,
    running: u64,
    entry: &Entry,
) -> Result<u64, WriteFault>
    ensures next { IfOk result (λ next. next ≡ running + entry_length entry.now) }
    ensures ok { OnOk result (WritesSoFar (K.written sink.old) (K.written sink.new) (gathered.old ++ entry_frames kernel entry.now running) gathered.new) }
    ensures err { OnErr result (AddsFront (K.written sink.old) (K.written sink.new) (gathered.old ++ entry_frames kernel entry.now running)) }
    ensures fault { result ≡ Err WriteFault.Sink → HasRisen (K.faults sink.old) (K.faults sink.new) }
    ensures memory { result ≡ Err WriteFault.OutOfMemory → Adds (K.written sink.old) (K.written sink.new) gathered.old }
    ensures faults_stay { K.faults sink.old ≤ K.faults sink.new }
{
    match frames_of(alloc, kernel, entry, running) {
        Ok((frames, next)) => match gather(sink, gathered, frames.as_slice()) {
            Ok(()) => Ok(next),
            Err(fault) => Err(fault),
        },
        Err(_) => Err(give_up(sink, gathered)),
    }
}

/// Writes the frames of these entries of a kernel's journal, with running numbers from this one on, many at a time, and gives the next
/// number.
fn write_in_turn<K: Sink>(
    alloc: Global,
    sink: &mut K,
    kernel: u128,
    first: u64,
    entries: &[Entry],
) -> Result<u64, WriteFault>
    ensures next { IfOk result (λ next. next ≡ first + sum_by entry_length entries.now) }
    ensures ok { OnOk result (Adds (K.written sink.old) (K.written sink.new) (journal_frames kernel first entries.now)) }
    ensures err { OnErr result (AddsFront (K.written sink.old) (K.written sink.new) (journal_frames kernel first entries.now)) }
    ensures fault { result ≡ Err WriteFault.Sink → HasRisen (K.faults sink.old) (K.faults sink.new) }
    ensures memory { result ≡ Err WriteFault.OutOfMemory → AddsEntriesFrom (K.written sink.old) (K.written sink.new) kernel first entries.now }
    ensures faults_stay { K.faults sink.old ≤ K.faults sink.new }
{
    let mut gathered = Items::new(alloc);
    let mut running = first;
    for entry in entries {
        match gather_entry(alloc, sink, &mut gathered, kernel, running, entry) {
            Ok(next) => running = next,
            Err(fault) => return Err(fault),
        }
    }
    match flush(sink, &mut gathered) {
        Ok(()) => Ok(running),
        Err(fault) => Err(fault),
    }
}

/// Writes parts, one after the other.
fn send_parts<K: Sink>(sink: &mut K, parts: &[Items<u8>]) -> Result<(), WriteFault>
    ensures ok { OnOk result (Adds (K.written sink.old) (K.written sink.new) (parts_together parts.now)) }
    ensures err { OnErr result (AddsFront (K.written sink.old) (K.written sink.new) (parts_together parts.now)) }
    ensures fault { result ≡ Err WriteFault.Sink → HasRisen (K.faults sink.old) (K.faults sink.new) }
    ensures memory { result ≢ Err WriteFault.OutOfMemory }
    ensures faults_stay { K.faults sink.old ≤ K.faults sink.new }
{
    for part in parts {
        match send(sink, part.as_slice()) {
            Ok(()) => {}
            Err(fault) => return Err(fault),
        }
    }
    Ok(())
}

/// Writes parts that were made, while threads make the frames of these entries of a kernel's journal, with running numbers from this one
/// on. None of them if memory doesn't suffice for all at once.
fn write_beside<K: Sink, R: Threads + Sync>(
    rt: &R,
    alloc: Global,
    sink: &mut K,
    waiting: &[Items<u8>],
    kernel: u128,
    first: u64,
    entries: &[Entry],
) -> Result<Option<Made>, WriteFault>
    ensures ok { OnOk result (Adds (K.written sink.old) (K.written sink.new) (parts_together waiting.now)) }
    ensures made { IfOk result (λ made. IfSome made (IsBatch kernel first entries.now)) }
    ensures err { OnErr result (AddsFront (K.written sink.old) (K.written sink.new) (parts_together waiting.now)) }
    ensures fault { result ≡ Err WriteFault.Sink → HasRisen (K.faults sink.old) (K.faults sink.new) }
    ensures memory { result ≢ Err WriteFault.OutOfMemory }
    ensures faults_stay { K.faults sink.old ≤ K.faults sink.new }
{
    let (made, sent) = join_mut(
        rt,
        &mut || -> Option<Made>
            requires { IsSync R.row }
            ensures { IfSome result (IsBatch kernel first entries.entry.now) }
        { make_batch(rt, alloc, kernel, first, entries) },
        &mut || -> Result<(), WriteFault>
            ensures ok { OnOk result (Adds (K.written sink.entry.now) (K.written sink.exit.now) (parts_together waiting.entry.now)) }
            ensures err { OnErr result (AddsFront (K.written sink.entry.now) (K.written sink.exit.now) (parts_together waiting.entry.now)) }
            ensures fault { result ≡ Err WriteFault.Sink → HasRisen (K.faults sink.entry.now) (K.faults sink.exit.now) }
            ensures memory { result ≢ Err WriteFault.OutOfMemory }
            ensures faults_stay { K.faults sink.entry.now ≤ K.faults sink.exit.now }
        { send_parts(sink, waiting) },
    );
    match sent {
        Ok(()) => Ok(made),
        Err(fault) => Err(fault),
    }
}

/// Writes parts that were made, and gives those of these entries of a kernel's journal, with running numbers from this one on. If
/// memory doesn't suffice for all at once, these entries are told one after the other, and no parts are given.
fn write_next<K: Sink, R: Threads + Sync>(
    rt: &R,
    alloc: Global,
    sink: &mut K,
    waiting: &[Items<u8>],
    kernel: u128,
    first: u64,
    entries: &[Entry],
) -> Result<Made, WriteFault>
    ensures ok { IfOk result (λ made. WritesSoFar (K.written sink.old) (K.written sink.new) (parts_together waiting.now ++ journal_frames kernel first entries.now) (parts_together made.parts.items)) }
    ensures next { IfOk result (λ made. made.next ≡ first + sum_by entry_length entries.now) }
    ensures err { OnErr result (AddsFront (K.written sink.old) (K.written sink.new) (parts_together waiting.now ++ journal_frames kernel first entries.now)) }
    ensures fault { result ≡ Err WriteFault.Sink → HasRisen (K.faults sink.old) (K.faults sink.new) }
    ensures memory { result ≡ Err WriteFault.OutOfMemory → AddsBatchBefore (K.written sink.old) (K.written sink.new) (parts_together waiting.now) kernel first entries.now }
    ensures faults_stay { K.faults sink.old ≤ K.faults sink.new }
{
    match write_beside(rt, alloc, sink, waiting, kernel, first, entries) {
        Ok(Some(made)) => Ok(made),
        Ok(None) => match write_in_turn(alloc, sink, kernel, first, entries) {
            Ok(next) => Ok(Made {
                parts: Vec::new(alloc),
                next,
            }),
            Err(fault) => Err(fault),
        },
        Err(fault) => Err(fault),
    }
}

/// Writes the frames of a kernel's journal, numbered from 1: those of a batch of entries while threads make those of the next.
fn write_batches<K: Sink, R: Threads + Sync>(
    rt: &R,
    alloc: Global,
    sink: &mut K,
    kernel: u128,
    entries: &[Entry],
) -> Result<(), WriteFault>
    ensures ok { OnOk result (Adds (K.written sink.old) (K.written sink.new) (journal_frames kernel 1 entries.now)) }
    ensures err { OnErr result (AddsFront (K.written sink.old) (K.written sink.new) (journal_frames kernel 1 entries.now)) }
    ensures fault { result ≡ Err WriteFault.Sink → HasRisen (K.faults sink.old) (K.faults sink.new) }
    ensures memory { result ≡ Err WriteFault.OutOfMemory → AddsEntriesBefore (K.written sink.old) (K.written sink.new) kernel entries.now }
    ensures faults_stay { K.faults sink.old ≤ K.faults sink.new }
{
    let mut parts = Vec::new(alloc);
    let mut running = 1;
    let mut rest = entries;
    while !rest.is_empty() {
        let (batch, more) = rest.split_at(batch_len(rest));
        match write_next(rt, alloc, sink, parts.as_slice(), kernel, running, batch) {
            Ok(made) => {
                let Made {
                    parts: next_parts,
                    next,
                } = made;
                parts = next_parts;
                running = next;
            }
            Err(fault) => return Err(fault),
        }
        rest = more;
    }
    send_parts(sink, parts.as_slice())
}

/// Writes the frames of a kernel's journal, numbered from 1.
fn write_journal<K: Sink, R: Threads + Sync>(
    rt: &R,
    alloc: Global,
    sink: &mut K,
    kernel: u128,
    entries: &[Entry],
) -> Result<(), WriteFault>
    ensures ok { OnOk result (Adds (K.written sink.old) (K.written sink.new) (journal_frames kernel 1 entries.now)) }
    ensures err { OnErr result (AddsFront (K.written sink.old) (K.written sink.new) (journal_frames kernel 1 entries.now)) }
    ensures fault { result ≡ Err WriteFault.Sink → HasRisen (K.faults sink.old) (K.faults sink.new) }
    ensures memory { result ≡ Err WriteFault.OutOfMemory → AddsEntriesBefore (K.written sink.old) (K.written sink.new) kernel entries.now }
    ensures faults_stay { K.faults sink.old ≤ K.faults sink.new }
{
    if FEW <= entries.len() {
        return write_batches(rt, alloc, sink, kernel, entries);
    }
    match write_in_turn(alloc, sink, kernel, 1, entries) {
        Ok(_) => Ok(()),
        Err(fault) => Err(fault),
    }
}

/// Writes the frames of each session's journal, numbered from 1.
fn write_runs<E: Engine + Drop, K: Sink, R: Threads + Sync>(
    rt: &R,
    alloc: Global,
    sink: &mut K,
    runs: &[(u128, Alone<E>)],
) -> Result<(), WriteFault>
    ensures ok { OnOk result (Adds (K.written sink.old) (K.written sink.new) (run_frames runs.now)) }
    ensures err { OnErr result (AddsFront (K.written sink.old) (K.written sink.new) (run_frames runs.now)) }
    ensures fault { result ≡ Err WriteFault.Sink → HasRisen (K.faults sink.old) (K.faults sink.new) }
    ensures memory { result ≡ Err WriteFault.OutOfMemory → AddsRunsBefore (K.written sink.old) (K.written sink.new) runs.now }
    ensures faults_stay { K.faults sink.old ≤ K.faults sink.new }
{
    for run in runs {
        match write_journal(rt, alloc, sink, run.0, run.1.entries()) {
            Ok(()) => {}
            Err(fault) => return Err(fault),
        }
    }
    Ok(())
}

/// Writes the frames of the errors, and then those of each session's journal. If memory runs out at the frames of an error or of an
/// entry, all that come before it are written.
pub fn write_all_frames<E: Engine + Drop, K: Sink, R: Threads + Sync>(
    rt: &R,
    alloc: Global,
    sink: &mut K,
    errors: &[NodeError],
    runs: &[(u128, Alone<E>)],
) -> Result<(), WriteFault>
    ensures ok { OnOk result (Adds (K.written sink.old) (K.written sink.new) (error_frames 1 errors.now ++ run_frames runs.now)) }
    ensures err { OnErr result (AddsFront (K.written sink.old) (K.written sink.new) (error_frames 1 errors.now ++ run_frames runs.now)) }
    ensures fault { result ≡ Err WriteFault.Sink → HasRisen (K.faults sink.old) (K.faults sink.new) }
    ensures memory { result ≡ Err WriteFault.OutOfMemory → AddsServedBefore (K.written sink.old) (K.written sink.new) errors.now runs.now }
    ensures faults_stay { K.faults sink.old ≤ K.faults sink.new }
{
    match write_errors(alloc, sink, errors) {
        Ok(()) => write_runs(rt, alloc, sink, runs),
        Err(fault) => Err(fault),
    }
}
