ghost use Rattle.std.specs.Prelude.{◌≡◌, ◌≤◌, ◌⊎◌, IfOk, string_bytes};
ghost use Rattle.nb_outside.specs.Counts.{HasRisen};
ghost use Rattle.made_command.specs.Counting as spec;

use crate::counts::{counts_of, line_of};
use crate::source::MadeSource;
use crate::stream::made_bytes;
use command_words::status;
use host_workers::Gate;
use jupyter_frames::laws::a_bad_length_stays;
use nb_outside::{MemFeeds, Sink};
use node_run::{RunEnd, run_sessions, write_all};
use notebook_engine::Notebook;
use std::alloc::{AllocError, Global};
use std::sync::Wait;
use std::thread::Threads;

/// How many hosts serve the stream.
const HOSTS: u32 = 3;

/// How many workers each has.
const WORKERS: u32 = 2;

/// The line that tells the counts of the stream with this many cells.
fn counted<G, R>(rt: &R, alloc: Global, cells: u32, gate: &G) -> Result<String, AllocError>
where
    G: Gate + Sync,
    R: Threads + Wait + Sync,
    requires { cells ≤ 4000 }
    ensures { IfOk result (λ text. spec.IsCount cells (string_bytes text)) }
{
    a_bad_length_stays();
    let bytes = made_bytes(alloc, cells)?;
    let mut source = MadeSource::new(bytes);
    let mut feeds = MemFeeds::new(Vec::new(alloc));
    let ran = run_sessions::<Notebook, MadeSource, MemFeeds, G, R>(
        rt,
        alloc,
        HOSTS,
        WORKERS,
        &mut source,
        &mut feeds,
        gate,
    )?;
    line_of(alloc, &counts_of(ran.runs.as_slice()))
}

/// Serves the stream with this many cells, at most 4,000, on 3 hosts of 2 workers, and writes a line that tells how many cells ran,
/// how many of them ended with an error, how many moves were made, and how many bytes the cells printed. No draw of the stream is
/// given anything. Gives the status:
///
/// - 0: the line was written.
/// - 4: the sink met a fault. What is out is a prefix of the line.
/// - 5: memory ran out outside a cell. Nothing is written.
pub fn made<K, G, R>(rt: &R, alloc: Global, cells: u32, sink: &mut K, gate: &G) -> u8
where
    K: Sink,
    G: Gate + Sync,
    R: Threads + Wait + Sync,
    requires few { cells ≤ 4000 }
    ensures told { spec.MadeTold cells result (K.written sink.old) (K.written sink.new) }
    ensures fault { result ≡ 4 → HasRisen (K.faults sink.old) (K.faults sink.new) }
    ensures statuses { (result ≡ 0) ⊎ ((result ≡ 4) ⊎ (result ≡ 5)) }
{
    let Ok(line) = counted(rt, alloc, cells, gate) else {
        return status::OUT_OF_MEMORY;
    };
    match write_all(sink, line.as_bytes()) {
        Ok(()) => status::DONE,
        Err(_) => status::SINK_FAULT,
    }
}
