//! A node's run on a stream.

ghost use Rattle.std.specs.Prelude.{◌≡◌, ℕ, ◌≤◌, List, length, IfOk, OnOk};
ghost use Rattle.nb_outside.specs.Counts.{HasRisen, HasRisenBy};
ghost use Rattle.nb_outside.specs.Streams.{Takes};
ghost use Rattle.host_workers.specs.Tables.{IsTable};
ghost use Rattle.node_intake.specs.Intake.{Taken};
ghost use Rattle.node_run.specs.Admitted.{AreOpen, AreSeated};
ghost use Rattle.node_run.specs.Ends as spec;
ghost use Rattle.node_run.specs.Journals.{AreRuns};
ghost use Rattle.node_run.specs.Streams.{HasRun, StreamsTold, IsStatus};

use crate::end::RunEnd;
use crate::feeding::{FedIn, feed_workers};
use crate::finishing::{discard, finish_all, let_go};
use crate::write::{WriteFault, write_all_frames};
use command_words::status;
use host_workers::{Gate, Hosts};
use nb_outside::{Feed, Feeds, Sink, Source};
use node_intake::IntakeEnd;
use plain_data::Items;
use reply_frames::{NodeError, NodeErrorKind};
use session_core::{Alone, Engine};
use session_gate::{Name, SessionCell};
use session_queues::Queues;
use std::alloc::{AllocError, Global};
use std::marker::Brand;
use std::sync::Wait;
use std::thread::Threads;

/// What a node did with a stream, before anything is written.
#[derive(Drop)]
pub struct NodeRun<E: Engine> {
    /// The errors, in order.
    pub errors: Items<NodeError>,
    /// The sessions that were served, with their kernels, in the order in which they were opened.
    pub runs: Vec<(u128, Alone<E>)>,
    pub end: RunEnd,
}

/// How a run ends, from how taking in ended and the place where the stream is broken.
pub fn end_after(end: IntakeEnd, broken: Option<u64>) -> RunEnd
    ensures { result ≡ spec.end_after end broken }
{
    match (end, broken) {
        (IntakeEnd::End, None) => RunEnd::Whole,
        (IntakeEnd::End, Some(_)) => RunEnd::Broken,
        (IntakeEnd::Failed, _) => RunEnd::SourceFailed,
        (IntakeEnd::TooMany, _) => RunEnd::TooManyReads,
    }
}

/// Adds the error of a broken stream.
pub fn push_broken(
    end: IntakeEnd,
    broken: Option<u64>,
    errors: &mut Items<NodeError>,
) -> Result<(), AllocError>
    ensures { OnOk result (errors.new ≡ spec.errors_after end broken errors.old) }
{
    match (end, broken) {
        (IntakeEnd::End, Some(place)) => errors.push(NodeError {
            kind: NodeErrorKind::BadFrame(place),
            about: None,
        }),
        _ => Ok(()),
    }
}

/// Does what the workers left of what was taken in.
fn serve_fed<E, F, N, G, R>(
    rt: &R,
    alloc: Global,
    cells: Vec<SessionCell<E, F, N>>,
    fed: FedIn,
    gate: &G,
) -> Result<NodeRun<E>, AllocError>
where
    E: Engine + Drop,
    F: Feed,
    N: Name,
    G: Gate,
    R: Wait,
    requires table { IsTable cells.items × (length N.queues ≡ 256) }
    requires seated { AreSeated fed.sessions.items N.queues }
    ensures errors { IfOk result (λ ran. ran.errors ≡ spec.errors_after fed.end fed.broken fed.errors) }
    ensures runs { (ts : List Taken) → AreOpen ts fed.sessions.items N.queues → IfOk result (λ ran. AreRuns E.meaning N.hosts N.gives ts ran.runs.items) }
    ensures end { IfOk result (λ ran. ran.end ≡ spec.end_after fed.end fed.broken) }
{
    let FedIn {
        sessions,
        errors,
        broken,
        end,
    } = fed;
    let mut errors = errors;
    match push_broken(end, broken, &mut errors) {
        Ok(()) => {}
        Err(error) => {
            discard(cells);
            return Err(error);
        }
    }
    let runs = finish_all(rt, alloc, cells, sessions, gate)?;
    Ok(NodeRun {
        errors,
        runs,
        end: end_after(end, broken),
    })
}

/// The queues of as many sessions as a run has.
pub fn make_queues(alloc: Global) -> Result<Vec<Queues>, AllocError>
    ensures { IfOk result (λ queues. length queues.items ≡ 256) }
{
    let mut queues = Vec::new(alloc);
    for number in 0..256u32 {
        queues.push(Queues::new(alloc)?)?;
    }
    Ok(queues)
}

/// Takes in a stream and serves its sessions, under a name that lists their queues.
fn run_named<E, S, Q, G, N, R>(
    rt: &R,
    alloc: Global,
    hosts: u32,
    workers: u32,
    source: &mut S,
    feeds: &mut Q,
    gate: &G,
    queues: Vec<Queues>,
) -> Result<NodeRun<E>, AllocError>
where
    E: Engine + Drop + Send,
    S: Source,
    Q: Feeds,
    Q::Feed: Send,
    G: Gate + Sync,
    N: Name + Send + Sync,
    R: Threads + Wait + Sync,
    requires queues { (N.queues ≡ queues.items) × (length queues.items ≡ 256) }
    requires hosts { N.hosts ≡ hosts }
    requires gives { Q.gives feeds.old ≡ N.gives }
    ensures told { (bytes : List ℕ) × Takes (S.left source.old) (S.left source.new) bytes
        × IfOk result (λ ran. HasRun E.meaning hosts (Q.gives feeds.old) ran.end bytes (S.left source.new) ran.errors ran.runs.items) }
    ensures failed { IfOk result (λ ran. ran.end ≡ RunEnd.SourceFailed → HasRisen (S.faults source.old) (S.faults source.new)) }
    ensures reads { IfOk result (λ ran. ran.end ≡ RunEnd.TooManyReads → HasRisenBy 4294967295 (S.reads source.old) (S.reads source.new)) }
    ensures faults_stay { S.faults source.old ≤ S.faults source.new }
{
    let node = match Hosts::<E, Q::Feed, N>::new(alloc, hosts, queues.as_slice()) {
        Ok(node) => node,
        Err(error) => return Err(error),
    };
    match feed_workers(
        rt, alloc, hosts, workers, source, feeds, gate, &node, queues,
    ) {
        Ok(fed) => serve_fed(rt, alloc, node.into_cells(), fed, gate),
        Err(error) => {
            discard(node.into_cells());
            Err(error)
        }
    }
}

/// Takes in a stream and serves its sessions. Each host has so many worker threads, as far as threads can be made: they open no
/// session, and each serves the sessions that its host owns while the stream is still read. Then the calling thread does what they
/// left. Nothing is written. The sessions are in the order of opening.
pub fn run_sessions<E, S, Q, G, R>(
    rt: &R,
    alloc: Global,
    hosts: u32,
    workers: u32,
    source: &mut S,
    feeds: &mut Q,
    gate: &G,
) -> Result<NodeRun<E>, AllocError>
where
    E: Engine + Drop + Send,
    S: Source,
    Q: Feeds,
    Q::Feed: Send,
    G: Gate + Sync,
    R: Threads + Wait + Sync,
    ensures told { (bytes : List ℕ) × Takes (S.left source.old) (S.left source.new) bytes
        × IfOk result (λ ran. HasRun E.meaning hosts (Q.gives feeds.old) ran.end bytes (S.left source.new) ran.errors ran.runs.items) }
    ensures failed { IfOk result (λ ran. ran.end ≡ RunEnd.SourceFailed → HasRisen (S.faults source.old) (S.faults source.new)) }
    ensures reads { IfOk result (λ ran. ran.end ≡ RunEnd.TooManyReads → HasRisenBy 4294967295 (S.reads source.old) (S.reads source.new)) }
    ensures faults_stay { S.faults source.old ≤ S.faults source.new }
{
    match make_queues(alloc) {
        Ok(queues) => run_named::<E, S, Q, G, Brand, R>(
            rt, alloc, hosts, workers, source, feeds, gate, queues,
        ),
        Err(error) => Err(error),
    }
}

/// The exit status of a run that ended so.
pub fn status_of(end: RunEnd) -> u8
    ensures { result ≡ spec.status_of end }
{
    match end {
        RunEnd::Whole => status::DONE,
        RunEnd::Broken => status::BROKEN,
        RunEnd::SourceFailed => status::SOURCE_FAULT,
        RunEnd::TooManyReads => status::TOO_MANY_READS,
    }
}

/// Takes in a stream, serves its sessions, and writes the errors' frames, numbered from 1, and then each journal's, numbered
/// from 1. Gives the status:
///
/// - 0: the input was read to its end, and everything was written.
/// - 2: the input has a length that no frame has, and was read no further; or it was read to its end, and ends within a frame.
///   What comes before is served, and everything was written, with the error's frame.
/// - 3: the source met a fault. What it gave before is served, and everything was written.
/// - 4: the sink met a fault. What is out is a prefix of what was to be written.
/// - 5: memory ran out. What is out is a prefix of what was to be written.
/// - 10: 4,294,967,295 reads each took a byte. What they gave is served, and everything was written.
pub fn run_stream<E, S, K, Q, G, R>(
    rt: &R,
    alloc: Global,
    hosts: u32,
    workers: u32,
    source: &mut S,
    sink: &mut K,
    feeds: &mut Q,
    gate: &G,
) -> u8
where
    E: Engine + Drop + Send,
    S: Source,
    K: Sink,
    Q: Feeds,
    Q::Feed: Send,
    G: Gate + Sync,
    R: Threads + Wait + Sync,
    ensures streams { StreamsTold E.meaning hosts (Q.gives feeds.old) (spec.IsCaused (S.faults source.old) (S.faults source.new) (S.reads source.old) (S.reads source.new)) result (S.left source.old) (S.left source.new) (K.written sink.old) (K.written sink.new) }
    ensures source_fault { result ≡ 3 → HasRisen (S.faults source.old) (S.faults source.new) }
    ensures sink_fault { result ≡ 4 → HasRisen (K.faults sink.old) (K.faults sink.new) }
    ensures reads { result ≡ 10 → HasRisenBy 4294967295 (S.reads source.old) (S.reads source.new) }
    ensures statuses { IsStatus result }
{
    match run_sessions::<E, S, Q, G, R>(rt, alloc, hosts, workers, source, feeds, gate) {
        Ok(ran) => match write_all_frames(
            rt,
            alloc,
            sink,
            ran.errors.as_slice(),
            ran.runs.as_slice(),
        ) {
            Ok(()) => {
                let NodeRun {
                    errors: _,
                    runs,
                    end,
                } = ran;
                let_go(rt, runs);
                status_of(end)
            }
            Err(WriteFault::Sink) => status::SINK_FAULT,
            Err(WriteFault::OutOfMemory) => status::OUT_OF_MEMORY,
        },
        Err(_) => status::OUT_OF_MEMORY,
    }
}
