//! The feeder: it takes in the stream while the workers run.

ghost use Rattle.std.specs.Prelude.{◌≡◌, ℕ, ◌≤◌, List, length, IfOk};
ghost use Rattle.nb_outside.specs.Counts.{HasRisen, HasRisenBy};
ghost use Rattle.nb_outside.specs.Streams.{Takes};
ghost use Rattle.node_intake.specs.Taking.{HasTaken, EndsSo};
ghost use Rattle.node_run.specs.Admitted.{AreOpen, AreSeated};

use crate::desk::AdmissionDesk;
use crate::open_session::OpenSession;
use host_workers::{Gate, Hosts, worker};
use nb_outside::{Feed, Feeds, Source};
use node_intake::{Handed, IntakeEnd, take_in_at};
use plain_data::Items;
use reply_frames::NodeError;
use session_core::Engine;
use session_gate::Name;
use session_queues::Queues;
use std::alloc::{AllocError, Global};
use std::sync::Wait;
use std::thread::{Threads, join_mut};
use std::{mem, thread};

/// What was taken in, with the sessions that are open.
#[derive(Drop)]
pub struct FedIn {
    pub sessions: Vec<OpenSession>,
    /// The errors, in order, but for that of a broken stream.
    pub errors: Items<NodeError>,
    /// Where the stream stops being frames.
    pub broken: Option<u64>,
    pub end: IntakeEnd,
}

/// What was taken in at the desk.
fn handed_in<E: Engine + Drop, Q: Feeds, N: Name, R: Wait>(
    handed: Handed<AdmissionDesk<'_, E, Q, N, R>>,
    end: IntakeEnd,
) -> FedIn
    ensures sessions { result.sessions.items ≡ handed.entry.desk }
    ensures seated { AreSeated result.sessions.items N.queues }
    ensures rest { (result.errors ≡ handed.entry.errors) × (result.broken ≡ handed.entry.broken) × (result.end ≡ end) }
{
    let Handed {
        desk,
        errors,
        broken,
    } = handed;
    FedIn {
        sessions: desk.into_sessions(),
        errors,
        broken,
        end,
    }
}

/// Takes in the stream: each session is opened, and each request admitted and its host woken, as soon as its frame is there.
fn feed<E, S, Q, N, R>(
    rt: &R,
    alloc: Global,
    hosts: u32,
    source: &mut S,
    feeds: &mut Q,
    node: &Hosts<E, Q::Feed, N>,
    queues: Vec<Queues>,
) -> Result<FedIn, AllocError>
where
    E: Engine + Drop,
    S: Source,
    Q: Feeds,
    N: Name,
    R: Threads + Wait + Sync,
    requires queues { (N.queues ≡ queues.items) × (length queues.items ≡ 256) }
    requires hosts { N.hosts ≡ hosts }
    requires gives { Q.gives feeds.old ≡ N.gives }
    ensures told { (bytes : List ℕ) × Takes (S.left source.old) (S.left source.new) bytes
        × IfOk result (λ fed. (taken : HasTaken hosts bytes (λ node. AreOpen node.sessions fed.sessions.items N.queues × (fed.errors ≡ node.errors)) fed.broken)
        × EndsSo fed.end (S.left source.new) taken.rest) }
    ensures seated { IfOk result (λ fed. AreSeated fed.sessions.items N.queues) }
    ensures failed { IfOk result (λ fed. fed.end ≡ IntakeEnd.Failed → HasRisen (S.faults source.old) (S.faults source.new)) }
    ensures too_many { IfOk result (λ fed. fed.end ≡ IntakeEnd.TooMany → HasRisenBy 4294967295 (S.reads source.old) (S.reads source.new)) }
    ensures faults_stay { S.faults source.old ≤ S.faults source.new }
{
    let desk = AdmissionDesk::new(rt, alloc, node, feeds, hosts, queues, false);
    match take_in_at(rt, alloc, source, hosts, desk) {
        Ok((handed, end)) => Ok(handed_in(handed, end)),
        Err(error) => Err(error),
    }
}

/// Runs so many workers of each host, as far as threads can be made, until the feeder has closed and no session waits for a worker.
/// Sessions of a host for which none can be made are left.
pub fn run_workers<E, F, G, N, R>(
    rt: &R,
    alloc: Global,
    hosts: u32,
    workers: u32,
    gate: &G,
    node: &Hosts<E, F, N>,
)
where
    E: Engine + Drop + Send,
    F: Feed + Send,
    G: Gate + Sync,
    N: Name + Send + Sync,
    R: Threads + Wait + Sync,
{
    thread::scope(thread::scope_env(), rt, |scope| {
        for host in 0..hosts {
            let mut has_worker = false;
            for _ in 0..workers {
                let spawned = scope.spawn(move || worker(rt, alloc, node, host, gate));
                has_worker = spawned.is_ok() || has_worker;
            }
            if !has_worker {
                node.abandon(rt, host);
            }
        }
    });
}

/// Takes in the stream while each host has so many workers, as far as threads can be made. Once all is taken in, and the workers
/// have returned, it returns too.
pub fn feed_workers<E, S, Q, G, N, R>(
    rt: &R,
    alloc: Global,
    hosts: u32,
    workers: u32,
    source: &mut S,
    feeds: &mut Q,
    gate: &G,
    node: &Hosts<E, Q::Feed, N>,
    queues: Vec<Queues>,
) -> Result<FedIn, AllocError>
where
    E: Engine + Drop + Send,
    S: Source,
    Q: Feeds,
    Q::Feed: Send,
    G: Gate + Sync,
    N: Name + Send + Sync,
    R: Threads + Wait + Sync,
    requires queues { (N.queues ≡ queues.items) × (length queues.items ≡ 256) }
    requires hosts { N.hosts ≡ hosts }
    requires gives { Q.gives feeds.old ≡ N.gives }
    ensures told { (bytes : List ℕ) × Takes (S.left source.old) (S.left source.new) bytes
        × IfOk result (λ fed. (taken : HasTaken hosts bytes (λ node. AreOpen node.sessions fed.sessions.items N.queues × (fed.errors ≡ node.errors)) fed.broken)
        × EndsSo fed.end (S.left source.new) taken.rest) }
    ensures seated { IfOk result (λ fed. AreSeated fed.sessions.items N.queues) }
    ensures failed { IfOk result (λ fed. fed.end ≡ IntakeEnd.Failed → HasRisen (S.faults source.old) (S.faults source.new)) }
    ensures too_many { IfOk result (λ fed. fed.end ≡ IntakeEnd.TooMany → HasRisenBy 4294967295 (S.reads source.old) (S.reads source.new)) }
    ensures faults_stay { S.faults source.old ≤ S.faults source.new }
{
    let mut queues = queues;
    let ((), fed) = join_mut(
        rt,
        &mut || run_workers(rt, alloc, hosts, workers, gate, node),
        &mut || -> Result<FedIn, AllocError>
            requires queues { (N.queues ≡ queues.items) × (length queues.items ≡ 256) }
            requires hosts { N.hosts ≡ hosts }
            requires gives { Q.gives feeds.now ≡ N.gives }
            ensures told { (bytes : List ℕ) × Takes (S.left source.entry.now) (S.left source.exit.now) bytes
                × IfOk result (λ fed. (taken : HasTaken hosts bytes (λ node. AreOpen node.sessions fed.sessions.items N.queues × (fed.errors ≡ node.errors)) fed.broken)
                × EndsSo fed.end (S.left source.exit.now) taken.rest) }
            ensures seated { IfOk result (λ fed. AreSeated fed.sessions.items N.queues) }
            ensures failed { IfOk result (λ fed. fed.end ≡ IntakeEnd.Failed → HasRisen (S.faults source.entry.now) (S.faults source.exit.now)) }
            ensures too_many { IfOk result (λ fed. fed.end ≡ IntakeEnd.TooMany → HasRisenBy 4294967295 (S.reads source.entry.now) (S.reads source.exit.now)) }
            ensures faults_stay { S.faults source.entry.now ≤ S.faults source.exit.now }
        {
            let all = mem::replace(&mut queues, Vec::new(alloc));
            let fed = feed(rt, alloc, hosts, source, feeds, node, all);
            node.close(rt);
            fed
        },
    );
    fed
}
