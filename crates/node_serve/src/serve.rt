//! A link is served by the workers of its sessions.

ghost use Rattle.std.specs.Prelude.{◌≡◌, ◌≤◌, ℕ, true, false, List, length, take, Some, IfOk, MatchResult};
ghost use Rattle.nb_outside.specs.Counts.{HasRisen};
ghost use Rattle.host_workers.specs.Tables.{IsTable};
ghost use Rattle.node_intake.specs.Taking.{EndsSo};
ghost use Rattle.node_run.specs.Ends.{errors_after};
ghost use Rattle.node_serve.specs.Units.{error_units};
ghost use Rattle.node_serve.specs.Sent.{Wire, wire, left_of, WentOn, SendsOn};
ghost use Rattle.node_serve.specs.Service.{InService, WasInService, IsEnd, IsFed, IsLeft};
ghost use Rattle.node_serve.specs.Links.{HasServed, HasServedSoFar, IsReported, IsStopped, link_end_of};

use crate::bell::{Bell, RingingGate};
use crate::closing::{Closings, close_all};
use crate::report::{LinkEnd, LinkReport};
use crate::service::Service;
use crate::telling::tell_errors;
use host_workers::{Gate, Hosts};
use jupyter_frames::Framer;
use nb_links::Link;
use nb_outside::{Feed, Feeds};
use node_intake::{Handed, Intake, IntakeEnd, taken_in};
use node_run::{
    AdmissionDesk, OpenSession, RunEnd, end_after, make_queues, push_broken, run_workers,
};
use plain_data::Items;
use reply_frames::NodeError;
use session_core::Engine;
use session_gate::{Name, SessionCell};
use session_queues::Queues;
use std::alloc::{AllocError, Global};
use std::marker::Brand;
use std::mem;
use std::sync::Wait;
use std::thread::{Threads, join_mut};
use std::time::Clock;

/// What was taken in of a link, with the sessions that are open.
#[derive(Drop)]
struct Fed {
    sessions: Vec<OpenSession>,
    /// The errors, in order, but for that of a broken frame.
    errors: Items<NodeError>,
    /// Where the link stops giving frames.
    broken: Option<u64>,
    end: IntakeEnd,
    /// How many of the errors were told.
    told: usize,
}

/// What was taken in by this service.
fn fed_by<E: Engine + Drop, Q: Feeds, N: Name, R: Wait>(
    service: Service<'_, E, Q, N, R>,
    end: IntakeEnd,
) -> Fed
    ensures fed { (start now : Wire) → InService N.hosts N.queues start now service.entry.framer service.entry.node service.entry.told → EndsSo end (left_of now.line) service.entry.framer.bytes → IsEnd (Some end) now.cut
        → IsFed N.hosts N.queues start now result.sessions.items result.errors result.broken result.end result.told }
{
    let Service {
        framer,
        node,
        told,
        answered: _,
    } = service;
    let Handed {
        desk,
        errors,
        broken,
    } = taken_in(&framer, node);
    Fed {
        sessions: desk.into_sessions(),
        errors,
        broken,
        end,
        told,
    }
}

/// The sessions that are open.
fn left_by<E: Engine + Drop, Q: Feeds, N: Name, R: Wait>(
    service: Service<'_, E, Q, N, R>,
) -> Vec<OpenSession>
    ensures left { (start now : Wire) → WasInService N.hosts N.queues start now service.entry.node → IsLeft N.hosts N.queues start now result.items }
{
    let Service {
        framer: _,
        node,
        told: _,
        answered: _,
    } = service;
    let Intake { desk, errors: _ } = node;
    desk.into_sessions()
}

/// Takes in what the link gives, and tells what is answered. Once memory ran out, it gives the sessions that are open.
fn converse<E, L, Q, N, R>(
    rt: &R,
    alloc: Global,
    hosts: u32,
    link: &mut L,
    is_cut: &mut bool,
    feeds: &mut Q,
    bell: &Bell,
    node: &Hosts<E, Q::Feed, N>,
    queues: Vec<Queues>,
) -> Result<Fed, Vec<OpenSession>>
where
    E: Engine + Drop,
    L: Link,
    Q: Feeds,
    N: Name,
    R: Threads + Wait + Clock + Sync,
    requires queues { (N.queues ≡ queues.items) × (length queues.items ≡ 256) }
    requires hosts { N.hosts ≡ hosts }
    requires gives { Q.gives feeds.old ≡ N.gives }
    requires whole { is_cut.old ≡ false }
    ensures fed { MatchResult result (λ fed. IsFed hosts N.queues (wire (L.line link.old) (L.faults link.old) is_cut.old) (wire (L.line link.new) (L.faults link.new) is_cut.new) fed.sessions.items fed.errors fed.broken fed.end fed.told)
        (λ sessions. IsLeft hosts N.queues (wire (L.line link.old) (L.faults link.old) is_cut.old) (wire (L.line link.new) (L.faults link.new) is_cut.new) sessions.items) }
{
    let desk = AdmissionDesk::new(rt, alloc, node, feeds, hosts, queues, true);
    let mut service = Service {
        framer: Framer::new(alloc),
        node: Intake::new(alloc, desk),
        told: 0,
        answered: 0,
    };
    match service.attend(rt, alloc, hosts, link, is_cut, bell) {
        Ok(end) => Ok(fed_by(service, end)),
        Err(_) => Err(left_by(service)),
    }
}

/// Runs so many workers of each host, as far as threads can be made. They ring the bell.
fn run_ringing<E, F, G, N, R>(
    rt: &R,
    alloc: Global,
    hosts: u32,
    workers: u32,
    gate: &G,
    bell: &Bell,
    node: &Hosts<E, F, N>,
)
where
    E: Engine + Drop + Send,
    F: Feed + Send,
    G: Gate + Sync,
    N: Name + Send + Sync,
    R: Threads + Wait + Sync,
{
    let ringing = RingingGate::new(rt, gate, bell);
    run_workers(rt, alloc, hosts, workers, &ringing, node);
}

/// Takes in what the link gives while each host has so many workers, as far as threads can be made. Once nothing more is taken in, and
/// the workers have returned, it returns too. Once memory ran out, it gives the sessions that are open.
fn converse_beside_workers<E, L, Q, G, N, R>(
    rt: &R,
    alloc: Global,
    hosts: u32,
    workers: u32,
    link: &mut L,
    is_cut: &mut bool,
    feeds: &mut Q,
    gate: &G,
    node: &Hosts<E, Q::Feed, N>,
    queues: Vec<Queues>,
) -> Result<Fed, Vec<OpenSession>>
where
    E: Engine + Drop + Send,
    L: Link,
    Q: Feeds,
    Q::Feed: Send,
    G: Gate + Sync,
    N: Name + Send + Sync,
    R: Threads + Wait + Clock + Sync,
    requires queues { (N.queues ≡ queues.items) × (length queues.items ≡ 256) }
    requires hosts { N.hosts ≡ hosts }
    requires gives { Q.gives feeds.old ≡ N.gives }
    requires whole { is_cut.old ≡ false }
    ensures fed { MatchResult result (λ fed. IsFed hosts N.queues (wire (L.line link.old) (L.faults link.old) is_cut.old) (wire (L.line link.new) (L.faults link.new) is_cut.new) fed.sessions.items fed.errors fed.broken fed.end fed.told)
        (λ sessions. IsLeft hosts N.queues (wire (L.line link.old) (L.faults link.old) is_cut.old) (wire (L.line link.new) (L.faults link.new) is_cut.new) sessions.items) }
{
    let bell = Bell::new();
    let bell = &bell;
    let mut queues = queues;
    let ((), fed) = join_mut(
        rt,
        &mut || run_ringing(rt, alloc, hosts, workers, gate, bell, node),
        &mut || -> Result<Fed, Vec<OpenSession>>
            requires queues { (N.queues ≡ queues.items) × (length queues.items ≡ 256) }
            requires hosts { N.hosts ≡ hosts }
            requires gives { Q.gives feeds.now ≡ N.gives }
            requires whole { is_cut.now ≡ false }
            ensures fed { MatchResult result (λ fed. IsFed hosts N.queues (wire (L.line link.entry.now) (L.faults link.entry.now) is_cut.entry.now) (wire (L.line link.exit.now) (L.faults link.exit.now) is_cut.exit.now) fed.sessions.items fed.errors fed.broken fed.end fed.told)
                (λ sessions. IsLeft hosts N.queues (wire (L.line link.entry.now) (L.faults link.entry.now) is_cut.entry.now) (wire (L.line link.exit.now) (L.faults link.exit.now) is_cut.exit.now) sessions.items) }
        {
            let all = mem::replace(&mut queues, Vec::new(alloc));
            let fed = converse(rt, alloc, hosts, link, is_cut, feeds, bell, node, all);
            node.close(rt);
            fed
        },
    );
    fed
}

/// How serving ended, from how reading ended and whether the link met a fault.
fn link_end(end: RunEnd, is_cut: bool) -> LinkEnd
    ensures { result ≡ link_end_of is_cut end }
{
    if is_cut {
        return LinkEnd::LinkFault;
    }
    match end {
        RunEnd::Whole => LinkEnd::Ended,
        RunEnd::Broken => LinkEnd::BadFrame,
        RunEnd::SourceFailed | RunEnd::TooManyReads => LinkEnd::LinkFault,
    }
}

/// Adds the error of a broken frame, and tells the errors that weren't told. Whether memory sufficed.
fn tell_left<L: Link>(
    alloc: Global,
    link: &mut L,
    is_cut: &mut bool,
    end: IntakeEnd,
    broken: Option<u64>,
    errors: &mut Items<NodeError>,
    told: usize,
) -> bool
    requires few { told ≤ length errors.old }
    ensures errors { result ≡ true → errors.new ≡ errors_after end broken errors.old }
    ensures sends { SendsOn true result (wire (L.line link.old) (L.faults link.old) is_cut.old) (wire (L.line link.new) (L.faults link.new) is_cut.new) (error_units 1 (take told errors.old)) (error_units 1 (errors_after end broken errors.old)) }
{
    if push_broken(end, broken, errors).is_err() {
        return false;
    }
    tell_errors(alloc, link, is_cut, errors.as_slice(), told).is_ok()
}

/// Does what the workers left of what was taken in, and tells the rest.
fn close_fed<E, F, N, L, G, R>(
    rt: &R,
    alloc: Global,
    link: &mut L,
    is_cut: &mut bool,
    cells: Vec<SessionCell<E, F, N>>,
    fed: Fed,
    gate: &G,
) -> Result<LinkReport<E>, AllocError>
where
    E: Engine + Drop,
    F: Feed,
    N: Name,
    L: Link,
    G: Gate,
    R: Wait,
    requires table { IsTable cells.items × (length N.queues ≡ 256) }
    requires fed { (start : Wire) × IsFed N.hosts N.queues start (wire (L.line link.old) (L.faults link.old) is_cut.old) fed.sessions.items fed.errors fed.broken fed.end fed.told }
    ensures told { (start : Wire) → IsFed N.hosts N.queues start (wire (L.line link.old) (L.faults link.old) is_cut.old) fed.sessions.items fed.errors fed.broken fed.end fed.told
        → MatchResult result (λ report. IsReported E.meaning N.hosts N.gives start (wire (L.line link.new) (L.faults link.new) is_cut.new) report.end report.errors report.runs.items)
        (λ _. IsStopped E.meaning N.hosts N.gives start (wire (L.line link.new) (L.faults link.new) is_cut.new)) }
{
    let Fed {
        sessions,
        errors,
        broken,
        end,
        told,
    } = fed;
    let mut errors = errors;
    let suffices = tell_left(alloc, link, is_cut, end, broken, &mut errors, told);
    let closings = close_all(rt, alloc, link, is_cut, cells, sessions, gate, suffices);
    let Closings { runs, suffices } = closings;
    if !suffices {
        return Err(AllocError);
    }
    Ok(LinkReport {
        end: link_end(end_after(end, broken), *is_cut),
        errors,
        runs,
    })
}

/// Lets the sessions go that are open once memory ran out.
fn let_all_go<E, F, N, L, G, R>(
    rt: &R,
    alloc: Global,
    link: &mut L,
    is_cut: &mut bool,
    cells: Vec<SessionCell<E, F, N>>,
    sessions: Vec<OpenSession>,
    gate: &G,
)
where
    E: Engine + Drop,
    F: Feed,
    N: Name,
    L: Link,
    G: Gate,
    R: Wait,
    requires table { IsTable cells.items × (length N.queues ≡ 256) }
    requires left { (start : Wire) × IsLeft N.hosts N.queues start (wire (L.line link.old) (L.faults link.old) is_cut.old) sessions.items }
    ensures stopped { (start : Wire) → IsLeft N.hosts N.queues start (wire (L.line link.old) (L.faults link.old) is_cut.old) sessions.items → IsStopped E.meaning N.hosts N.gives start (wire (L.line link.new) (L.faults link.new) is_cut.new) }
{
    let closings = close_all(rt, alloc, link, is_cut, cells, sessions, gate, false);
    drop(closings);
}

/// Serves a link, under a name that lists the queues of its sessions.
fn serve_named<E, L, Q, G, N, R>(
    rt: &R,
    alloc: Global,
    hosts: u32,
    workers: u32,
    link: &mut L,
    feeds: &mut Q,
    gate: &G,
    queues: Vec<Queues>,
) -> Result<LinkReport<E>, AllocError>
where
    E: Engine + Drop + Send,
    L: Link,
    Q: Feeds,
    Q::Feed: Send,
    G: Gate + Sync,
    N: Name + Send + Sync,
    R: Threads + Wait + Clock + Sync,
    requires queues { (N.queues ≡ queues.items) × (length queues.items ≡ 256) }
    requires hosts { N.hosts ≡ hosts }
    requires gives { Q.gives feeds.old ≡ N.gives }
    ensures told { (taken : List ℕ) × (sent : List ℕ) × WentOn (L.line link.old) (L.line link.new) taken sent
        × MatchResult result (λ report. HasServed E.meaning hosts (Q.gives feeds.old) report.end taken (left_of (L.line link.new)) sent report.errors report.runs.items)
        (λ _. HasServedSoFar E.meaning hosts (Q.gives feeds.old) taken (left_of (L.line link.new)) sent) }
    ensures fault { IfOk result (λ report. report.end ≡ LinkEnd.LinkFault → HasRisen (L.faults link.old) (L.faults link.new)) }
    ensures faults_stay { L.faults link.old ≤ L.faults link.new }
{
    let node = match Hosts::<E, Q::Feed, N>::new(alloc, hosts, queues.as_slice()) {
        Ok(node) => node,
        Err(error) => return Err(error),
    };
    let mut is_cut = false;
    match converse_beside_workers(
        rt,
        alloc,
        hosts,
        workers,
        link,
        &mut is_cut,
        feeds,
        gate,
        &node,
        queues,
    ) {
        Ok(fed) => close_fed(rt, alloc, link, &mut is_cut, node.into_cells(), fed, gate),
        Err(sessions) => {
            let_all_go(
                rt,
                alloc,
                link,
                &mut is_cut,
                node.into_cells(),
                sessions,
                gate,
            );
            Err(AllocError)
        }
    }
}

/// Serves a link: takes in the frames that it gives, and serves its sessions while they come. Each host has so many worker threads, as
/// far as threads can be made. The calling thread polls the link, and sends each error's frame and each entry's frames as soon as they
/// are there: all frames of an entry together, those of a session in their order. Once the link ended, or gave what is no frame, what
/// is left is done and sent. After a fault of the link nothing more is sent or taken in, and what was taken in is served all the same.
/// At `Err` memory ran out. Then no more is taken in or sent, and the sessions are let go with the requests that still wait for them. What
/// was sent till then is the first of all that; its last frame may be cut off.
pub fn serve_link<E, L, Q, G, R>(
    rt: &R,
    alloc: Global,
    hosts: u32,
    workers: u32,
    link: &mut L,
    feeds: &mut Q,
    gate: &G,
) -> Result<LinkReport<E>, AllocError>
where
    E: Engine + Drop + Send,
    L: Link,
    Q: Feeds,
    Q::Feed: Send,
    G: Gate + Sync,
    R: Threads + Wait + Clock + Sync,
    ensures told { (taken : List ℕ) × (sent : List ℕ) × WentOn (L.line link.old) (L.line link.new) taken sent
        × MatchResult result (λ report. HasServed E.meaning hosts (Q.gives feeds.old) report.end taken (left_of (L.line link.new)) sent report.errors report.runs.items)
        (λ _. HasServedSoFar E.meaning hosts (Q.gives feeds.old) taken (left_of (L.line link.new)) sent) }
    ensures fault { IfOk result (λ report. report.end ≡ LinkEnd.LinkFault → HasRisen (L.faults link.old) (L.faults link.new)) }
    ensures faults_stay { L.faults link.old ≤ L.faults link.new }
{
    match make_queues(alloc) {
        Ok(queues) => serve_named::<E, L, Q, G, Brand, R>(
            rt, alloc, hosts, workers, link, feeds, gate, queues,
        ),
        Err(error) => Err(error),
    }
}
