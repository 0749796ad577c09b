//! The desk of a run: sessions are opened in their cells, and requests are admitted to them, while workers run.

ghost use Rattle.std.specs.Prelude.{◌≡◌, ◌<◌, [], cond, length, slice_get, Some, OnOk, OnErr, IfSome, MatchOption};
ghost use Rattle.session_queues.specs.Passes.{IsPassOf, admitted_by};
ghost use Rattle.node_intake.specs.Intake.{most_requests};
ghost use Rattle.node_run.specs.Admitted.{AreSeated, admitted_at, HasAdmitted};
ghost use Rattle.node_run.specs.Unsent.{AreReadable, IsReaderOf, HasTaken, HasRead, HasNumbered};

use crate::open_session::{NextEntry, OpenSession};
use host_workers::Hosts;
use nb_outside::{Feed, Feeds};
use node_intake::Desk;
use session_core::{Channel, Engine, Entry, Header, Request};
use session_gate::{Name, SessionCell, Take};
use session_queues::{Pass, Queues, Reader};
use std::alloc::{AllocError, Global};
use std::marker::Model;
use std::sync::Wait;

/// Opens the sessions of a run in their cells, and admits their requests.
#[derive(Drop)]
pub struct AdmissionDesk<'a, E: Engine, Q: Feeds, N: Name, R> {
    rt: &'a R,
    node: &'a Hosts<E, Q::Feed, N>,
    feeds: &'a mut Q,
    hosts: u32,
    /// Whether what sessions answer is read as it comes.
    is_read: bool,
    /// The queues of the sessions that aren't open yet, those of the next one last.
    queues: Vec<Queues>,
    /// The sessions that are open, in order.
    sessions: Vec<OpenSession>,
}

impl<'a, E: Engine, Q: Feeds, N: Name, R> Model for AdmissionDesk<'a, E, Q, N, R> {
    ghost use Rattle.std.specs.Prelude.{◌≡◌, List, length, drop};
    ghost use mathlib.Core.List.{reverse};
    ghost use Rattle.node_run.specs.Admitted.{AreSeated};
    ghost use Rattle.node_run.specs.Unsent.{AreReadable};
    ghost use Rattle.node_run.specs.declared.open_session.OpenSession.{OpenSession};

    ghost Value = { List OpenSession };

    ghost view = { λ d. d.sessions.items };

    ghost invariant = { λ d. (d.hosts ≡ N.hosts) × (Q.gives d.feeds.now ≡ N.gives) × (length N.queues ≡ 256)
        × (drop (length d.sessions.items) N.queues ≡ reverse d.queues.items) × AreSeated d.sessions.items N.queues × AreReadable d.sessions.items N.queues };
}

impl<'a, E: Engine + Drop, Q: Feeds, N: Name, R> AdmissionDesk<'a, E, Q, N, R> {
    /// The desk of a run whose sessions have these queues. None is open yet. What they answer is read as it comes, or not before the
    /// run has ended.
    pub fn new(
        rt: &'a R,
        alloc: Global,
        node: &'a Hosts<E, Q::Feed, N>,
        feeds: &'a mut Q,
        hosts: u32,
        queues: Vec<Queues>,
        is_read: bool,
    ) -> AdmissionDesk<'a, E, Q, N, R>
        requires queues { (N.queues ≡ queues.items) × (length queues.items ≡ 256) }
        requires hosts { N.hosts ≡ hosts }
        requires gives { Q.gives feeds.old ≡ N.gives }
        ensures { result ≡ [] }
    {
        let mut queues = queues;
        queues.reverse();
        AdmissionDesk {
            rt,
            node,
            feeds,
            hosts,
            is_read,
            queues,
            sessions: Vec::new(alloc),
        }
    }

    /// The sessions that are open.
    pub fn into_sessions(self) -> Vec<OpenSession>
        ensures sessions { result.items ≡ self.entry }
        ensures seated { AreSeated result.items N.queues }
        ensures readable { AreReadable result.items N.queues }
    {
        let AdmissionDesk {
            rt: _,
            node: _,
            feeds: _,
            hosts: _,
            is_read: _,
            queues: _,
            sessions,
        } = self;
        sessions
    }
}

impl<'a, E: Engine + Drop, Q: Feeds, N: Name, R: Wait> AdmissionDesk<'a, E, Q, N, R> {
    /// Reads the next entry of the session at that index. None if it has no reader, or none was there at a step of this call. Takes
    /// no memory.
    pub fn read(&mut self, at: usize) -> Option<NextEntry>
        requires { at < length self.old }
        ensures { MatchOption result (self.new ≡ self.old) (λ next. HasRead self.old at next self.new) }
    {
        let node = self.node;
        let seat = at as u32;
        let cell = node.cell(seat);
        read_at(self.rt, cell, &mut self.sessions, at)
    }

    /// Says which running number the next frame of the session at that index has.
    pub fn set_next(&mut self, at: usize, next: u64)
        requires { at < length self.old }
        ensures { HasNumbered self.old at next self.new }
    {
        let session = &mut self.sessions[at];
        session.next = next;
    }
}

impl<'a, E: Engine + Drop, Q: Feeds, N: Name, R: Wait> Desk for AdmissionDesk<'a, E, Q, N, R> {
    ghost use Rattle.std.specs.Prelude.{◌<◌, length};
    ghost use Rattle.node_run.specs.Admitted.{AreOpen, admitted_at};
    ghost use Rattle.node_run.specs.Unsent.{AreKept};
    ghost use Rattle.node_run.specs.Keeping.{kept_all, kept_on};

    ghost holds = { λ os ts. AreOpen ts os N.queues };

    ghost count = { λ os. length os };

    ghost asked = { λ os at. admitted_at os at };

    ghost is_host = { λ host. host < N.hosts };

    ghost keeps = { λ os later. AreKept os later };

    ghost keeps_all = { λ os. kept_all os };

    ghost keeps_on = { λ os later last h k. kept_on os later last h k };

    fn sessions(&self) -> usize {
        self.sessions.len()
    }

    fn kernel(&self, at: usize) -> u128 {
        self.sessions[at].kernel
    }

    fn requests(&self, at: usize) -> usize {
        self.sessions[at].requests
    }

    fn open(
        &mut self,
        alloc: Global,
        kernel: u128,
        host: u32,
        request: Header,
        channel: Channel,
    ) -> Result<(), AllocError> {
        let feed = self.feeds.open(alloc, kernel)?;
        self.sessions.reserve(1)?;
        let number = self.sessions.len() as u32;
        let Some(queues) = self.queues.pop() else {
            unreachable!()
        };
        let engine = E::opened(alloc, host);
        let cell = self.node.cell(number);
        match cell.open(
            self.rt, alloc, queues, kernel, self.hosts, engine, feed, host, request, channel,
        ) {
            Ok((pass, reader)) => {
                let reader = kept_reader(
                    self.rt,
                    self.node,
                    number,
                    host,
                    self.is_read,
                    cell,
                    reader,
                );
                self.sessions.push_reserved(OpenSession {
                    kernel,
                    host,
                    requests: 0,
                    pass,
                    reader,
                    next: 1,
                });
                Ok(())
            }
            Err(queues) => {
                self.queues.push_reserved(queues);
                Err(AllocError)
            }
        }
    }

    fn admit(&mut self, at: usize, request: Request) -> Result<(), AllocError> {
        let node = self.node;
        let number = at as u32;
        let host = admit_to(self.rt, node.cell(number), &mut self.sessions, at, request)?;
        node.wake(self.rt, host, number);
        Ok(())
    }

    fn notify(&self) {
        self.node.ring_hosts(self.rt);
    }
}

/// The reader of a session that was just opened, if what the session answers is read as it comes: then a worker is woken, to pass on
/// what answers the opening. Else the reader is closed.
fn kept_reader<E, F, N, R>(
    rt: &R,
    node: &Hosts<E, F, N>,
    number: u32,
    host: u32,
    is_read: bool,
    cell: &SessionCell<E, F, N>,
    reader: Reader,
) -> Option<Reader>
where
    E: Engine + Drop,
    F: Feed,
    N: Name,
    R: Wait,
    requires { reader.out_queue ≡ cell.now.0.out }
    ensures { IfSome result (λ kept. kept ≡ reader) }
{
    if is_read {
        node.wake(rt, host, number);
        return Some(reader);
    }
    close_reader(rt, cell, host, reader);
    None
}

/// Closes the reader of a session that was just opened on this host: no entry of it is read before the run has ended.
fn close_reader<E, F, N, R>(rt: &R, cell: &SessionCell<E, F, N>, host: u32, reader: Reader)
where
    E: Engine + Drop,
    F: Feed,
    N: Name,
    R: Wait,
    requires { reader.out_queue ≡ cell.now.0.out }
{
    match cell.take(rt, host) {
        Take::Taken(lease) => {
            let mut lease = lease;
            let _ = lease.close_reader(rt, reader);
            cell.give(rt, lease);
        }
        Take::Elsewhere(_) | Take::Sealed(_) | Take::Unopened | Take::Out => {}
    }
}

/// Reads the next entry of the session at that index, which is in this cell.
fn read_at<E, F, N, R>(
    rt: &R,
    cell: &SessionCell<E, F, N>,
    sessions: &mut Vec<OpenSession>,
    at: usize,
) -> Option<NextEntry>
where
    E: Engine + Drop,
    F: Feed,
    N: Name,
    R: Wait,
    requires at { at < length sessions.old.items }
    requires cell { slice_get N.queues at ≡ Some cell.now.0 }
    requires readable { AreReadable sessions.old.items N.queues }
    ensures { MatchOption result (sessions.new.items ≡ sessions.old.items) (λ next. HasRead sessions.old.items at next sessions.new.items) }
{
    let opened = &mut sessions[at];
    let kernel = opened.kernel;
    let first = opened.next;
    match next_entry(rt, cell, &mut opened.reader) {
        Some(entry) => Some(NextEntry {
            kernel,
            first,
            entry,
        }),
        None => None,
    }
}

/// Takes the next entry, if there is a reader.
fn next_entry<E, F, N, R>(
    rt: &R,
    cell: &SessionCell<E, F, N>,
    reader: &mut Option<Reader>,
) -> Option<Entry>
where
    E: Engine + Drop,
    F: Feed,
    N: Name,
    R: Wait,
    requires { IsReaderOf cell.now.0 reader.old }
    ensures { MatchOption result (reader.new ≡ reader.old) (λ entry. HasTaken reader.old entry reader.new) }
{
    match reader {
        Some(reader) => cell.read(rt, reader),
        None => None,
    }
}

/// Admits a request on this pass. Whether it was; if not, memory ran out.
fn admit_on<E, F, N, R>(
    rt: &R,
    cell: &SessionCell<E, F, N>,
    pass: &mut Pass,
    request: Request,
) -> bool
where
    E: Engine + Drop,
    F: Feed,
    N: Name,
    R: Wait,
    requires pass { IsPassOf cell.now.0 pass.old }
    requires number { request.frontend ≡ pass.old.number }
    ensures { pass.new ≡ cond result (admitted_by pass.old request) pass.old }
{
    cell.admit(rt, pass, request).is_ok()
}

/// Admits a request to the session at that index, which is in this cell, and gives the host on which it was opened. After an error
/// the sessions are as before.
fn admit_to<E, F, N, R>(
    rt: &R,
    cell: &SessionCell<E, F, N>,
    sessions: &mut Vec<OpenSession>,
    at: usize,
    request: Request,
) -> Result<u32, AllocError>
where
    E: Engine + Drop,
    F: Feed,
    N: Name,
    R: Wait,
    requires at { at < length sessions.old.items }
    requires cell { slice_get N.queues at ≡ Some cell.now.0 }
    requires seated { AreSeated sessions.old.items N.queues }
    requires frontend { request.frontend ≡ 0 }
    requires few { admitted_at sessions.old.items at < most_requests }
    ensures ok { OnOk result (HasAdmitted sessions.old.items at request sessions.new.items) }
    ensures err { OnErr result (sessions.new.items ≡ sessions.old.items) }
{
    let session = &mut sessions[at];
    if !admit_on(rt, cell, &mut session.pass, request) {
        return Err(AllocError);
    }
    session.requests += 1;
    Ok(session.host)
}
