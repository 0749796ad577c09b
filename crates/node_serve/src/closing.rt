//! Once nothing more is taken in, what the workers left is done, session by session, and told. Once memory ran out, sessions are only
//! taken back.

ghost use Rattle.std.specs.Prelude.{◌≡◌, List, ◌++◌, true, length, IfOk, OnErr};
ghost use Rattle.session_core.specs.declared.entry.Entry.{Entry};
ghost use Rattle.session_queues.specs.Passes.{IsPassOf};
ghost use Rattle.host_workers.specs.Tables.{IsTable};
ghost use Rattle.node_intake.specs.Intake.{Taken};
ghost use Rattle.node_run.specs.Admitted.{IsOpen, AreOpen, AreSeated};
ghost use Rattle.node_run.specs.Journals.{IsRunOf};
ghost use Rattle.node_run.specs.Unsent.{entries_of, read_of, IsCounted, AreCounted, IsReaderOf, AreReadable};
ghost use Rattle.node_serve.specs.Units.{read_units, run_units};
ghost use Rattle.node_serve.specs.Sent.{wire, SendsOn};
ghost use Rattle.node_serve.specs.Closing.{IsTakenBack, IsCutShort, Closes, AreClosed};

use crate::telling::tell_rest;
use host_workers::{Gate, finish, take_back};
use nb_links::Link;
use nb_outside::Feed;
use node_run::{OpenSession, discard};
use session_core::{Alone, Engine};
use session_gate::{Lease, Name, SessionCell};
use session_queues::Reader;
use std::alloc::{AllocError, Global};
use std::sync::Wait;

/// A session that was served, and what of it wasn't told yet.
#[derive(Drop)]
struct Closed<E: Engine> {
    kernel: u128,
    served: Alone<E>,
    /// How many of its entries were told.
    place: usize,
    /// The running number of the next frame.
    next: u64,
}

/// The sessions that were served and told, as long as memory suffices.
#[derive(Drop)]
pub(crate) struct Closings<E: Engine> {
    pub(crate) runs: Vec<(u128, Alone<E>)>,
    /// Whether memory sufficed so far.
    pub(crate) suffices: bool,
}

/// Closes the reader, if there is one, and gives how many entries it took.
fn close_reader<E: Engine, F: Feed, R: Wait>(
    rt: &R,
    lease: &mut Lease<E, F>,
    reader: Option<Reader>,
) -> u32
    requires { IsReaderOf lease.old.ends.queues reader }
    ensures same { lease.new ≡ record lease.old { out = lease.new.out } }
    ensures first { (rest : List Entry) × (lease.old.entries ≡ entries_of reader ++ rest) }
    ensures count { result ≡ length (entries_of reader) }
{
    match reader {
        Some(reader) => lease.close_reader(rt, reader),
        None => 0,
    }
}

/// Does what is left of a session, and closes its reader.
fn close_one<E, F, N, G, R>(
    rt: &R,
    alloc: Global,
    cell: SessionCell<E, F, N>,
    session: OpenSession,
    gate: &G,
) -> Result<Closed<E>, AllocError>
where
    E: Engine + Drop,
    F: Feed,
    N: Name,
    G: Gate,
    R: Wait,
    requires pass { IsPassOf cell.0 session.pass }
    requires reader { IsReaderOf cell.0 session.reader }
    ensures run { (s : Taken) → IsOpen cell.0 s session → IfOk result (λ c. IsRunOf E.meaning N.hosts N.gives s (c.kernel, c.served)) }
    ensures place { IfOk result (λ c. (c.kernel ≡ session.kernel) × (c.next ≡ session.next) × (c.place ≡ length (read_of session)) × ((rest : List Entry) × (c.served.entries ≡ read_of session ++ rest))) }
    ensures err { (s : Taken) → IsOpen cell.0 s session → OnErr result (IsTakenBack E.meaning N.hosts N.gives s session) }
{
    let OpenSession {
        kernel,
        host: _,
        requests: _,
        pass,
        reader,
        next,
    } = session;
    let (lease, all) = finish(rt, alloc, cell, pass, gate);
    let mut lease = lease;
    let place = close_reader(rt, &mut lease, reader) as usize;
    if !all {
        lease.let_go(rt);
        return Err(AllocError);
    }
    let (served, _feed) = lease.into_alone();
    served.is_legal();
    Ok(Closed {
        kernel,
        served,
        place,
        next,
    })
}

/// Takes a session back, and lets it go with what waits for it.
fn let_go<E, F, N, R>(rt: &R, alloc: Global, cell: SessionCell<E, F, N>, session: OpenSession)
where
    E: Engine + Drop,
    F: Feed,
    N: Name,
    R: Wait,
    requires pass { IsPassOf cell.0 session.pass }
    requires reader { IsReaderOf cell.0 session.reader }
    ensures { (s : Taken) → IsOpen cell.0 s session → IsTakenBack E.meaning N.hosts N.gives s session }
{
    let OpenSession {
        kernel: _,
        host: _,
        requests: _,
        pass,
        reader,
        next: _,
    } = session;
    let mut lease = take_back(rt, alloc, cell, pass);
    let _ = close_reader(rt, &mut lease, reader);
    lease.let_go(rt);
}

/// Does what is left of a session, and tells what wasn't told of it. Gives it with its kernel.
fn close_and_tell<E, F, N, L, G, R>(
    rt: &R,
    alloc: Global,
    link: &mut L,
    is_cut: &mut bool,
    cell: SessionCell<E, F, N>,
    session: OpenSession,
    gate: &G,
) -> Result<(u128, Alone<E>), AllocError>
where
    E: Engine + Drop,
    F: Feed,
    N: Name,
    L: Link,
    G: Gate,
    R: Wait,
    requires pass { IsPassOf cell.0 session.pass }
    requires reader { IsReaderOf cell.0 session.reader }
    requires counted { IsCounted session }
    ensures run { (s : Taken) → IsOpen cell.0 s session → IfOk result (λ run. IsRunOf E.meaning N.hosts N.gives s run) }
    ensures ok { IfOk result (λ run. SendsOn true true (wire (L.line link.old) (L.faults link.old) is_cut.old) (wire (L.line link.new) (L.faults link.new) is_cut.new) (read_units session) (run_units run)) }
    ensures err { (s : Taken) → IsOpen cell.0 s session → OnErr result (IsCutShort E.meaning N.hosts N.gives (wire (L.line link.old) (L.faults link.old) is_cut.old) (wire (L.line link.new) (L.faults link.new) is_cut.new) s session) }
{
    match close_one(rt, alloc, cell, session, gate) {
        Ok(closed) => {
            let Closed {
                kernel,
                served,
                place,
                next,
            } = closed;
            match tell_rest(alloc, link, is_cut, kernel, served.entries(), place, next) {
                Ok(()) => Ok((kernel, served)),
                Err(error) => Err(error),
            }
        }
        Err(error) => Err(error),
    }
}

/// Does what is left of a session, and tells what wasn't told of it. Once memory ran out, it is only taken back.
fn close_next<E, F, N, L, G, R>(
    rt: &R,
    alloc: Global,
    link: &mut L,
    is_cut: &mut bool,
    cell: SessionCell<E, F, N>,
    session: OpenSession,
    gate: &G,
    closings: &mut Closings<E>,
)
where
    E: Engine + Drop,
    F: Feed,
    N: Name,
    L: Link,
    G: Gate,
    R: Wait,
    requires pass { IsPassOf cell.0 session.pass }
    requires reader { IsReaderOf cell.0 session.reader }
    requires counted { closings.old.suffices ≡ true → IsCounted session }
    ensures closes { (s : Taken) → IsOpen cell.0 s session → Closes E.meaning N.hosts N.gives (wire (L.line link.old) (L.faults link.old) is_cut.old) (wire (L.line link.new) (L.faults link.new) is_cut.new) s session
        closings.old.suffices closings.new.suffices closings.old.runs.items closings.new.runs.items }
    ensures stays { closings.new.suffices ≡ true → closings.old.suffices ≡ true }
{
    if !closings.suffices {
        let_go(rt, alloc, cell, session);
        return;
    }
    match close_and_tell(rt, alloc, link, is_cut, cell, session, gate) {
        Ok(run) => closings.suffices = closings.runs.push(run).is_ok(),
        Err(_) => closings.suffices = false,
    }
}

/// Closes each session, in the order of opening: does what is left of it and tells it. From when memory runs out on, or from the start if
/// it ran out before, they are only taken back.
pub(crate) fn close_all<E, F, N, L, G, R>(
    rt: &R,
    alloc: Global,
    link: &mut L,
    is_cut: &mut bool,
    cells: Vec<SessionCell<E, F, N>>,
    sessions: Vec<OpenSession>,
    gate: &G,
    suffices: bool,
) -> Closings<E>
where
    E: Engine + Drop,
    F: Feed,
    N: Name,
    L: Link,
    G: Gate,
    R: Wait,
    requires table { IsTable cells.items × (length N.queues ≡ 256) }
    requires seated { AreSeated sessions.items N.queues }
    requires readable { AreReadable sessions.items N.queues }
    requires counted { suffices ≡ true → AreCounted sessions.items }
    ensures { (ts : List Taken) → AreOpen ts sessions.items N.queues → AreClosed E.meaning N.hosts N.gives (wire (L.line link.old) (L.faults link.old) is_cut.old) (wire (L.line link.new) (L.faults link.new) is_cut.new) ts sessions.items
        suffices result.suffices result.runs.items }
{
    let mut cells = cells;
    let mut closings = Closings {
        runs: Vec::new(alloc),
        suffices,
    };
    cells.reverse();
    for session in sessions {
        let Some(cell) = cells.pop() else {
            unreachable!()
        };
        cell.is_listed();
        close_next(rt, alloc, link, is_cut, cell, session, gate, &mut closings);
    }
    discard(cells);
    closings
}
