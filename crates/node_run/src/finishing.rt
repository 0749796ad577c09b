//! What the workers left is done, session by session.

ghost use Rattle.std.specs.Prelude.{◌≡◌, List, length, IfOk};
ghost use Rattle.session_queues.specs.Passes.{IsPassOf};
ghost use Rattle.host_workers.specs.Tables.{IsTable};
ghost use Rattle.node_intake.specs.Intake.{Taken};
ghost use Rattle.node_run.specs.Admitted.{IsOpen, AreOpen, AreSeated};
ghost use Rattle.node_run.specs.Journals.{IsRunOf, AreRuns};

use crate::open_session::OpenSession;
use host_workers::{Gate, finish};
use nb_outside::Feed;
use session_core::{Alone, Engine};
use session_gate::{Name, SessionCell};
use std::alloc::{AllocError, Global};
use std::sync::Wait;
use std::thread::{Threads, join};

/// Lets cells go, with whoever is there.
pub fn discard<E: Engine + Drop, F: Feed, N: Name>(cells: Vec<SessionCell<E, F, N>>) {
    let mut cells = cells;
    while let Some(cell) = cells.pop() {
        cell.discard();
    }
    cells.destroy_empty();
}

/// Does what is left of a session, and gives it with its kernel.
fn finish_one<E, F, N, G, R>(
    rt: &R,
    alloc: Global,
    cell: SessionCell<E, F, N>,
    session: OpenSession,
    gate: &G,
) -> Result<(u128, Alone<E>), AllocError>
where
    E: Engine + Drop,
    F: Feed,
    N: Name,
    G: Gate,
    R: Wait,
    requires { IsPassOf cell.0 session.pass }
    ensures { (s : Taken) → IsOpen cell.0 s session → IfOk result (λ run. IsRunOf E.meaning N.hosts N.gives s run) }
{
    let OpenSession {
        kernel,
        host: _,
        requests: _,
        pass,
        reader: _,
        next: _,
    } = session;
    let (lease, all) = finish(rt, alloc, cell, pass, gate);
    let (served, _feed) = lease.into_alone();
    if !all {
        return Err(AllocError);
    }
    served.is_legal();
    Ok((kernel, served))
}

/// Does what is left of each session, in the order of opening, and gives each with its kernel.
pub fn finish_all<E, F, N, G, R>(
    rt: &R,
    alloc: Global,
    cells: Vec<SessionCell<E, F, N>>,
    sessions: Vec<OpenSession>,
    gate: &G,
) -> Result<Vec<(u128, Alone<E>)>, AllocError>
where
    E: Engine + Drop,
    F: Feed,
    N: Name,
    G: Gate,
    R: Wait,
    requires table { IsTable cells.items × (length N.queues ≡ 256) }
    requires seated { AreSeated sessions.items N.queues }
    ensures { (ts : List Taken) → AreOpen ts sessions.items N.queues → IfOk result (λ runs. AreRuns E.meaning N.hosts N.gives ts runs.items) }
{
    let mut cells = cells;
    let mut runs = Vec::new(alloc);
    cells.reverse();
    for session in sessions {
        let Some(cell) = cells.pop() else {
            unreachable!()
        };
        cell.is_listed();
        match finish_one(rt, alloc, cell, session, gate) {
            Ok(run) => {
                if runs.push(run).is_err() {
                    discard(cells);
                    return Err(AllocError);
                }
            }
            Err(error) => {
                discard(cells);
                return Err(error);
            }
        }
    }
    discard(cells);
    Ok(runs)
}

/// Lets sessions that were served go, by two threads if they can be made.
fn let_go_by_two<E, R>(rt: &R, runs: Vec<(u128, Alone<E>)>)
where
    E: Engine + Drop + Send,
    R: Threads + Sync,
{
    let mut front = runs;
    let half = front.len() / 2;
    let Ok(back) = front.split_off(half) else {
        return;
    };
    join(rt, move || drop(front), move || drop(back));
}

/// Lets sessions that were served go, by four threads if they can be made: their journals and values are many small pieces of memory.
pub fn let_go<E, R>(rt: &R, runs: Vec<(u128, Alone<E>)>)
where
    E: Engine + Drop + Send,
    R: Threads + Sync,
{
    let mut front = runs;
    let half = front.len() / 2;
    let Ok(back) = front.split_off(half) else {
        return;
    };
    join(
        rt,
        move || let_go_by_two(rt, front),
        move || let_go_by_two(rt, back),
    );
}
