ghost use Rattle.std.specs.Prelude.{◌≡◌, ◌≤◌, true};
ghost use Rattle.session_core.specs.Asks.{is_move};
ghost use Rattle.session_gate.specs.Facts.{Owes, OwesNone, IsOurs, owner_of};
ghost use Rattle.host_workers.specs.Tenures.{IsTenure};

use crate::gate::Gate;
use crate::moving::arrived;
use crate::outcomes::{Next, Tenure, Turn};
use crate::turning::turn;
use hand_off::{Started, start_move};
use nb_outside::Feed;
use session_core::{Engine, Request};
use session_gate::{Lease, Name, SessionCell, Take};
use std::alloc::Global;
use std::sync::Wait;

/// Does one turn of a session that was taken.
fn do_turn<E: Engine, F: Feed, R: Wait>(rt: &R, alloc: Global, lease: Lease<E, F>) -> Tenure<E, F>
    requires { OwesNone lease }
    ensures { IsTenure F.seen E.meaning lease result }
{
    let mut lease = lease;
    match turn(rt, alloc, &mut lease) {
        Turn::Ran | Turn::Died | Turn::Dead => Tenure::Answered(lease),
        Turn::Nothing | Turn::OutOfMemory => Tenure::Unchanged(lease),
        Turn::Move(request) => {
            let _ = lease.publish(rt, alloc);
            set_out(alloc, lease, request)
        }
    }
}

/// Starts a move.
fn set_out<E: Engine, F: Feed>(alloc: Global, lease: Lease<E, F>, request: Request) -> Tenure<E, F>
    requires owes { Owes lease request }
    requires spare { 3 ≤ lease.spare }
    requires asked { is_move request.ask ≡ true }
    ensures { IsTenure F.seen E.meaning lease result }
{
    match start_move(alloc, lease, request) {
        Started::Refused(lease) => Tenure::Answered(lease),
        Started::Resumed(lease) => Tenure::Answered(lease),
        Started::Sealed(parcel) => Tenure::Sealed(parcel),
    }
}

/// Does one turn of a session for a host, if it is there or is sealed for it.
pub(crate) fn tend<E, F, N, G, R>(
    rt: &R,
    alloc: Global,
    cell: &SessionCell<E, F, N>,
    host: u32,
    session: u32,
    gate: &G,
) -> Next
where
    E: Engine + Drop,
    F: Feed,
    N: Name,
    G: Gate,
    R: Wait,
{
    match cell.take(rt, host) {
        Take::Taken(lease) => {
            gate.cross(host, session);
            let next = hold(rt, alloc, cell, host, lease);
            gate.passed(host, session);
            next
        }
        Take::Elsewhere(owner) => Next::At(owner),
        Take::Sealed(to) => {
            if to != host {
                return Next::At(to);
            }
            bring(rt, alloc, cell, host)
        }
        Take::Unopened | Take::Out => Next::Rest,
    }
}

/// Does one turn of a session that this host took, and gives it back or seals it.
fn hold<E, F, N, R>(
    rt: &R,
    alloc: Global,
    cell: &SessionCell<E, F, N>,
    host: u32,
    lease: Lease<E, F>,
) -> Next
where
    E: Engine + Drop,
    F: Feed,
    N: Name,
    R: Wait,
    requires owner { owner_of lease ≡ host }
    requires ours { IsOurs cell.now N.hosts N.gives F.seen lease }
{
    let _ = host;
    match do_turn(rt, alloc, lease) {
        Tenure::Answered(lease) => {
            put_back(rt, alloc, cell, lease);
            Next::Answered
        }
        Tenure::Unchanged(lease) => {
            put_back(rt, alloc, cell, lease);
            Next::Rest
        }
        Tenure::Sealed(parcel) => {
            let to = parcel.to();
            cell.seal(rt, parcel);
            Next::At(to)
        }
    }
}

/// Publishes what the session answered, and gives it back. What an entry's copy finds no memory for is published later.
fn put_back<E, F, N, R>(rt: &R, alloc: Global, cell: &SessionCell<E, F, N>, lease: Lease<E, F>)
where
    E: Engine + Drop,
    F: Feed,
    N: Name,
    R: Wait,
    requires { IsOurs cell.now N.hosts N.gives F.seen lease }
{
    let mut lease = lease;
    let _ = lease.publish(rt, alloc);
    cell.give(rt, lease);
}

/// Brings a session that is sealed for this host there.
fn bring<E, F, N, R>(rt: &R, alloc: Global, cell: &SessionCell<E, F, N>, host: u32) -> Next
where
    E: Engine + Drop,
    F: Feed,
    N: Name,
    R: Wait,
{
    match cell.collect(rt, host) {
        Some(parcel) => {
            put_back(rt, alloc, cell, arrived(alloc, parcel));
            Next::Answered
        }
        None => Next::Rest,
    }
}
