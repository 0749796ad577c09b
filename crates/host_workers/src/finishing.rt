ghost use Rattle.std.specs.Prelude.{◌≡◌, true};
ghost use Rattle.session_queues.specs.Passes.{IsPassOf};
ghost use Rattle.session_queues.specs.Ends.{FoundNothing};
ghost use Rattle.session_gate.specs.Facts.{OwesNone, IsOurs};
ghost use Rattle.session_gate.specs.Custodies.{IsFinished};
ghost use Rattle.host_workers.specs.Tenures.{IsSettledAs};
ghost use Rattle.host_workers.specs.declared.finishing.Found.{Found};

use crate::gate::Gate;
use crate::moving::{arrived, moved};
use crate::outcomes::Turn;
use crate::turning::turn;
use nb_outside::Feed;
use session_core::Engine;
use session_gate::{Lease, Name, SessionCell, Take};
use session_queues::Pass;
use std::alloc::Global;
use std::sync::Wait;
use std::thread;

/// Takes a session back once the workers have returned, and gives its lease, which has what the pass holds, and owes nothing. What
/// waits for it is left.
pub fn take_back<E, F, N, R>(
    rt: &R,
    alloc: Global,
    cell: SessionCell<E, F, N>,
    pass: Pass,
) -> Lease<E, F>
where
    E: Engine + Drop,
    F: Feed,
    N: Name,
    R: Wait,
    requires { IsPassOf cell.0 pass }
    ensures { IsFinished N.hosts cell.0 cell.1 pass N.gives F.seen result }
{
    let lease = take_any(rt, alloc, &cell);
    let lease = cell.gather(rt, lease, pass);
    lease.is_legal();
    lease
}

/// Does what is left of a session once the workers have returned, and gives its lease, which has what the pass holds, and owes
/// nothing. Whether each of the two queues was found empty then; if not, memory ran out.
pub fn finish<E, F, N, G, R>(
    rt: &R,
    alloc: Global,
    cell: SessionCell<E, F, N>,
    pass: Pass,
    gate: &G,
) -> (Lease<E, F>, bool)
where
    E: Engine + Drop,
    F: Feed,
    N: Name,
    G: Gate,
    R: Wait,
    requires { IsPassOf cell.0 pass }
    ensures finished { IsFinished N.hosts cell.0 cell.1 pass N.gives F.seen result.0 }
    ensures all { result.1 ≡ true → FoundNothing result.0.ends }
{
    let lease = take_back(rt, alloc, cell, pass);
    let (lease, all) = drain(rt, alloc, gate, lease);
    lease.is_legal();
    (lease, all)
}

/// Takes the session for whoever owns it, once it is put back.
fn take_any<E, F, N, R>(rt: &R, alloc: Global, cell: &SessionCell<E, F, N>) -> Lease<E, F>
where
    E: Engine + Drop,
    F: Feed,
    N: Name,
    R: Wait,
    ensures { IsOurs cell.now N.hosts N.gives F.seen result }
{
    let mut host = 0;
    for _ in rt.forever() {
        match cell.take(rt, host) {
            Take::Taken(lease) => return lease,
            Take::Elsewhere(owner) => host = owner,
            Take::Sealed(to) => {
                if let Some(parcel) = cell.collect(rt, to) {
                    return arrived(alloc, parcel);
                }
            }
            Take::Unopened | Take::Out => thread::yield_now(),
        }
    }
    unreachable!()
}

/// What a step found.
#[derive(Clone, Copy, PartialEq)]
enum Found {
    Answered,
    Nothing,
    NoMemory,
}

/// Answers all that waits. Whether it did; if not, memory ran out.
fn drain<E, F, G, R>(rt: &R, alloc: Global, gate: &G, lease: Lease<E, F>) -> (Lease<E, F>, bool)
where
    E: Engine + Drop,
    F: Feed,
    G: Gate,
    R: Wait,
    requires { OwesNone lease }
    ensures same { IsSettledAs F.seen lease result.0 }
    ensures all { result.1 ≡ true → FoundNothing result.0.ends }
{
    let mut lease = lease;
    for _ in rt.forever() {
        let (next, found) = step(rt, alloc, gate, lease);
        lease = next;
        match found {
            Found::Answered => (),
            Found::Nothing => return (lease, true),
            Found::NoMemory => return (lease, false),
        }
    }
    unreachable!()
}

/// One turn, for the host that owns the session, between a crossing of the gate and its passing.
fn step<E, F, G, R>(rt: &R, alloc: Global, gate: &G, lease: Lease<E, F>) -> (Lease<E, F>, Found)
where
    E: Engine + Drop,
    F: Feed,
    G: Gate,
    R: Wait,
    requires { OwesNone lease }
    ensures same { IsSettledAs F.seen lease result.0 }
    ensures nothing { result.1 ≡ Found.Nothing → FoundNothing result.0.ends }
{
    let host = lease.host();
    let session = lease.number();
    gate.cross(host, session);
    let step = answer(rt, alloc, lease);
    gate.passed(host, session);
    step
}

/// Answers the next request, a move too: the session goes to its host at once.
fn answer<E: Engine + Drop, F: Feed, R: Wait>(
    rt: &R,
    alloc: Global,
    lease: Lease<E, F>,
) -> (Lease<E, F>, Found)
    requires { OwesNone lease }
    ensures same { IsSettledAs F.seen lease result.0 }
    ensures nothing { result.1 ≡ Found.Nothing → FoundNothing result.0.ends }
{
    let mut lease = lease;
    match turn(rt, alloc, &mut lease) {
        Turn::Ran | Turn::Died | Turn::Dead => (lease, Found::Answered),
        Turn::Move(request) => (moved(alloc, lease, request), Found::Answered),
        Turn::Nothing => (lease, Found::Nothing),
        Turn::OutOfMemory => (lease, Found::NoMemory),
    }
}
