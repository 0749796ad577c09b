ghost use Rattle.std.specs.Prelude.{◌<◌};

use crate::gate::Gate;
use crate::hosts::Hosts;
use crate::outcomes::Next;
use crate::tending::tend;
use nb_outside::Feed;
use session_core::Engine;
use session_gate::Name;
use std::alloc::Global;
use std::sync::Wait;

/// Works for a host until the feeder has closed and no session of the run waits for a worker. It sleeps while none waits for this
/// host. It crosses the gate before each turn of a session, and passes it once the session is put back.
pub fn worker<E, F, N, G, R>(rt: &R, alloc: Global, node: &Hosts<E, F, N>, host: u32, gate: &G)
where
    E: Engine + Drop,
    F: Feed,
    N: Name,
    G: Gate,
    R: Wait,
{
    for _ in rt.forever() {
        let Some(session) = node.next(rt, host) else {
            return;
        };
        if session < 256 {
            work_off(rt, alloc, node, host, session, gate);
        }
    }
}

/// Does one turn of a session, and puts it on the run queue of the host where it goes on, if requests may wait.
fn work_off<E, F, N, G, R>(
    rt: &R,
    alloc: Global,
    node: &Hosts<E, F, N>,
    host: u32,
    session: u32,
    gate: &G,
)
where
    E: Engine + Drop,
    F: Feed,
    N: Name,
    G: Gate,
    R: Wait,
    requires { session < 256 }
{
    let waiting = node.waiting(session);
    match tend(rt, alloc, node.cell(session), host, session, gate) {
        Next::At(other) => node.push(rt, other, session),
        Next::Answered => {
            if node.worked_off(rt, session, 1) {
                node.put_back(rt, host, session);
            }
        }
        Next::Rest => {
            if node.worked_off(rt, session, waiting) {
                node.put_back(rt, host, session);
            }
        }
    }
}
