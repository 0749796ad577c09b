ghost use Rattle.std.specs.Prelude.{◌≡◌};
ghost use Rattle.session_gate.specs.Facts.{OwesNone};
ghost use Rattle.host_workers.specs.Turns.{HasTurned, IsSameSession, turn_of};

use crate::outcomes::Turn;
use nb_outside::Feed;
use session_core::Engine;
use session_gate::{Lease, ServedAs};
use std::alloc::Global;
use std::sync::Wait;

/// Makes room for entries, pops the front of the control queue, or else of the main queue, and answers it, if it isn't a request to
/// move.
pub fn turn<E: Engine, F: Feed, R: Wait>(rt: &R, alloc: Global, lease: &mut Lease<E, F>) -> Turn
    requires { OwesNone lease.old }
    ensures turned { HasTurned E.meaning lease.old result lease.new }
    ensures same { IsSameSession F.seen lease.old lease.new }
{
    if lease.reserve(3).is_err() {
        return Turn::OutOfMemory;
    }
    lease.is_legal();
    let Some(request) = lease.pop(rt) else {
        return Turn::Nothing;
    };
    if request.ask.is_move() {
        return Turn::Move(request);
    }
    let served = lease.serve(alloc, request);
    lease.is_legal();
    told(served)
}

/// A turn that answered a request.
fn told(served: ServedAs) -> Turn
    ensures { result ≡ turn_of served }
{
    match served {
        ServedAs::Ran => Turn::Ran,
        ServedAs::Died => Turn::Died,
        ServedAs::Dead => Turn::Dead,
    }
}
