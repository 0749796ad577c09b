ghost use Rattle.std.specs.Prelude.{◌≡◌, ◌≤◌, ◌⊎◌, true};
ghost use Rattle.session_core.specs.Asks.{is_move};
ghost use Rattle.session_core.specs.Legal.{progress_of, arriving};
ghost use Rattle.session_gate.specs.Facts.{Owes, OwesNone};
ghost use Rattle.hand_off.specs.Moves.{HasStarted, HasArrived, HasStayed};
ghost use Rattle.hand_off.specs.Doing.{Starts, Adopts};

use nb_outside::Feed;
use session_core::{Engine, Request, Verdict};
use session_gate::{Lease, Parcel};
use std::alloc::Global;

/// What came of a request to move.
pub enum Started<E: Engine, F: Feed> {
    /// It is refused.
    Refused(Lease<E, F>),
    /// The session stays for want of memory.
    Resumed(Lease<E, F>),
    /// The session is sealed for the host that the request asks for.
    Sealed(Parcel<E, F>),
}

/// Answers the owed request to move: it is refused for the first reason that holds; for want of memory the session stays; or it is
/// sealed for the host that the request asks for.
pub fn start_move<E: Engine, F: Feed>(
    alloc: Global,
    lease: Lease<E, F>,
    request: Request,
) -> Started<E, F>
    requires owes { Owes lease request }
    requires spare { 3 ≤ lease.spare }
    requires asked { is_move request.ask ≡ true }
    ensures started { HasStarted E.meaning lease request result }
    ensures does { Starts E.meaning lease result }
{
    lease.is_legal();
    match lease.judge(alloc, &request) {
        Verdict::Refuse(reason) => {
            let lease = lease.refuse(request, reason);
            lease.is_legal();
            Started::Refused(lease)
        }
        Verdict::Stay => {
            let lease = lease.resume(request);
            lease.is_legal();
            Started::Resumed(lease)
        }
        Verdict::Go { again, to, packed } => {
            let parcel = lease.depart(request, again, to, packed);
            parcel.is_legal();
            Started::Sealed(parcel)
        }
    }
}

/// Ends the move of a parcel that came to its host: the session goes on there, with the engine that the bytes restore; or, for want
/// of memory, with the old engine on the old host.
pub fn finish_move<E: Engine + Drop, F: Feed>(alloc: Global, parcel: Parcel<E, F>) -> Lease<E, F>
    requires { (progress_of parcel.held.entries).phase ≡ arriving parcel.again parcel.to }
    ensures ended { HasArrived E.meaning E.is_image E.host_of E.stands_for parcel result ⊎ HasStayed parcel result }
    ensures does { Adopts E.meaning parcel result }
    ensures owes { OwesNone result }
{
    match parcel.unpack(alloc) {
        Ok((engine, objects)) => {
            let lease = parcel.adopt(engine, objects);
            lease.is_legal();
            lease
        }
        Err(_) => {
            let lease = parcel.resume();
            lease.is_legal();
            lease
        }
    }
}
