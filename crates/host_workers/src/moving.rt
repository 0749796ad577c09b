ghost use Rattle.std.specs.Prelude.{◌≡◌, ◌≤◌, true};
ghost use Rattle.session_core.specs.Asks.{is_move};
ghost use Rattle.session_core.specs.Legal.{progress_of, arriving};
ghost use Rattle.session_gate.specs.Facts.{Owes};
ghost use Rattle.host_workers.specs.Tenures.{IsSettledAs};

use hand_off::{Started, finish_move, start_move};
use nb_outside::Feed;
use session_core::{Engine, Request};
use session_gate::{Lease, Parcel};
use std::alloc::Global;

/// A session that answers a request to move by itself: it is refused, resumed, or goes to its host at once.
pub(crate) fn moved<E: Engine + Drop, F: Feed>(
    alloc: Global,
    lease: Lease<E, F>,
    request: Request,
) -> Lease<E, F>
    requires owes { Owes lease request }
    requires spare { 3 ≤ lease.spare }
    requires asked { is_move request.ask ≡ true }
    ensures { IsSettledAs F.seen lease result }
{
    match start_move(alloc, lease, request) {
        Started::Refused(lease) => lease,
        Started::Resumed(lease) => lease,
        Started::Sealed(parcel) => arrived(alloc, parcel.arrive()),
    }
}

/// A session that came to its host: it goes on there, or, for want of memory, on the host from which it came.
pub(crate) fn arrived<E: Engine + Drop, F: Feed>(alloc: Global, parcel: Parcel<E, F>) -> Lease<E, F>
    requires { (progress_of parcel.held.entries).phase ≡ arriving parcel.again parcel.to }
    ensures { IsSettledAs F.seen parcel.held result }
{
    finish_move(alloc, parcel)
}
