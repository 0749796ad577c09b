use nb_outside::Feed;
use session_core::{Engine, Request};
use session_gate::{Lease, Parcel};

/// What came of a turn.
pub enum Turn {
    /// A request ran.
    Ran,
    /// The session died of a request.
    Died,
    /// The session was dead.
    Dead,
    /// A request to move was popped. It is owed.
    Move(Request),
    /// Nothing waited.
    Nothing,
    /// Nothing was popped for want of memory.
    OutOfMemory,
}

/// What a worker leaves of a session that it took.
pub enum Tenure<E: Engine, F: Feed> {
    /// One request was answered.
    Answered(Lease<E, F>),
    /// Nothing waited, or nothing was done for want of memory.
    Unchanged(Lease<E, F>),
    /// The session is sealed for another host.
    Sealed(Parcel<E, F>),
}

/// What is to be done about a session next.
pub(crate) enum Next {
    /// One request was answered. More may wait.
    Answered,
    /// The session goes on at that host.
    At(u32),
    /// There is nothing to do.
    Rest,
}
