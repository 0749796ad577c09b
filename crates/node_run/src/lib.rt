//! A node on threads: a stream is taken in while each host's workers serve its sessions, and what is answered is written.
//!
//! `run_sessions` opens sessions and admits requests as their frames come. Then it finishes what the workers left. It is written for
//! any engine. `specs/Admitted` says what the feeder has of the sessions, and `specs/Streams` what a run did: which journals were
//! made, and which bytes were written.
//!
//! The contracts leave open when memory runs out, so a body that always answers that it ran out meets them. Therefore the
//! tables of cases run the calls, through the program. The contracts leave open the words in which a fault is shown, too, and
//! whether a worker does anything.
#![tactic(auto)]

mod desk;
mod end;
mod feeding;
mod finishing;
mod open_session;
mod render;
mod run;
mod streams;
mod write;

pub use desk::AdmissionDesk;
pub use end::RunEnd;
pub use feeding::run_workers;
pub use finishing::discard;
pub use open_session::{NextEntry, OpenSession};
pub use run::{NodeRun, end_after, make_queues, push_broken, run_sessions, run_stream, status_of};
pub use streams::{SinkFault, write_all};
