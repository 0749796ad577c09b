//! The three queues of a session: main, control and out; and the passes on them.
//!
//! Producers push requests on main or control with a `Pass`. The owner of the session has the other `Ends`, with which
//! it pops requests, and an `Outlet`, with which it pushes entries on out. The one `Reader` takes these. `specs/Passes` and
//! `specs/Ends` say what each of them knows.
#![tactic(auto)]

mod ends;
mod items;
mod outlet;
mod pass;
mod queues;
mod reader;
mod shared;

pub use ends::Ends;
pub use items::{ControlNumbers, MainItem, MainNumbers, OutNumbers};
pub use outlet::Outlet;
pub use pass::Pass;
pub use queues::{Opened, Queues};
pub use reader::Reader;
pub use shared::SharedQueues;
