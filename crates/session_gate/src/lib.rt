//! The gate of a session: one host at a time owns it, each request is answered once, whatever the threads do.
//!
//! A `Resident` owns a session's engine, feed, journal and ends of the queues. A `Lease` is a Resident out with its owner, and a
//! `Parcel` one that is sealed for another host. None of them can be copied or let go unnoticed. A `Slot` is where a Resident or
//! a Parcel is kept, and a `SessionCell` is a slot that a lock guards. docs/THREADS.md tells it in words.
//!
//! What the contracts leave open: before a lock is taken nothing is known of what it guards but its type, so no clause of a
//! cell's call can name who is there. Whom the call finds is said where it is lent the slot: `open`, `give`, `seal` and `settle`
//! of a slot say that nobody was there. What lets go who is in a slot is private to the slot's file. A cell's call that takes the
//! session out and ends it by a call that says so (`discard`, `into_journal`) would be proved.
//!
//! For the same reason a `SessionCell::take` that always says that another host owns the session, a `collect` and a `read` that
//! never find anything, and a `finish` that always gives the cell back would be proved. The program runs `take` and `collect`.
#![tactic(auto)]

mod cell;
pub mod laws;
mod lease;
mod opening;
mod parcel;
mod resident;
mod served;
mod slot;

pub use cell::SessionCell;
pub use lease::Lease;
pub use parcel::Parcel;
pub use resident::Resident;
pub use served::ServedAs;
pub use slot::{Custody, Name, Slot, Take};
