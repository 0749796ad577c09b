//! Hosts are sets of worker threads: each works off the sessions that its host owns.
//!
//! `turn` answers the next request of a session, and `worker` takes sessions from its host's run queue, does a turn and gives them
//! back, or seals them for another host. Once the workers have returned, `finish` does what is left of a session, and `take_back`
//! leaves it undone. `specs/Turns` says what a turn does, and `specs/Tenures` which events of a session are what a worker does
//! between a take and a give.
//!
//! Nothing is claimed of the run queues and of who is woken when: a session that is in none of them is left for `finish`. No
//! contract says when memory runs out, nor that a worker does anything: one that returns at once would be proved too, and so would
//! a `turn` that always says that memory ran out. Tests of the program, in which threads wait for one another, show that they work.
#![tactic(auto)]

mod bell;
mod finishing;
mod gate;
mod hosts;
mod moving;
mod outcomes;
mod tending;
mod turning;
mod working;

pub use finishing::{finish, take_back};
pub use gate::{Gate, OpenGate};
pub use hosts::Hosts;
pub use outcomes::{Tenure, Turn};
pub use turning::turn;
pub use working::worker;
