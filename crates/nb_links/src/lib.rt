//! The frontends of a server as it sees them: links, over which bytes come and go, and a door at which links come.
//!
//! A link is polled: it answers what is ready, or that nothing is. Each link and door has a count of faults that never falls, and
//! answers `Failed` only if that count rose in the call. What a link gave, has left and was sent, and how many links came at a door
//! and which were taken back, is optional for contracts: over memory it is told, over TCP it isn't. At 2^64 - 1 a count doesn't
//! change any more, and then it counts as risen.
//!
//! No contract tells at which calls a link over memory fails, how much it gives at once, or when nothing is ready: callers have to
//! be right for all of them. Nor does one tell what a link over TCP gives: that its bytes are those of its peer is trusted.
#![tactic(auto)]

mod door;
mod link;
mod mem_door;
mod mem_link;
mod tcp;

pub use door::{Door, DoorEnd};
pub use link::{Link, Polled, SendEnd};
pub use mem_door::{MemDoor, Script};
pub use mem_link::MemLink;
pub use tcp::{TcpDoor, TcpLink};

#[cfg(test)]
mod tests;
