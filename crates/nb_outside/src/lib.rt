//! The outside of the program as it sees it: a source of bytes, a sink for bytes, and feeds of words.
//!
//! Each has a count of faults that never falls, and answers `Failed` only if that count rose in the call. What a
//! source has left, what a sink was given and what a feed gives is optional for contracts: over memory it is told, over
//! the real ones it isn't. At 2^64 - 1 a count doesn't change any more, and then it counts as risen.
//!
//! No contract tells at which calls a stream over memory fails, or how much it takes at once: callers have to be right
//! for all of them. Nor does one tell what a real stream gives: that its bytes are those of the outside, and its end the
//! outside's end, is trusted.
#![tactic(auto)]

mod feed;
mod laws;
mod mem_feed;
mod memory;
mod random;
mod real;
mod sink;
mod source;

pub use feed::{Drawn, Feed, Feeds};
pub use laws::draws_add_up;
pub use mem_feed::{MemFeed, MemFeeds, NoFeed};
pub use memory::{MemSink, MemSource};
pub use random::{RandomFeed, RandomFeeds};
pub use real::{StdSink, StdSource};
pub use sink::{Sink, WriteEnd};
pub use source::{ReadEnd, Source};

#[cfg(test)]
mod tests;
