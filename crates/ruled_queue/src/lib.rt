//! A queue under the rule of its passes, over any items that have a number.
//!
//! A pass is a thread's right to push or to pop, and what the thread knows of the queue. A split and a join
//! change two passes; each other step changes its own pass alone. `specs/Rule` says what always holds of what was popped, what
//! is queued and what the passes know, whatever the threads do.
#![tactic(auto)]

mod queue;
mod rule;

pub use queue::{
    Queue, Seat, join, make, one_consumer, pop, pop_and_drop, pop_or_count, push, push_or_drop,
    split_consumer, split_number,
};
pub use rule::{Numbering, View};
