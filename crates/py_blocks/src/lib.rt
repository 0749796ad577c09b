//! One machine for statements, over that of expressions: the blocks that are open hold trees.
//!
//! A state is what has been read of a cell. Each open block holds the trees of the statements before it, and its head; when it ends,
//! its statement is one of them. A statement keeps the first place at each depth in it, as an expression does.
#![tactic(auto)]

mod blocks;
mod constructs;
mod forcing;
mod functions;
mod heads;
pub mod laws;
mod lines;
mod names;
mod simple;
mod source;
mod state;
mod steps;

pub use constructs::outside;
pub use forcing::{deepest, forced_now};
pub use source::{MOST, last_word};
pub use state::{
    Around, Begun, Branches, Done, Head, Last, Lead, Outer, Place, Purpose, Reader, Simple, Spot,
    State, Test, Word,
};
pub use steps::{start, step};
