//! A part of a state, by itself, is a copy of it, and so is what its text is read as. Laws alone: each is the contract of a function
//! that does nothing.
#![tactic(auto)]

mod laws;

pub use laws::{a_part_by_itself_is_a_copy, what_is_written_is_read_as_a_copy};
