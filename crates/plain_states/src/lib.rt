//! Laws of the texts and numbers of a session. A state is plain if all that it holds can be written: its texts are UTF-8 of fewer
//! than 2^32 bytes, its numbers have 128 bits, and each object and each of its items is paid for with a unit. A cell keeps a state
//! plain.
//!
//! The laws are contracts of functions that do nothing.
#![tactic(auto)]

mod laws;

pub use laws::cells_keep_states_plain;
