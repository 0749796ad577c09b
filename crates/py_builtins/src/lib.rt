//! What calls do that need no level below them: built-in functions, and the locals of a function's call.
#![tactic(auto)]

mod frames;
mod handles;
mod ints;
mod lengths;

pub use frames::{frame_of, not_called, returned};
pub use handles::{handle_called, tell_called};
pub use ints::int_called;
pub use lengths::len_called;
