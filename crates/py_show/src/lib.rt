//! The text that a value shows: its `str` and its `repr`. (Python reference: `str`, `repr`.)
//!
//! The functions that show values borrow a state, and count steps. They copy no list and no dict, and they never keep more
//! than `METER_LIMIT` bytes of an output: of a longer one they keep only that it is longer. That is enough, since each use
//! charges the bytes of its output, and that charge is refused.
#![tactic(auto)]

mod limited;
mod plain;
mod printed;
mod quoted;
mod shown;

pub use limited::Limited;
pub use printed::{
    charge_shown, print_line, repr_of, repr_value, result_text, str_value, written_of,
};
pub use shown::{put_repr, put_written};
