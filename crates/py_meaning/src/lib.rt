//! The meaning of a cell, written out: what each construct does to a machine, and what a cell gives from a state under the
//! draws that it takes in order.
#![tactic(auto)]

mod end;

pub use end::{CellEnd, CellError};
