//! The commands `plan` and `restore`: the bytes of a checkpoint come in; the lines of a least-cost plan for its graph, or the values
//! of the names of the restored state, go out, or the reason why not.
//!
//! The lines of a certified plan are its cost, what is copied and run again, and the flow that shows that no plan costs less.
//! docs/PLANNING.md has an example.
#![tactic(auto)]

mod fault_lines;
mod lines;
mod restore_lines;
mod said;
mod shown;
mod told;

pub use fault_lines::fault_line;
pub use lines::plan_lines;
pub use said::{Said, planned};
pub use told::restored;
