//! A part loaded into a state, and a state with its objects numbered anew.
//!
//! Both put copies of objects after others, with other addresses: a load after those that are there, and tidying in the order in which
//! names reach them. docs/REPLAY.md tells what restoring does with them.
#![tactic(auto)]

mod loading;
mod moving;
mod tidying;

pub use loading::load;
pub use tidying::tidied;
