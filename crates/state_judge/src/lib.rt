//! Whether a state is as a history graph says: the versions that hold at the end are its parts, and each name with a value is in one.
#![tactic(auto)]

mod judging;
mod laws;

pub use judging::{Disagreement, judge};
pub use laws::a_state_that_agrees_has_the_versions;
