//! The replay theorem: a feasible plan of a session's history graph restores the session.
//!
//! A restoration walks over the recorded cells from the empty state: some are run again, and after each cell the copied
//! versions that it wrote are loaded. Whatever is stale in between, the state at the end is that of the session. The text of a part
//! says what the part is, and not which addresses its objects have. docs/REPLAY.md tells it in words.
//!
//! Definitions and laws alone: each law is the contract of a function that does nothing.
#![tactic(auto)]

mod laws;
mod part_laws;

pub use laws::{
    a_copy_is_loaded, a_feasible_plan_restores_the_session, a_move_keeps_the_session,
    a_restored_state_has_the_sizes, a_session_goes_on, a_session_has_its_versions,
    a_walk_can_be_made, a_walk_keeps_what_it_gave_back, same_states_are_reached_in_one_order,
    sizes_are_told_alike, tidying_keeps_the_state, two_walks_end_alike,
};
pub use part_laws::same_states_have_one_text;
