//! The laws that each session of a notebook has a text, and is restored from it: for each list of asks that a session served, its
//! history, and a plan that is feasible for this, the checkpoint of the state after these asks is written down as bytes that can be
//! read, and what they are restored to is the same session.
//!
//! The laws are contracts of functions that do nothing.
#![tactic(auto)]

mod laws;
mod restoring;

pub use laws::{
    constants_of_codes_are_plain, every_session_has_a_text, states_of_sessions_are_plain,
};
pub use restoring::every_session_is_restored_from_its_bytes;
