//! What a notebook is, in terms of its asks: which lists of asks a session may have served, what is answered after such a list,
//! and the state, the history and the checkpoint that it leaves. `specs/Notebooks` says it; the engine on the kernel does it.
//!
//! Every state that a session reaches is valid: references name objects, names are variables, no dict has a key twice, each
//! function is what its text alone is read as, and the meter is within its limit.
//!
//! The laws are contracts of functions that do nothing.
#![tactic(auto)]

mod laws;

pub use laws::{
    a_list_goes_on, a_list_of_asks_is_a_run_list, a_recorded_code_reads_alike,
    a_session_can_be_written, states_of_codes_are_valid,
};
