//! The history graph of a run of cells, and that it tells the truth.
//!
//! After each cell, which variables are linked by the objects that they share, and what each cell read, missed and wrote of
//! these parts. A recorded cell, run again in a state with the versions that it read, gives the same versions again.
//! Definitions and laws alone: each law is the contract of a function that does nothing. docs/HISTORY.md tells it in words.
#![tactic(auto)]

mod laws;

pub use laws::{
    a_cell_has_its_reads, a_cell_repeats_from_its_reads, a_code_without_a_tree_does_nothing,
    a_graph_that_fits_grows_to_one, a_history_fits_the_last_state, a_history_passes_the_check,
    a_run_has_one_history, a_run_list_is_a_run, histories_are_sound, histories_grow,
    marks_tell_what_a_cell_leaves, sameness_keeps_handles, two_small_histories,
    versions_stand_as_written, what_holds_is_the_parts,
};
