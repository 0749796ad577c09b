//! Laws of the meaning of a cell: what a cell depends on, what its marks report, that it keeps states valid and each run in
//! it does, when two states are the same, that the bounds of loops change nothing, and what floor division is.
//!
//! Two states are the same over some names if these have equal values, but for the addresses of objects. Each law is
//! the contract of a function that does nothing.
#![tactic(auto)]

mod laws;
mod loops;
mod numbers;
mod runs;

pub use laws::{
    a_state_is_the_same_as_itself, cells_change_no_tuple, cells_depend_on_what_they_look_up,
    cells_keep_states_closed, cells_keep_states_valid, cells_pair_what_names_reach,
    cells_run_alike_in_same_states, cells_use_names_that_stand_in_trees, marks_report_the_trace,
    more_draws_change_nothing, sameness_goes_both_ways, sameness_goes_on,
    sameness_is_of_what_is_reached, sameness_joins, what_names_reach_is_a_list,
};
pub use loops::bounds_of_loops_change_nothing;
pub use numbers::floor_division_is_by_quotient_and_remainder;
pub use runs::runs_keep_machines_sound;
