//! Each run of cells has a history: there is a graph that says of each cell what it read, missed and wrote. What the laws of the
//! history graph take as a premise holds of every list of codes.
//!
//! Each law is the contract of a function that does nothing.
#![tactic(auto)]

mod laws;
mod run_laws;

pub use laws::{
    each_cell_makes_a_graph, each_name_is_in_a_part, every_list_of_codes_has_a_sound_history,
    every_run_has_a_history,
};
pub use run_laws::{
    cells_of_codes_have_names, each_cell_leads_on, histories_of_codes_pass_the_check,
};
