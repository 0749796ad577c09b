//! If nothing but cells is asked of a session, it is that of one kernel that never moves. Whatever else its node does, each cell
//! is answered as that kernel answers it, from the state that the cell before left.
//!
//! Whatever is asked of a session on shell, it has one journal, but for the certificates of its moves, unless memory runs out.
//!
//! A session that is dead says nothing but that, for good.
//!
//! The laws are contracts of functions that do nothing.
#![tactic(auto)]

mod laws;
mod streams;

pub use laws::{
    a_dead_session_stays_dead, a_session_has_one_journal,
    a_session_of_cells_is_one_that_never_moves, a_session_of_cells_never_moves_until_it_dies,
};
pub use streams::a_stream_of_cells_is_answered_as_by_a_session_that_never_moves;
