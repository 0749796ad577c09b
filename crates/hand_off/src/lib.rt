//! The two halves of a move: the owner seals the session for another host, and that host brings it to life there.
//!
//! `start_move` answers a request to move with one entry of the journal, and `finish_move` ends the move of a parcel that came to
//! its host with one more. `specs/Moves` says which entry comes when, and what the session is then. docs/JOURNAL.md tells it in
//! words.
//!
//! No contract says when memory runs out, so a `start_move` that always says so would be proved too. Therefore the tables of cases
//! move sessions, through the program.
#![tactic(auto)]

mod moving;

pub use moving::{Started, finish_move, start_move};
