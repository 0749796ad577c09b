//! A checkpoint restored: the walk over its cells and copies, and its end, or the first reason why no session is written as these
//! bytes.
//!
//! docs/REPLAY.md tells the walk, docs/CHECKPOINTS.md the bytes. (Li et al., ElasticNotebook, PVLDB 17(2).)
#![tactic(auto)]

mod again;
mod fault;
mod laws;
mod restored;
mod run;
mod walk;

pub use fault::RestoreFault;
pub use laws::bytes_are_restored_in_one_way;
pub use restored::Restored;
pub use run::restore;
