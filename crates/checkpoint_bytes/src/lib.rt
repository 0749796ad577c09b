//! The bytes in which a session is written down: its count and meter, its history graph, a plan, and the texts of the parts
//! that the plan copies. They are of version 2 of the format, in which each text is once in a table.
//!
//! docs/CHECKPOINTS.md draws them byte by byte.
#![tactic(auto)]

mod fault;
mod gathered;
mod laws;
mod marks;
mod pieces;
mod texts;
mod write;

pub use fault::PieceFault;
pub use laws::the_text_of_a_small_checkpoint;
pub use pieces::{write_checkpoint, write_pieces};
