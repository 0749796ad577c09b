//! Reading a checkpoint of either version of the format: the session's count and meter, its history graph, a plan and the parts that the plan copies; or the first
//! thing by which the bytes are no checkpoint. And reading one part from its bytes: the part, or the first thing in the bytes that no
//! text of a part has.
//!
//! docs/CHECKPOINTS.md draws the bytes. Nothing is recursive, and no memory is taken for a count that the bytes don't hold: what is
//! read is put down item by item.
#![tactic(auto)]

mod bytes;
mod cells;
mod checkpoint;
mod fault;
mod fields;
mod forms;
mod judged;
mod part;
mod part_fault;
mod part_fields;
mod part_objects;
mod part_values;
mod read;
mod spot;
mod table;
mod texts;
mod versions;

pub use checkpoint::Checkpoint;
pub use fault::CheckpointFault;
pub use forms::Texts;
pub use part::{read_part, read_part2};
pub use part_fault::PartFault;
pub use read::read_checkpoint;
