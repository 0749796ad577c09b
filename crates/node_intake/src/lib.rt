//! What a node takes in of a stream of frames: the sessions that are opened, what is asked of each, and the errors.
//!
//! `specs/Intake` defines it, over the bytes of a stream. A source is read in pieces; each frame is taken in as soon as it is whole,
//! and isn't kept. `specs/Taking` says what was taken in of a source.
//!
//! The contracts leave open when memory runs out, so a body that always answers that it ran out meets them. Therefore the
//! tables of cases run `take_in_at`, through the program.
#![tactic(auto)]

mod desk;
mod frames;
pub mod laws;
mod node;
mod pieces;
mod reading;
mod session;

pub use desk::Desk;
pub use frames::{take_frames, taken_in};
pub use node::Intake;
pub use pieces::{read_room, take_in_at};
pub use session::{Handed, IntakeEnd};
