//! Frames: a length of four bytes with the high byte first, and a body with that many bytes.
//!
//! A `Framer` takes a stream in pieces, however it was cut, and gives its frames in order. `laws` says that a stream has one
//! cutting into frames, and that this is what a `Framer` gives.
//!
//! The contracts leave open when memory runs out, so a body that always answers that it ran out meets them. Therefore
//! `frames_show` runs the calls. The contracts leave open the words in which a fault is shown, too.
#![tactic(auto)]

mod framer;
pub mod laws;
mod write;

pub use framer::{FrameFault, Framer, Next};
pub use write::write_frame;
