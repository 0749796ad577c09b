//! The laws of the texts of parts and checkpoints. Each has one text, and a text is read as the part or the checkpoint that it was
//! written of; no checkpoint's text begins with that of another; and states that are the same but for the addresses of their objects
//! have one text.
//!
//! Definitions and laws alone: each law is the contract of a function that does nothing.
#![tactic(auto)]

mod part_laws;
mod sameness_laws;
mod spelling_laws;
mod text_laws;

pub use part_laws::{
    a_knot_has_a_text, a_part_text_is_read_back, what_is_read_has_a_text, what_is_read_is_closed,
};
pub use sameness_laws::same_states_have_one_checkpoint_text;
pub use spelling_laws::a_text_is_read_back;
pub use text_laws::{a_checkpoint_has_one_text, what_is_read_is_a_text};
