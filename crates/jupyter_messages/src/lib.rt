//! The messages of a node: opening a kernel, and what may be asked of its session.
//!
//! A message is a JSON object in the form of the Jupyter messaging protocol 5.3, with a member `channel`. `docs/PROTOCOL.md`
//! lists its members.
//!
//! The contracts leave open when memory runs out, so a body that always answers that it ran out meets them. Therefore
//! `frames_show` runs the calls.
#![tactic(auto)]

mod content;
mod fault;
mod member;
mod message;
mod read;

pub use fault::MessageFault;
pub use message::{Message, MessageKind};
pub use read::read_message;
pub use session_core::{Ask, Channel, Header};
