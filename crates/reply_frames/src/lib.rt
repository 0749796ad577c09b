//! The frames that answer a request.
//!
//! Each message is a JSON object with its members in ascending order and no white space, after its length. Members that
//! hold a text of the session are cut between characters: a code at 262,144 bytes, a piece of printed text and a
//! result at 65,536, the text of an error at 4,096. `docs/PROTOCOL.md` lists the messages. (Jupyter messaging protocol 5.3.)
//!
//! The contracts leave open when memory runs out, so a body that always answers that it ran out meets them. Therefore
//! `frames_show` runs the calls.
#![tactic(auto)]

mod content;
mod counting;
mod entry;
mod envelope;
mod journal;
mod lists;
mod message;
mod node;
mod outbox;
mod replies;

pub use counting::frame_count;
pub use journal::frames_of;
pub use node::{About, NodeError, NodeErrorKind, node_error_frame};
