//! Sessions served over a link.
//!
//! `serve_link` takes frames from a link and sends what answers them, while workers serve the sessions. `specs/Links` says what it did:
//! the errors and journals of the bytes that the link gave, and that what was sent is these in between one another, whole.
//!
//! The contracts leave open when memory runs out, so a body that always answers that it ran out meets them. Therefore the tests run the
//! calls. The contracts leave open when something is sent, too: that a frontend needn't wait for the end is shown by a test.
#![tactic(auto)]

mod bell;
mod closing;
mod links;
mod report;
mod sending;
mod serve;
mod service;
mod shared_feeds;
mod telling;

pub use links::serve_links;
pub use report::{LinkEnd, LinkReport};
pub use sending::{SendFault, send_all};
pub use serve::serve_link;
pub use shared_feeds::{LentFeeds, SharedFeeds, Untold};
