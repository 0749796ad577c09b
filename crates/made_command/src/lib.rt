//! The command `made n`: a stream is made, in which a session is opened, runs n cells, and moves after every fourth; it is served, and
//! what came of it is counted. The stream is the same for each n, and so a large input whose answers depend on n alone.
//!
//! `specs/Made` says what the stream is, `specs/Asked` what it asks, and `specs/Counting` what is counted.
//!
//! The contracts leave open when memory runs out, so a body that always answers that it ran out meets them. Therefore the tests of
//! the program run `made`.
#![tactic(auto)]

mod command;
mod counts;
mod laws;
mod messages;
mod source;
mod stream;

pub use command::made;
pub use laws::{counts_depend_on_n_alone, the_stream_opens_one_session};
pub use stream::made_bytes;
