//! Items of lists, tuples, dicts and texts: what an index and a slice give, what is stored and deleted, what a `for` goes over,
//! and what a value is unpacked into.
//! (Python reference: subscriptions, slicings, assignment statements, the `for` statement.)
#![tactic(auto)]

mod advanced;
mod deleted;
mod filled;
mod indexed;
mod iterated;
mod positions;
mod sliced;
mod stored;
mod unpacked;

pub use advanced::advance;
pub use deleted::delete_item;
pub use filled::{fill, keys_from};
pub use indexed::index;
pub use iterated::{iterate, range_of};
pub use positions::{clipped, item_at, position_in, short_position};
pub use sliced::slice;
pub use stored::{put, store_item};
pub use unpacked::unpack;
