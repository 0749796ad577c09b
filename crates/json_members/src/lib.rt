//! Members of JSON objects and items of lists, for programs that are asked something by lines of JSON. What isn't as it has to be
//! is named in the error.
#![tactic(auto)]

mod items;
mod members;

pub use items::{item_at, number_of, numbers_of, small_of, smalls_of, text_of, texts_of};
pub use members::{
    is_set, list_in, list_or_none, member, number_in, small_in, small_or_0, text_in, truth_in,
};
