//! The methods of lists, dicts and texts: which one a name is of a value, and what a call gives. (Python reference: `list`,
//! `dict` and `str` methods.)
#![tactic(auto)]

mod bound;
mod called;
mod dicts;
mod lists;
mod split;
mod texts;

pub use bound::method_of;
pub use called::call_method;
pub use lists::extend;
