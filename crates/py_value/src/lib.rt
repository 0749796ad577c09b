//! Values of the language: what a name may hold and what may be a key, with the numbers that texts spell and the
//! texts that keys show.
//!
//! The contracts leave open what a fault shows. Of `same_key` they show that it is symmetric, so its arguments may be swapped.
#![tactic(auto)]

mod key;
mod number;
mod repr;
mod value;

pub use key::{Key, KeyFault, key_of, same_key, same_key_is_an_equivalence};
pub use number::{NumberFault, number_of};
pub use repr::key_text;
pub use value::{Builtin, Value, weight};
