//! What operators give, and what comparisons say. (Python reference: arithmetic operations, comparisons.) What a value is: its kind,
//! what its object holds, and whether it counts as true.
#![tactic(auto)]

mod affixes;
mod comparing;
mod contained;
mod equal;
mod numbers;
mod objects;
mod operators;
mod order;
mod positions;
mod repetition;
mod signs;

pub use affixes::{begins, ends, occurs};
pub use comparing::compare;
pub use numbers::as_number;
pub use objects::{copy_items, keyed, kind_of, list_at, take_steps, truth_of};
pub use operators::{
    binary, charge, charge_items, charge_sequence, joined, made, made_text, signed,
};
pub use signs::{Signed, by_sign, sign_of};
