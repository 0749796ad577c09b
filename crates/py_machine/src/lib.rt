//! The machine that runs the cells of a session, the least runs on it, and the errors that a run may raise.
//!
//! A run takes the draws of its cell and a machine, and gives a value or an end, and the machine afterwards: what was done
//! before an end stays. The machine has the session's state, what the cell printed and drew, the locals of the call that
//! runs, and marks of what the cell did, as sets.
#![tactic(auto)]

mod builtins;
mod error;
mod frame;
mod item_errors;
mod iteration;
mod kind;
mod machine;
mod marks;
mod method;
mod notes;
mod numbers;
mod slots;
mod text_rest;
mod type_errors;

pub use builtins::builtin_named;
pub use error::{
    ErrorKind, Fault, PyError, memory_error, name_error, overflow_error, recursion_error,
    step_limit_error, unbound_error,
};
pub use frame::{Change, Flow, Frame, FrameSlot};
pub use item_errors::{
    changed_size, empty_separator, invalid_literal, no_assigned_index, no_index,
    no_item_assignment, no_item_deletion, no_key, no_popped_index, no_text_index, not_an_index,
    not_iterable, not_subscriptable, not_unpacked, popped_empty, range_elsewhere, wrong_count,
    zero_range_step,
};
pub use iteration::Iteration;
pub use kind::{ValueKind, kind_name};
pub use machine::{MAX_STEPS, Machine};
pub use marks::Marks;
pub use method::{
    BoundMethod, DictMethod, ListMethod, TextMethod, dict_method_name, dict_method_named,
    list_method_name, list_method_named, text_method_name, text_method_named,
};
pub use notes::Notes;
pub use numbers::NumberSet;
pub use slots::Slots;
pub use text_rest::TextRest;
pub use type_errors::{
    bad_operand, division_error, no_attribute, not_callable, not_in_text, not_ordered,
    not_searched, unhashable, unsupported_operands, wrong_argument, wrong_number,
};
