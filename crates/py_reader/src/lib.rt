//! Reading the code of a cell: its tree, or the fault that it is refused for, and how far it is a cell. The same of a text that
//! is one function alone.
//!
//! The tokens are read one after the other by one machine (`py_blocks`), whose open frames hold the tree; each part keeps the
//! first place at each depth in it, by which the nesting is judged. Nothing is recursive, so no text, however deep its brackets
//! or long its chains, needs a larger stack. If a token is refused, those before it are read once more, for what is too deep
//! among them, and again for the construct that it begins.
//!
//! `Trees` keeps the trees of codes that were read, so that a code that comes again isn't read again. Contracts say nothing of which
//! codes are kept, so a `look` that finds nothing, or a `keep` that keeps nothing, would be proved too. `reader_show`
//! keeps codes and finds them.
#![tactic(auto)]

mod answer;
mod begun;
mod definition;
mod fault;
mod read;
mod scan;
mod text;
mod trees;

pub use answer::Completeness;
pub use begun::completeness;
pub use definition::read_def;
pub use fault::{ReadError, SyntaxFault};
pub use read::read_cell;
pub use trees::Trees;
