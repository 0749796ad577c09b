//! Laws of the reader, over its definitions: what the trees that it gives are, so that every state that a session reaches is
//! valid. Each name in a tree is a variable, and each function in a tree is what its text alone is read as.
//!
//! Each law is the contract of a function that does nothing.
#![tactic(auto)]

mod function_laws;
mod laws;
mod tree_laws;

pub use function_laws::functions_are_what_their_texts_read_as;
pub use laws::names_in_trees_are_variables;
pub use tree_laws::names_in_trees_of_cells_are_variables;
