//! The grammar of the language, and that reading it token by token is right.
//!
//! A cell is a list of tokens that spells one of the concrete forms of `specs/`. The machine of `specs/States` reads one
//! token at a time, into forms that are still open. The laws say that it reads just the cells, each in one way, and stops at
//! the first token that no cell goes on with.
//!
//! A text that is one function alone is a cell whose one statement is a function. Its machine is that of a cell, except that nothing
//! but `def` begins it and nothing but the end comes after the function. `definition_laws` say the same of it.
#![tactic(auto)]

mod constructs;
pub mod definition_laws;
pub mod laws;

pub use constructs::Construct;
