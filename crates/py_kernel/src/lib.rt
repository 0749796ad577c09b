//! The kernel: cells run as the meaning in py_meaning says. Cells of codes go through it in the tables of cases.
//!
//! An error ends a cell, and what it did before stays. (Python language reference, in the subset of `docs/LANGUAGE.md`.)
#![tactic(auto)]

mod below;
mod calls;
mod cell;
mod expressions;
mod items;
mod kernel;
mod loops;
mod run;
mod statements;

pub use kernel::Kernel;
