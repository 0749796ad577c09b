//! The words of the command line: which command they say, if they say one; and the exit statuses of the commands.
#![tactic(auto)]

mod fault;
mod numbers;
mod settings;
pub mod status;
mod words;

pub use fault::{Weight, WordFault, word_fault};
pub use settings::Kind;
pub use words::{Command, command_of};
