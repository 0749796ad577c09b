//! The tokens of a text of the language. A law says that a section of a text, cut out alone, has the same tokens. The rule of
//! indentation stands in `specs/Indentation.antt`, as a stack of open depths over lines. Laws say that the tokens of a text
//! are such lines (`lines_are_indented`), which go on past a line feed in brackets alone (`lines_go_on_in_brackets_alone`),
//! that a wrong indent is a depth that isn't open (`a_bad_indent_is_not_open`), and that each other depth has one list of
//! `Indent`s and `Dedent`s (`each_depth_shifts_once_or_misfits`).
#![tactic(auto)]

mod blocks;
mod cut_laws;
mod faults;
mod indentation;
mod kinds;
mod lexemes;
mod lines;
mod names;
mod numbers;
mod pieces;
mod read;
mod texts;
mod turns;
mod words;

pub use cut_laws::a_cut_text_has_the_same_tokens;
pub use faults::{TokenError, TokenFault};
pub use indentation::{
    a_bad_indent_is_not_open, each_depth_shifts_once_or_misfits, lines_are_indented,
    lines_go_on_in_brackets_alone,
};
pub use kinds::{Keyword, Kind, Symbol, Token};
pub use read::tokens;
pub use words::word;
