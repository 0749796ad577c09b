use crate::kinds::{Kind, Token};
use plain_data::{Items, Stack};

/// How far a line has been read.
#[derive(Clone, Copy)]
pub enum Spot {
    /// Among the blanks at the line's start: the place where the line begins, and that of the first tab since.
    Start { from: u32, tab: Option<u32> },
    /// After a token of the line, or inside brackets.
    Inside,
}

/// What is known between two tokens.
#[derive(Drop)]
pub struct Line {
    pub spot: Spot,
    /// The depths of the open blocks, the deepest first; the last is 0.
    pub depths: Stack<u32>,
    /// How many brackets are open.
    pub brackets: u32,
}

/// What the first token of a line begins and ends of blocks: the tokens, and the depths that are then open.
#[derive(Drop)]
pub struct Depths {
    pub given: Items<Token>,
    pub depths: Stack<u32>,
}

/// A lexeme at the front of some bytes: what it is, and how many bytes spell it.
#[derive(Drop)]
pub struct Lexeme {
    pub kind: Kind,
    pub width: u32,
}

/// What is read next: the tokens that it gives, how many bytes it takes, and what is known after it.
#[derive(Drop)]
pub struct Turn {
    pub tokens: Items<Token>,
    pub width: u32,
    pub line: Line,
}
