use plain_data::Items;

/// The character that an escape means, and how many bytes it takes after its backslash.
#[derive(Clone, Copy)]
pub struct Escape {
    pub character: u8,
    pub width: usize,
}

/// What is at a place after an opening quote.
#[derive(Clone, Copy)]
pub enum Piece {
    /// The closing quote.
    Quote,
    /// The end of the line.
    LineEnd,
    /// What can't be there.
    Bad,
    /// A byte that means itself.
    Plain(u8),
    Escaped(Escape),
}

/// What is after an opening quote.
#[derive(Drop)]
pub enum Body {
    /// The bytes that are written, and how many bytes there are up to the closing quote and with it.
    Closed(Items<u8>, usize),
    /// The line ends first.
    Unclosed,
    /// A closing quote comes, and before it the first bad character, after that many bytes.
    Spoiled(usize),
}
