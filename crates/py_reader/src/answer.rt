/// How far a text is a cell. (Jupyter messaging 5.3, `is_complete_request`.)
#[derive(Clone, Copy, Debug, PartialEq, Eq)]
pub enum Completeness {
    /// The text is a cell.
    Complete,
    /// The text begins a cell, which has to go on after it. The next line is to begin with that many spaces.
    Incomplete(usize),
    /// The text is no cell and begins none, or a cell is refused for its length, its tokens, its nesting or a construct.
    Invalid,
}
