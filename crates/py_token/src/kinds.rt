use plain_data::Text;

/// A token, and the bytes of the text that spell it: from `start` up to `end`, as byte offsets.
#[derive(Debug, Drop)]
pub struct Token {
    pub kind: Kind,
    pub start: u32,
    pub end: u32,
}

/// What a token is.
#[derive(Debug, Drop)]
pub enum Kind {
    Name(Text),
    Number(i128),
    /// The characters of a text, its escapes replaced.
    Text(Text),
    Keyword(Keyword),
    Symbol(Symbol),
    /// The end of a line that has tokens.
    Newline,
    /// The line begins a deeper block.
    Indent,
    /// The line ends a block.
    Dedent,
    /// The end of the text.
    End,
}

/// The words that are no names.
#[derive(Clone, Copy, Debug, PartialEq, Eq)]
pub enum Keyword {
    False,
    None,
    True,
    And,
    As,
    Assert,
    Async,
    Await,
    Break,
    Class,
    Continue,
    Def,
    Del,
    Elif,
    Else,
    Except,
    Finally,
    For,
    From,
    Global,
    If,
    Import,
    In,
    Is,
    Lambda,
    Nonlocal,
    Not,
    Or,
    Pass,
    Raise,
    Return,
    Try,
    While,
    With,
    Yield,
}

/// An operator or a bracket, by its spelling.
#[derive(Clone, Copy, Debug, PartialEq, Eq)]
pub enum Symbol {
    FloorAssign,
    PlusAssign,
    MinusAssign,
    TimesAssign,
    ModAssign,
    Equal,
    NotEqual,
    AtMost,
    AtLeast,
    Floor,
    Plus,
    Minus,
    Times,
    Mod,
    Less,
    More,
    Assign,
    OpenParenthesis,
    CloseParenthesis,
    OpenBracket,
    CloseBracket,
    OpenBrace,
    CloseBrace,
    Colon,
    Comma,
    Dot,
}
