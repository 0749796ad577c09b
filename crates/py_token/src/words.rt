ghost use Rattle.std.specs.Prelude.{◌≡◌, nat_eq, find, length};
ghost use Rattle.std.specs.List.{starts_with};
ghost use Rattle.py_names.specs.Names.{same_text};
ghost use Rattle.py_token.specs.Spellings.{word, keywords, sign, operators};
ghost use Rattle.py_token.specs.Lexemes.{keyword_of};

use crate::kinds::{Keyword, Symbol};

const KEYWORDS: [Keyword; 35] = [
    Keyword::False,
    Keyword::None,
    Keyword::True,
    Keyword::And,
    Keyword::As,
    Keyword::Assert,
    Keyword::Async,
    Keyword::Await,
    Keyword::Break,
    Keyword::Class,
    Keyword::Continue,
    Keyword::Def,
    Keyword::Del,
    Keyword::Elif,
    Keyword::Else,
    Keyword::Except,
    Keyword::Finally,
    Keyword::For,
    Keyword::From,
    Keyword::Global,
    Keyword::If,
    Keyword::Import,
    Keyword::In,
    Keyword::Is,
    Keyword::Lambda,
    Keyword::Nonlocal,
    Keyword::Not,
    Keyword::Or,
    Keyword::Pass,
    Keyword::Raise,
    Keyword::Return,
    Keyword::Try,
    Keyword::While,
    Keyword::With,
    Keyword::Yield,
];

const OPERATORS: [Symbol; 26] = [
    Symbol::FloorAssign,
    Symbol::PlusAssign,
    Symbol::MinusAssign,
    Symbol::TimesAssign,
    Symbol::ModAssign,
    Symbol::Equal,
    Symbol::NotEqual,
    Symbol::AtMost,
    Symbol::AtLeast,
    Symbol::Floor,
    Symbol::Plus,
    Symbol::Minus,
    Symbol::Times,
    Symbol::Mod,
    Symbol::Less,
    Symbol::More,
    Symbol::Assign,
    Symbol::OpenParenthesis,
    Symbol::CloseParenthesis,
    Symbol::OpenBracket,
    Symbol::CloseBracket,
    Symbol::OpenBrace,
    Symbol::CloseBrace,
    Symbol::Colon,
    Symbol::Comma,
    Symbol::Dot,
];

/// The spelling of a keyword.
pub fn word(keyword: Keyword) -> &'static str
    ensures { result.now ≡ word keyword }
{
    match keyword {
        Keyword::False => "False",
        Keyword::None => "None",
        Keyword::True => "True",
        Keyword::And => "and",
        Keyword::As => "as",
        Keyword::Assert => "assert",
        Keyword::Async => "async",
        Keyword::Await => "await",
        Keyword::Break => "break",
        Keyword::Class => "class",
        Keyword::Continue => "continue",
        Keyword::Def => "def",
        Keyword::Del => "del",
        Keyword::Elif => "elif",
        Keyword::Else => "else",
        Keyword::Except => "except",
        Keyword::Finally => "finally",
        Keyword::For => "for",
        Keyword::From => "from",
        Keyword::Global => "global",
        Keyword::If => "if",
        Keyword::Import => "import",
        Keyword::In => "in",
        Keyword::Is => "is",
        Keyword::Lambda => "lambda",
        Keyword::Nonlocal => "nonlocal",
        Keyword::Not => "not",
        Keyword::Or => "or",
        Keyword::Pass => "pass",
        Keyword::Raise => "raise",
        Keyword::Return => "return",
        Keyword::Try => "try",
        Keyword::While => "while",
        Keyword::With => "with",
        Keyword::Yield => "yield",
    }
}

fn sign(op: Symbol) -> &'static [u8]
    ensures { result.now ≡ sign op }
{
    match op {
        Symbol::FloorAssign => b"//=",
        Symbol::PlusAssign => b"+=",
        Symbol::MinusAssign => b"-=",
        Symbol::TimesAssign => b"*=",
        Symbol::ModAssign => b"%=",
        Symbol::Equal => b"==",
        Symbol::NotEqual => b"!=",
        Symbol::AtMost => b"<=",
        Symbol::AtLeast => b">=",
        Symbol::Floor => b"//",
        Symbol::Plus => b"+",
        Symbol::Minus => b"-",
        Symbol::Times => b"*",
        Symbol::Mod => b"%",
        Symbol::Less => b"<",
        Symbol::More => b">",
        Symbol::Assign => b"=",
        Symbol::OpenParenthesis => b"(",
        Symbol::CloseParenthesis => b")",
        Symbol::OpenBracket => b"[",
        Symbol::CloseBracket => b"]",
        Symbol::OpenBrace => b"{",
        Symbol::CloseBrace => b"}",
        Symbol::Colon => b":",
        Symbol::Comma => b",",
        Symbol::Dot => b".",
    }
}

fn is_word(keyword: Keyword, name: &[u8]) -> bool
    ensures { result ≡ same_text (word keyword) name.now }
{
    word(keyword).as_bytes() == name
}

fn begins_with(bytes: &[u8], op: Symbol) -> bool
    ensures { result ≡ starts_with nat_eq bytes.now (sign op) }
{
    bytes.starts_with(sign(op))
}

/// The keyword that these bytes spell.
#[tactic(auto, unfolding(crate::specs::Spellings::keywords))]
pub fn keyword_of(name: &[u8]) -> Option<Keyword>
    ensures { result ≡ keyword_of name.now }
{
    KEYWORDS
        .iter()
        .copied()
        .find(|keyword| is_word(*keyword, name))
}

/// The longest operator at the front of the bytes.
#[tactic(auto, unfolding(crate::specs::Spellings::operators))]
pub fn operator_of(bytes: &[u8]) -> Option<Symbol>
    ensures { result ≡ find (λ op. starts_with nat_eq bytes.now (sign op)) operators }
{
    OPERATORS.iter().copied().find(|op| begins_with(bytes, *op))
}

/// How many bytes spell the operator.
pub fn sign_width(op: Symbol) -> usize
    ensures { result ≡ length (sign op) }
{
    sign(op).len()
}
