//! The names of the language: identifiers, keywords and the built-in functions.
#![tactic(auto)]

ghost use Rattle.std.specs.Prelude.{◌≡◌};
ghost use Rattle.std.specs.List.{list_all};
ghost use Rattle.py_names.specs.Names as names;

/// The words that are no identifiers.
pub const KEYWORDS: [&str; 35] = [
    "False", "None", "True", "and", "as", "assert", "async", "await", "break", "class", "continue",
    "def", "del", "elif", "else", "except", "finally", "for", "from", "global", "if", "import",
    "in", "is", "lambda", "nonlocal", "not", "or", "pass", "raise", "return", "try", "while",
    "with", "yield",
];

/// The functions that every session has.
pub const BUILTINS: [&str; 9] = [
    "print", "len", "str", "repr", "int", "range", "draw", "handle", "tell",
];

/// Whether the byte may begin a name: an ASCII letter or an underscore.
pub fn begins_name(byte: u8) -> bool
    ensures { result ≡ names.begins_name byte }
{
    byte.is_ascii_alphabetic() || byte == b'_'
}

/// Whether the byte may be inside a name: an ASCII letter, a digit or an underscore.
pub fn continues_name(byte: u8) -> bool
    ensures { result ≡ names.continues_name byte }
{
    begins_name(byte) || byte.is_ascii_digit()
}

fn all_continue_name(bytes: &[u8]) -> bool
    ensures { result ≡ list_all names.continues_name bytes.now }
{
    bytes.iter().all(|byte| continues_name(*byte))
}

fn is_spelled_as_name(bytes: &[u8]) -> bool
    ensures { result ≡ names.is_spelled_as_name bytes.now }
{
    match bytes {
        [first, rest @ ..] => begins_name(*first) && all_continue_name(rest),
        [] => false,
    }
}

/// The most bytes of a name.
pub const MAX_NAME: usize = 255;

/// Whether the text is an identifier: a letter or an underscore, then letters, digits and underscores, at most 255
/// bytes. A keyword is one too.
pub fn is_identifier(text: &str) -> bool
    ensures { result ≡ names.is_identifier text.now }
{
    is_spelled_as_name(text.as_bytes()) && text.len() <= MAX_NAME
}

/// Whether the text is one of the keywords.
#[tactic(auto, unfolding(crate::specs::Names::keywords))]
pub fn is_keyword(text: &str) -> bool
    ensures { result ≡ names.is_keyword text.now }
{
    KEYWORDS.contains(&text)
}

/// Whether the text is the name of a built-in function.
#[tactic(auto, unfolding(crate::specs::Names::builtins))]
pub fn is_builtin(text: &str) -> bool
    ensures { result ≡ names.is_builtin text.now }
{
    BUILTINS.contains(&text)
}

/// Whether a program may bind the text: an identifier that is no keyword.
pub fn is_variable(text: &str) -> bool
    ensures { result ≡ names.is_variable text.now }
{
    is_identifier(text) && !is_keyword(text)
}
