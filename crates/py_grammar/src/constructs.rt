use py_token::Keyword;

/// A construct of Python outside the grammar. It begins at a token for which the grammar has nothing.
#[derive(Clone, Copy, Debug, PartialEq, Eq)]
pub enum Construct {
    /// A keyword that no rule has.
    Word(Keyword),
    /// `[a for b in c]` or `f(a for b in c)`
    Comprehension,
    /// `{a, b}`
    Set,
    /// `a is b`, where `b` isn't `None`.
    Is,
    /// `a.b` without a call.
    Attribute,
    /// `a = b = c`
    ChainedAssignment,
    /// `f(a=b)`
    KeywordArgument,
    /// `def f(a=b):`
    Default,
    /// `def` in a block.
    NestedFunction,
}
