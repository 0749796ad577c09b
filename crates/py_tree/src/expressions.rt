use plain_data::{Boxed, Items, SharedText, Text};

/// An operator between two expressions.
#[derive(Clone, Copy, Debug, PartialEq, Eq)]
pub enum Op {
    Plus,
    Minus,
    Times,
    /// `//`, which rounds down.
    Floor,
    Mod,
    Equal,
    NotEqual,
    Less,
    AtMost,
    More,
    AtLeast,
    In,
    NotIn,
}

/// A constant.
#[derive(Debug, Drop)]
pub enum Literal {
    Nothing,
    Bool(bool),
    Number(i128),
    Text(SharedText),
}

/// An expression.
#[cycle(expression)]
#[derive(Drop)]
pub enum Expr {
    Name(Text),
    Literal(Literal),
    /// `[a, b]`
    ListOf(Items<Expr>),
    /// `a, b`, `(a, b)` or `()`
    TupleOf(Items<Expr>),
    /// `{a: b}`
    DictOf(Items<Pair>),
    /// `yes if test else no`
    Conditional {
        test: Boxed<Expr>,
        yes: Boxed<Expr>,
        no: Boxed<Expr>,
    },
    /// `a or b or c`
    Or(Items<Expr>),
    /// `a and b and c`
    And(Items<Expr>),
    Not(Boxed<Expr>),
    /// `a < b is None`
    Compare {
        first: Boxed<Expr>,
        rest: Items<Relation>,
    },
    /// `a + b - c`
    Sum {
        first: Boxed<Expr>,
        rest: Items<Operand>,
    },
    /// `a * b // c`
    Product {
        first: Boxed<Expr>,
        rest: Items<Operand>,
    },
    /// `-a` or `+a`
    Sign {
        minus: bool,
        value: Boxed<Expr>,
    },
    /// `a(b, c)`
    Call {
        callee: Boxed<Expr>,
        args: Items<Expr>,
    },
    /// `a[b]`
    Index {
        value: Boxed<Expr>,
        at: Boxed<Expr>,
    },
    /// `a[b:c]`
    Slice {
        value: Boxed<Expr>,
        from: Option<Boxed<Expr>>,
        to: Option<Boxed<Expr>>,
    },
    /// `a.name(b, c)`
    Method {
        value: Boxed<Expr>,
        name: Text,
        args: Items<Expr>,
    },
}

/// A key of a dict display, and its value.
#[cycle(expression)]
#[derive(Drop)]
pub struct Pair {
    pub key: Expr,
    pub value: Expr,
}

/// An operator and its right operand.
#[cycle(expression)]
#[derive(Drop)]
pub struct Operand {
    pub op: Op,
    pub value: Expr,
}

/// One step of a chain of comparisons. The `None` after `is` belongs to it and is no expression.
#[cycle(expression)]
#[derive(Drop)]
pub enum Relation {
    With(Op, Expr),
    IsNone,
    IsNotNone,
}

/// What is assigned to or deleted.
#[derive(Drop)]
pub enum Target {
    Name(Text),
    /// `value[at]`
    Item { value: Expr, at: Expr },
}
