use crate::expressions::{Expr, Op, Target};
use plain_data::{Items, Shared, Text};

/// What is read of a whole text.
#[derive(Drop)]
pub struct Tree {
    pub body: Items<Stmt>,
}

/// A statement.
#[cycle(statement)]
#[derive(Drop)]
pub enum Stmt {
    Pass,
    Break,
    Continue,
    Return(Option<Expr>),
    Global(Items<Text>),
    Delete(Target),
    /// `target = value`, and `a, b = value` if a comma is among the targets: then the value is unpacked, also if
    /// there is one target.
    Assign {
        targets: Items<Target>,
        comma: bool,
        value: Expr,
    },
    /// `target op= value`
    Augment {
        target: Target,
        op: Op,
        value: Expr,
    },
    /// An expression by itself.
    Expression(Expr),
    /// The `if` and each `elif`, and the block after `else`, which is empty if there is no `else`.
    If {
        arms: Items<Arm>,
        other: Items<Stmt>,
    },
    While {
        test: Expr,
        body: Items<Stmt>,
    },
    /// `for name in iterable:`, and `for a, b in iterable:` if a comma is among the names: then each item is
    /// unpacked, also if there is one name.
    For {
        names: Items<Text>,
        comma: bool,
        iterable: Expr,
        body: Items<Stmt>,
    },
    Function(Shared<Def>),
}

/// A test, and the block after it.
#[cycle(statement)]
#[derive(Drop)]
pub struct Arm {
    pub test: Expr,
    pub body: Items<Stmt>,
}

/// A function, and the text that it was read from.
#[cycle(statement)]
#[derive(Drop)]
pub struct Def {
    pub name: Text,
    pub params: Items<Text>,
    pub body: Items<Stmt>,
    pub source: Text,
}
