//! The trees that the reader gives and the kernel runs.
#![tactic(auto)]

mod expressions;
mod locals;
mod statements;

pub use expressions::{Expr, Literal, Op, Operand, Pair, Relation, Target};
pub use locals::locals_of;
pub use statements::{Arm, Def, Stmt, Tree};
