//! Statements and blocks end.
ghost use Rattle.std.specs.Prelude.{◌≡◌, [], ◌∷◌, ◌++◌, IfOk};
ghost use Rattle.py_tree.specs.declared.statements.Stmt.TheVariants as s;
ghost use Rattle.py_frames.specs.Values.{beside};
ghost use Rattle.py_frames.specs.Gives.{Gives};
ghost use Rattle.std.specs.Prelude.{Some};
ghost use Rattle.py_blocks.specs.declared.state.Head.TheVariants as head;
ghost use Rattle.py_blocks.specs.Source.{left_of};
ghost use Rattle.py_blocks.specs.Blocks as machine;
ghost use Rattle.py_blocks.specs.Blocks.{kept_statement, nothing, add, add_branches, settled, grown, closed, ended, around_of, spot_around, block_around};

use crate::source::text_left;
use crate::state::{Around, Branches, Done, Head, Last, Outer, Simple, Spot, State};
use plain_data::{Items, Shared, Stack, Text};
use py_frames::{Places, Stop};
use py_token::Token;
use py_tree::{Arm, Def, Expr, Stmt};
use std::alloc::{AllocError, Global};
use std::mem::drop;

/// How many depths a statement may have below its own.
const MOST_DEPTHS: usize = 64;

fn keep(under: &Places, tree: Stmt) -> Stmt
    ensures { result ≡ kept_statement under.now tree }
{
    if under.len() < MOST_DEPTHS {
        tree
    } else {
        drop(tree);
        Stmt::Pass
    }
}

/// No statement has ended. Takes no memory.
pub fn nothing(alloc: Global) -> Done
    ensures { result ≡ nothing }
{
    Done {
        statements: Items::new(alloc),
        under: Places::none(alloc),
    }
}

/// The places of a part and of what is in it.
pub fn places(from: usize, under: Places) -> Result<Places, AllocError>
    ensures { IfOk result (λ all. all ≡ from ∷ under) }
{
    let mut all = under;
    all.put(from)?;
    Ok(all)
}

/// One more statement ends.
pub fn add(done: Done, tree: Stmt, from: usize, under: Places) -> Result<Done, AllocError>
    ensures { IfOk result (λ all. all ≡ add done tree from under) }
{
    let Done {
        mut statements,
        under: left,
    } = done;
    statements.push(keep(&under, tree))?;
    let under = left.beside(places(from, under)?);
    Ok(Done { statements, under })
}

/// With the last statement, after which no `elif` and no `else` comes.
pub fn settle(alloc: Global, done: Done, last: Last) -> Result<Done, AllocError>
    ensures { IfOk result (λ all. all ≡ settled done last) }
{
    match last {
        Last::Branches(Branches { arms, from, under }) => {
            let tree = Stmt::If {
                arms,
                other: Items::new(alloc),
            };
            add(done, tree, from, under)
        }
        Last::Nothing | Last::Other => Ok(done),
    }
}

/// One more branch.
fn grow(branches: Branches, arm: Arm, inner: Places) -> Result<Branches, AllocError>
    ensures { IfOk result (λ all. all ≡ grown branches arm inner) }
{
    let Branches {
        mut arms,
        from,
        under,
    } = branches;
    arms.push(arm)?;
    let under = under.beside(inner);
    Ok(Branches { arms, from, under })
}

/// A branch ends with its block.
fn close_branch(
    outers: Stack<Outer>,
    before: Done,
    branches: Branches,
    arm: Arm,
    inner: Places,
) -> Result<State, AllocError>
    ensures { IfOk result (λ state. state ≡ machine.branch_closed outers before branches arm inner) }
{
    let branches = grow(branches, arm, inner)?;
    Ok(State::Line(outers, before, Last::Branches(branches)))
}

/// A statement ends with its block.
fn close_with(
    outers: Stack<Outer>,
    before: Done,
    tree: Stmt,
    from: usize,
    under: Places,
) -> Result<State, AllocError>
    ensures { IfOk result (λ state. state ≡ machine.line_after outers before tree from under) }
{
    let before = add(before, tree, from, under)?;
    Ok(State::Line(outers, before, Last::Other))
}

/// A function, with its text.
fn define(
    alloc: Global,
    code: &str,
    tokens: &[Token],
    from: usize,
    left: usize,
    name: Text,
    params: Items<Text>,
    body: Items<Stmt>,
) -> Result<Stmt, AllocError>
    ensures { IfOk result (λ tree. tree ≡ machine.statement_of (left_of code.now tokens.now) from left (head.Function name params) body) }
{
    let source = text_left(alloc, code, tokens, from, left)?;
    let def = Def {
        name,
        params,
        body,
        source,
    };
    Ok(Stmt::Function(Shared::new(alloc, def)?))
}

/// An `if` of these branches and one more, with nothing else.
fn branch(
    alloc: Global,
    mut arms: Items<Arm>,
    test: Expr,
    body: Items<Stmt>,
) -> Result<Stmt, AllocError>
    ensures { IfOk result (λ tree. tree ≡ s.If (arms ++ record { test = test; body = body } ∷ []) []) }
{
    arms.push(Arm { test, body })?;
    let other = Items::new(alloc);
    Ok(Stmt::If { arms, other })
}

/// What a head and its block make.
fn statement(
    alloc: Global,
    code: &str,
    tokens: &[Token],
    from: usize,
    left: usize,
    head: Head,
    body: Items<Stmt>,
) -> Result<Stmt, AllocError>
    ensures { IfOk result (λ tree. tree ≡ machine.statement_of (left_of code.now tokens.now) from left head body) }
{
    match head {
        Head::Branch { arms, test } => branch(alloc, arms, test, body),
        Head::Else(arms) => Ok(Stmt::If { arms, other: body }),
        Head::While(test) => Ok(Stmt::While { test, body }),
        Head::For {
            names,
            comma,
            iterable,
        } => Ok(Stmt::For {
            names,
            comma,
            iterable,
            body,
        }),
        Head::Function { name, params } => define(
            alloc, code, tokens, from, left, name, params, body,
        ),
    }
}

/// A block ends, and with it its statement, or its branch.
pub fn close(
    alloc: Global,
    code: &str,
    tokens: &[Token],
    left: usize,
    outers: Stack<Outer>,
    outer: Outer,
    body: Done,
) -> Result<State, AllocError>
    ensures { IfOk result (λ state. state ≡ closed (left_of code.now tokens.now) left outers outer body) }
{
    let Outer {
        before,
        from,
        under,
        head,
        ..
    } = outer;
    let Done {
        statements,
        under: inner,
    } = body;
    match head {
        Head::Branch { arms, test } => {
            let branches = Branches { arms, from, under };
            let arm = Arm {
                test,
                body: statements,
            };
            close_branch(outers, before, branches, arm, inner)
        }
        other => {
            let tree = statement(alloc, code, tokens, from, left, other, statements)?;
            close_with(outers, before, tree, from, under.beside(inner))
        }
    }
}

/// A simple statement ends after the `:` of a head, and with it the block.
fn end_behind(
    alloc: Global,
    code: &str,
    tokens: &[Token],
    left: usize,
    outers: Stack<Outer>,
    outer: Outer,
    tree: Stmt,
    from: usize,
    under: Places,
) -> Result<State, AllocError>
    ensures { IfOk result (λ state. state ≡ closed (left_of code.now tokens.now) left outers outer (add nothing tree from under)) }
{
    let body = add(nothing(alloc), tree, from, under)?;
    close(alloc, code, tokens, left, outers, outer, body)
}

/// A simple statement ends.
pub fn end_simple(
    alloc: Global,
    code: &str,
    tokens: &[Token],
    left: usize,
    simple: Simple,
    tree: Stmt,
    under: Places,
) -> Result<State, AllocError>
    ensures { IfOk result (λ state. state ≡ ended (left_of code.now tokens.now) left simple.outers simple.spot simple.from tree under) }
{
    let Simple { outers, spot, from } = simple;
    match spot {
        Spot::Own(before) => close_with(outers, before, tree, from, under),
        Spot::Behind(outer) => end_behind(
            alloc, code, tokens, left, outers, outer, tree, from, under,
        ),
    }
}

/// Where a statement of the innermost block is.
pub fn around_of(outers: &Stack<Outer>) -> Around
    ensures { result ≡ around_of outers.now }
{
    match outers.top() {
        None => Around {
            in_function: false,
            in_loop: false,
        },
        Some(outer) => outer.around,
    }
}

/// Where a simple statement at this spot is.
pub fn spot_around(outers: &Stack<Outer>, spot: &Spot) -> Around
    ensures { result ≡ spot_around outers.now spot.now }
{
    match spot {
        Spot::Own(_) => around_of(outers),
        Spot::Behind(outer) => outer.around,
    }
}

/// Where the block of such a head is.
pub fn block_around(head: &Head, around: Around) -> Around
    ensures { result ≡ block_around head.now around }
{
    match head {
        Head::Branch { .. } => around,
        Head::Else(_) => around,
        Head::While(_) => Around {
            in_function: around.in_function,
            in_loop: true,
        },
        Head::For { .. } => Around {
            in_function: around.in_function,
            in_loop: true,
        },
        Head::Function { .. } => Around {
            in_function: true,
            in_loop: false,
        },
    }
}
