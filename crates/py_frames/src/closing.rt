//! What ends, and what goes on.
ghost use Rattle.std.specs.Prelude.{◌≡◌, [], ◌∷◌, ◌++◌, true, false, if◌then◌else◌, IfOk, Some, None};
ghost use Rattle.py_tree.specs.declared.expressions.Expr.TheVariants as e;
ghost use Rattle.py_tree.specs.declared.expressions.Relation.TheVariants.{With};
ghost use Rattle.py_frames.specs.declared.frames.Hole.TheVariants as h;
ghost use Rattle.py_frames.specs.Values.{beside, kept, made, level, filled, emptied, is_index, close, shut, closes};

use crate::frames::{Frame, Hole, Value};
use crate::nest::Nest;
use crate::places::Places;
use plain_data::{Boxed, Items, Text};
use py_tree::{Expr, Literal, Op, Operand, Pair, Relation};
use std::alloc::{AllocError, Global};
use std::mem::drop;

/// How many depths a part may have.
const MOST_DEPTHS: usize = 64;

fn keep(under: &Places, tree: Expr) -> Expr
    ensures { result ≡ kept under.now tree }
{
    if under.len() < MOST_DEPTHS {
        tree
    } else {
        Expr::Literal(Literal::Nothing)
    }
}

/// How closely it holds what is in it: an operator that binds less closely ends it.
pub fn level(hole: &Hole) -> u8
    ensures { result ≡ level hole.now }
{
    match hole {
        Hole::Picks(_) => 1,
        Hole::Chooses { .. } => 2,
        Hole::Logic { and, .. } => if *and { 4 } else { 3 },
        Hole::Not => 5,
        Hole::Compare { .. } => 6,
        Hole::Arithmetic { product, .. } => if *product { 8 } else { 7 },
        Hole::Sign { .. } => 9,
        _ => 0,
    }
}

/// Whether it is an item, `a[_`.
pub fn is_index(hole: &Hole) -> bool
    ensures { result ≡ is_index hole.now }
{
    match hole {
        Hole::Index(_) => true,
        _ => false,
    }
}

/// With one more tree at the end.
pub fn all_with(mut items: Items<Expr>, last: Expr) -> Result<Items<Expr>, AllocError>
    ensures { IfOk result (λ all. all ≡ items ++ last ∷ []) }
{
    items.push(last)?;
    Ok(items)
}

/// With one more operand at the end.
pub fn operate(mut rest: Items<Operand>, op: Op, value: Expr) -> Result<Items<Operand>, AllocError>
    ensures { IfOk result (λ all. all ≡ rest ++ record { op = op; value = value } ∷ []) }
{
    rest.push(Operand { op, value })?;
    Ok(rest)
}

/// With one more comparison at the end.
pub fn relate(mut rest: Items<Relation>, op: Op, value: Expr) -> Result<Items<Relation>, AllocError>
    ensures { IfOk result (λ all. all ≡ rest ++ With op value ∷ []) }
{
    rest.push(Relation::With(op, value))?;
    Ok(rest)
}

/// With one more pair at the end.
pub fn pair(mut pairs: Items<Pair>, key: Expr, value: Expr) -> Result<Items<Pair>, AllocError>
    ensures { IfOk result (λ all. all ≡ pairs ++ record { key = key; value = value } ∷ []) }
{
    pairs.push(Pair { key, value })?;
    Ok(pairs)
}

/// `yes if test else no`
fn conditional(alloc: Global, yes: Expr, test: Expr, no: Expr) -> Result<Expr, AllocError>
    ensures { IfOk result (λ whole. whole ≡ e.Conditional test yes no) }
{
    Ok(Expr::Conditional {
        test: Boxed::new(alloc, test)?,
        yes: Boxed::new(alloc, yes)?,
        no: Boxed::new(alloc, no)?,
    })
}

/// `a or b`, or `a and b`
fn connect(and: bool, before: Items<Expr>, last: Expr) -> Result<Expr, AllocError>
    ensures { IfOk result (λ whole. whole ≡ filled (h.Logic and before) last) }
{
    let all = all_with(before, last)?;
    Ok(if and { Expr::And(all) } else { Expr::Or(all) })
}

/// `not a`
fn negate(alloc: Global, value: Expr) -> Result<Expr, AllocError>
    ensures { IfOk result (λ whole. whole ≡ e.Not value) }
{
    Ok(Expr::Not(Boxed::new(alloc, value)?))
}

/// `a < b is None < c`
fn compare(
    alloc: Global,
    first: Expr,
    rest: Items<Relation>,
    op: Op,
    last: Expr,
) -> Result<Expr, AllocError>
    ensures { IfOk result (λ whole. whole ≡ filled (h.Compare first rest op) last) }
{
    let rest = relate(rest, op, last)?;
    let first = Boxed::new(alloc, first)?;
    Ok(Expr::Compare { first, rest })
}

/// `a + b - c`, or `a * b // c`
fn calculate(
    alloc: Global,
    product: bool,
    first: Expr,
    rest: Items<Operand>,
    op: Op,
    last: Expr,
) -> Result<Expr, AllocError>
    ensures { IfOk result (λ whole. whole ≡ filled (h.Arithmetic product first rest op) last) }
{
    let rest = operate(rest, op, last)?;
    let first = Boxed::new(alloc, first)?;
    Ok(if product {
        Expr::Product { first, rest }
    } else {
        Expr::Sum { first, rest }
    })
}

/// `-a` or `+a`
fn sign(alloc: Global, minus: bool, value: Expr) -> Result<Expr, AllocError>
    ensures { IfOk result (λ whole. whole ≡ e.Sign minus value) }
{
    Ok(Expr::Sign {
        minus,
        value: Boxed::new(alloc, value)?,
    })
}

/// `a(b, c)`
fn call(alloc: Global, callee: Expr, args: Items<Expr>) -> Result<Expr, AllocError>
    ensures { IfOk result (λ whole. whole ≡ e.Call callee args) }
{
    Ok(Expr::Call {
        callee: Boxed::new(alloc, callee)?,
        args,
    })
}

/// `a.name(b, c)`
fn method(alloc: Global, value: Expr, name: Text, args: Items<Expr>) -> Result<Expr, AllocError>
    ensures { IfOk result (λ whole. whole ≡ e.Method value name args) }
{
    Ok(Expr::Method {
        value: Boxed::new(alloc, value)?,
        name,
        args,
    })
}

/// `a[b]`
fn item(alloc: Global, value: Expr, at: Expr) -> Result<Expr, AllocError>
    ensures { IfOk result (λ whole. whole ≡ e.Index value at) }
{
    Ok(Expr::Index {
        value: Boxed::new(alloc, value)?,
        at: Boxed::new(alloc, at)?,
    })
}

/// `a[b:c]`
fn slice(
    alloc: Global,
    value: Expr,
    from: Option<Boxed<Expr>>,
    to: Option<Boxed<Expr>>,
) -> Result<Expr, AllocError>
    ensures { IfOk result (λ whole. whole ≡ e.Slice value from to) }
{
    Ok(Expr::Slice {
        value: Boxed::new(alloc, value)?,
        from,
        to,
    })
}

/// `a, b`
fn tuple_of(before: Items<Expr>, last: Expr) -> Result<Expr, AllocError>
    ensures { IfOk result (λ whole. whole ≡ e.TupleOf (before ++ last ∷ [])) }
{
    Ok(Expr::TupleOf(all_with(before, last)?))
}

/// `[a, b]`
fn list_of(before: Items<Expr>, last: Expr) -> Result<Expr, AllocError>
    ensures { IfOk result (λ whole. whole ≡ e.ListOf (before ++ last ∷ [])) }
{
    Ok(Expr::ListOf(all_with(before, last)?))
}

/// `{a: b, c: d}`
fn dict_of(before: Items<Pair>, key: Expr, last: Expr) -> Result<Expr, AllocError>
    ensures { IfOk result (λ whole. whole ≡ filled (h.Pair before key) last) }
{
    Ok(Expr::DictOf(pair(before, key, last)?))
}

/// `a(b, c)`, with its last argument
fn call_with(alloc: Global, callee: Expr, args: Items<Expr>, last: Expr) -> Result<Expr, AllocError>
    ensures { IfOk result (λ whole. whole ≡ e.Call callee (args ++ last ∷ [])) }
{
    let args = all_with(args, last)?;
    call(alloc, callee, args)
}

/// `a.name(b, c)`, with its last argument
fn method_with(
    alloc: Global,
    value: Expr,
    name: Text,
    args: Items<Expr>,
    last: Expr,
) -> Result<Expr, AllocError>
    ensures { IfOk result (λ whole. whole ≡ e.Method value name (args ++ last ∷ [])) }
{
    let args = all_with(args, last)?;
    method(alloc, value, name, args)
}

/// `a[b:c]`, with its end
fn slice_to(
    alloc: Global,
    value: Expr,
    from: Option<Boxed<Expr>>,
    to: Expr,
) -> Result<Expr, AllocError>
    ensures { IfOk result (λ whole. whole ≡ e.Slice value from (Some to)) }
{
    let to = Boxed::new(alloc, to)?;
    slice(alloc, value, from, Some(to))
}

/// The tree with its hole filled.
fn fill(alloc: Global, hole: Hole, tree: Expr) -> Result<Expr, AllocError>
    ensures { IfOk result (λ whole. whole ≡ filled hole tree) }
{
    match hole {
        Hole::Chooses { yes, test } => conditional(alloc, yes, test, tree),
        Hole::Logic { and, before } => connect(and, before, tree),
        Hole::Not => negate(alloc, tree),
        Hole::Compare { first, rest, op } => compare(alloc, first, rest, op, tree),
        Hole::Arithmetic {
            product,
            first,
            rest,
            op,
        } => calculate(alloc, product, first, rest, op, tree),
        Hole::Sign { minus } => sign(alloc, minus, tree),
        Hole::Tuple { before, .. } => tuple_of(before, tree),
        Hole::Display(before) => list_of(before, tree),
        Hole::Call { callee, args } => call_with(alloc, callee, args, tree),
        Hole::Method { value, name, args } => method_with(alloc, value, name, args, tree),
        Hole::Index(value) => item(alloc, value, tree),
        Hole::Slice { value, start } => slice_to(alloc, value, start, tree),
        Hole::Pair { before, key } => dict_of(before, key, tree),
        Hole::Picks(_) | Hole::Group | Hole::Dict(_) => Ok(tree),
    }
}

/// The tree that ends before its hole is filled.
fn empty(alloc: Global, hole: Hole) -> Result<Expr, AllocError>
    ensures { IfOk result (λ whole. whole ≡ emptied hole) }
{
    match hole {
        Hole::Group => Ok(Expr::TupleOf(Items::new(alloc))),
        Hole::Tuple { before, .. } => Ok(Expr::TupleOf(before)),
        Hole::Display(before) => Ok(Expr::ListOf(before)),
        Hole::Call { callee, args } => call(alloc, callee, args),
        Hole::Method { value, name, args } => method(alloc, value, name, args),
        Hole::Slice { value, start } => slice(alloc, value, start, None),
        Hole::Dict(pairs) => Ok(Expr::DictOf(pairs)),
        other => {
            drop(other);
            Ok(Expr::Literal(Literal::Nothing))
        }
    }
}

/// A part that has ended. Where it is too deep, a constant stands for its tree.
pub fn made(from: usize, under: Places, target: bool, tree: Expr) -> Value
    ensures { result ≡ made from under target tree }
{
    let tree = keep(&under, tree);
    Value {
        tree,
        from,
        under,
        target,
    }
}

/// The places of a part and of what is in it.
pub fn places(from: usize, under: Places) -> Result<Places, AllocError>
    ensures { IfOk result (λ all. all ≡ from ∷ under) }
{
    let mut all = under;
    all.put(from)?;
    Ok(all)
}

/// The places of the parts so far and of one more.
pub fn join(left: Places, from: usize, under: Places) -> Result<Places, AllocError>
    ensures { IfOk result (λ all. all ≡ beside left (from ∷ under)) }
{
    Ok(left.beside(places(from, under)?))
}

/// A part ends with its last.
pub fn close(alloc: Global, frame: Frame, last: Value) -> Result<Value, AllocError>
    ensures { IfOk result (λ value. value ≡ close frame last) }
{
    let target = is_index(&frame.hole);
    let Frame { from, under, hole } = frame;
    let Value {
        tree,
        from: inner,
        under: below,
        ..
    } = last;
    let whole = fill(alloc, hole, tree)?;
    let all = join(under, inner, below)?;
    Ok(made(from, all, target, whole))
}

/// A part ends without one more.
pub fn shut(alloc: Global, frame: Frame) -> Result<Value, AllocError>
    ensures { IfOk result (λ value. value ≡ shut frame) }
{
    let Frame { from, under, hole } = frame;
    let whole = empty(alloc, hole)?;
    Ok(made(from, under, false, whole))
}

/// The parts that bind at least as tightly end.
pub fn closes(
    alloc: Global,
    least: u8,
    frames: Nest<Frame>,
    last: Value,
) -> Result<(Nest<Frame>, Value), AllocError>
    ensures { IfOk result (λ it. it ≡ closes least frames last) }
{
    let mut left = frames;
    let mut value = last;
    while let Some(frame) = left.pop() {
        if level(&frame.hole) < least {
            left.push(frame)?;
            return Ok((left, value));
        }
        value = close(alloc, frame, value)?;
    }
    Ok((left, value))
}
