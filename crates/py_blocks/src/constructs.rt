//! Which construct outside the grammar a token begins.
ghost use Rattle.std.specs.Prelude.{◌≡◌, IfOk};
ghost use Rattle.py_grammar.specs.Outside.{first_of};
ghost use Rattle.py_frames.specs.Constructs.{construct};
ghost use Rattle.py_blocks.specs.Outside.{ruleless_word, ruleless, chained, in_simple, default_at, inline_function, nested, outside_state, outside};

use crate::state::{Begun, Done, Last, Outer, Purpose, Simple, State, Test};
use plain_data::{Items, Stack, Text};
use py_frames::{State as Reading, construct};
use py_grammar::Construct;
use py_token::{Keyword, Kind, Symbol};
use std::alloc::{AllocError, Global};
use std::mem::drop;

#[tactic(auto, unfolding(crate::specs::Outside::ruleless_word))]
fn ruleless_word(word: Keyword) -> Option<Construct>
    ensures { result ≡ ruleless_word word }
{
    match word {
        Keyword::As
        | Keyword::Assert
        | Keyword::Async
        | Keyword::Await
        | Keyword::Class
        | Keyword::Except
        | Keyword::Finally
        | Keyword::From
        | Keyword::Import
        | Keyword::Lambda
        | Keyword::Nonlocal
        | Keyword::Raise
        | Keyword::Try
        | Keyword::With
        | Keyword::Yield => Some(Construct::Word(word)),
        _ => None,
    }
}

/// A keyword that no rule has.
fn ruleless(token: &Kind) -> Option<Construct>
    ensures { result ≡ ruleless token.now }
{
    match token {
        Kind::Keyword(word) => ruleless_word(*word),
        _ => None,
    }
}

fn default_at(token: &Kind) -> Option<Construct>
    ensures { result ≡ default_at token.now }
{
    match token {
        Kind::Symbol(Symbol::Assign) => Some(Construct::Default),
        _ => None,
    }
}

fn inline_function(token: &Kind) -> Option<Construct>
    ensures { result ≡ inline_function token.now }
{
    match token {
        Kind::Keyword(Keyword::Def) => Some(Construct::NestedFunction),
        _ => None,
    }
}

/// `def` where a statement of a block begins.
fn nested(outers: &Stack<Outer>, token: &Kind) -> Option<Construct>
    ensures { result ≡ nested outers.now token.now }
{
    match outers.top() {
        None => None,
        Some(_) => inline_function(token),
    }
}

/// `=` after `targets = exprs`.
fn chained(purpose: &Purpose, may_end: bool, token: &Kind) -> Option<Construct>
    ensures { result ≡ chained purpose.now may_end token.now }
{
    match token {
        Kind::Symbol(Symbol::Assign) => match purpose {
            Purpose::Assigning(_) => {
                if may_end {
                    Some(Construct::ChainedAssignment)
                } else {
                    None
                }
            }
            _ => None,
        },
        _ => None,
    }
}

/// One more `=`, or else what the token begins after the expression.
fn first_of(
    purpose: Purpose,
    may_end: bool,
    begun: Option<Construct>,
    token: &Kind,
) -> Option<Construct>
    ensures { result ≡ first_of (chained purpose may_end token.now) begun }
{
    let chain = chained(&purpose, may_end, token);
    drop(purpose);
    match chain {
        Some(one) => Some(one),
        None => begun,
    }
}

/// The construct that a token begins in a simple statement.
fn in_simple(
    alloc: Global,
    simple: Simple,
    purpose: Purpose,
    reading: Reading,
    token: &Kind,
) -> Result<Option<Construct>, AllocError>
    ensures { IfOk result (λ found. found ≡ in_simple purpose reading token.now) }
{
    drop(simple);
    match construct(alloc, reading, token) {
        Ok((may_end, begun)) => Ok(first_of(purpose, may_end, begun, token)),
        Err(error) => {
            drop(purpose);
            Err(error)
        }
    }
}

/// The construct that a token begins in the expression of a head.
fn in_test(
    alloc: Global,
    test: Test,
    reading: Reading,
    token: &Kind,
) -> Result<Option<Construct>, AllocError>
    ensures { IfOk result (λ found. found ≡ construct reading token.now) }
{
    drop(test);
    let (_may_end, begun) = construct(alloc, reading, token)?;
    Ok(begun)
}

/// The construct that a token begins where a line begins.
fn at_line(outers: Stack<Outer>, done: Done, last: Last, token: &Kind) -> Option<Construct>
    ensures { result ≡ nested outers token.now }
{
    drop(last);
    drop(done);
    let found = nested(&outers, token);
    drop(outers);
    found
}

/// The construct that a token begins after a parameter.
fn at_parameter(begun: Begun, name: Text, params: Items<Text>, token: &Kind) -> Option<Construct>
    ensures { result ≡ default_at token.now }
{
    drop(begun);
    drop(name);
    drop(params);
    default_at(token)
}

/// The construct that a token begins after the `:` of a head.
fn at_block(outers: Stack<Outer>, outer: Outer, token: &Kind) -> Option<Construct>
    ensures { result ≡ inline_function token.now }
{
    drop(outers);
    drop(outer);
    inline_function(token)
}

fn outside_state(alloc: Global, state: State, token: &Kind) -> Result<Option<Construct>, AllocError>
    ensures { IfOk result (λ found. found ≡ outside_state state token.now) }
{
    match state {
        State::Line(outers, done, last) => Ok(at_line(outers, done, last, token)),
        State::InSimple(simple, purpose, reading) => {
            in_simple(alloc, simple, purpose, reading, token)
        }
        State::InTest(test, reading) => in_test(alloc, test, reading, token),
        State::HasParams(begun, name, params) => Ok(at_parameter(begun, name, params, token)),
        State::AfterColon(outers, outer) => Ok(at_block(outers, outer, token)),
        other => {
            drop(other);
            Ok(None)
        }
    }
}

/// The construct outside the grammar that a token begins which isn't read, if any.
pub fn outside(alloc: Global, state: State, token: &Kind) -> Result<Option<Construct>, AllocError>
    ensures { IfOk result (λ found. found ≡ outside state token.now) }
{
    match ruleless(token) {
        Some(word) => {
            drop(state);
            Ok(Some(word))
        }
        None => outside_state(alloc, state, token),
    }
}
