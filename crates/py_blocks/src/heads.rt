//! The head of a compound statement with an expression, and where its block begins.
ghost use Rattle.std.specs.Prelude.{◌≡◌, [], Some, None};
ghost use Rattle.py_frames.specs.Gives.{Gives};
ghost use Rattle.py_frames.specs.Steps as expression;
ghost use Rattle.py_frames.specs.Ends as endings;
ghost use Rattle.py_frames.specs.declared.endings.Colon.TheVariants.{Ends};
ghost use Rattle.py_blocks.specs.Steps.{opens, headed, fits, test_goes_on, colon_behind, on_test, variables_end, on_variables, on_variable, on_else, on_newline};

use crate::blocks::{around_of, block_around, nothing, places};
use crate::simple::named;
use crate::state::{Begun, Branches, Done, Head, Last, Lead, Outer, State, Test};
use plain_data::{Items, Stack, Text};
use py_frames::{
    Colon, Places, State as Reading, Stop, Value, begun, colon_or_end, is_undivided, step,
};
use py_token::{Keyword, Kind, Symbol};
use py_tree::Expr;
use std::alloc::Global;
use std::mem::drop;

/// The `:` of a head: its block is to come.
pub fn open(begun: Begun, under: Places, head: Head) -> State
    ensures { result ≡ opens begun under head }
{
    let Begun {
        outers,
        before,
        from,
    } = begun;
    let around = block_around(&head, around_of(&outers));
    let outer = Outer {
        before,
        from,
        under,
        head,
        around,
    };
    State::AfterColon(outers, outer)
}

fn headed(lead: Lead, test: Expr) -> Head
    ensures { result ≡ headed lead test }
{
    match lead {
        Lead::Branch(arms) => Head::Branch { arms, test },
        Lead::While => Head::While(test),
        Lead::For { names, comma } => Head::For {
            names,
            comma,
            iterable: test,
        },
    }
}

/// Whether it is no tuple without parentheses, or what a `for` goes over.
fn fits(lead: &Lead, reading: &Reading) -> bool
    ensures { result ≡ fits lead.now reading.now }
{
    match lead {
        Lead::For { .. } => true,
        _ => is_undivided(reading),
    }
}

/// Whether it may go on so.
fn is_fit(test: &Test, reading: &Reading) -> bool
    ensures { result ≡ fits test.now.lead reading.now }
{
    fits(&test.lead, reading)
}

/// Its expression goes on.
fn go_on(test: Test, reading: Reading) -> Result<State, Stop>
    ensures { Gives result (test_goes_on test (Some reading)) }
{
    if is_fit(&test, &reading) {
        Ok(State::InTest(test, reading))
    } else {
        drop(test);
        drop(reading);
        Err(Stop::Refused)
    }
}

/// Its expression has ended.
fn end_test(test: Test, value: Value) -> Result<State, Stop>
    ensures { Gives result (colon_behind test (Some (Ends value))) }
{
    let Test {
        begun,
        lead,
        under: left,
    } = test;
    let Value {
        tree,
        from,
        under,
        ..
    } = value;
    let under = left.beside(places(from, under)?);
    Ok(open(begun, under, headed(lead, tree)))
}

/// A `:` after its expression.
fn on_colon(alloc: Global, test: Test, reading: Reading) -> Result<State, Stop>
    ensures { Gives result (colon_behind test (endings.colon_or_end reading)) }
{
    match colon_or_end(alloc, reading)? {
        Colon::Goes(reading) => go_on(test, reading),
        Colon::Ends(value) => end_test(test, value),
    }
}

/// One more token of its expression.
fn go_on_with(
    alloc: Global,
    test: Test,
    reading: Reading,
    token: &Kind,
    at: usize,
) -> Result<State, Stop>
    ensures { Gives result (test_goes_on test (expression.step reading token.now at)) }
{
    let reading = step(alloc, reading, token, at)?;
    go_on(test, reading)
}

/// One more token of a head with an expression. A `:` in a bracket belongs to it, and one outside all brackets ends the
/// head.
pub fn on_test(
    alloc: Global,
    test: Test,
    reading: Reading,
    token: &Kind,
    at: usize,
) -> Result<State, Stop>
    ensures { Gives result (on_test at test reading token.now) }
{
    match token {
        Kind::Symbol(Symbol::Colon) => on_colon(alloc, test, reading),
        _ => go_on_with(alloc, test, reading, token, at),
    }
}

/// The names of a `for` end.
fn end_names(alloc: Global, begun_for: Begun, names: Items<Text>, comma: bool) -> State
    ensures { result ≡ variables_end begun_for names comma }
{
    let test = Test {
        begun: begun_for,
        lead: Lead::For { names, comma },
        under: Places::none(alloc),
    };
    State::InTest(test, begun(alloc))
}

/// When a name of a `for` is to come, or its `in`.
pub fn on_variables(
    alloc: Global,
    begun_for: Begun,
    names: Items<Text>,
    token: &Kind,
) -> Result<State, Stop>
    ensures { Gives result (on_variables begun_for names token.now) }
{
    match token {
        Kind::Name(name) => {
            let names = named(alloc, names, name)?;
            Ok(State::HasVariables(begun_for, names))
        }
        Kind::Keyword(Keyword::In) => {
            if names.is_empty() {
                Err(Stop::Refused)
            } else {
                Ok(end_names(alloc, begun_for, names, true))
            }
        }
        _ => Err(Stop::Refused),
    }
}

/// After a name of a `for`.
pub fn on_variable(
    alloc: Global,
    begun_for: Begun,
    names: Items<Text>,
    token: &Kind,
) -> Result<State, Stop>
    ensures { Gives result (on_variable begun_for names token.now) }
{
    match token {
        Kind::Symbol(Symbol::Comma) => Ok(State::InVariables(begun_for, names)),
        Kind::Keyword(Keyword::In) => {
            let comma = 1 < names.len();
            Ok(end_names(alloc, begun_for, names, comma))
        }
        _ => Err(Stop::Refused),
    }
}

/// After `else`.
pub fn on_else(
    outers: Stack<Outer>,
    before: Done,
    branches: Branches,
    token: &Kind,
) -> Result<State, Stop>
    ensures { Gives result (on_else outers before branches token.now) }
{
    match token {
        Kind::Symbol(Symbol::Colon) => {
            let Branches { arms, from, under } = branches;
            let begun_if = Begun {
                outers,
                before,
                from,
            };
            Ok(open(begun_if, under, Head::Else(arms)))
        }
        _ => Err(Stop::Refused),
    }
}

/// After the line of a head: its block begins.
pub fn on_newline(
    alloc: Global,
    mut outers: Stack<Outer>,
    outer: Outer,
    token: &Kind,
) -> Result<State, Stop>
    ensures { Gives result (on_newline outers outer token.now) }
{
    match token {
        Kind::Indent => {
            outers.push(outer)?;
            Ok(State::Line(outers, nothing(alloc), Last::Nothing))
        }
        _ => Err(Stop::Refused),
    }
}
