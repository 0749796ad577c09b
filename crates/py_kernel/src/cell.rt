ghost use Rattle.std.specs.Prelude.{◌≡◌, IfOk, List, Some};
ghost use Rattle.nb_outside.specs.declared.feed.Drawn.{Drawn};
ghost use Rattle.nb_outside.specs.Counts.{HasRisen};
ghost use Rattle.nb_outside.specs.Feeds.{Fed};
ghost use Rattle.py_tree.specs.declared.statements.Stmt.{out-Stmt};
ghost use Rattle.py_machine.specs.Runs.{Runs, Still, Grows, Feeding};
ghost use Rattle.py_meaning.specs.Acts.{run};
ghost use Rattle.py_meaning.specs.Meaning as spec;
ghost use Rattle.py_meaning.specs.Cells as cells;

use crate::run::{eval, exec};
use nb_outside::Feed;
use plain_data::Text;
use py_heap::State;
use py_machine::{Fault, Machine};
use py_meaning::{CellEnd, CellError};
use py_show::result_text;
use py_tree::{Expr, Stmt};
use py_value::Value;
use std::alloc::{AllocError, Global};
use std::mem;

/// The levels that are left for a statement of a cell: it is at the first.
const STATEMENT_LEVELS: u32 = 800;

/// The levels that are left for an expression of such a statement.
const EXPRESSION_LEVELS: u32 = 799;

/// The text of a result, if the value isn't None.
fn result_of(alloc: Global, machine: &mut Machine, value: &Value) -> Result<Option<Text>, Fault>
    ensures runs { Still (run (spec.result value.now)) machine.old result machine.new }
    ensures drawn { machine.new.drawn ≡ machine.old.drawn }
{
    match value {
        Value::Nothing => Ok(None),
        _ => result_text(alloc, machine, value),
    }
}

/// Runs a last statement that is an expression.
fn show_last<F: Feed>(
    alloc: Global,
    machine: &mut Machine,
    feed: &mut F,
    expression: &Expr,
) -> Result<Option<Text>, Fault>
    ensures runs { Runs (run (spec.show_last expression.now)) machine.old result machine.new }
    ensures grows { Grows machine.old machine.new }
    ensures fed { Feeding machine.old.drawn (F.seen feed.old) machine.new.drawn (F.seen feed.new) }
{
    machine.step(alloc)?;
    let value = eval(alloc, EXPRESSION_LEVELS, machine, feed, expression)?;
    result_of(alloc, machine, &value)
}

/// Runs a last statement, which gives a result if it is an expression.
fn last<F: Feed>(
    alloc: Global,
    machine: &mut Machine,
    feed: &mut F,
    statement: &Stmt,
) -> Result<Option<Text>, Fault>
    ensures runs { Runs (run (spec.last statement.now (out-Stmt statement.now))) machine.old result machine.new }
    ensures grows { Grows machine.old machine.new }
    ensures fed { Feeding machine.old.drawn (F.seen feed.old) machine.new.drawn (F.seen feed.new) }
{
    match statement {
        Stmt::Expression(expression) => show_last(alloc, machine, feed, expression),
        _ => {
            exec(alloc, STATEMENT_LEVELS, machine, feed, statement)?;
            Ok(None)
        }
    }
}

fn top_from<F: Feed>(
    alloc: Global,
    machine: &mut Machine,
    feed: &mut F,
    first: &Stmt,
    rest: &[Stmt],
) -> Result<Option<Text>, Fault>
    ensures runs { Runs (run (spec.top_from first.now rest.now)) machine.old result machine.new }
    ensures grows { Grows machine.old machine.new }
    ensures fed { Feeding machine.old.drawn (F.seen feed.old) machine.new.drawn (F.seen feed.new) }
{
    let mut current = first;
    for next in rest {
        exec(alloc, STATEMENT_LEVELS, machine, feed, current)?;
        current = next;
    }
    last(alloc, machine, feed, current)
}

/// Runs the statements of a cell in order, up to the first error.
fn cell<F: Feed>(
    alloc: Global,
    machine: &mut Machine,
    feed: &mut F,
    body: &[Stmt],
) -> Result<Option<Text>, Fault>
    ensures runs { Runs (run (spec.cell body.now)) machine.old result machine.new }
    ensures grows { Grows machine.old machine.new }
    ensures fed { Feeding machine.old.drawn (F.seen feed.old) machine.new.drawn (F.seen feed.new) }
{
    match body {
        [first, rest @ ..] => top_from(alloc, machine, feed, first, rest),
        [] => Ok(None),
    }
}

/// Runs a cell with this tree on the state of a session, and draws from the feed. An error is an end of the cell, and what the
/// cell did before stays. The count is the caller's. (Python language reference, in the subset of docs/LANGUAGE.md.)
///
/// After an `Err`, which is want of memory, the state means nothing and may only be dropped.
pub fn run_cell<F: Feed>(
    alloc: Global,
    state: &mut State,
    body: &[Stmt],
    feed: &mut F,
) -> Result<CellEnd, AllocError>
    // The end and the state are the meaning's, under just the draws that are recorded.
    ensures used { IfOk result (λ end. cells.UsesUp body.now state.old end.draws) }
    ensures end { IfOk result (λ end. end ≡ cells.end body.now state.old end.draws) }
    ensures state { IfOk result (λ end. state.new ≡ cells.end_state body.now state.old end.draws) }

    // These are what the feed gave in this call, and it gave no others.
    ensures fed { IfOk result (λ end. Fed (F.seen feed.old) end.draws (F.seen feed.new)) }
    ensures taken { (draws : List Drawn) × Fed (F.seen feed.old) draws (F.seen feed.new) }
    ensures feed_error { IfOk result (λ end. end.error ≡ Some CellError.Feed → HasRisen (F.seen feed.old).faults (F.seen feed.new).faults) }
{
    let mut machine = Machine::new(alloc, mem::replace(state, State::new(alloc)))?;
    let outcome = cell(alloc, &mut machine, feed, body);
    let Machine {
        state: after,
        steps,
        printed,
        drawn,
        marks,
        frame: _,
    } = machine;
    *state = after;
    let (result, error) = match outcome {
        Ok(result) => (result, None),
        Err(Fault::Raised(error)) => (None, Some(CellError::Raised(error.into_inner()))),
        Err(Fault::DrawFailed) => (None, Some(CellError::Feed)),
        Err(Fault::OutOfMemory) => return Err(AllocError),
    };
    Ok(CellEnd {
        printed,
        result,
        error,
        steps,
        draws: drawn,
        marks: marks.into_marks(),
    })
}
