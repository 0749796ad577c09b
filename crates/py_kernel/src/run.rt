ghost use Rattle.py_machine.specs.Runs.{Runs, Grows, Feeding};
ghost use Rattle.py_meaning.specs.Acts.{run};
ghost use Rattle.py_meaning.specs.Meaning.{level};

use crate::below::Below;
use nb_outside::Feed;
use py_machine::{Fault, Flow, Machine, recursion_error};
use py_tree::{Expr, Stmt};
use py_value::Value;
use std::alloc::Global;
use std::marker::PhantomData;

/// Evaluates an expression with `left` levels left.
#[cycle(run)]
pub fn eval<F: Feed>(
    alloc: Global,
    left: u32,
    machine: &mut Machine,
    feed: &mut F,
    expression: &Expr,
) -> Result<Value, Fault>
    ensures runs { Runs (run ((level left).eval expression.now)) machine.old result machine.new }
    ensures grows { Grows machine.old machine.new }
    ensures fed { Feeding machine.old.drawn (F.seen feed.old) machine.new.drawn (F.seen feed.new) }
{
    if left == 0 {
        return Err(Fault::Raised(recursion_error(alloc)?));
    }
    Below {
        alloc,
        left: left - 1,
        eval: eval::<F>,
        exec: exec::<F>,
        of: PhantomData,
    }
    .expression(machine, feed, expression)
}

/// Executes a statement with `left` levels left.
#[cycle(run)]
pub fn exec<F: Feed>(
    alloc: Global,
    left: u32,
    machine: &mut Machine,
    feed: &mut F,
    statement: &Stmt,
) -> Result<Flow, Fault>
    ensures runs { Runs (run ((level left).exec statement.now)) machine.old result machine.new }
    ensures grows { Grows machine.old machine.new }
    ensures fed { Feeding machine.old.drawn (F.seen feed.old) machine.new.drawn (F.seen feed.new) }
{
    if left == 0 {
        return Err(Fault::Raised(recursion_error(alloc)?));
    }
    Below {
        alloc,
        left: left - 1,
        eval: eval::<F>,
        exec: exec::<F>,
        of: PhantomData,
    }
    .statement(machine, feed, statement)
}
