ghost use Rattle.std.specs.Prelude.{◌≡◌, []};
ghost use Rattle.py_machine.specs.Runs.{Runs, Grows, Feeding};
ghost use Rattle.py_tree.specs.declared.expressions.Expr.{out-Expr};
ghost use Rattle.py_meaning.specs.Acts.{run};
ghost use Rattle.py_meaning.specs.Meaning.{level};
ghost use Rattle.py_meaning.specs.Meaning as spec;
ghost use Rattle.py_kernel.specs.Nests.{Evals, Execs};

use crate::below::Below;
use crate::statements::give_names;
use nb_outside::Feed;
use plain_data::{Items, Text};
use py_items::{advance, iterate, range_of};
use py_machine::{Fault, Flow, Iteration, Machine, step_limit_error};
use py_ops::truth_of;
use py_tree::{Expr, Stmt};
use py_value::{Builtin, Value};
use std::alloc::Global;

/// The most turns of a loop: one more than a cell has steps, of which each turn takes one.
const MOST_TURNS: u32 = 1_000_001;

impl<
    F: Feed,
    E: Copy + Fn(Global, u32, &mut Machine, &mut F, &Expr) -> Result<Value, Fault>,
    X: Copy + Fn(Global, u32, &mut Machine, &mut F, &Stmt) -> Result<Flow, Fault>,
> Below<F, E, X> {
    /// Executes a block as long as a test counts as true.
    #[tactic(auto, unfolding(py_meaning::specs::Meaning::repeat))]
    pub(crate) fn repeat(
        &self,
        machine: &mut Machine,
        feed: &mut F,
        test: &Expr,
        body: &[Stmt],
    ) -> Result<Flow, Fault>
        requires evals { Evals F.seen self.now.left (E.pre self.now.eval) (E.post self.now.eval) }
        requires execs { Execs F.seen self.now.left (X.pre self.now.exec) (X.post self.now.exec) }
        ensures runs { Runs (run (spec.repeat (level self.now.left) test.now body.now)) machine.old result machine.new }
        ensures grows { Grows machine.old machine.new }
        ensures fed { Feeding machine.old.drawn (F.seen feed.old) machine.new.drawn (F.seen feed.new) }
    {
        machine.step(self.alloc)?;
        self.turns(machine, feed, test, body)
    }

    #[tactic(auto, using(crate::proofs::Turning::turned, crate::proofs::Turning::turns_spent))]
    fn turns(
        &self,
        machine: &mut Machine,
        feed: &mut F,
        test: &Expr,
        body: &[Stmt],
    ) -> Result<Flow, Fault>
        requires evals { Evals F.seen self.now.left (E.pre self.now.eval) (E.post self.now.eval) }
        requires execs { Execs F.seen self.now.left (X.pre self.now.exec) (X.post self.now.exec) }
        ensures runs { Runs (run (spec.turns (level self.now.left) spec.most_turns test.now body.now)) machine.old result machine.new }
        ensures grows { Grows machine.old machine.new }
        ensures fed { Feeding machine.old.drawn (F.seen feed.old) machine.new.drawn (F.seen feed.new) }
    {
        for _turn in 0..MOST_TURNS {
            let held = self.eval(machine, feed, test)?;
            if !truth_of(machine, &held)? {
                return Ok(Flow::Next);
            }
            match self.block(machine, feed, body)? {
                Flow::Next | Flow::Continue => {}
                Flow::Break => return Ok(Flow::Next),
                Flow::Return(value) => return Ok(Flow::Return(value)),
            }
        }
        Err(Fault::Raised(step_limit_error(self.alloc)?))
    }

    /// The values of the arguments of a call that is the source of a `for`.
    fn deeper_items(
        &self,
        machine: &mut Machine,
        feed: &mut F,
        expressions: &[Expr],
    ) -> Result<Items<Value>, Fault>
        requires evals { Evals F.seen self.now.left (E.pre self.now.eval) (E.post self.now.eval) }
        requires execs { Execs F.seen self.now.left (X.pre self.now.exec) (X.post self.now.exec) }
        ensures runs { Runs (run (spec.deeper_items_from (level self.now.left) [] expressions.now)) machine.old result machine.new }
        ensures grows { Grows machine.old machine.new }
        ensures fed { Feeding machine.old.drawn (F.seen feed.old) machine.new.drawn (F.seen feed.new) }
    {
        let mut values = Items::new(self.alloc);
        for expression in expressions {
            values.push(self.deeper(machine, feed, expression)?)?;
        }
        Ok(values)
    }

    /// What a `for` goes over if its source is a call: the numbers of `range`, or what the call gives.
    fn source_called(
        &self,
        machine: &mut Machine,
        feed: &mut F,
        callee: &Value,
        args: &[Value],
    ) -> Result<Iteration, Fault>
        requires evals { Evals F.seen self.now.left (E.pre self.now.eval) (E.post self.now.eval) }
        requires execs { Execs F.seen self.now.left (X.pre self.now.exec) (X.post self.now.exec) }
        ensures runs { Runs (run (spec.source_called (level self.now.left) callee.now args.now)) machine.old result machine.new }
        ensures grows { Grows machine.old machine.new }
        ensures fed { Feeding machine.old.drawn (F.seen feed.old) machine.new.drawn (F.seen feed.new) }
    {
        match callee {
            Value::Builtin(Builtin::Range) => range_of(self.alloc, machine, args),
            _ => {
                let value = self.calls(machine, feed, callee, args)?;
                iterate(self.alloc, machine, &value)
            }
        }
    }

    #[tactic(auto, unfolding(py_meaning::specs::Meaning::call_source))]
    fn call_source(
        &self,
        machine: &mut Machine,
        feed: &mut F,
        callee: &Expr,
        args: &[Expr],
    ) -> Result<Iteration, Fault>
        requires evals { Evals F.seen self.now.left (E.pre self.now.eval) (E.post self.now.eval) }
        requires execs { Execs F.seen self.now.left (X.pre self.now.exec) (X.post self.now.exec) }
        ensures runs { Runs (run (spec.call_source (level self.now.left) callee.now args.now)) machine.old result machine.new }
        ensures grows { Grows machine.old machine.new }
        ensures fed { Feeding machine.old.drawn (F.seen feed.old) machine.new.drawn (F.seen feed.new) }
    {
        self.as_expression(machine)?;
        let function = self.deeper(machine, feed, callee)?;
        let values = self.deeper_items(machine, feed, args)?;
        self.source_called(machine, feed, &function, values.as_slice())
    }

    /// What a `for` goes over.
    fn source_of(
        &self,
        machine: &mut Machine,
        feed: &mut F,
        source: &Expr,
    ) -> Result<Iteration, Fault>
        requires evals { Evals F.seen self.now.left (E.pre self.now.eval) (E.post self.now.eval) }
        requires execs { Execs F.seen self.now.left (X.pre self.now.exec) (X.post self.now.exec) }
        ensures runs { Runs (run (spec.source_of (level self.now.left) source.now (out-Expr source.now))) machine.old result machine.new }
        ensures grows { Grows machine.old machine.new }
        ensures fed { Feeding machine.old.drawn (F.seen feed.old) machine.new.drawn (F.seen feed.new) }
    {
        match source {
            Expr::Call { callee, args } => {
                self.call_source(machine, feed, callee.get(), args.as_slice())
            }
            _ => {
                let value = self.eval(machine, feed, source)?;
                iterate(self.alloc, machine, &value)
            }
        }
    }

    /// Executes a block for each value that comes.
    #[tactic(auto, using(crate::proofs::Turning::rounded, crate::proofs::Turning::rounds_spent))]
    fn rounds(
        &self,
        machine: &mut Machine,
        feed: &mut F,
        names: &[Text],
        comma: bool,
        body: &[Stmt],
        first: Iteration,
    ) -> Result<Flow, Fault>
        requires evals { Evals F.seen self.now.left (E.pre self.now.eval) (E.post self.now.eval) }
        requires execs { Execs F.seen self.now.left (X.pre self.now.exec) (X.post self.now.exec) }
        ensures runs { Runs (run (spec.rounds (level self.now.left) spec.most_turns names.now comma body.now first)) machine.old result machine.new }
        ensures grows { Grows machine.old machine.new }
        ensures fed { Feeding machine.old.drawn (F.seen feed.old) machine.new.drawn (F.seen feed.new) }
    {
        let mut from = first;
        for _turn in 0..MOST_TURNS {
            match advance(self.alloc, machine, from)? {
                Some((value, rest)) => {
                    machine.step(self.alloc)?;
                    give_names(self.alloc, machine, comma, names, value)?;
                    from = rest;
                }
                None => return Ok(Flow::Next),
            }
            match self.block(machine, feed, body)? {
                Flow::Next | Flow::Continue => {}
                Flow::Break => return Ok(Flow::Next),
                Flow::Return(held) => return Ok(Flow::Return(held)),
            }
        }
        Err(Fault::Raised(step_limit_error(self.alloc)?))
    }

    #[tactic(auto, unfolding(py_meaning::specs::Meaning::for_each))]
    pub(crate) fn for_each(
        &self,
        machine: &mut Machine,
        feed: &mut F,
        names: &[Text],
        comma: bool,
        source: &Expr,
        body: &[Stmt],
    ) -> Result<Flow, Fault>
        requires evals { Evals F.seen self.now.left (E.pre self.now.eval) (E.post self.now.eval) }
        requires execs { Execs F.seen self.now.left (X.pre self.now.exec) (X.post self.now.exec) }
        ensures runs { Runs (run (spec.for_each (level self.now.left) names.now comma source.now body.now)) machine.old result machine.new }
        ensures grows { Grows machine.old machine.new }
        ensures fed { Feeding machine.old.drawn (F.seen feed.old) machine.new.drawn (F.seen feed.new) }
    {
        machine.step(self.alloc)?;
        let first = self.source_of(machine, feed, source)?;
        self.rounds(machine, feed, names, comma, body, first)
    }
}
