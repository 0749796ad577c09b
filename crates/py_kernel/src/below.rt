ghost use Rattle.std.specs.Prelude.{◌≡◌, ◌==◌, ◌<◌, ◌-◌, []};
ghost use Rattle.py_machine.specs.Runs.{Runs, Still, Grows, Feeding};
ghost use Rattle.py_meaning.specs.Acts.{run};
ghost use Rattle.py_meaning.specs.Meaning.{level};
ghost use Rattle.py_meaning.specs.Meaning as spec;
ghost use Rattle.py_meaning.specs.Compared as compares;
ghost use Rattle.py_kernel.specs.Nests.{Evals, Execs};

use crate::expressions::{literal_value, name_value};
use nb_outside::Feed;
use plain_data::Items;
use py_machine::{Fault, Flow, Machine, recursion_error};
use py_ops::compare;
use py_tree::{Expr, Op, Stmt};
use py_value::Value;
use std::alloc::Global;
use std::marker::PhantomData;

/// What evaluates the expressions inside an expression or a statement and executes the statements inside a statement, one level
/// below.
#[derive(Drop)]
pub struct Below<F, E, X> {
    pub(crate) alloc: Global,
    /// The levels that are left for what is inside.
    pub(crate) left: u32,
    pub(crate) eval: E,
    pub(crate) exec: X,
    pub(crate) of: PhantomData<F>,
}

impl<
    F: Feed,
    E: Fn(Global, u32, &mut Machine, &mut F, &Expr) -> Result<Value, Fault>,
    X: Fn(Global, u32, &mut Machine, &mut F, &Stmt) -> Result<Flow, Fault>,
> Below<F, E, X> {
    /// Evaluates an expression. A name or a constant, as most expressions are, takes no call of the evaluator.
    #[inline(always)]
    pub(crate) fn eval(
        &self,
        machine: &mut Machine,
        feed: &mut F,
        expression: &Expr,
    ) -> Result<Value, Fault>
        requires evals { Evals F.seen self.now.left (E.pre self.now.eval) (E.post self.now.eval) }
        requires execs { Execs F.seen self.now.left (X.pre self.now.exec) (X.post self.now.exec) }
        ensures runs { Runs (run ((level self.now.left).eval expression.now)) machine.old result machine.new }
        ensures grows { Grows machine.old machine.new }
        ensures fed { Feeding machine.old.drawn (F.seen feed.old) machine.new.drawn (F.seen feed.new) }
    {
        if self.left == 0 {
            return Err(Fault::Raised(recursion_error(self.alloc)?));
        }
        match expression {
            Expr::Name(name) => name_value(self.alloc, machine, name),
            Expr::Literal(literal) => literal_value(self.alloc, machine, literal),
            _ => (self.eval)(self.alloc, self.left, machine, feed, expression),
        }
    }

    #[inline(always)]
    pub(crate) fn exec(
        &self,
        machine: &mut Machine,
        feed: &mut F,
        statement: &Stmt,
    ) -> Result<Flow, Fault>
        requires evals { Evals F.seen self.now.left (E.pre self.now.eval) (E.post self.now.eval) }
        requires execs { Execs F.seen self.now.left (X.pre self.now.exec) (X.post self.now.exec) }
        ensures runs { Runs (run ((level self.now.left).exec statement.now)) machine.old result machine.new }
        ensures grows { Grows machine.old machine.new }
        ensures fed { Feeding machine.old.drawn (F.seen feed.old) machine.new.drawn (F.seen feed.new) }
    {
        (self.exec)(self.alloc, self.left, machine, feed, statement)
    }

    /// Evaluates an expression inside one that is one level below.
    pub(crate) fn deeper(
        &self,
        machine: &mut Machine,
        feed: &mut F,
        expression: &Expr,
    ) -> Result<Value, Fault>
        requires evals { Evals F.seen self.now.left (E.pre self.now.eval) (E.post self.now.eval) }
        requires execs { Execs F.seen self.now.left (X.pre self.now.exec) (X.post self.now.exec) }
        ensures runs { Runs (run ((level self.now.left).deeper expression.now)) machine.old result machine.new }
        ensures grows { Grows machine.old machine.new }
        ensures fed { Feeding machine.old.drawn (F.seen feed.old) machine.new.drawn (F.seen feed.new) }
    {
        if self.left == 0 {
            return Err(Fault::Raised(recursion_error(self.alloc)?));
        }
        (self.eval)(self.alloc, self.left - 1, machine, feed, expression)
    }

    /// The values of expressions, from left to right.
    #[tactic(auto, unfolding(py_meaning::specs::Meaning::items))]
    pub(crate) fn items(
        &self,
        machine: &mut Machine,
        feed: &mut F,
        expressions: &[Expr],
    ) -> Result<Items<Value>, Fault>
        requires evals { Evals F.seen self.now.left (E.pre self.now.eval) (E.post self.now.eval) }
        requires execs { Execs F.seen self.now.left (X.pre self.now.exec) (X.post self.now.exec) }
        ensures runs { Runs (run (spec.items (level self.now.left) expressions.now)) machine.old result machine.new }
        ensures grows { Grows machine.old machine.new }
        ensures fed { Feeding machine.old.drawn (F.seen feed.old) machine.new.drawn (F.seen feed.new) }
    {
        let mut values = Items::new(self.alloc);
        for expression in expressions {
            values.push(self.eval(machine, feed, expression)?)?;
        }
        Ok(values)
    }

    /// Executes statements one after the other, up to the first that leads elsewhere.
    pub(crate) fn block(
        &self,
        machine: &mut Machine,
        feed: &mut F,
        body: &[Stmt],
    ) -> Result<Flow, Fault>
        requires evals { Evals F.seen self.now.left (E.pre self.now.eval) (E.post self.now.eval) }
        requires execs { Execs F.seen self.now.left (X.pre self.now.exec) (X.post self.now.exec) }
        ensures runs { Runs (run (spec.block (level self.now.left) body.now)) machine.old result machine.new }
        ensures grows { Grows machine.old machine.new }
        ensures fed { Feeding machine.old.drawn (F.seen feed.old) machine.new.drawn (F.seen feed.new) }
    {
        for statement in body {
            match self.exec(machine, feed, statement)? {
                Flow::Next => {}
                Flow::Break => return Ok(Flow::Break),
                Flow::Continue => return Ok(Flow::Continue),
                Flow::Return(value) => return Ok(Flow::Return(value)),
            }
        }
        Ok(Flow::Next)
    }

    /// Whether a comparison holds.
    pub(crate) fn compare(
        &self,
        machine: &mut Machine,
        op: Op,
        left: &Value,
        right: &Value,
    ) -> Result<bool, Fault>
        ensures runs { Still (run (compares.compared (level self.now.left).left op left.now right.now)) machine.old result machine.new }
        ensures drawn { machine.new.drawn ≡ machine.old.drawn }
    {
        compare(self.alloc, self.left, machine, op, left, right)
    }

    /// Whether no level is left.
    pub(crate) fn is_last(&self) -> bool
        ensures { result ≡ ((level self.now.left).left == 0) }
    {
        self.left == 0
    }
}

impl<
    F: Feed,
    E: Copy + Fn(Global, u32, &mut Machine, &mut F, &Expr) -> Result<Value, Fault>,
    X: Copy + Fn(Global, u32, &mut Machine, &mut F, &Stmt) -> Result<Flow, Fault>,
> Below<F, E, X> {
    /// What evaluates and executes one level lower.
    fn lower(&self) -> Below<F, E, X>
        requires { 0 < self.now.left }
        ensures left { result.left ≡ self.now.left - 1 }
        ensures eval { result.eval ≡ self.now.eval }
        ensures exec { result.exec ≡ self.now.exec }
    {
        Below {
            alloc: self.alloc,
            left: self.left - 1,
            eval: self.eval,
            exec: self.exec,
            of: PhantomData,
        }
    }

    /// Makes a call as an expression one level below does.
    pub(crate) fn calls(
        &self,
        machine: &mut Machine,
        feed: &mut F,
        callee: &Value,
        args: &[Value],
    ) -> Result<Value, Fault>
        requires evals { Evals F.seen self.now.left (E.pre self.now.eval) (E.post self.now.eval) }
        requires execs { Execs F.seen self.now.left (X.pre self.now.exec) (X.post self.now.exec) }
        ensures runs { Runs (run ((level self.now.left).calls callee.now args.now)) machine.old result machine.new }
        ensures grows { Grows machine.old machine.new }
        ensures fed { Feeding machine.old.drawn (F.seen feed.old) machine.new.drawn (F.seen feed.new) }
    {
        if self.left == 0 {
            return Err(Fault::Raised(recursion_error(self.alloc)?));
        }
        self.lower().called(machine, feed, callee, args)
    }
}
