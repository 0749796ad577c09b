ghost use Rattle.std.specs.Prelude.{◌≡◌};
ghost use Rattle.py_machine.specs.Runs.{Runs, Still, Grows, Feeding};
ghost use Rattle.py_meaning.specs.Acts.{run, chain, step, look};
ghost use Rattle.py_tree.specs.declared.expressions.Expr.{out-Expr};
ghost use Rattle.py_tree.specs.declared.expressions.Relation.{out-Relation};
ghost use Rattle.py_meaning.specs.Meaning.{level};
ghost use Rattle.py_meaning.specs.Meaning as spec;
ghost use Rattle.py_kernel.specs.Nests.{Evals, Execs};

use crate::below::Below;
use nb_outside::Feed;
use plain_data::Text;
use py_heap::SequenceKind;
use py_machine::{Fault, Flow, Machine};
use py_ops::{binary, charge_sequence, made, signed, truth_of};
use py_tree::{Expr, Literal, Op, Operand, Relation, Stmt};
use py_value::Value;
use std::alloc::Global;

/// The value of a name.
#[inline(always)]
pub(crate) fn name_value(alloc: Global, machine: &mut Machine, name: &Text) -> Result<Value, Fault>
    ensures runs { Still (run (chain step (λ _. look name.now))) machine.old result machine.new }
    ensures drawn { machine.new.drawn ≡ machine.old.drawn }
{
    machine.step(alloc)?;
    machine.look(alloc, name)
}

/// The value of a constant.
#[inline(always)]
#[tactic(auto, unfolding(py_meaning::specs::Meaning::literal_value))]
pub(crate) fn literal_value(
    alloc: Global,
    machine: &mut Machine,
    literal: &Literal,
) -> Result<Value, Fault>
    ensures runs { Still (run (spec.literal_value literal.now)) machine.old result machine.new }
    ensures drawn { machine.new.drawn ≡ machine.old.drawn }
{
    machine.step(alloc)?;
    match literal {
        Literal::Nothing => Ok(Value::Nothing),
        Literal::Bool(truth) => Ok(Value::Bool(*truth)),
        Literal::Number(number) => Ok(Value::Number(*number)),
        Literal::Text(text) => Ok(Value::Text(text.share()?)),
    }
}

fn is_none(value: &Value) -> bool
    ensures { result ≡ spec.is_none value.now }
{
    match value {
        Value::Nothing => true,
        Value::Bool(_) | Value::Number(_) | Value::Text(_) | Value::Ref(_) | Value::Builtin(_) => {
            false
        }
    }
}

impl<
    F: Feed,
    E: Fn(Global, u32, &mut Machine, &mut F, &Expr) -> Result<Value, Fault>,
    X: Fn(Global, u32, &mut Machine, &mut F, &Stmt) -> Result<Flow, Fault>,
> Below<F, E, X> {
    /// Makes a list or a tuple.
    #[tactic(auto, unfolding(py_meaning::specs::Meaning::display))]
    fn display(
        &self,
        machine: &mut Machine,
        feed: &mut F,
        kind: SequenceKind,
        items: &[Expr],
    ) -> Result<Value, Fault>
        requires evals { Evals F.seen self.now.left (E.pre self.now.eval) (E.post self.now.eval) }
        requires execs { Execs F.seen self.now.left (X.pre self.now.exec) (X.post self.now.exec) }
        ensures runs { Runs (run (spec.display (level self.now.left) kind items.now)) machine.old result machine.new }
        ensures grows { Grows machine.old machine.new }
        ensures fed { Feeding machine.old.drawn (F.seen feed.old) machine.new.drawn (F.seen feed.new) }
    {
        machine.step(self.alloc)?;
        let values = self.items(machine, feed, items)?;
        charge_sequence(self.alloc, machine, values.as_slice())?;
        made(machine, kind, values)
    }

    /// Applies the operators of a chain to what is to their right, from left to right.
    fn operands(
        &self,
        machine: &mut Machine,
        feed: &mut F,
        first: Value,
        rest: &[Operand],
    ) -> Result<Value, Fault>
        requires evals { Evals F.seen self.now.left (E.pre self.now.eval) (E.post self.now.eval) }
        requires execs { Execs F.seen self.now.left (X.pre self.now.exec) (X.post self.now.exec) }
        ensures runs { Runs (run (spec.operands (level self.now.left) first rest.now)) machine.old result machine.new }
        ensures grows { Grows machine.old machine.new }
        ensures fed { Feeding machine.old.drawn (F.seen feed.old) machine.new.drawn (F.seen feed.new) }
    {
        let mut total = first;
        for operand in rest {
            machine.step(self.alloc)?;
            let right = self.eval(machine, feed, &operand.value)?;
            total = binary(self.alloc, machine, operand.op, &total, &right)?;
        }
        Ok(total)
    }

    #[tactic(auto, unfolding(py_meaning::specs::Meaning::sum))]
    fn sum(
        &self,
        machine: &mut Machine,
        feed: &mut F,
        first: &Expr,
        rest: &[Operand],
    ) -> Result<Value, Fault>
        requires evals { Evals F.seen self.now.left (E.pre self.now.eval) (E.post self.now.eval) }
        requires execs { Execs F.seen self.now.left (X.pre self.now.exec) (X.post self.now.exec) }
        ensures runs { Runs (run (spec.sum (level self.now.left) first.now rest.now)) machine.old result machine.new }
        ensures grows { Grows machine.old machine.new }
        ensures fed { Feeding machine.old.drawn (F.seen feed.old) machine.new.drawn (F.seen feed.new) }
    {
        let first = self.eval(machine, feed, first)?;
        self.operands(machine, feed, first, rest)
    }

    #[tactic(auto, unfolding(py_meaning::specs::Meaning::sign))]
    fn sign(
        &self,
        machine: &mut Machine,
        feed: &mut F,
        minus: bool,
        value: &Expr,
    ) -> Result<Value, Fault>
        requires evals { Evals F.seen self.now.left (E.pre self.now.eval) (E.post self.now.eval) }
        requires execs { Execs F.seen self.now.left (X.pre self.now.exec) (X.post self.now.exec) }
        ensures runs { Runs (run (spec.sign (level self.now.left) minus value.now)) machine.old result machine.new }
        ensures grows { Grows machine.old machine.new }
        ensures fed { Feeding machine.old.drawn (F.seen feed.old) machine.new.drawn (F.seen feed.new) }
    {
        machine.step(self.alloc)?;
        let value = self.eval(machine, feed, value)?;
        signed(self.alloc, machine, minus, &value)
    }

    #[tactic(auto, unfolding(py_meaning::specs::Meaning::negation))]
    fn negation(&self, machine: &mut Machine, feed: &mut F, value: &Expr) -> Result<Value, Fault>
        requires evals { Evals F.seen self.now.left (E.pre self.now.eval) (E.post self.now.eval) }
        requires execs { Execs F.seen self.now.left (X.pre self.now.exec) (X.post self.now.exec) }
        ensures runs { Runs (run (spec.negation (level self.now.left) value.now)) machine.old result machine.new }
        ensures grows { Grows machine.old machine.new }
        ensures fed { Feeding machine.old.drawn (F.seen feed.old) machine.new.drawn (F.seen feed.new) }
    {
        machine.step(self.alloc)?;
        let value = self.eval(machine, feed, value)?;
        let truth = truth_of(machine, &value)?;
        Ok(Value::Bool(!truth))
    }

    #[tactic(auto, unfolding(py_meaning::specs::Meaning::conditional))]
    fn conditional(
        &self,
        machine: &mut Machine,
        feed: &mut F,
        test: &Expr,
        first: &Expr,
        second: &Expr,
    ) -> Result<Value, Fault>
        requires evals { Evals F.seen self.now.left (E.pre self.now.eval) (E.post self.now.eval) }
        requires execs { Execs F.seen self.now.left (X.pre self.now.exec) (X.post self.now.exec) }
        ensures runs { Runs (run (spec.conditional (level self.now.left) test.now first.now second.now)) machine.old result machine.new }
        ensures grows { Grows machine.old machine.new }
        ensures fed { Feeding machine.old.drawn (F.seen feed.old) machine.new.drawn (F.seen feed.new) }
    {
        machine.step(self.alloc)?;
        let test = self.eval(machine, feed, test)?;
        if truth_of(machine, &test)? {
            self.eval(machine, feed, first)
        } else {
            self.eval(machine, feed, second)
        }
    }

    /// The first operand that counts as true, or the last.
    fn any_of(
        &self,
        machine: &mut Machine,
        feed: &mut F,
        first: &Expr,
        rest: &[Expr],
    ) -> Result<Value, Fault>
        requires evals { Evals F.seen self.now.left (E.pre self.now.eval) (E.post self.now.eval) }
        requires execs { Execs F.seen self.now.left (X.pre self.now.exec) (X.post self.now.exec) }
        ensures runs { Runs (run (spec.any_of (level self.now.left) first.now rest.now)) machine.old result machine.new }
        ensures grows { Grows machine.old machine.new }
        ensures fed { Feeding machine.old.drawn (F.seen feed.old) machine.new.drawn (F.seen feed.new) }
    {
        let mut current = first;
        for next in rest {
            let value = self.eval(machine, feed, current)?;
            if truth_of(machine, &value)? {
                return Ok(value);
            }
            machine.step(self.alloc)?;
            current = next;
        }
        self.eval(machine, feed, current)
    }

    /// The first operand that counts as false, or the last.
    fn all_of(
        &self,
        machine: &mut Machine,
        feed: &mut F,
        first: &Expr,
        rest: &[Expr],
    ) -> Result<Value, Fault>
        requires evals { Evals F.seen self.now.left (E.pre self.now.eval) (E.post self.now.eval) }
        requires execs { Execs F.seen self.now.left (X.pre self.now.exec) (X.post self.now.exec) }
        ensures runs { Runs (run (spec.all_of (level self.now.left) first.now rest.now)) machine.old result machine.new }
        ensures grows { Grows machine.old machine.new }
        ensures fed { Feeding machine.old.drawn (F.seen feed.old) machine.new.drawn (F.seen feed.new) }
    {
        let mut current = first;
        for next in rest {
            let value = self.eval(machine, feed, current)?;
            if !truth_of(machine, &value)? {
                return Ok(value);
            }
            machine.step(self.alloc)?;
            current = next;
        }
        self.eval(machine, feed, current)
    }

    fn disjunction(
        &self,
        machine: &mut Machine,
        feed: &mut F,
        operands: &[Expr],
    ) -> Result<Value, Fault>
        requires evals { Evals F.seen self.now.left (E.pre self.now.eval) (E.post self.now.eval) }
        requires execs { Execs F.seen self.now.left (X.pre self.now.exec) (X.post self.now.exec) }
        ensures runs { Runs (run (spec.disjunction (level self.now.left) operands.now)) machine.old result machine.new }
        ensures grows { Grows machine.old machine.new }
        ensures fed { Feeding machine.old.drawn (F.seen feed.old) machine.new.drawn (F.seen feed.new) }
    {
        match operands {
            [first, rest @ ..] => self.any_of(machine, feed, first, rest),
            [] => Ok(Value::Bool(false)),
        }
    }

    fn conjunction(
        &self,
        machine: &mut Machine,
        feed: &mut F,
        operands: &[Expr],
    ) -> Result<Value, Fault>
        requires evals { Evals F.seen self.now.left (E.pre self.now.eval) (E.post self.now.eval) }
        requires execs { Execs F.seen self.now.left (X.pre self.now.exec) (X.post self.now.exec) }
        ensures runs { Runs (run (spec.conjunction (level self.now.left) operands.now)) machine.old result machine.new }
        ensures grows { Grows machine.old machine.new }
        ensures fed { Feeding machine.old.drawn (F.seen feed.old) machine.new.drawn (F.seen feed.new) }
    {
        match operands {
            [first, rest @ ..] => self.all_of(machine, feed, first, rest),
            [] => Ok(Value::Bool(true)),
        }
    }

    /// The value of an expression, if the comparison with it holds.
    #[tactic(auto, unfolding(py_meaning::specs::Meaning::with_right))]
    fn with_right(
        &self,
        machine: &mut Machine,
        feed: &mut F,
        left: &Value,
        op: Op,
        right: &Expr,
    ) -> Result<Option<Value>, Fault>
        requires evals { Evals F.seen self.now.left (E.pre self.now.eval) (E.post self.now.eval) }
        requires execs { Execs F.seen self.now.left (X.pre self.now.exec) (X.post self.now.exec) }
        ensures runs { Runs (run (spec.with_right (level self.now.left) left.now op right.now)) machine.old result machine.new }
        ensures grows { Grows machine.old machine.new }
        ensures fed { Feeding machine.old.drawn (F.seen feed.old) machine.new.drawn (F.seen feed.new) }
    {
        let right = self.eval(machine, feed, right)?;
        if self.compare(machine, op, left, &right)? {
            Ok(Some(right))
        } else {
            Ok(None)
        }
    }

    /// The operand that a chain goes on with, if its comparison holds.
    fn related(
        &self,
        machine: &mut Machine,
        feed: &mut F,
        left: Value,
        relation: &Relation,
    ) -> Result<Option<Value>, Fault>
        requires evals { Evals F.seen self.now.left (E.pre self.now.eval) (E.post self.now.eval) }
        requires execs { Execs F.seen self.now.left (X.pre self.now.exec) (X.post self.now.exec) }
        ensures runs { Runs (run (spec.related (level self.now.left) left (out-Relation relation.now))) machine.old result machine.new }
        ensures grows { Grows machine.old machine.new }
        ensures fed { Feeding machine.old.drawn (F.seen feed.old) machine.new.drawn (F.seen feed.new) }
    {
        match relation {
            Relation::With(op, right) => self.with_right(machine, feed, &left, *op, right),
            Relation::IsNone => {
                if is_none(&left) {
                    Ok(Some(left))
                } else {
                    Ok(None)
                }
            }
            Relation::IsNotNone => {
                if is_none(&left) {
                    Ok(None)
                } else {
                    Ok(Some(Value::Nothing))
                }
            }
        }
    }

    /// A chain of comparisons, up to the first that doesn't hold.
    fn relations(
        &self,
        machine: &mut Machine,
        feed: &mut F,
        first: Value,
        rest: &[Relation],
    ) -> Result<Value, Fault>
        requires evals { Evals F.seen self.now.left (E.pre self.now.eval) (E.post self.now.eval) }
        requires execs { Execs F.seen self.now.left (X.pre self.now.exec) (X.post self.now.exec) }
        ensures runs { Runs (run (spec.relations (level self.now.left) first rest.now)) machine.old result machine.new }
        ensures grows { Grows machine.old machine.new }
        ensures fed { Feeding machine.old.drawn (F.seen feed.old) machine.new.drawn (F.seen feed.new) }
    {
        let mut left = first;
        for relation in rest {
            machine.step(self.alloc)?;
            match self.related(machine, feed, left, relation)? {
                Some(next) => left = next,
                None => return Ok(Value::Bool(false)),
            }
        }
        Ok(Value::Bool(true))
    }

    #[tactic(auto, unfolding(py_meaning::specs::Meaning::comparison))]
    fn comparison(
        &self,
        machine: &mut Machine,
        feed: &mut F,
        first: &Expr,
        rest: &[Relation],
    ) -> Result<Value, Fault>
        requires evals { Evals F.seen self.now.left (E.pre self.now.eval) (E.post self.now.eval) }
        requires execs { Execs F.seen self.now.left (X.pre self.now.exec) (X.post self.now.exec) }
        ensures runs { Runs (run (spec.comparison (level self.now.left) first.now rest.now)) machine.old result machine.new }
        ensures grows { Grows machine.old machine.new }
        ensures fed { Feeding machine.old.drawn (F.seen feed.old) machine.new.drawn (F.seen feed.new) }
    {
        let first = self.eval(machine, feed, first)?;
        self.relations(machine, feed, first, rest)
    }

    /// Evaluates an expression.
    pub(crate) fn expression(
        &self,
        machine: &mut Machine,
        feed: &mut F,
        expression: &Expr,
    ) -> Result<Value, Fault>
        requires evals { Evals F.seen self.now.left (E.pre self.now.eval) (E.post self.now.eval) }
        requires execs { Execs F.seen self.now.left (X.pre self.now.exec) (X.post self.now.exec) }
        ensures runs { Runs (run (spec.expression (level self.now.left) (out-Expr expression.now))) machine.old result machine.new }
        ensures grows { Grows machine.old machine.new }
        ensures fed { Feeding machine.old.drawn (F.seen feed.old) machine.new.drawn (F.seen feed.new) }
    {
        match expression {
            Expr::Name(name) => name_value(self.alloc, machine, name),
            Expr::Literal(literal) => literal_value(self.alloc, machine, literal),
            Expr::ListOf(items) => {
                self.display(machine, feed, SequenceKind::List, items.as_slice())
            }
            Expr::TupleOf(items) => {
                self.display(machine, feed, SequenceKind::Tuple, items.as_slice())
            }
            Expr::Conditional { test, yes, no } => {
                self.conditional(machine, feed, test.get(), yes.get(), no.get())
            }
            Expr::Or(operands) => self.disjunction(machine, feed, operands.as_slice()),
            Expr::And(operands) => self.conjunction(machine, feed, operands.as_slice()),
            Expr::Not(value) => self.negation(machine, feed, value.get()),
            Expr::Compare { first, rest } => {
                self.comparison(machine, feed, first.get(), rest.as_slice())
            }
            Expr::Sum { first, rest } => self.sum(machine, feed, first.get(), rest.as_slice()),
            Expr::Product { first, rest } => self.sum(machine, feed, first.get(), rest.as_slice()),
            Expr::Sign { minus, value } => self.sign(machine, feed, *minus, value.get()),
            Expr::Call { callee, args } => self.call(machine, feed, callee.get(), args.as_slice()),
            Expr::Method { value, name, args } => {
                self.method(machine, feed, value.get(), name, args.as_slice())
            }
            Expr::DictOf(pairs) => self.dict_display(machine, feed, pairs.as_slice()),
            Expr::Index { value, at } => self.index(machine, feed, value.get(), at.get()),
            Expr::Slice { value, from, to } => self.slice(machine, feed, value.get(), from, to),
        }
    }
}
