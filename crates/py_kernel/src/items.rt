ghost use Rattle.std.specs.Prelude.{◌≡◌, []};
ghost use Rattle.py_machine.specs.Runs.{Runs, Grows, Feeding};
ghost use Rattle.py_meaning.specs.Acts.{run};
ghost use Rattle.py_meaning.specs.Meaning.{level};
ghost use Rattle.py_meaning.specs.Meaning as spec;
ghost use Rattle.py_kernel.specs.Nests.{Evals, Execs};

use crate::below::Below;
use nb_outside::Feed;
use plain_data::{Boxed, Items, Text};
use py_heap::{Dict, Object};
use py_items::{fill, index, keys_from, slice};
use py_machine::{Fault, Flow, Machine};
use py_methods::{call_method, method_of};
use py_tree::{Expr, Pair, Stmt};
use py_value::Value;
use std::alloc::Global;

/// Dict displays, indexes, slices and methods.
impl<
    F: Feed,
    E: Fn(Global, u32, &mut Machine, &mut F, &Expr) -> Result<Value, Fault>,
    X: Fn(Global, u32, &mut Machine, &mut F, &Stmt) -> Result<Flow, Fault>,
> Below<F, E, X> {
    /// The keys and values of a dict display, from left to right.
    fn pairs(
        &self,
        machine: &mut Machine,
        feed: &mut F,
        pairs: &[Pair],
    ) -> Result<Items<(Value, Value)>, Fault>
        requires evals { Evals F.seen self.now.left (E.pre self.now.eval) (E.post self.now.eval) }
        requires execs { Execs F.seen self.now.left (X.pre self.now.exec) (X.post self.now.exec) }
        ensures runs { Runs (run (spec.pairs_from (level self.now.left) [] pairs.now)) machine.old result machine.new }
        ensures grows { Grows machine.old machine.new }
        ensures fed { Feeding machine.old.drawn (F.seen feed.old) machine.new.drawn (F.seen feed.new) }
    {
        let mut values = Items::new(self.alloc);
        for pair in pairs {
            let key = self.eval(machine, feed, &pair.key)?;
            let value = self.eval(machine, feed, &pair.value)?;
            values.push((key, value))?;
        }
        Ok(values)
    }

    /// Makes a dict: all keys and values are evaluated first.
    #[tactic(auto, unfolding(py_meaning::specs::Meaning::dict_display))]
    pub(crate) fn dict_display(
        &self,
        machine: &mut Machine,
        feed: &mut F,
        pairs: &[Pair],
    ) -> Result<Value, Fault>
        requires evals { Evals F.seen self.now.left (E.pre self.now.eval) (E.post self.now.eval) }
        requires execs { Execs F.seen self.now.left (X.pre self.now.exec) (X.post self.now.exec) }
        ensures runs { Runs (run (spec.dict_display (level self.now.left) pairs.now)) machine.old result machine.new }
        ensures grows { Grows machine.old machine.new }
        ensures fed { Feeding machine.old.drawn (F.seen feed.old) machine.new.drawn (F.seen feed.new) }
    {
        machine.step(self.alloc)?;
        let values = self.pairs(machine, feed, pairs)?;
        let pairs = keys_from(self.alloc, machine, values.as_slice())?;
        machine.charge(self.alloc, 1)?;
        let at = machine.add(Object::Dict(Dict::new(self.alloc)))?;
        fill(self.alloc, machine, at, pairs.as_slice())
    }

    /// The item of what an expression gives.
    #[tactic(auto, unfolding(py_meaning::specs::Meaning::index))]
    pub(crate) fn index(
        &self,
        machine: &mut Machine,
        feed: &mut F,
        value: &Expr,
        at: &Expr,
    ) -> Result<Value, Fault>
        requires evals { Evals F.seen self.now.left (E.pre self.now.eval) (E.post self.now.eval) }
        requires execs { Execs F.seen self.now.left (X.pre self.now.exec) (X.post self.now.exec) }
        ensures runs { Runs (run (spec.index (level self.now.left) value.now at.now)) machine.old result machine.new }
        ensures grows { Grows machine.old machine.new }
        ensures fed { Feeding machine.old.drawn (F.seen feed.old) machine.new.drawn (F.seen feed.new) }
    {
        machine.step(self.alloc)?;
        let container = self.eval(machine, feed, value)?;
        let key = self.eval(machine, feed, at)?;
        index(self.alloc, machine, &container, &key)
    }

    /// The value of an expression that may be left out.
    fn if_there(
        &self,
        machine: &mut Machine,
        feed: &mut F,
        expression: &Option<Boxed<Expr>>,
    ) -> Result<Option<Value>, Fault>
        requires evals { Evals F.seen self.now.left (E.pre self.now.eval) (E.post self.now.eval) }
        requires execs { Execs F.seen self.now.left (X.pre self.now.exec) (X.post self.now.exec) }
        ensures runs { Runs (run (spec.if_there (level self.now.left) expression.now)) machine.old result machine.new }
        ensures grows { Grows machine.old machine.new }
        ensures fed { Feeding machine.old.drawn (F.seen feed.old) machine.new.drawn (F.seen feed.new) }
    {
        match expression {
            Some(expression) => Ok(Some(self.eval(machine, feed, expression.get())?)),
            None => Ok(None),
        }
    }

    /// A slice of what an expression gives.
    #[tactic(auto, unfolding(py_meaning::specs::Meaning::slice))]
    pub(crate) fn slice(
        &self,
        machine: &mut Machine,
        feed: &mut F,
        value: &Expr,
        from: &Option<Boxed<Expr>>,
        to: &Option<Boxed<Expr>>,
    ) -> Result<Value, Fault>
        requires evals { Evals F.seen self.now.left (E.pre self.now.eval) (E.post self.now.eval) }
        requires execs { Execs F.seen self.now.left (X.pre self.now.exec) (X.post self.now.exec) }
        ensures runs { Runs (run (spec.slice (level self.now.left) value.now from.now to.now)) machine.old result machine.new }
        ensures grows { Grows machine.old machine.new }
        ensures fed { Feeding machine.old.drawn (F.seen feed.old) machine.new.drawn (F.seen feed.new) }
    {
        machine.step(self.alloc)?;
        let container = self.eval(machine, feed, value)?;
        let first = self.if_there(machine, feed, from)?;
        let past = self.if_there(machine, feed, to)?;
        slice(self.alloc, machine, &container, &first, &past)
    }

    /// Calls a method. It is looked for before its arguments are evaluated.
    #[tactic(auto, unfolding(py_meaning::specs::Meaning::method))]
    pub(crate) fn method(
        &self,
        machine: &mut Machine,
        feed: &mut F,
        value: &Expr,
        name: &Text,
        args: &[Expr],
    ) -> Result<Value, Fault>
        requires evals { Evals F.seen self.now.left (E.pre self.now.eval) (E.post self.now.eval) }
        requires execs { Execs F.seen self.now.left (X.pre self.now.exec) (X.post self.now.exec) }
        ensures runs { Runs (run (spec.method (level self.now.left) value.now name.now args.now)) machine.old result machine.new }
        ensures grows { Grows machine.old machine.new }
        ensures fed { Feeding machine.old.drawn (F.seen feed.old) machine.new.drawn (F.seen feed.new) }
    {
        machine.step(self.alloc)?;
        let object = self.eval(machine, feed, value)?;
        let found = method_of(self.alloc, machine, &object, name)?;
        let values = self.items(machine, feed, args)?;
        call_method(self.alloc, machine, &found, values.as_slice())
    }
}
