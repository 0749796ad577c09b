ghost use Rattle.std.specs.Prelude.{◌≡◌, ◌+◌, List, Some, length, is_some, slice_get};
ghost use Rattle.py_machine.specs.Changes.{list_in};
ghost use Rattle.py_machine.specs.Runs.{Runs, Still, Grows, Feeding};
ghost use Rattle.py_meaning.specs.Acts.{run, chain, list_at as list_act};
ghost use Rattle.py_tree.specs.declared.statements.Stmt.{out-Stmt};
ghost use Rattle.py_meaning.specs.Meaning.{level};
ghost use Rattle.py_meaning.specs.Meaning as spec;
ghost use Rattle.py_kernel.specs.Nests.{Evals, Execs};

use crate::below::Below;
use nb_outside::Feed;
use plain_data::{Shared, Text};
use py_heap::{Function, Object};
use py_items::{delete_item, index, store_item, unpack};
use py_machine::{Fault, Flow, Machine, recursion_error};
use py_methods::extend;
use py_ops::{binary, list_at, truth_of};
use py_tree::{Arm, Def, Expr, Op, Stmt, Target};
use py_value::Value;
use std::alloc::Global;

#[inline(always)]
fn text_units(value: &Value) -> u64
    ensures { result ≡ spec.text_units value.now }
{
    match value {
        Value::Text(text) => text.as_str().len() as u64,
        Value::Nothing | Value::Bool(_) | Value::Number(_) | Value::Ref(_) | Value::Builtin(_) => 0,
    }
}

/// Binds a name. A text that a global name is bound to is charged by its bytes.
#[inline(always)]
#[tactic(auto, unfolding(py_meaning::specs::Meaning::store))]
fn store(alloc: Global, machine: &mut Machine, name: &Text, value: Value) -> Result<(), Fault>
    ensures runs { Still (run (spec.store name.now value)) machine.old result machine.new }
    ensures drawn { machine.new.drawn ≡ machine.old.drawn }
{
    if machine.is_local(name) {
        machine.bind(alloc, name, value)
    } else {
        machine.charge(alloc, text_units(&value))?;
        machine.bind(alloc, name, value)
    }
}

/// Gives each name its value, from left to right.
fn store_names(
    alloc: Global,
    machine: &mut Machine,
    names: &[Text],
    values: &[Value],
) -> Result<(), Fault>
    ensures runs { Still (run (spec.names_stored names.entry.now values.entry.now)) machine.old result machine.new }
    ensures drawn { machine.new.drawn ≡ machine.old.drawn }
{
    let mut ahead = names;
    let mut rest = values;
    while let [name, more @ ..] = ahead {
        match rest {
            [value, others @ ..] => {
                store(alloc, machine, name, value.copy()?)?;
                ahead = more;
                rest = others;
            }
            [] => return Ok(()),
        }
    }
    Ok(())
}

/// Gives a value to a name by itself, or unpacks it, if a comma stands among the names.
#[inline(always)]
pub(crate) fn give_names(
    alloc: Global,
    machine: &mut Machine,
    comma: bool,
    names: &[Text],
    value: Value,
) -> Result<(), Fault>
    ensures runs { Still (run (spec.names_given comma names.now value)) machine.old result machine.new }
    ensures drawn { machine.new.drawn ≡ machine.old.drawn }
{
    if comma {
        let values = unpack(alloc, machine, names.len(), &value)?;
        return store_names(alloc, machine, names, values.as_slice());
    }
    match names {
        [name, ..] => store(alloc, machine, name, value),
        [] => Ok(()),
    }
}

/// Whether a list is at the address.
fn is_list(machine: &Machine, at: u32) -> bool
    ensures { result ≡ is_some (list_in (slice_get machine.now.state.heap at)) }
{
    matches!(machine.object_at(at), Some(Object::List(_)))
}

/// Extends the list at `a` itself by the items of the list at `b` as they are. If that isn't a list, adds it.
fn list_added(alloc: Global, machine: &mut Machine, a: u32, b: u32) -> Result<Value, Fault>
    ensures runs { (items : List Value) → Still (run (chain (list_act b) (spec.extended a b (Some items)))) machine.old result machine.new }
    ensures drawn { machine.new.drawn ≡ machine.old.drawn }
{
    match list_at(alloc, machine, b)? {
        Some(more) => {
            extend(alloc, machine, a, more)?;
            Ok(Value::Ref(a))
        }
        None => binary(alloc, machine, Op::Plus, &Value::Ref(a), &Value::Ref(b)),
    }
}

/// Extends a list itself by the items of another as they are, or adds what isn't two lists. The list isn't copied.
fn refs_added(alloc: Global, machine: &mut Machine, a: u32, b: u32) -> Result<Value, Fault>
    ensures runs { Still (run (spec.refs_added a b)) machine.old result machine.new }
    ensures drawn { machine.new.drawn ≡ machine.old.drawn }
{
    if is_list(machine, a) {
        list_added(alloc, machine, a, b)
    } else {
        binary(alloc, machine, Op::Plus, &Value::Ref(a), &Value::Ref(b))
    }
}

/// Deletes a name.
#[tactic(auto, unfolding(py_meaning::specs::Meaning::delete))]
fn delete(alloc: Global, machine: &mut Machine, name: &Text) -> Result<Flow, Fault>
    ensures runs { Still (run (spec.delete name.now)) machine.old result machine.new }
    ensures drawn { machine.new.drawn ≡ machine.old.drawn }
{
    machine.step(alloc)?;
    machine.seek(alloc, name)?;
    machine.unbind(alloc, name)?;
    Ok(Flow::Next)
}

/// The units of a function's source, and 1 more.
fn source_units(def: &Def) -> u64
    ensures { result ≡ 1 + length def.now.source }
{
    1 + def.source.as_str().len() as u64
}

/// Makes a function, and binds its name.
#[tactic(auto, unfolding(py_meaning::specs::Meaning::define))]
fn define(alloc: Global, machine: &mut Machine, def: &Shared<Def>) -> Result<Flow, Fault>
    ensures runs { Still (run (spec.define def.now)) machine.old result machine.new }
    ensures drawn { machine.new.drawn ≡ machine.old.drawn }
{
    machine.step(alloc)?;
    machine.charge(alloc, source_units(def.get()))?;
    let function = Function::new(alloc, def.share()?)?;
    let at = machine.add(Object::Function(function))?;
    machine.bind(alloc, &def.get().name, Value::Ref(at))?;
    Ok(Flow::Next)
}

/// What an augmented assignment stores.
#[inline(always)]
fn augmented(
    alloc: Global,
    machine: &mut Machine,
    op: Op,
    left: &Value,
    right: &Value,
) -> Result<Value, Fault>
    ensures runs { Still (run (spec.augmented op left.now right.now)) machine.old result machine.new }
    ensures drawn { machine.new.drawn ≡ machine.old.drawn }
{
    match (op, left, right) {
        (Op::Plus, Value::Ref(a), Value::Ref(b)) => refs_added(alloc, machine, *a, *b),
        _ => binary(alloc, machine, op, left, right),
    }
}

impl<
    F: Feed,
    E: Copy + Fn(Global, u32, &mut Machine, &mut F, &Expr) -> Result<Value, Fault>,
    X: Copy + Fn(Global, u32, &mut Machine, &mut F, &Stmt) -> Result<Flow, Fault>,
> Below<F, E, X> {
    /// Stores a value as an item of what an expression gives.
    #[tactic(auto, unfolding(py_meaning::specs::Meaning::stored_in_item))]
    fn store_in_item(
        &self,
        machine: &mut Machine,
        feed: &mut F,
        on: &Expr,
        at: &Expr,
        value: Value,
    ) -> Result<(), Fault>
        requires evals { Evals F.seen self.now.left (E.pre self.now.eval) (E.post self.now.eval) }
        requires execs { Execs F.seen self.now.left (X.pre self.now.exec) (X.post self.now.exec) }
        ensures runs { Runs (run (spec.stored_in_item (level self.now.left) on.now at.now value)) machine.old result machine.new }
        ensures grows { Grows machine.old machine.new }
        ensures fed { Feeding machine.old.drawn (F.seen feed.old) machine.new.drawn (F.seen feed.new) }
    {
        let container = self.eval(machine, feed, on)?;
        let key = self.eval(machine, feed, at)?;
        store_item(self.alloc, machine, &container, &key, value)
    }

    /// Stores a value in a target.
    fn store_in(
        &self,
        machine: &mut Machine,
        feed: &mut F,
        target: &Target,
        value: Value,
    ) -> Result<(), Fault>
        requires evals { Evals F.seen self.now.left (E.pre self.now.eval) (E.post self.now.eval) }
        requires execs { Execs F.seen self.now.left (X.pre self.now.exec) (X.post self.now.exec) }
        ensures runs { Runs (run (spec.stored (level self.now.left) target.now value)) machine.old result machine.new }
        ensures grows { Grows machine.old machine.new }
        ensures fed { Feeding machine.old.drawn (F.seen feed.old) machine.new.drawn (F.seen feed.new) }
    {
        match target {
            Target::Name(name) => store(self.alloc, machine, name, value),
            Target::Item { value: on, at } => self.store_in_item(machine, feed, on, at, value),
        }
    }

    /// Stores each value in its target, from left to right.
    fn store_all(
        &self,
        machine: &mut Machine,
        feed: &mut F,
        targets: &[Target],
        values: &[Value],
    ) -> Result<(), Fault>
        requires evals { Evals F.seen self.now.left (E.pre self.now.eval) (E.post self.now.eval) }
        requires execs { Execs F.seen self.now.left (X.pre self.now.exec) (X.post self.now.exec) }
        ensures runs { Runs (run (spec.all_stored (level self.now.left) targets.entry.now values.entry.now)) machine.old result machine.new }
        ensures grows { Grows machine.old machine.new }
        ensures fed { Feeding machine.old.drawn (F.seen feed.old) machine.new.drawn (F.seen feed.new) }
    {
        let mut ahead = targets;
        let mut rest = values;
        while let [target, more @ ..] = ahead {
            match rest {
                [value, others @ ..] => {
                    self.store_in(machine, feed, target, value.copy()?)?;
                    ahead = more;
                    rest = others;
                }
                [] => return Ok(()),
            }
        }
        Ok(())
    }

    /// Gives a value to a target by itself, or unpacks it, if a comma stands among the targets.
    fn give(
        &self,
        machine: &mut Machine,
        feed: &mut F,
        comma: bool,
        targets: &[Target],
        value: Value,
    ) -> Result<(), Fault>
        requires evals { Evals F.seen self.now.left (E.pre self.now.eval) (E.post self.now.eval) }
        requires execs { Execs F.seen self.now.left (X.pre self.now.exec) (X.post self.now.exec) }
        ensures runs { Runs (run (spec.given (level self.now.left) comma targets.now value)) machine.old result machine.new }
        ensures grows { Grows machine.old machine.new }
        ensures fed { Feeding machine.old.drawn (F.seen feed.old) machine.new.drawn (F.seen feed.new) }
    {
        if comma {
            let values = unpack(self.alloc, machine, targets.len(), &value)?;
            return self.store_all(machine, feed, targets, values.as_slice());
        }
        match targets {
            [target, ..] => self.store_in(machine, feed, target, value),
            [] => Ok(()),
        }
    }

    /// Assigns to targets. The value is evaluated first.
    #[tactic(auto, unfolding(py_meaning::specs::Meaning::assign))]
    fn assign(
        &self,
        machine: &mut Machine,
        feed: &mut F,
        targets: &[Target],
        comma: bool,
        value: &Expr,
    ) -> Result<Flow, Fault>
        requires evals { Evals F.seen self.now.left (E.pre self.now.eval) (E.post self.now.eval) }
        requires execs { Execs F.seen self.now.left (X.pre self.now.exec) (X.post self.now.exec) }
        ensures runs { Runs (run (spec.assign (level self.now.left) targets.now comma value.now)) machine.old result machine.new }
        ensures grows { Grows machine.old machine.new }
        ensures fed { Feeding machine.old.drawn (F.seen feed.old) machine.new.drawn (F.seen feed.new) }
    {
        machine.step(self.alloc)?;
        let given = self.eval(machine, feed, value)?;
        self.give(machine, feed, comma, targets, given)?;
        Ok(Flow::Next)
    }

    /// Counts the target of an augmented assignment, or a call that is the source of a `for`, as an expression.
    #[tactic(auto, unfolding(py_meaning::specs::Meaning::as_expression))]
    pub(crate) fn as_expression(&self, machine: &mut Machine) -> Result<(), Fault>
        ensures runs { Still (run (spec.as_expression (level self.now.left))) machine.old result machine.new }
        ensures drawn { machine.new.drawn ≡ machine.old.drawn }
    {
        if self.is_last() {
            return Err(Fault::Raised(recursion_error(self.alloc)?));
        }
        machine.step(self.alloc)
    }

    #[tactic(auto, unfolding(py_meaning::specs::Meaning::augment))]
    fn augment(
        &self,
        machine: &mut Machine,
        feed: &mut F,
        name: &Text,
        op: Op,
        value: &Expr,
    ) -> Result<Flow, Fault>
        requires evals { Evals F.seen self.now.left (E.pre self.now.eval) (E.post self.now.eval) }
        requires execs { Execs F.seen self.now.left (X.pre self.now.exec) (X.post self.now.exec) }
        ensures runs { Runs (run (spec.augment (level self.now.left) name.now op value.now)) machine.old result machine.new }
        ensures grows { Grows machine.old machine.new }
        ensures fed { Feeding machine.old.drawn (F.seen feed.old) machine.new.drawn (F.seen feed.new) }
    {
        machine.step(self.alloc)?;
        self.as_expression(machine)?;
        let held = machine.look(self.alloc, name)?;
        let right = self.eval(machine, feed, value)?;
        let new = augmented(self.alloc, machine, op, &held, &right)?;
        store(self.alloc, machine, name, new)?;
        Ok(Flow::Next)
    }

    /// Augments an item. What the item is of, and its index, are evaluated once.
    #[tactic(auto, unfolding(py_meaning::specs::Meaning::augment_item))]
    fn augment_item(
        &self,
        machine: &mut Machine,
        feed: &mut F,
        on: &Expr,
        at: &Expr,
        op: Op,
        value: &Expr,
    ) -> Result<Flow, Fault>
        requires evals { Evals F.seen self.now.left (E.pre self.now.eval) (E.post self.now.eval) }
        requires execs { Execs F.seen self.now.left (X.pre self.now.exec) (X.post self.now.exec) }
        ensures runs { Runs (run (spec.augment_item (level self.now.left) on.now at.now op value.now)) machine.old result machine.new }
        ensures grows { Grows machine.old machine.new }
        ensures fed { Feeding machine.old.drawn (F.seen feed.old) machine.new.drawn (F.seen feed.new) }
    {
        machine.step(self.alloc)?;
        self.as_expression(machine)?;
        let container = self.deeper(machine, feed, on)?;
        let key = self.deeper(machine, feed, at)?;
        let held = index(self.alloc, machine, &container, &key)?;
        let right = self.eval(machine, feed, value)?;
        let new = augmented(self.alloc, machine, op, &held, &right)?;
        store_item(self.alloc, machine, &container, &key, new)?;
        Ok(Flow::Next)
    }

    fn augment_at(
        &self,
        machine: &mut Machine,
        feed: &mut F,
        target: &Target,
        op: Op,
        value: &Expr,
    ) -> Result<Flow, Fault>
        requires evals { Evals F.seen self.now.left (E.pre self.now.eval) (E.post self.now.eval) }
        requires execs { Execs F.seen self.now.left (X.pre self.now.exec) (X.post self.now.exec) }
        ensures runs { Runs (run (spec.augment_at (level self.now.left) target.now op value.now)) machine.old result machine.new }
        ensures grows { Grows machine.old machine.new }
        ensures fed { Feeding machine.old.drawn (F.seen feed.old) machine.new.drawn (F.seen feed.new) }
    {
        match target {
            Target::Name(name) => self.augment(machine, feed, name, op, value),
            Target::Item { value: on, at } => {
                self.augment_item(machine, feed, on, at, op, value)
            }
        }
    }

    /// Deletes an item.
    #[tactic(auto, unfolding(py_meaning::specs::Meaning::delete_item))]
    fn delete_item(
        &self,
        machine: &mut Machine,
        feed: &mut F,
        on: &Expr,
        at: &Expr,
    ) -> Result<Flow, Fault>
        requires evals { Evals F.seen self.now.left (E.pre self.now.eval) (E.post self.now.eval) }
        requires execs { Execs F.seen self.now.left (X.pre self.now.exec) (X.post self.now.exec) }
        ensures runs { Runs (run (spec.delete_item (level self.now.left) on.now at.now)) machine.old result machine.new }
        ensures grows { Grows machine.old machine.new }
        ensures fed { Feeding machine.old.drawn (F.seen feed.old) machine.new.drawn (F.seen feed.new) }
    {
        machine.step(self.alloc)?;
        let container = self.eval(machine, feed, on)?;
        let key = self.eval(machine, feed, at)?;
        delete_item(self.alloc, machine, &container, &key)?;
        Ok(Flow::Next)
    }

    fn deleted(&self, machine: &mut Machine, feed: &mut F, target: &Target) -> Result<Flow, Fault>
        requires evals { Evals F.seen self.now.left (E.pre self.now.eval) (E.post self.now.eval) }
        requires execs { Execs F.seen self.now.left (X.pre self.now.exec) (X.post self.now.exec) }
        ensures runs { Runs (run (spec.deleted (level self.now.left) target.now)) machine.old result machine.new }
        ensures grows { Grows machine.old machine.new }
        ensures fed { Feeding machine.old.drawn (F.seen feed.old) machine.new.drawn (F.seen feed.new) }
    {
        match target {
            Target::Name(name) => delete(self.alloc, machine, name),
            Target::Item { value: on, at } => self.delete_item(machine, feed, on, at),
        }
    }

    fn show(&self, machine: &mut Machine, feed: &mut F, value: &Expr) -> Result<Flow, Fault>
        requires evals { Evals F.seen self.now.left (E.pre self.now.eval) (E.post self.now.eval) }
        requires execs { Execs F.seen self.now.left (X.pre self.now.exec) (X.post self.now.exec) }
        ensures runs { Runs (run (spec.show (level self.now.left) value.now)) machine.old result machine.new }
        ensures grows { Grows machine.old machine.new }
        ensures fed { Feeding machine.old.drawn (F.seen feed.old) machine.new.drawn (F.seen feed.new) }
    {
        machine.step(self.alloc)?;
        let _value = self.eval(machine, feed, value)?;
        Ok(Flow::Next)
    }

    fn return_(
        &self,
        machine: &mut Machine,
        feed: &mut F,
        value: &Option<Expr>,
    ) -> Result<Flow, Fault>
        requires evals { Evals F.seen self.now.left (E.pre self.now.eval) (E.post self.now.eval) }
        requires execs { Execs F.seen self.now.left (X.pre self.now.exec) (X.post self.now.exec) }
        ensures runs { Runs (run (spec.return (level self.now.left) value.now)) machine.old result machine.new }
        ensures grows { Grows machine.old machine.new }
        ensures fed { Feeding machine.old.drawn (F.seen feed.old) machine.new.drawn (F.seen feed.new) }
    {
        machine.step(self.alloc)?;
        match value {
            Some(value) => Ok(Flow::Return(self.eval(machine, feed, value)?)),
            None => Ok(Flow::Return(Value::Nothing)),
        }
    }

    /// Executes the block after the first test that counts as true, or else the last.
    fn arms(
        &self,
        machine: &mut Machine,
        feed: &mut F,
        arms: &[Arm],
        other: &[Stmt],
    ) -> Result<Flow, Fault>
        requires evals { Evals F.seen self.now.left (E.pre self.now.eval) (E.post self.now.eval) }
        requires execs { Execs F.seen self.now.left (X.pre self.now.exec) (X.post self.now.exec) }
        ensures runs { Runs (run (spec.arms (level self.now.left) arms.now other.now)) machine.old result machine.new }
        ensures grows { Grows machine.old machine.new }
        ensures fed { Feeding machine.old.drawn (F.seen feed.old) machine.new.drawn (F.seen feed.new) }
    {
        for arm in arms {
            let test = self.eval(machine, feed, &arm.test)?;
            if truth_of(machine, &test)? {
                return self.block(machine, feed, arm.body.as_slice());
            }
        }
        self.block(machine, feed, other)
    }

    /// Executes a statement.
    pub(crate) fn statement(
        &self,
        machine: &mut Machine,
        feed: &mut F,
        statement: &Stmt,
    ) -> Result<Flow, Fault>
        requires evals { Evals F.seen self.now.left (E.pre self.now.eval) (E.post self.now.eval) }
        requires execs { Execs F.seen self.now.left (X.pre self.now.exec) (X.post self.now.exec) }
        ensures runs { Runs (run (spec.statement (level self.now.left) (out-Stmt statement.now))) machine.old result machine.new }
        ensures grows { Grows machine.old machine.new }
        ensures fed { Feeding machine.old.drawn (F.seen feed.old) machine.new.drawn (F.seen feed.new) }
    {
        match statement {
            Stmt::Pass | Stmt::Global(_) => {
                machine.step(self.alloc)?;
                Ok(Flow::Next)
            }
            Stmt::Break => {
                machine.step(self.alloc)?;
                Ok(Flow::Break)
            }
            Stmt::Continue => {
                machine.step(self.alloc)?;
                Ok(Flow::Continue)
            }
            Stmt::Return(value) => self.return_(machine, feed, value),
            Stmt::Delete(target) => self.deleted(machine, feed, target),
            Stmt::Assign {
                targets,
                comma,
                value,
            } => self.assign(machine, feed, targets.as_slice(), *comma, value),
            Stmt::Augment { target, op, value } => {
                self.augment_at(machine, feed, target, *op, value)
            }
            Stmt::Expression(value) => self.show(machine, feed, value),
            Stmt::If { arms, other } => {
                machine.step(self.alloc)?;
                self.arms(machine, feed, arms.as_slice(), other.as_slice())
            }
            Stmt::While { test, body } => self.repeat(machine, feed, test, body.as_slice()),
            Stmt::For {
                names,
                comma,
                iterable,
                body,
            } => {
                let names = names.as_slice();
                self.for_each(machine, feed, names, *comma, iterable, body.as_slice())
            }
            Stmt::Function(def) => define(self.alloc, machine, def),
        }
    }
}
