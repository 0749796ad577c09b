ghost use Rattle.std.specs.Prelude.{◌≡◌, pos};
ghost use Rattle.py_machine.specs.Runs.{Runs, Still, Grows, Feeding};
ghost use Rattle.py_meaning.specs.Acts.{run};
ghost use Rattle.py_meaning.specs.Meaning.{level};
ghost use Rattle.py_meaning.specs.Meaning as spec;
ghost use Rattle.py_kernel.specs.Nests.{Evals, Execs};

use crate::below::Below;
use nb_outside::Feed;
use py_builtins::{
    frame_of, handle_called, int_called, len_called, not_called, returned, tell_called,
};
use py_heap::{Function, Object};
use py_machine::{Fault, Flow, Machine, ValueKind, not_callable, range_elsewhere, wrong_number};
use py_show::{print_line, repr_value, str_value};
use py_tree::{Expr, Stmt};
use py_value::{Builtin, Value};
use std::alloc::Global;

/// The number that a word is.
fn word_value(word: u64) -> Value
    ensures { result ≡ Value.Number (pos word) }
{
    Value::Number(word as i128)
}

/// The feed's next word.
#[tactic(auto, unfolding(py_meaning::specs::Meaning::drawn))]
fn drawn<F: Feed>(machine: &mut Machine, feed: &mut F) -> Result<Value, Fault>
    ensures runs { Runs (run spec.drawn) machine.old result machine.new }
    ensures grows { Grows machine.old machine.new }
    ensures fed { Feeding machine.old.drawn (F.seen feed.old) machine.new.drawn (F.seen feed.new) }
{
    let word = machine.draw(feed)?;
    Ok(word_value(word))
}

fn draw_called<F: Feed>(
    alloc: Global,
    machine: &mut Machine,
    feed: &mut F,
    args: &[Value],
) -> Result<Value, Fault>
    ensures runs { Runs (run (spec.draw_called args.now)) machine.old result machine.new }
    ensures grows { Grows machine.old machine.new }
    ensures fed { Feeding machine.old.drawn (F.seen feed.old) machine.new.drawn (F.seen feed.new) }
{
    match args {
        [] => drawn(machine, feed),
        [_, ..] => Err(Fault::Raised(wrong_number(alloc, "draw")?)),
    }
}

impl<
    F: Feed,
    E: Fn(Global, u32, &mut Machine, &mut F, &Expr) -> Result<Value, Fault>,
    X: Fn(Global, u32, &mut Machine, &mut F, &Stmt) -> Result<Flow, Fault>,
> Below<F, E, X> {
    /// Prints a line of the texts of values.
    fn print(&self, machine: &mut Machine, values: &[Value]) -> Result<Value, Fault>
        ensures runs { Still (run (spec.print (level self.now.left) values.now)) machine.old result machine.new }
        ensures drawn { machine.new.drawn ≡ machine.old.drawn }
    {
        print_line(self.alloc, self.left, machine, values)
    }

    /// The `str` of a value. A text is itself: its bytes aren't copied.
    fn str(&self, machine: &mut Machine, value: &Value) -> Result<Value, Fault>
        ensures runs { Still (run (spec.str (level self.now.left) value.now)) machine.old result machine.new }
        ensures drawn { machine.new.drawn ≡ machine.old.drawn }
    {
        str_value(self.alloc, self.left, machine, value)
    }

    fn repr(&self, machine: &mut Machine, value: &Value) -> Result<Value, Fault>
        ensures runs { Still (run (spec.repr (level self.now.left) value.now)) machine.old result machine.new }
        ensures drawn { machine.new.drawn ≡ machine.old.drawn }
    {
        repr_value(self.alloc, self.left, machine, value)
    }

    fn str_called(&self, machine: &mut Machine, args: &[Value]) -> Result<Value, Fault>
        ensures runs { Still (run (spec.str_called (level self.now.left) args.now)) machine.old result machine.new }
        ensures drawn { machine.new.drawn ≡ machine.old.drawn }
    {
        match args {
            [value] => self.str(machine, value),
            _ => Err(Fault::Raised(wrong_number(self.alloc, "str")?)),
        }
    }

    fn repr_called(&self, machine: &mut Machine, args: &[Value]) -> Result<Value, Fault>
        ensures runs { Still (run (spec.repr_called (level self.now.left) args.now)) machine.old result machine.new }
        ensures drawn { machine.new.drawn ≡ machine.old.drawn }
    {
        match args {
            [value] => self.repr(machine, value),
            _ => Err(Fault::Raised(wrong_number(self.alloc, "repr")?)),
        }
    }

    fn builtin_called(
        &self,
        machine: &mut Machine,
        feed: &mut F,
        builtin: Builtin,
        args: &[Value],
    ) -> Result<Value, Fault>
        requires evals { Evals F.seen self.now.left (E.pre self.now.eval) (E.post self.now.eval) }
        requires execs { Execs F.seen self.now.left (X.pre self.now.exec) (X.post self.now.exec) }
        ensures runs { Runs (run (spec.builtin_called (level self.now.left) builtin args.now)) machine.old result machine.new }
        ensures grows { Grows machine.old machine.new }
        ensures fed { Feeding machine.old.drawn (F.seen feed.old) machine.new.drawn (F.seen feed.new) }
    {
        match builtin {
            Builtin::Print => self.print(machine, args),
            Builtin::Draw => draw_called(self.alloc, machine, feed, args),
            Builtin::Len => len_called(self.alloc, machine, args),
            Builtin::Str => self.str_called(machine, args),
            Builtin::Repr => self.repr_called(machine, args),
            Builtin::Int => int_called(self.alloc, machine, args),
            Builtin::Range => Err(Fault::Raised(range_elsewhere(self.alloc)?)),
            Builtin::Handle => handle_called(self.alloc, machine, args),
            Builtin::Tell => tell_called(self.alloc, machine, args),
        }
    }

    /// Runs the body of a function on a frame of its own.
    #[tactic(auto, unfolding(py_meaning::specs::Meaning::entered))]
    fn entered(
        &self,
        machine: &mut Machine,
        feed: &mut F,
        function: &Function,
        args: &[Value],
    ) -> Result<Value, Fault>
        requires evals { Evals F.seen self.now.left (E.pre self.now.eval) (E.post self.now.eval) }
        requires execs { Execs F.seen self.now.left (X.pre self.now.exec) (X.post self.now.exec) }
        ensures runs { Runs (run (spec.entered (level self.now.left) function.now args.now)) machine.old result machine.new }
        ensures grows { Grows machine.old machine.new }
        ensures fed { Feeding machine.old.drawn (F.seen feed.old) machine.new.drawn (F.seen feed.new) }
    {
        let outer = machine.enter(frame_of(self.alloc, function, args)?)?;
        let ended = self.block(machine, feed, function.def().body.as_slice())?;
        machine.leave(outer)?;
        Ok(returned(ended))
    }

    fn function_called(
        &self,
        machine: &mut Machine,
        feed: &mut F,
        function: &Function,
        args: &[Value],
    ) -> Result<Value, Fault>
        requires evals { Evals F.seen self.now.left (E.pre self.now.eval) (E.post self.now.eval) }
        requires execs { Execs F.seen self.now.left (X.pre self.now.exec) (X.post self.now.exec) }
        ensures runs { Runs (run (spec.function_called (level self.now.left) function.now args.now)) machine.old result machine.new }
        ensures grows { Grows machine.old machine.new }
        ensures fed { Feeding machine.old.drawn (F.seen feed.old) machine.new.drawn (F.seen feed.new) }
    {
        if args.len() == function.def().params.len() {
            self.entered(machine, feed, function, args)
        } else {
            let name = function.def().name.as_str();
            Err(Fault::Raised(wrong_number(self.alloc, name)?))
        }
    }

    #[tactic(auto, unfolding(py_meaning::specs::Meaning::ref_called, py_machine::specs::Runs::object_at))]
    fn ref_called(
        &self,
        machine: &mut Machine,
        feed: &mut F,
        at: u32,
        args: &[Value],
    ) -> Result<Value, Fault>
        requires evals { Evals F.seen self.now.left (E.pre self.now.eval) (E.post self.now.eval) }
        requires execs { Execs F.seen self.now.left (X.pre self.now.exec) (X.post self.now.exec) }
        ensures runs { Runs (run (spec.ref_called (level self.now.left) at args.now)) machine.old result machine.new }
        ensures grows { Grows machine.old machine.new }
        ensures fed { Feeding machine.old.drawn (F.seen feed.old) machine.new.drawn (F.seen feed.new) }
    {
        match machine.object_at(at) {
            Some(Object::Function(function)) => {
                let function = function.share()?;
                self.function_called(machine, feed, &function, args)
            }
            Some(Object::List(_)) => Err(Fault::Raised(not_callable(self.alloc, ValueKind::List)?)),
            Some(Object::Tuple(_)) => {
                Err(Fault::Raised(not_callable(self.alloc, ValueKind::Tuple)?))
            }
            Some(Object::Dict(_)) => Err(Fault::Raised(not_callable(self.alloc, ValueKind::Dict)?)),
            Some(Object::Handle { .. }) => {
                Err(Fault::Raised(not_callable(self.alloc, ValueKind::Handle)?))
            }
            None => Err(Fault::Raised(not_callable(self.alloc, ValueKind::Nothing)?)),
        }
    }

    pub(crate) fn called(
        &self,
        machine: &mut Machine,
        feed: &mut F,
        callee: &Value,
        args: &[Value],
    ) -> Result<Value, Fault>
        requires evals { Evals F.seen self.now.left (E.pre self.now.eval) (E.post self.now.eval) }
        requires execs { Execs F.seen self.now.left (X.pre self.now.exec) (X.post self.now.exec) }
        ensures runs { Runs (run (spec.called (level self.now.left) callee.now args.now)) machine.old result machine.new }
        ensures grows { Grows machine.old machine.new }
        ensures fed { Feeding machine.old.drawn (F.seen feed.old) machine.new.drawn (F.seen feed.new) }
    {
        match callee {
            Value::Builtin(builtin) => self.builtin_called(machine, feed, *builtin, args),
            Value::Ref(at) => self.ref_called(machine, feed, *at, args),
            Value::Nothing | Value::Bool(_) | Value::Number(_) | Value::Text(_) => {
                not_called(self.alloc, machine, callee)
            }
        }
    }

    /// Calls what an expression gives.
    #[tactic(auto, unfolding(py_meaning::specs::Meaning::call))]
    pub(crate) fn call(
        &self,
        machine: &mut Machine,
        feed: &mut F,
        callee: &Expr,
        args: &[Expr],
    ) -> Result<Value, Fault>
        requires evals { Evals F.seen self.now.left (E.pre self.now.eval) (E.post self.now.eval) }
        requires execs { Execs F.seen self.now.left (X.pre self.now.exec) (X.post self.now.exec) }
        ensures runs { Runs (run (spec.call (level self.now.left) callee.now args.now)) machine.old result machine.new }
        ensures grows { Grows machine.old machine.new }
        ensures fed { Feeding machine.old.drawn (F.seen feed.old) machine.new.drawn (F.seen feed.new) }
    {
        machine.step(self.alloc)?;
        let function = self.eval(machine, feed, callee)?;
        let values = self.items(machine, feed, args)?;
        self.called(machine, feed, &function, values.as_slice())
    }
}
