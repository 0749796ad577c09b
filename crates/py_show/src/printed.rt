ghost use Rattle.std.specs.Prelude.{◌≡◌, List, ℕ, [], Some, IfOk, drop};
ghost use Rattle.py_machine.specs.Runs.{Still};
ghost use Rattle.py_meaning.specs.Acts.{run};
ghost use Rattle.py_meaning.specs.Meaning.{level};
ghost use Rattle.py_meaning.specs.Meaning as kernel;
ghost use Rattle.py_meaning.specs.Operators.{made_text};
ghost use Rattle.py_meaning.specs.Shown as meaning;
ghost use Rattle.py_show.specs.Limits.{limited};
ghost use Rattle.py_show.specs.OnState as spec;
ghost use Rattle.py_show.specs.Uses.{Gives, GivesText, PutsOn, Charges};

use crate::limited::Limited;
use crate::shown::{put_repr, put_written, write_first};
use plain_data::{SharedText, Text};
use py_heap::State;
use py_machine::{Fault, Machine, memory_error, recursion_error};
use py_value::Value;
use std::alloc::Global;

/// The levels that are left for what a cell's result shows.
const RESULT_LEVELS: u32 = 798;

/// What a value shows (its `repr`), with `left` levels left.
pub fn repr_of(
    alloc: Global,
    left: u32,
    machine: &mut Machine,
    value: &Value,
) -> Result<Limited, Fault>
    ensures shows { GivesText (run (meaning.shown left [] [] value.now)) machine.old result machine.new }
    ensures drawn { machine.new.drawn ≡ machine.old.drawn }
{
    let mut out = Limited::new(alloc)?;
    put_repr(
        alloc,
        left,
        &machine.state,
        &mut machine.steps,
        value,
        &mut out,
    )?;
    Ok(out)
}

/// What `print` writes of a value (its `str`), with `left` levels left.
pub fn written_of(
    alloc: Global,
    left: u32,
    machine: &mut Machine,
    value: &Value,
) -> Result<Limited, Fault>
    ensures shows { GivesText (run (meaning.written left value.now)) machine.old result machine.new }
    ensures drawn { machine.new.drawn ≡ machine.old.drawn }
{
    let mut out = Limited::new(alloc)?;
    put_written(
        alloc,
        left,
        &machine.state,
        &mut machine.steps,
        value,
        &mut out,
    )?;
    Ok(out)
}

/// The text of an output, charged by its bytes. One that is too long to be kept is past every meter.
pub fn charge_shown(alloc: Global, machine: &mut Machine, out: Limited) -> Result<Text, Fault>
    ensures runs { Charges out machine.old result machine.new }
    ensures text { IfOk result (λ text. out ≡ Some text) }
    ensures drawn { machine.new.drawn ≡ machine.old.drawn }
{
    match out.into_text() {
        Some(text) => {
            machine.charge(alloc, text.len() as u64)?;
            Ok(text)
        }
        None => Err(Fault::Raised(memory_error(alloc)?)),
    }
}

/// A text that is made of an output, charged by its bytes.
#[tactic(auto, unfolding(py_meaning::specs::Operators::made_text))]
fn made_of(alloc: Global, machine: &mut Machine, out: Limited) -> Result<Value, Fault>
    ensures runs { (bytes : List ℕ) → limited bytes ≡ out → Still (run (made_text bytes)) machine.old result machine.new }
    ensures drawn { machine.new.drawn ≡ machine.old.drawn }
{
    let text = charge_shown(alloc, machine, out)?;
    Ok(Value::Text(SharedText::new(alloc, text)?))
}

/// Puts the texts of values, a space before each, and a line feed.
fn put_words(
    alloc: Global,
    left: u32,
    state: &State,
    steps: &mut u32,
    values: &[Value],
    out: &mut Limited,
) -> Result<(), Fault>
    ensures { Gives (spec.words state.now left values.now) out.old steps.old result out.new steps.new }
{
    for value in values {
        out.push_str(" ")?;
        write_first(alloc, left, state, steps, value, out)?;
    }
    out.push_str("\n")?;
    Ok(())
}

/// Puts a line of the texts of values.
fn put_line(
    alloc: Global,
    left: u32,
    state: &State,
    steps: &mut u32,
    values: &[Value],
    out: &mut Limited,
) -> Result<(), Fault>
    ensures { Gives (spec.line state.now left values.now) out.old steps.old result out.new steps.new }
{
    match values {
        [first, rest @ ..] => {
            write_first(alloc, left, state, steps, first, out)?;
            put_words(alloc, left, state, steps, rest, out)
        }
        [] => {
            out.push_str("\n")?;
            Ok(())
        }
    }
}

/// A line of the texts of values.
fn line_of(
    alloc: Global,
    left: u32,
    machine: &mut Machine,
    values: &[Value],
) -> Result<Limited, Fault>
    ensures shows { GivesText (run (kernel.line (level left) values.now)) machine.old result machine.new }
    ensures drawn { machine.new.drawn ≡ machine.old.drawn }
{
    let mut out = Limited::new(alloc)?;
    put_line(
        alloc,
        left,
        &machine.state,
        &mut machine.steps,
        values,
        &mut out,
    )?;
    Ok(out)
}

/// Prints a line of the texts of values, charged by its bytes. The values are one level below the call.
pub fn print_line(
    alloc: Global,
    left: u32,
    machine: &mut Machine,
    values: &[Value],
) -> Result<Value, Fault>
    ensures runs { Still (run (kernel.print (level left) values.now)) machine.old result machine.new }
    ensures drawn { machine.new.drawn ≡ machine.old.drawn }
{
    let line = line_of(alloc, left, machine, values)?;
    let text = charge_shown(alloc, machine, line)?;
    machine.write(text.as_str())?;
    Ok(Value::Nothing)
}

/// The `str` of a text, which is the same text, with a step. Its bytes aren't copied.
fn text_str(
    alloc: Global,
    left: u32,
    machine: &mut Machine,
    text: &SharedText,
) -> Result<Value, Fault>
    ensures runs { Still (run (kernel.str (level left) (Value.Text text.now))) machine.old result machine.new }
    ensures drawn { machine.new.drawn ≡ machine.old.drawn }
{
    if left == 0 {
        return Err(Fault::Raised(recursion_error(alloc)?));
    }
    machine.step(alloc)?;
    Ok(Value::Text(text.share()?))
}

/// The `str` of a value, which is one level below the call. A text that is made is charged by its bytes.
pub fn str_value(
    alloc: Global,
    left: u32,
    machine: &mut Machine,
    value: &Value,
) -> Result<Value, Fault>
    ensures runs { Still (run (kernel.str (level left) value.now)) machine.old result machine.new }
    ensures drawn { machine.new.drawn ≡ machine.old.drawn }
{
    match value {
        Value::Text(text) => text_str(alloc, left, machine, text),
        _ => {
            let out = written_of(alloc, left, machine, value)?;
            made_of(alloc, machine, out)
        }
    }
}

/// The `repr` of a value, which is one level below the call, charged by its bytes.
pub fn repr_value(
    alloc: Global,
    left: u32,
    machine: &mut Machine,
    value: &Value,
) -> Result<Value, Fault>
    ensures runs { Still (run (kernel.repr (level left) value.now)) machine.old result machine.new }
    ensures drawn { machine.new.drawn ≡ machine.old.drawn }
{
    let out = repr_of(alloc, left, machine, value)?;
    made_of(alloc, machine, out)
}

/// The text of a cell's result, charged by its bytes.
pub fn result_text(
    alloc: Global,
    machine: &mut Machine,
    value: &Value,
) -> Result<Option<Text>, Fault>
    ensures runs { Still (run (kernel.result_text value.now)) machine.old result machine.new }
    ensures drawn { machine.new.drawn ≡ machine.old.drawn }
{
    let out = repr_of(alloc, RESULT_LEVELS, machine, value)?;
    Ok(Some(charge_shown(alloc, machine, out)?))
}
