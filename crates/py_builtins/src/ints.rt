ghost use Rattle.std.specs.Prelude.{◌≡◌};
ghost use Rattle.py_value.specs.Numbers.{number_of as number_in};
ghost use Rattle.py_meaning.specs.Numbers.{as_number as number_as};
ghost use Rattle.py_machine.specs.Runs.{Still};
ghost use Rattle.py_meaning.specs.Acts.{run};
ghost use Rattle.py_meaning.specs.Meaning as spec;

use plain_data::SharedText;
use py_machine::{Fault, Machine, invalid_literal, overflow_error, wrong_argument, wrong_number};
use py_ops::as_number;
use py_value::{Key, NumberFault, Value, key_text, number_of};
use std::alloc::Global;

/// The number that a text spells.
fn number_read(alloc: Global, machine: &Machine, text: &SharedText) -> Result<Value, Fault>
    ensures { Still (run (spec.number_read text.now (number_in text.now))) machine.now result machine.now }
{
    match number_of(text.as_str()) {
        Ok(number) => Ok(Value::Number(number)),
        Err(NumberFault::Invalid) => {
            let shown = key_text(alloc, &Key::Text(text.share()?))?;
            Err(Fault::Raised(invalid_literal(alloc, &shown)?))
        }
        Err(NumberFault::Wide) => Err(Fault::Raised(overflow_error(alloc)?)),
    }
}

/// The number that a value spells, if the value isn't a number.
fn text_as_int(alloc: Global, machine: &Machine, value: &Value) -> Result<Value, Fault>
    ensures { Still (run (spec.text_as_int value.now)) machine.now result machine.now }
{
    match value {
        Value::Text(text) => number_read(alloc, machine, text),
        Value::Nothing | Value::Bool(_) | Value::Number(_) | Value::Ref(_) | Value::Builtin(_) =>
            Err(Fault::Raised(wrong_argument(alloc, "int")?)),
    }
}

/// A value as a number.
fn as_int(alloc: Global, machine: &Machine, value: &Value) -> Result<Value, Fault>
    ensures { Still (run (spec.as_int (number_as value.now) value.now)) machine.now result machine.now }
{
    match as_number(value) {
        Some(number) => Ok(Value::Number(number)),
        None => text_as_int(alloc, machine, value),
    }
}

/// `int` of its arguments: a number, a truth value, or a text that spells one. (Python reference: `int`.)
pub fn int_called(alloc: Global, machine: &Machine, args: &[Value]) -> Result<Value, Fault>
    ensures { Still (run (spec.int_called args.now)) machine.now result machine.now }
{
    match args {
        [value] => as_int(alloc, machine, value),
        _ => Err(Fault::Raised(wrong_number(alloc, "int")?)),
    }
}
