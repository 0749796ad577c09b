ghost use Rattle.std.specs.Prelude.{◌≡◌};
ghost use Rattle.py_machine.specs.Runs.{Still};
ghost use Rattle.py_meaning.specs.Acts.{run};
ghost use Rattle.py_meaning.specs.Methods as spec;

use crate::dicts::{get, pop_key};
use crate::lists::{append, clear, extend_with, insert_at, pop_at, pop_number};
use crate::split::split;
use crate::texts::{ends_with, join, starts_with};
use plain_data::SharedText;
use py_machine::{BoundMethod, DictMethod, Fault, ListMethod, Machine, TextMethod, wrong_number};
use py_ops::Signed;
use py_value::Value;
use std::alloc::Global;

fn list_append(
    alloc: Global,
    machine: &mut Machine,
    at: u32,
    args: &[Value],
) -> Result<Value, Fault>
    ensures runs { Still (run (spec.list_method ListMethod.Append at args.now)) machine.old result machine.new }
    ensures drawn { machine.new.drawn ≡ machine.old.drawn }
{
    match args {
        [] => Err(Fault::Raised(wrong_number(alloc, "append")?)),
        [value] => append(alloc, machine, at, value),
        [_, _, ..] => Err(Fault::Raised(wrong_number(alloc, "append")?)),
    }
}

fn list_insert(
    alloc: Global,
    machine: &mut Machine,
    at: u32,
    args: &[Value],
) -> Result<Value, Fault>
    ensures runs { Still (run (spec.list_method ListMethod.Insert at args.now)) machine.old result machine.new }
    ensures drawn { machine.new.drawn ≡ machine.old.drawn }
{
    match args {
        [] => Err(Fault::Raised(wrong_number(alloc, "insert")?)),
        [_] => Err(Fault::Raised(wrong_number(alloc, "insert")?)),
        [index, value] => insert_at(alloc, machine, at, index, value),
        [_, _, _, ..] => Err(Fault::Raised(wrong_number(alloc, "insert")?)),
    }
}

fn list_pop(alloc: Global, machine: &mut Machine, at: u32, args: &[Value]) -> Result<Value, Fault>
    ensures runs { Still (run (spec.list_method ListMethod.Pop at args.now)) machine.old result machine.new }
    ensures drawn { machine.new.drawn ≡ machine.old.drawn }
{
    match args {
        [] => pop_at(alloc, machine, at, Signed::Negative(0)),
        [index] => pop_number(alloc, machine, at, index),
        [_, _, ..] => Err(Fault::Raised(wrong_number(alloc, "pop")?)),
    }
}

fn list_extend(
    alloc: Global,
    machine: &mut Machine,
    at: u32,
    args: &[Value],
) -> Result<Value, Fault>
    ensures runs { Still (run (spec.list_method ListMethod.Extend at args.now)) machine.old result machine.new }
    ensures drawn { machine.new.drawn ≡ machine.old.drawn }
{
    match args {
        [] => Err(Fault::Raised(wrong_number(alloc, "extend")?)),
        [more] => extend_with(alloc, machine, at, more),
        [_, _, ..] => Err(Fault::Raised(wrong_number(alloc, "extend")?)),
    }
}

fn list_clear(alloc: Global, machine: &mut Machine, at: u32, args: &[Value]) -> Result<Value, Fault>
    ensures runs { Still (run (spec.list_method ListMethod.Clear at args.now)) machine.old result machine.new }
    ensures drawn { machine.new.drawn ≡ machine.old.drawn }
{
    match args {
        [] => clear(machine, at),
        [_, ..] => Err(Fault::Raised(wrong_number(alloc, "clear")?)),
    }
}

fn list_method(
    alloc: Global,
    machine: &mut Machine,
    method: ListMethod,
    at: u32,
    args: &[Value],
) -> Result<Value, Fault>
    ensures runs { Still (run (spec.list_method method at args.now)) machine.old result machine.new }
    ensures drawn { machine.new.drawn ≡ machine.old.drawn }
{
    match method {
        ListMethod::Append => list_append(alloc, machine, at, args),
        ListMethod::Insert => list_insert(alloc, machine, at, args),
        ListMethod::Pop => list_pop(alloc, machine, at, args),
        ListMethod::Extend => list_extend(alloc, machine, at, args),
        ListMethod::Clear => list_clear(alloc, machine, at, args),
    }
}

fn dict_get(alloc: Global, machine: &mut Machine, at: u32, args: &[Value]) -> Result<Value, Fault>
    ensures runs { Still (run (spec.dict_method DictMethod.Get at args.now)) machine.old result machine.new }
    ensures drawn { machine.new.drawn ≡ machine.old.drawn }
{
    match args {
        [] => Err(Fault::Raised(wrong_number(alloc, "get")?)),
        [key] => get(alloc, machine, at, key, &Value::Nothing),
        [key, other] => get(alloc, machine, at, key, other),
        [_, _, _, ..] => Err(Fault::Raised(wrong_number(alloc, "get")?)),
    }
}

fn dict_pop(alloc: Global, machine: &mut Machine, at: u32, args: &[Value]) -> Result<Value, Fault>
    ensures runs { Still (run (spec.dict_method DictMethod.Pop at args.now)) machine.old result machine.new }
    ensures drawn { machine.new.drawn ≡ machine.old.drawn }
{
    match args {
        [] => Err(Fault::Raised(wrong_number(alloc, "pop")?)),
        [key] => pop_key(alloc, machine, at, key),
        [_, _, ..] => Err(Fault::Raised(wrong_number(alloc, "pop")?)),
    }
}

fn dict_clear(alloc: Global, machine: &mut Machine, at: u32, args: &[Value]) -> Result<Value, Fault>
    ensures runs { Still (run (spec.dict_method DictMethod.Clear at args.now)) machine.old result machine.new }
    ensures drawn { machine.new.drawn ≡ machine.old.drawn }
{
    match args {
        [] => clear(machine, at),
        [_, ..] => Err(Fault::Raised(wrong_number(alloc, "clear")?)),
    }
}

fn dict_method(
    alloc: Global,
    machine: &mut Machine,
    method: DictMethod,
    at: u32,
    args: &[Value],
) -> Result<Value, Fault>
    ensures runs { Still (run (spec.dict_method method at args.now)) machine.old result machine.new }
    ensures drawn { machine.new.drawn ≡ machine.old.drawn }
{
    match method {
        DictMethod::Get => dict_get(alloc, machine, at, args),
        DictMethod::Pop => dict_pop(alloc, machine, at, args),
        DictMethod::Clear => dict_clear(alloc, machine, at, args),
    }
}

fn text_join(
    alloc: Global,
    machine: &mut Machine,
    text: &SharedText,
    args: &[Value],
) -> Result<Value, Fault>
    ensures runs { Still (run (spec.text_method TextMethod.Join text.now args.now)) machine.old result machine.new }
    ensures drawn { machine.new.drawn ≡ machine.old.drawn }
{
    match args {
        [] => Err(Fault::Raised(wrong_number(alloc, "join")?)),
        [value] => join(alloc, machine, text, value),
        [_, _, ..] => Err(Fault::Raised(wrong_number(alloc, "join")?)),
    }
}

fn text_split(
    alloc: Global,
    machine: &mut Machine,
    text: &SharedText,
    args: &[Value],
) -> Result<Value, Fault>
    ensures runs { Still (run (spec.text_method TextMethod.Split text.now args.now)) machine.old result machine.new }
    ensures drawn { machine.new.drawn ≡ machine.old.drawn }
{
    match args {
        [] => Err(Fault::Raised(wrong_number(alloc, "split")?)),
        [separator] => split(alloc, machine, text, separator),
        [_, _, ..] => Err(Fault::Raised(wrong_number(alloc, "split")?)),
    }
}

fn text_starts_with(
    alloc: Global,
    machine: &mut Machine,
    text: &SharedText,
    args: &[Value],
) -> Result<Value, Fault>
    ensures runs { Still (run (spec.text_method TextMethod.StartsWith text.now args.now)) machine.old result machine.new }
    ensures drawn { machine.new.drawn ≡ machine.old.drawn }
{
    match args {
        [] => Err(Fault::Raised(wrong_number(alloc, "startswith")?)),
        [piece] => starts_with(alloc, machine, text, piece),
        [_, _, ..] => Err(Fault::Raised(wrong_number(alloc, "startswith")?)),
    }
}

fn text_ends_with(
    alloc: Global,
    machine: &mut Machine,
    text: &SharedText,
    args: &[Value],
) -> Result<Value, Fault>
    ensures runs { Still (run (spec.text_method TextMethod.EndsWith text.now args.now)) machine.old result machine.new }
    ensures drawn { machine.new.drawn ≡ machine.old.drawn }
{
    match args {
        [] => Err(Fault::Raised(wrong_number(alloc, "endswith")?)),
        [piece] => ends_with(alloc, machine, text, piece),
        [_, _, ..] => Err(Fault::Raised(wrong_number(alloc, "endswith")?)),
    }
}

fn text_method(
    alloc: Global,
    machine: &mut Machine,
    method: TextMethod,
    text: &SharedText,
    args: &[Value],
) -> Result<Value, Fault>
    ensures runs { Still (run (spec.text_method method text.now args.now)) machine.old result machine.new }
    ensures drawn { machine.new.drawn ≡ machine.old.drawn }
{
    match method {
        TextMethod::Join => text_join(alloc, machine, text, args),
        TextMethod::Split => text_split(alloc, machine, text, args),
        TextMethod::StartsWith => text_starts_with(alloc, machine, text, args),
        TextMethod::EndsWith => text_ends_with(alloc, machine, text, args),
    }
}

/// What a call of a method gives. A TypeError at a wrong number of arguments and at an argument of a wrong kind, and the errors
/// of the method: an IndexError or a KeyError of `pop`, a ValueError of `split`, and a MemoryError if the meter has no room.
/// (Python reference: `list`, `dict` and `str` methods.)
pub fn call_method(
    alloc: Global,
    machine: &mut Machine,
    method: &BoundMethod,
    args: &[Value],
) -> Result<Value, Fault>
    ensures runs { Still (run (spec.method_called method.now args.now)) machine.old result machine.new }
    ensures drawn { machine.new.drawn ≡ machine.old.drawn }
{
    match method {
        BoundMethod::List(method, at) => list_method(alloc, machine, *method, *at, args),
        BoundMethod::Dict(method, at) => dict_method(alloc, machine, *method, *at, args),
        BoundMethod::Text(method, text) => text_method(alloc, machine, *method, text, args),
    }
}
