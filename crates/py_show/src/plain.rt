ghost use Rattle.std.specs.Prelude.{◌≡◌, IfOk, OnOk, slice_get};
ghost use Rattle.std.specs.Option.{option_copied};
ghost use Rattle.py_meaning.specs.Shown as spec;
ghost use Rattle.py_show.specs.Limits.{pushed};

use crate::limited::Limited;
use crate::quoted::put_quoted;
use plain_data::{SharedText, Text};
use py_heap::{Object, SequenceKind, State};
use py_value::{Builtin, Key, Value, key_text};
use std::alloc::{AllocError, Global};

fn builtin_text(builtin: Builtin) -> &'static str
    ensures { result.now ≡ spec.builtin_text builtin }
{
    match builtin {
        Builtin::Print => "<built-in function print>",
        Builtin::Len => "<built-in function len>",
        Builtin::Str => "<class 'str'>",
        Builtin::Repr => "<built-in function repr>",
        Builtin::Int => "<class 'int'>",
        Builtin::Range => "<class 'range'>",
        Builtin::Draw => "<built-in function draw>",
        Builtin::Handle => "<built-in function handle>",
        Builtin::Tell => "<built-in function tell>",
    }
}

/// The text of a value that isn't looked into and isn't a text.
fn plain_text(alloc: Global, value: &Value) -> Result<Text, AllocError>
    ensures { IfOk result (λ text. text ≡ spec.plain_text value.now) }
{
    match value {
        Value::Nothing | Value::Ref(_) => key_text(alloc, &Key::Nothing),
        Value::Bool(truth) => key_text(alloc, &Key::Bool(*truth)),
        Value::Number(number) => key_text(alloc, &Key::Number(*number)),
        Value::Text(text) => key_text(alloc, &Key::Text(text.share()?)),
        Value::Builtin(builtin) => Text::new(alloc, builtin_text(*builtin)),
    }
}

/// Puts the text of a value that isn't looked into. It isn't made if the output is too long already.
pub(crate) fn put_plain(alloc: Global, value: &Value, out: &mut Limited) -> Result<(), AllocError>
    ensures { OnOk result (out.new ≡ pushed out.old (spec.plain_text value.now)) }
{
    if let Value::Text(text) = value {
        return put_quoted(alloc, text, out);
    }
    if out.is_long() {
        return Ok(());
    }
    out.push_str(plain_text(alloc, value)?.as_str())
}

/// Puts what a function shows.
#[tactic(auto, using(crate::proofs::Limiting::pushed_twice))]
pub(crate) fn put_function(name: &Text, out: &mut Limited) -> Result<(), AllocError>
    ensures { OnOk result (out.new ≡ pushed out.old (spec.function_text name.now)) }
{
    out.push_str("<function ")?;
    out.push_str(name.as_str())?;
    out.push_str(">")
}

/// Puts what a handle shows.
#[tactic(auto, using(crate::proofs::Limiting::pushed_twice))]
pub(crate) fn put_handle(
    alloc: Global,
    name: &SharedText,
    out: &mut Limited,
) -> Result<(), AllocError>
    ensures { OnOk result (out.new ≡ pushed out.old (spec.handle_text name.now)) }
{
    out.push_str("<handle ")?;
    put_quoted(alloc, name, out)?;
    out.push_str(">")
}

/// What stands before the items of a list or a tuple.
pub(crate) fn opening(kind: SequenceKind) -> &'static str
    ensures { result.now ≡ spec.opening kind }
{
    match kind {
        SequenceKind::List => "[",
        SequenceKind::Tuple => "(",
    }
}

/// What stands after the items of a list or a tuple: a tuple of one item has a comma there.
pub(crate) fn closing(kind: SequenceKind, items: &[Value]) -> &'static str
    ensures { result.now ≡ spec.closing kind items.now }
{
    match kind {
        SequenceKind::List => "]",
        SequenceKind::Tuple => match items {
            [_] => ",)",
            _ => ")",
        },
    }
}

/// The object at an address, if there is one.
pub(crate) fn object_on(state: &State, at: u32) -> Option<&Object>
    ensures { option_copied result ≡ slice_get state.now.heap at }
{
    if (at as usize) < state.len() {
        Some(state.get(at))
    } else {
        None
    }
}

/// What the object at an address shows if it is open already.
pub(crate) fn open_text(state: &State, at: u32) -> &'static str
    ensures { result.now ≡ spec.open_text (slice_get state.now.heap at) }
{
    match object_on(state, at) {
        Some(Object::Dict(_)) => "{...}",
        Some(Object::Tuple(_)) => "(...)",
        _ => "[...]",
    }
}
