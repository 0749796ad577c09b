ghost use Rattle.std.specs.Prelude.{◌≡◌, IfOk};
ghost use Rattle.py_machine.specs.Errors as spec;

use crate::error::{ErrorKind, PyError, boxed_error};
use crate::kind::{ValueKind, kind_name};
use plain_data::{Boxed, Text};
use py_tree::Op;
use std::alloc::{AllocError, Global};

/// An operator as errors spell it.
fn op_text(op: Op) -> &'static str
    ensures { result.now ≡ spec.op_text op }
{
    match op {
        Op::Plus => "+",
        Op::Minus => "-",
        Op::Times => "*",
        Op::Floor => "//",
        Op::Mod => "%",
        Op::Equal => "==",
        Op::NotEqual => "!=",
        Op::Less => "<",
        Op::AtMost => "<=",
        Op::More => ">",
        Op::AtLeast => ">=",
        Op::In => "in",
        Op::NotIn => "not in",
    }
}

/// Two kinds as errors name them.
fn kinds_text(alloc: Global, left: ValueKind, right: ValueKind) -> Result<Text, AllocError>
    ensures { IfOk result (λ text. text ≡ spec.kinds_text left right) }
{
    let left = kind_name(left);
    let right = kind_name(right);
    let text = format!(in alloc; "'{left}' and '{right}'")?;
    Ok(Text::from_string(text))
}

/// The error of an operator between values of these kinds.
#[cold]
#[inline(never)]
pub fn unsupported_operands(
    alloc: Global,
    op: Op,
    left: ValueKind,
    right: ValueKind,
) -> Result<Boxed<PyError>, AllocError>
    ensures { IfOk result (λ error. error ≡ spec.unsupported_operands op left right) }
{
    let op = op_text(op);
    let kinds = kinds_text(alloc, left, right)?;
    let kinds = kinds.as_str();
    let text = format!(in alloc; "unsupported operand type(s) for {op}: {kinds}")?;
    boxed_error(alloc, ErrorKind::Type, Text::from_string(text))
}

fn sign_text(minus: bool) -> &'static str
    ensures { result.now ≡ spec.sign_text minus }
{
    if minus { "-" } else { "+" }
}

/// The error of a sign before a value of this kind.
#[cold]
#[inline(never)]
pub fn bad_operand(
    alloc: Global,
    minus: bool,
    operand: ValueKind,
) -> Result<Boxed<PyError>, AllocError>
    ensures { IfOk result (λ error. error ≡ spec.bad_operand minus operand) }
{
    let sign = sign_text(minus);
    let operand = kind_name(operand);
    let text = format!(in alloc; "bad operand type for unary {sign}: '{operand}'")?;
    boxed_error(alloc, ErrorKind::Type, Text::from_string(text))
}

/// The error of an order of values of these kinds.
#[cold]
#[inline(never)]
pub fn not_ordered(
    alloc: Global,
    op: Op,
    left: ValueKind,
    right: ValueKind,
) -> Result<Boxed<PyError>, AllocError>
    ensures { IfOk result (λ error. error ≡ spec.not_ordered op left right) }
{
    let op = op_text(op);
    let kinds = kinds_text(alloc, left, right)?;
    let kinds = kinds.as_str();
    let text = format!(in alloc; "'{op}' not supported between instances of {kinds}")?;
    boxed_error(alloc, ErrorKind::Type, Text::from_string(text))
}

/// The error of `in` on a value of a kind that holds nothing.
#[cold]
#[inline(never)]
pub fn not_searched(alloc: Global, kind: ValueKind) -> Result<Boxed<PyError>, AllocError>
    ensures { IfOk result (λ error. error ≡ spec.not_searched kind) }
{
    let kind = kind_name(kind);
    let text = format!(in alloc; "argument of type '{kind}' is not iterable")?;
    boxed_error(alloc, ErrorKind::Type, Text::from_string(text))
}

/// The error of a value of this kind that is looked for in a text.
#[cold]
#[inline(never)]
pub fn not_in_text(alloc: Global, kind: ValueKind) -> Result<Boxed<PyError>, AllocError>
    ensures { IfOk result (λ error. error ≡ spec.not_in_text kind) }
{
    let kind = kind_name(kind);
    let text = format!(in alloc; "'in <string>' requires string as left operand, not {kind}")?;
    boxed_error(alloc, ErrorKind::Type, Text::from_string(text))
}

/// The error of a value of this kind that is to be a key.
#[cold]
#[inline(never)]
pub fn unhashable(alloc: Global, kind: ValueKind) -> Result<Boxed<PyError>, AllocError>
    ensures { IfOk result (λ error. error ≡ spec.unhashable kind) }
{
    let kind = kind_name(kind);
    let text = format!(in alloc; "unhashable type: '{kind}'")?;
    boxed_error(alloc, ErrorKind::Type, Text::from_string(text))
}

/// The error of a call with more or fewer arguments than the function of this name takes.
#[cold]
#[inline(never)]
pub fn wrong_number(alloc: Global, name: &str) -> Result<Boxed<PyError>, AllocError>
    ensures { IfOk result (λ error. error ≡ spec.wrong_number name.now) }
{
    let text = format!(in alloc; "wrong number of arguments for {name}()")?;
    boxed_error(alloc, ErrorKind::Type, Text::from_string(text))
}

/// The error of an argument of a kind that the function of this name doesn't take.
#[cold]
#[inline(never)]
pub fn wrong_argument(alloc: Global, name: &str) -> Result<Boxed<PyError>, AllocError>
    ensures { IfOk result (λ error. error ≡ spec.wrong_argument name.now) }
{
    let text = format!(in alloc; "wrong argument for {name}()")?;
    boxed_error(alloc, ErrorKind::Type, Text::from_string(text))
}

/// The error of a divisor that is 0.
#[cold]
#[inline(never)]
pub fn division_error(alloc: Global) -> Result<Boxed<PyError>, AllocError>
    ensures { IfOk result (λ error. error ≡ spec.division_error) }
{
    let text = Text::new(alloc, "division by zero")?;
    boxed_error(alloc, ErrorKind::ZeroDivision, text)
}

/// The error of a call of a value of this kind, which can't be called.
#[cold]
#[inline(never)]
pub fn not_callable(alloc: Global, kind: ValueKind) -> Result<Boxed<PyError>, AllocError>
    ensures { IfOk result (λ error. error ≡ spec.not_callable kind) }
{
    let kind = kind_name(kind);
    let text = format!(in alloc; "'{kind}' object is not callable")?;
    boxed_error(alloc, ErrorKind::Type, Text::from_string(text))
}

/// The error of a method that values of this kind don't have.
#[cold]
#[inline(never)]
pub fn no_attribute(
    alloc: Global,
    kind: ValueKind,
    name: &Text,
) -> Result<Boxed<PyError>, AllocError>
    ensures { IfOk result (λ error. error ≡ spec.no_attribute kind name.now) }
{
    let kind = kind_name(kind);
    let name = name.as_str();
    let text = format!(in alloc; "'{kind}' object has no attribute '{name}'")?;
    boxed_error(alloc, ErrorKind::Attribute, Text::from_string(text))
}
