ghost use Rattle.std.specs.Prelude.{◌≡◌, ◌<◌, ◌^◌, ◌+ℤ◌, ◌-ℤ◌, ◌*ℤ◌, pos, negsuc, IsFalse, FitsSigned, SomeIff};
ghost use Rattle.std.specs.Int.{w128};
ghost use Rattle.py_value.specs.Values.{is_zero};
ghost use Rattle.py_machine.specs.Runs.{Still};
ghost use Rattle.py_machine.specs.Errors.{unsupported_operands as unsupported};
ghost use Rattle.py_meaning.specs.Acts.{run, fail};
ghost use Rattle.py_meaning.specs.Numbers as spec;

use crate::signs::{Signed, by_sign, fitting, natural, negative, opposite};
use py_machine::{Fault, Machine, ValueKind, division_error, overflow_error, unsupported_operands};
use py_tree::Op;
use py_value::Value;
use std::alloc::Global;

/// The number that a value acts as: True is 1 and False is 0.
#[inline(always)]
pub fn as_number(value: &Value) -> Option<i128>
    ensures { result ≡ spec.as_number value.now }
{
    match value {
        Value::Number(number) => Some(*number),
        Value::Bool(true) => Some(1),
        Value::Bool(false) => Some(0),
        Value::Nothing | Value::Text(_) | Value::Ref(_) | Value::Builtin(_) => None,
    }
}

#[inline(always)]
#[tactic(auto, unfolding(py_meaning::specs::Numbers::number))]
fn sum(alloc: Global, machine: &Machine, a: &i128, b: &i128) -> Result<Value, Fault>
    ensures { Still (run (spec.number (a.now +ℤ b.now))) machine.now result machine.now }
{
    match a.checked_add(*b) {
        Some(sum) => Ok(Value::Number(sum)),
        None => Err(Fault::Raised(overflow_error(alloc)?)),
    }
}

#[inline(always)]
#[tactic(auto, unfolding(py_meaning::specs::Numbers::number))]
fn difference(alloc: Global, machine: &Machine, a: &i128, b: &i128) -> Result<Value, Fault>
    ensures { Still (run (spec.number (a.now -ℤ b.now))) machine.now result machine.now }
{
    match a.checked_sub(*b) {
        Some(rest) => Ok(Value::Number(rest)),
        None => Err(Fault::Raised(overflow_error(alloc)?)),
    }
}

#[tactic(auto, unfolding(py_meaning::specs::Numbers::number))]
fn product(alloc: Global, machine: &Machine, a: &i128, b: &i128) -> Result<Value, Fault>
    ensures { Still (run (spec.number (a.now *ℤ b.now))) machine.now result machine.now }
{
    match a.checked_mul(*b) {
        Some(product) => Ok(Value::Number(product)),
        None => Err(Fault::Raised(overflow_error(alloc)?)),
    }
}

/// The quotient of a number from 0 on by one below 0.
fn quotient_by_negative(a: u128, b: u128) -> i128
    requires first { a < 2 ^ 127 }
    requires second { b < 2 ^ 127 }
    ensures { result ≡ spec.floor (pos a) (negsuc b) }
{
    if a == 0 {
        0
    } else {
        negative((a - 1) / (b + 1))
    }
}

/// The quotient of two numbers, rounded down, if it fits in 128 bits.
fn floor(a: &i128, b: &i128) -> Option<i128>
    requires { IsFalse (is_zero b.now) }
    ensures { SomeIff result (FitsSigned w128 (spec.floor a.now b.now)) (spec.floor a.now b.now) }
{
    match (by_sign(a), by_sign(b)) {
        (Signed::Natural(a), Signed::Natural(b)) => Some(natural(a / b)),
        (Signed::Negative(a), Signed::Natural(b)) => Some(negative(a / b)),
        (Signed::Natural(a), Signed::Negative(b)) => Some(quotient_by_negative(a, b)),
        (Signed::Negative(a), Signed::Negative(b)) => fitting((a + 1) / (b + 1)),
    }
}

#[tactic(auto, unfolding(py_meaning::specs::Numbers::quotient, py_meaning::specs::Numbers::number))]
fn quotient(alloc: Global, machine: &Machine, a: &i128, b: &i128) -> Result<Value, Fault>
    ensures { Still (run (spec.quotient a.now b.now)) machine.now result machine.now }
{
    if *b == 0 {
        return Err(Fault::Raised(division_error(alloc)?));
    }
    match floor(a, b) {
        Some(quotient) => Ok(Value::Number(quotient)),
        None => Err(Fault::Raised(overflow_error(alloc)?)),
    }
}

/// What is left of a number from 0 on by one below 0.
fn modulo_by_negative(a: u128, b: u128) -> i128
    requires first { a < 2 ^ 127 }
    requires second { b < 2 ^ 127 }
    ensures { result ≡ spec.modulo (pos a) (negsuc b) }
{
    if a == 0 {
        0
    } else {
        opposite(b - (a - 1) % (b + 1))
    }
}

/// What is left of a number by a divisor: it has the divisor's sign.
fn modulo(a: &i128, b: &i128) -> i128
    requires { IsFalse (is_zero b.now) }
    ensures { result ≡ spec.modulo a.now b.now }
{
    match (by_sign(a), by_sign(b)) {
        (Signed::Natural(a), Signed::Natural(b)) => natural(a % b),
        (Signed::Negative(a), Signed::Natural(b)) => natural(b - 1 - a % b),
        (Signed::Natural(a), Signed::Negative(b)) => modulo_by_negative(a, b),
        (Signed::Negative(a), Signed::Negative(b)) => opposite((a + 1) % (b + 1)),
    }
}

#[tactic(auto, unfolding(py_meaning::specs::Numbers::remainder, py_meaning::specs::Numbers::number))]
fn remainder(alloc: Global, machine: &Machine, a: &i128, b: &i128) -> Result<Value, Fault>
    ensures { Still (run (spec.remainder a.now b.now)) machine.now result machine.now }
{
    if *b == 0 {
        return Err(Fault::Raised(division_error(alloc)?));
    }
    Ok(Value::Number(modulo(a, b)))
}

/// The error of a comparison in place of an arithmetic operator.
fn not_calculated(alloc: Global, machine: &Machine, op: Op) -> Result<Value, Fault>
    ensures { Still (run (fail (unsupported op ValueKind.Number ValueKind.Number))) machine.now result machine.now }
{
    let number = ValueKind::Number;
    Err(Fault::Raised(unsupported_operands(alloc, op, number, number)?))
}

/// What an operator gives of two numbers. (Python reference: binary arithmetic operations.)
#[inline(always)]
pub fn calculated(
    alloc: Global,
    machine: &Machine,
    op: Op,
    a: &i128,
    b: &i128,
) -> Result<Value, Fault>
    ensures { Still (run (spec.calculated op a.now b.now)) machine.now result machine.now }
{
    match op {
        Op::Plus => sum(alloc, machine, a, b),
        Op::Minus => difference(alloc, machine, a, b),
        Op::Times => product(alloc, machine, a, b),
        Op::Floor => quotient(alloc, machine, a, b),
        Op::Mod => remainder(alloc, machine, a, b),
        Op::Equal => not_calculated(alloc, machine, Op::Equal),
        Op::NotEqual => not_calculated(alloc, machine, Op::NotEqual),
        Op::Less => not_calculated(alloc, machine, Op::Less),
        Op::AtMost => not_calculated(alloc, machine, Op::AtMost),
        Op::More => not_calculated(alloc, machine, Op::More),
        Op::AtLeast => not_calculated(alloc, machine, Op::AtLeast),
        Op::In => not_calculated(alloc, machine, Op::In),
        Op::NotIn => not_calculated(alloc, machine, Op::NotIn),
    }
}
