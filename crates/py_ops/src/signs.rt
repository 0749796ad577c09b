ghost use Rattle.std.specs.Prelude.{◌≡◌, ◌<◌, ◌≤◌, ◌^◌, pos, negsuc, neg_ℤ, SomeIff};
ghost use Rattle.std.specs.Option.{option_map};
ghost use Rattle.py_meaning.specs.Numbers.{as_number};
ghost use Rattle.py_ops.specs.Signs as spec;

use py_value::Value;

/// A number of 128 bits by its sign.
#[derive(Clone, Copy, Debug, PartialEq, Eq)]
pub enum Signed {
    /// From 0 on: the number.
    Natural(u128),
    /// Below 0: how far it is below -1.
    Negative(u128),
}

/// A number by its sign.
pub fn by_sign(number: &i128) -> Signed
    ensures value { number.now ≡ spec.number_of result }
    ensures bound { spec.size_of result < 2 ^ 127 }
{
    if *number < 0 {
        Signed::Negative(!*number as u128)
    } else {
        Signed::Natural(*number as u128)
    }
}

/// The number from 0 on.
pub fn natural(size: u128) -> i128
    requires { size < 2 ^ 127 }
    ensures { result ≡ pos size }
{
    size as i128
}

/// The number that is this far below -1.
pub fn negative(size: u128) -> i128
    requires { size < 2 ^ 127 }
    ensures { result ≡ negsuc size }
{
    -(size as i128) - 1
}

/// The number that is this far below 0.
pub fn opposite(size: u128) -> i128
    requires { size < 2 ^ 127 }
    ensures { result ≡ neg_ℤ (pos size) }
{
    -(size as i128)
}

/// The number from 0 on, if it fits in 128 bits.
pub fn fitting(size: u128) -> Option<i128>
    ensures { SomeIff result (size < 2 ^ 127) (pos size) }
{
    if size < 1 << 127 {
        Some(size as i128)
    } else {
        None
    }
}

/// The number that a value acts as, by its sign: True is 1 and False is 0.
pub fn sign_of(value: &Value) -> Option<Signed>
    ensures { option_map spec.number_of result ≡ as_number value.now }
{
    match value {
        Value::Number(number) => Some(by_sign(number)),
        Value::Bool(true) => Some(Signed::Natural(1)),
        Value::Bool(false) => Some(Signed::Natural(0)),
        Value::Nothing | Value::Text(_) | Value::Ref(_) | Value::Builtin(_) => None,
    }
}
