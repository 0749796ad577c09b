ghost use Rattle.std.specs.Prelude.{◌≡◌, ◌↔◌, IfOk, IsTrue};
ghost use Rattle.py_value.specs.Values as spec;

use plain_data::SharedText;
use std::alloc::AllocError;

/// A function that every session has.
#[derive(Clone, Copy, Debug, PartialEq, Eq)]
pub enum Builtin {
    Print,
    Len,
    Str,
    Repr,
    Int,
    Range,
    Draw,
    Handle,
    Tell,
}

impl Builtin {
    /// Its number, which no other built-in function has.
    pub fn number(self) -> u8
        ensures { result ≡ spec.builtin_number self }
    {
        match self {
            Builtin::Print => 0,
            Builtin::Len => 1,
            Builtin::Str => 2,
            Builtin::Repr => 3,
            Builtin::Int => 4,
            Builtin::Range => 5,
            Builtin::Draw => 6,
            Builtin::Handle => 7,
            Builtin::Tell => 8,
        }
    }
}

/// What a name may hold. A list, a dict, a function or a handle is an object, which a value only names.
#[derive(Debug, Drop)]
pub enum Value {
    /// None.
    Nothing,
    Bool(bool),
    Number(i128),
    Text(SharedText),
    /// The address of an object.
    Ref(u32),
    Builtin(Builtin),
}

impl Value {
    /// An equal value. A text is shared: none of its bytes is copied.
    pub fn copy(&self) -> Result<Value, AllocError>
        ensures { IfOk result (λ v. v ≡ self.now) }
    {
        match self {
            Value::Nothing => Ok(Value::Nothing),
            Value::Bool(truth) => Ok(Value::Bool(*truth)),
            Value::Number(number) => Ok(Value::Number(*number)),
            Value::Text(text) => Ok(Value::Text(text.share()?)),
            Value::Ref(at) => Ok(Value::Ref(*at)),
            Value::Builtin(builtin) => Ok(Value::Builtin(*builtin)),
        }
    }

    /// Whether the value counts as true: all but None, False, 0 and the empty text do. An object isn't looked into, so
    /// this is true of each reference: whether a list or a dict is empty, only its object says.
    pub fn is_true(&self) -> bool
        ensures { result ≡ spec.is_true self.now }
    {
        match self {
            Value::Nothing => false,
            Value::Bool(truth) => *truth,
            Value::Number(number) => *number != 0,
            Value::Text(text) => !text.is_empty(),
            Value::Ref(_) | Value::Builtin(_) => true,
        }
    }
}

/// What a value weighs: 1, and for a text 1 more for each byte. Takes no memory.
pub fn weight(value: &Value) -> u64
    ensures { result ≡ spec.weight value.now }
{
    match value {
        Value::Text(text) => 1 + text.as_str().len() as u64,
        _ => 1,
    }
}
