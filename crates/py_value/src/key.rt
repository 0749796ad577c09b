ghost use Rattle.std.specs.Prelude.{◌≡◌, ◌==◌, ◌++◌, ◌↔◌, true, Some, None, IfOk, IsTrue};
ghost use Rattle.std.proofs.Common.{rules};
ghost use Rattle.std.specs.Hash as fed;
ghost use Rattle.std.specs.Cmp.Rules.{comparing, hashing};
ghost use Rattle.py_value.specs.declared.key.Key.{Key as KeyOf};
ghost use Rattle.py_value.specs.Keys as spec;

use crate::value::Value;
use plain_data::SharedText;
use std::alloc::AllocError;
use std::error::Error;
use std::fmt;
use std::hash::{Hash, Hasher};

/// What may be the key of a dict.
#[derive(Debug, Drop)]
pub enum Key {
    /// None.
    Nothing,
    Bool(bool),
    Number(i128),
    Text(SharedText),
}

/// Why a value gave no key.
#[derive(Clone, Copy, Debug, PartialEq, Eq)]
pub enum KeyFault {
    OutOfMemory,
    /// The value is an object or a built-in function.
    Unhashable,
}

impl From<AllocError> for KeyFault {
    ghost use Rattle.std.specs.Prelude.{◌≡◌};
    ghost use Rattle.py_value.specs.declared.key.KeyFault.TheVariants.{OutOfMemory};

    ghost from_gives = { λ _ e. e ≡ OutOfMemory };

    fn from(_: AllocError) -> KeyFault {
        KeyFault::OutOfMemory
    }
}

impl fmt::Display for KeyFault {
    fn fmt<W: fmt::Write>(&self, f: &mut fmt::Formatter<W>) -> fmt::Result {
        match self {
            KeyFault::OutOfMemory => write!(f, "out of memory"),
            KeyFault::Unhashable => write!(f, "an object or a built-in function is no key"),
        }
    }
}

impl Error for KeyFault {}

impl Key {
    /// An equal key. A text is shared: none of its bytes is copied.
    pub fn copy(&self) -> Result<Key, AllocError>
        ensures { IfOk result (λ key. key ≡ self.now) }
    {
        match self {
            Key::Nothing => Ok(Key::Nothing),
            Key::Bool(truth) => Ok(Key::Bool(*truth)),
            Key::Number(number) => Ok(Key::Number(*number)),
            Key::Text(text) => Ok(Key::Text(text.share()?)),
        }
    }

    /// The value that the key is, as it is spelled. A text is shared: none of its bytes is copied.
    pub fn value(&self) -> Result<Value, AllocError>
        ensures value { IfOk result (λ value. value ≡ spec.value_of self.now) }
        ensures key { IfOk result (λ value. spec.key_of value ≡ Some self.now) }
    {
        match self {
            Key::Nothing => Ok(Value::Nothing),
            Key::Bool(truth) => Ok(Value::Bool(*truth)),
            Key::Number(number) => Ok(Value::Number(*number)),
            Key::Text(text) => Ok(Value::Text(text.share()?)),
        }
    }

    fn kind(&self) -> u8
        ensures { result ≡ spec.kind self.now }
    {
        match self {
            Key::Nothing => 0,
            Key::Bool(_) | Key::Number(_) => 1,
            Key::Text(_) => 2,
        }
    }

    fn number(&self) -> i128
        ensures { result ≡ spec.number self.now }
    {
        match self {
            Key::Bool(true) => 1,
            Key::Number(number) => *number,
            _ => 0,
        }
    }

    fn text(&self) -> &str
        ensures { result.now ≡ spec.text self.now }
    {
        match self {
            Key::Text(text) => text.as_str(),
            _ => "",
        }
    }
}

/// As keys of a dict: True is 1, and False is 0.
impl PartialEq for Key {
    ghost eq = { spec.same_key };

    ghost laws = { Prim.search (comparing, rules) };

    fn eq(&self, other: &Key) -> bool {
        self.kind() == other.kind()
            && self.number() == other.number()
            && self.text() == other.text()
    }
}

impl Eq for Key {
    ghost laws = { Prim.search (comparing, rules) };
}

impl Hash for Key {
    ghost hash_input = { spec.hashed };

    ghost respects_eq = { Prim.search (hashing, rules) };

    fn hash<H: Hasher>(&self, state: &mut H) {
        self.kind().hash(state);
        self.number().hash(state);
        self.text().hash(state);
    }
}

/// The key with that value. A text is shared: none of its bytes is copied.
pub fn key_of(value: &Value) -> Result<Key, KeyFault>
    ensures key { IfOk result (λ key. spec.key_of value.now ≡ Some key) }
    ensures unhashable { (result ≡ Err KeyFault.Unhashable) ↔ (spec.key_of value.now ≡ None) }
{
    match value {
        Value::Nothing => Ok(Key::Nothing),
        Value::Bool(truth) => Ok(Key::Bool(*truth)),
        Value::Number(number) => Ok(Key::Number(*number)),
        Value::Text(text) => Ok(Key::Text(text.share()?)),
        Value::Ref(_) | Value::Builtin(_) => Err(KeyFault::Unhashable),
    }
}

/// Whether two keys are the same in a dict: both None, equal numbers with True as 1 and False as 0, or equal texts.
/// Takes no memory.
pub fn same_key(a: &Key, b: &Key) -> bool
    ensures { result ≡ spec.same_key a.now b.now }
{
    a == b
}

/// To be the same key is an equivalence.
pub fn same_key_is_an_equivalence()
    ensures reflexive { (a : KeyOf) → IsTrue (spec.same_key a a) }
    ensures symmetric { (a b : KeyOf) → IsTrue (spec.same_key a b) → IsTrue (spec.same_key b a) }
    ensures transitive { (a b c : KeyOf) → IsTrue (spec.same_key a b) → IsTrue (spec.same_key b c) → IsTrue (spec.same_key a c) }
{}
