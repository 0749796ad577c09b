ghost use Rattle.std.specs.Prelude.{◌≡◌, ◌<◌, ◌↔◌, [], length, slice_get, Some, IsTrue, OnOk, OnErr};
ghost use Rattle.std.specs.Option.{option_copied};
ghost use Rattle.py_heap.specs.Dicts.{value_under, with_pair, without_key, HasNoKeyTwice};

use indexmap::IndexMap;
use py_value::{Key, Value};
use std::alloc::{AllocError, Global};
use std::marker::Model;

/// The pairs of a dict, which contracts see as the list of them, in the order in which their keys came. No two of its keys
/// are the same, with True as 1 and False as 0.
#[derive(Drop)]
pub struct Dict {
    pairs: IndexMap<Key, Value>,
}

impl Model for Dict {
    ghost use Rattle.std.specs.Prelude.{List};
    ghost use Rattle.std.specs.Coded.{coded_list, coded×};
    ghost use Rattle.py_value.specs.declared.key.Key.{Key as KeyOf};
    ghost use Rattle.py_value.specs.contracts.key.Key as key;
    ghost use Rattle.py_value.specs.declared.value.Value.{Value as Held};
    ghost use Rattle.py_value.specs.contracts.value.Value as held;

    ghost Value = { List (KeyOf × Held) };

    ghost coded = { coded_list (coded× key.the_row.coded held.the_row.coded) };

    ghost view = { λ d. d.pairs.entries };
}

impl Dict {
    /// No pairs. Takes no memory.
    pub fn new(alloc: Global) -> Dict
        ensures { result ≡ [] }
    {
        Dict {
            pairs: IndexMap::new(alloc),
        }
    }

    /// How many pairs there are.
    pub fn len(&self) -> usize
        ensures value { result ≡ length self.now }
        ensures distinct { HasNoKeyTwice self.now }
    {
        self.pairs.len()
    }

    /// Whether there are none.
    pub fn is_empty(&self) -> bool
        ensures { IsTrue result ↔ (self.now ≡ []) }
    {
        self.pairs.is_empty()
    }

    /// The value under a key, if the key is there.
    pub fn get(&self, key: &Key) -> Option<&Value>
        ensures { option_copied result ≡ value_under self.now key.now }
    {
        self.pairs.get(key)
    }

    /// The pair at that index in the order, counted from 0.
    pub fn pair_at(&self, index: usize) -> (&Key, &Value)
        requires { index < length self.now }
        ensures { slice_get self.now index ≡ Some (result.0.now, result.1.now) }
    {
        match self.pairs.get_index(index) {
            Some(pair) => pair,
            None => unreachable!(),
        }
    }

    /// Puts a value under a key. A key that is there keeps its position and its spelling; a new one goes last. After an error
    /// nothing is changed.
    pub fn put(&mut self, key: Key, value: Value) -> Result<(), AllocError>
        ensures ok { OnOk result (self.new ≡ with_pair self.old key value) }
        ensures err { OnErr result (self.new ≡ self.old) }
    {
        self.pairs.insert(key, value)?;
        Ok(())
    }

    /// Takes out the pair with a key, and answers its value, if the key was there. The others keep their order.
    pub fn remove(&mut self, key: &Key) -> Option<Value>
        ensures value { result ≡ value_under self.old key.now }
        ensures rest { self.new ≡ without_key self.old key.now }
    {
        self.pairs.shift_remove(key)
    }

    /// Takes all pairs out.
    pub fn clear(&mut self)
        ensures { self.new ≡ [] }
    {
        self.pairs.clear();
    }
}
