ghost use Rattle.std.specs.Prelude.{◌≡◌, ◌↔◌, ◌<◌, ◌≤◌, [], ◌∷◌, ◌++◌, Some, IsTrue, OnOk, OnErr, length, slice_get, slice_set, insert, remove};
ghost use Rattle.py_heap.specs.Dicts.{value_under, with_pair, without_key};
ghost use Rattle.py_heap.specs.Objects.{IsListAt, IsDictAt, IsFunctionAt, IsHandleAt, IsListOrDictAt, items_at, pairs_at, uses_at};
ghost use Rattle.py_heap.specs.States as spec;

use crate::dict::Dict;
use crate::function::Function;
use crate::heap::Object;
use crate::state::State;
use plain_data::Items;
use py_value::{Key, Value};
use std::alloc::AllocError;

impl State {
    /// Whether there is an object at an address and it is a list.
    pub fn is_list(&self, at: u32) -> bool
        ensures { IsTrue result ↔ IsListAt self.now.heap at }
    {
        let heap = &self.heap;
        matches!(heap.objects.get(at as usize), Some(Object::List(_)))
    }

    /// Whether there is an object at an address and it is a dict.
    pub fn is_dict(&self, at: u32) -> bool
        ensures { IsTrue result ↔ IsDictAt self.now.heap at }
    {
        let heap = &self.heap;
        matches!(heap.objects.get(at as usize), Some(Object::Dict(_)))
    }

    /// Whether there is an object at an address and it is a handle.
    pub fn is_handle(&self, at: u32) -> bool
        ensures { IsTrue result ↔ IsHandleAt self.now.heap at }
    {
        let heap = &self.heap;
        matches!(heap.objects.get(at as usize), Some(Object::Handle { .. }))
    }

    /// The items of the list at an address.
    pub fn list(&self, at: u32) -> &Items<Value>
        requires { IsListAt self.now.heap at }
        ensures { slice_get self.now.heap at ≡ Some (Object.List result.now) }
    {
        match self.get(at) {
            Object::List(items) => items,
            _ => unreachable!(),
        }
    }

    /// The dict at an address.
    pub fn dict(&self, at: u32) -> &Dict
        requires { IsDictAt self.now.heap at }
        ensures { slice_get self.now.heap at ≡ Some (Object.Dict result.now) }
    {
        match self.get(at) {
            Object::Dict(dict) => dict,
            _ => unreachable!(),
        }
    }

    /// The function at an address.
    pub fn function(&self, at: u32) -> &Function
        requires { IsFunctionAt self.now.heap at }
        ensures { slice_get self.now.heap at ≡ Some (Object.Function result.now) }
    {
        match self.get(at) {
            Object::Function(function) => function,
            _ => unreachable!(),
        }
    }

    /// How many times the handle at an address was used.
    pub fn uses(&self, at: u32) -> u64
        requires { IsHandleAt self.now.heap at }
        ensures { result ≡ uses_at self.now.heap at }
    {
        match self.get(at) {
            Object::Handle { uses, .. } => *uses,
            _ => unreachable!(),
        }
    }

    /// Replaces an item of the list at an address.
    pub fn set_item(&mut self, at: u32, index: u32, value: Value)
        requires list { IsListAt self.old.heap at }
        requires within { index < length (items_at self.old.heap at) }
        ensures { self.new ≡ spec.with_items self.old at (slice_set (items_at self.old.heap at) index value) }
    {
        let heap = &mut self.heap;
        heap.objects[at as usize].set_item(index, value);
    }

    /// Puts an item at the end of the list at an address. After an error nothing is changed.
    pub fn push_item(&mut self, at: u32, value: Value) -> Result<(), AllocError>
        requires { IsListAt self.old.heap at }
        ensures ok { OnOk result (self.new ≡ spec.with_items self.old at (items_at self.old.heap at ++ value ∷ [])) }
        ensures err { OnErr result (self.new ≡ self.old) }
    {
        let heap = &mut self.heap;
        heap.objects[at as usize].push_item(value)
    }

    /// Puts items at the end of the list at an address. After an error nothing is changed.
    pub fn extend_items(&mut self, at: u32, more: Items<Value>) -> Result<(), AllocError>
        requires { IsListAt self.old.heap at }
        ensures ok { OnOk result (self.new ≡ spec.with_items self.old at (items_at self.old.heap at ++ more)) }
        ensures err { OnErr result (self.new ≡ self.old) }
    {
        let heap = &mut self.heap;
        heap.objects[at as usize].extend_items(more)
    }

    /// Puts an item into the list at an address, at that index; those from there on move up. After an error nothing is
    /// changed.
    pub fn insert_item(&mut self, at: u32, index: u32, value: Value) -> Result<(), AllocError>
        requires list { IsListAt self.old.heap at }
        requires within { index ≤ length (items_at self.old.heap at) }
        ensures ok { OnOk result (self.new ≡ spec.with_items self.old at (insert (items_at self.old.heap at) index value)) }
        ensures err { OnErr result (self.new ≡ self.old) }
    {
        let heap = &mut self.heap;
        heap.objects[at as usize].insert_item(index, value)
    }

    /// Takes an item out of the list at an address; those after it move down.
    pub fn remove_item(&mut self, at: u32, index: u32) -> Value
        requires list { IsListAt self.old.heap at }
        requires within { index < length (items_at self.old.heap at) }
        ensures value { slice_get (items_at self.old.heap at) index ≡ Some result }
        ensures rest { self.new ≡ spec.with_items self.old at (remove (items_at self.old.heap at) index) }
    {
        let heap = &mut self.heap;
        heap.objects[at as usize].remove_item(index)
    }

    /// Puts a value under a key of the dict at an address. A key that is there keeps its position and its spelling; a new one
    /// goes last. After an error nothing is changed.
    pub fn put_key(&mut self, at: u32, key: Key, value: Value) -> Result<(), AllocError>
        requires { IsDictAt self.old.heap at }
        ensures ok { OnOk result (self.new ≡ spec.with_pairs self.old at (with_pair (pairs_at self.old.heap at) key value)) }
        ensures err { OnErr result (self.new ≡ self.old) }
    {
        let heap = &mut self.heap;
        heap.objects[at as usize].put_key(key, value)
    }

    /// Takes a pair out of the dict at an address, and answers its value, if its key was there. The others keep their order.
    pub fn remove_key(&mut self, at: u32, key: &Key) -> Option<Value>
        requires { IsDictAt self.old.heap at }
        ensures value { result ≡ value_under (pairs_at self.old.heap at) key.now }
        ensures rest { self.new ≡ spec.with_pairs self.old at (without_key (pairs_at self.old.heap at) key.now) }
    {
        let heap = &mut self.heap;
        heap.objects[at as usize].remove_key(key)
    }

    /// Takes all items out of the list at an address, or all pairs out of the dict there.
    pub fn clear(&mut self, at: u32)
        requires { IsListOrDictAt self.old.heap at }
        ensures list { IsListAt self.old.heap at → self.new ≡ spec.with_items self.old at [] }
        ensures dict { IsDictAt self.old.heap at → self.new ≡ spec.with_pairs self.old at [] }
    {
        let heap = &mut self.heap;
        heap.objects[at as usize].clear();
    }

    /// Counts one more use of the handle at an address, and answers how many there are now. The count doesn't rise past its
    /// type's end.
    pub fn raise_uses(&mut self, at: u32) -> u64
        requires { IsHandleAt self.old.heap at }
        ensures uses { result ≡ spec.raised (uses_at self.old.heap at) }
        ensures state { self.new ≡ spec.with_uses self.old at (spec.raised (uses_at self.old.heap at)) }
    {
        let heap = &mut self.heap;
        heap.objects[at as usize].raise_uses()
    }
}
