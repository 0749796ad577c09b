ghost use Rattle.std.specs.Prelude.{◌≡◌, ◌<◌, ◌≤◌, [], ◌∷◌, ◌++◌, length, slice_get, slice_set, insert, remove, Some, IsTrue, OnOk, OnErr};
ghost use Rattle.py_heap.specs.Dicts.{value_under, with_pair, without_key};
ghost use Rattle.py_heap.specs.Objects.{is_list, is_dict, is_handle, items_of, pairs_of, name_of, uses_of};
ghost use Rattle.py_heap.specs.States.{raised};

use crate::heap::Object;
use plain_data::Items;
use py_value::{Key, Value};
use std::alloc::AllocError;

/// The changes of one object, each of the kind that it is made on. `State` makes them at addresses.
impl Object {
    pub(crate) fn set_item(&mut self, index: u32, value: Value)
        requires list { IsTrue (is_list (Some self.old)) }
        requires within { index < length (items_of (Some self.old)) }
        ensures { self.new ≡ Object.List (slice_set (items_of (Some self.old)) index value) }
    {
        match self {
            Object::List(items) => items.set(index as usize, value),
            _ => unreachable!(),
        }
    }

    pub(crate) fn push_item(&mut self, value: Value) -> Result<(), AllocError>
        requires { IsTrue (is_list (Some self.old)) }
        ensures ok { OnOk result (self.new ≡ Object.List (items_of (Some self.old) ++ value ∷ [])) }
        ensures err { OnErr result (self.new ≡ self.old) }
    {
        match self {
            Object::List(items) => items.push(value),
            _ => unreachable!(),
        }
    }

    pub(crate) fn extend_items(&mut self, more: Items<Value>) -> Result<(), AllocError>
        requires { IsTrue (is_list (Some self.old)) }
        ensures ok { OnOk result (self.new ≡ Object.List (items_of (Some self.old) ++ more)) }
        ensures err { OnErr result (self.new ≡ self.old) }
    {
        match self {
            Object::List(items) => items.append(more),
            _ => unreachable!(),
        }
    }

    pub(crate) fn insert_item(&mut self, index: u32, value: Value) -> Result<(), AllocError>
        requires list { IsTrue (is_list (Some self.old)) }
        requires within { index ≤ length (items_of (Some self.old)) }
        ensures ok { OnOk result (self.new ≡ Object.List (insert (items_of (Some self.old)) index value)) }
        ensures err { OnErr result (self.new ≡ self.old) }
    {
        match self {
            Object::List(items) => items.insert(index as usize, value),
            _ => unreachable!(),
        }
    }

    pub(crate) fn remove_item(&mut self, index: u32) -> Value
        requires list { IsTrue (is_list (Some self.old)) }
        requires within { index < length (items_of (Some self.old)) }
        ensures value { slice_get (items_of (Some self.old)) index ≡ Some result }
        ensures rest { self.new ≡ Object.List (remove (items_of (Some self.old)) index) }
    {
        match self {
            Object::List(items) => items.remove(index as usize),
            _ => unreachable!(),
        }
    }

    pub(crate) fn put_key(&mut self, key: Key, value: Value) -> Result<(), AllocError>
        requires { IsTrue (is_dict (Some self.old)) }
        ensures ok { OnOk result (self.new ≡ Object.Dict (with_pair (pairs_of (Some self.old)) key value)) }
        ensures err { OnErr result (self.new ≡ self.old) }
    {
        match self {
            Object::Dict(dict) => dict.put(key, value),
            _ => unreachable!(),
        }
    }

    pub(crate) fn remove_key(&mut self, key: &Key) -> Option<Value>
        requires { IsTrue (is_dict (Some self.old)) }
        ensures value { result ≡ value_under (pairs_of (Some self.old)) key.now }
        ensures rest { self.new ≡ Object.Dict (without_key (pairs_of (Some self.old)) key.now) }
    {
        match self {
            Object::Dict(dict) => dict.remove(key),
            _ => unreachable!(),
        }
    }

    pub(crate) fn clear(&mut self)
        ensures list { IsTrue (is_list (Some self.old)) → self.new ≡ Object.List [] }
        ensures dict { IsTrue (is_dict (Some self.old)) → self.new ≡ Object.Dict [] }
    {
        match self {
            Object::List(items) => items.clear(),
            Object::Dict(dict) => dict.clear(),
            Object::Tuple(_) | Object::Function(_) | Object::Handle { .. } => {}
        }
    }

    pub(crate) fn raise_uses(&mut self) -> u64
        requires { IsTrue (is_handle (Some self.old)) }
        ensures uses { result ≡ raised (uses_of (Some self.old)) }
        ensures object { self.new ≡ Object.Handle (name_of (Some self.old)) (raised (uses_of (Some self.old))) }
    {
        match self {
            Object::Handle { uses, .. } => {
                *uses = uses.saturating_add(1);
                *uses
            }
            _ => unreachable!(),
        }
    }
}
