ghost use Rattle.std.specs.Prelude.{ℕ, ◌≡◌, ◌<◌, ◌≤◌, [], All, Some, length, slice_get, vec_len, count_by, flat_map, IfOk, OnOk};
ghost use Rattle.py_heap.specs.References.{value_refs, pair_refs, object_refs};
ghost use Rattle.py_heap.specs.Searches.{IsMarkedAs, noted, all_noted};

use crate::dict::Dict;
use crate::heap::Object;
use plain_data::Items;
use py_value::Value;
use std::alloc::{AllocError, Global};

/// The addresses that a search has found, and for each object a mark whether it is one of them.
#[derive(Drop)]
pub(crate) struct Search {
    pub(crate) marks: Vec<bool>,
    pub(crate) found: Items<u32>,
    ghost marked: { IsMarkedAs marks.items found },
    ghost counted: { count_by (λ mark. mark) marks.items ≡ length found },
}

impl Search {
    /// A search among `room` objects that has found none.
    pub(crate) fn new(alloc: Global, room: usize) -> Result<Search, AllocError>
        ensures found { IfOk result (λ search. search.found ≡ []) }
        ensures room { IfOk result (λ search. vec_len search.marks ≡ room) }
    {
        Ok(Search {
            marks: vec![in alloc; false; room]?,
            found: Items::new(alloc),
        })
    }

    /// How many addresses were found.
    pub(crate) fn len(&self) -> usize
        ensures value { result ≡ length self.now.found }
        ensures room { result ≤ vec_len self.now.marks }
    {
        self.found.len()
    }

    /// The address that was found at that index.
    pub(crate) fn at(&self, index: usize) -> u32
        requires { index < length self.now.found }
        ensures value { slice_get self.now.found index ≡ Some result }
        ensures room { result < vec_len self.now.marks }
    {
        self.found.as_slice()[index]
    }

    /// Notes an address, unless it was found before.
    pub(crate) fn note(&mut self, at: u32) -> Result<(), AllocError>
        requires { at < vec_len self.old.marks }
        ensures found { OnOk result (self.new.found ≡ noted self.old.found at) }
        ensures room { vec_len self.new.marks ≡ vec_len self.old.marks }
    {
        if !self.marks[at as usize] {
            self.found.push(at)?;
            self.marks[at as usize] = true;
        }
        Ok(())
    }

    /// Notes the address that a value names.
    pub(crate) fn note_value(&mut self, value: &Value) -> Result<(), AllocError>
        requires { All (λ at. at < vec_len self.old.marks) (value_refs value.now) }
        ensures found { OnOk result (self.new.found ≡ all_noted self.old.found (value_refs value.now)) }
        ensures room { vec_len self.new.marks ≡ vec_len self.old.marks }
    {
        if let Value::Ref(at) = value {
            self.note(*at)?;
        }
        Ok(())
    }

    /// Notes the addresses that values name, in order.
    pub(crate) fn note_values(&mut self, values: &[Value]) -> Result<(), AllocError>
        requires { All (λ at. at < vec_len self.old.marks) (flat_map value_refs values.now) }
        ensures found { OnOk result (self.new.found ≡ all_noted self.old.found (flat_map value_refs values.now)) }
        ensures room { vec_len self.new.marks ≡ vec_len self.old.marks }
    {
        for value in values {
            self.note_value(value)?;
        }
        Ok(())
    }

    /// Notes the addresses that the values of a dict name, in order.
    pub(crate) fn note_pairs(&mut self, dict: &Dict) -> Result<(), AllocError>
        requires { All (λ at. at < vec_len self.old.marks) (flat_map pair_refs dict.now) }
        ensures found { OnOk result (self.new.found ≡ all_noted self.old.found (flat_map pair_refs dict.now)) }
        ensures room { vec_len self.new.marks ≡ vec_len self.old.marks }
    {
        for index in 0..dict.len() {
            let (_, value) = dict.pair_at(index);
            self.note_value(value)?;
        }
        Ok(())
    }

    /// Notes the addresses that an object names, in order.
    pub(crate) fn note_object(&mut self, object: &Object) -> Result<(), AllocError>
        requires { All (λ at. at < vec_len self.old.marks) (object_refs object.now) }
        ensures found { OnOk result (self.new.found ≡ all_noted self.old.found (object_refs object.now)) }
        ensures room { vec_len self.new.marks ≡ vec_len self.old.marks }
    {
        match object {
            Object::List(items) | Object::Tuple(items) => self.note_values(items.as_slice()),
            Object::Dict(dict) => self.note_pairs(dict),
            Object::Function(_) | Object::Handle { .. } => Ok(()),
        }
    }
}
