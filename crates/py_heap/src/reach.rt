ghost use Rattle.std.specs.Prelude.{ℕ, ◌≡◌, ◌≢◌, ◌<◌, ◌↔◌, AllPairs, Contains, length, slice_index_or, vec_len, flat_map, IfOk, OnOk};
ghost use Rattle.py_heap.specs.References.{AreLive, IsClosed};
ghost use Rattle.py_heap.specs.Reaching.{Reach, name_refs, refs_at, firsts, met};
ghost use Rattle.py_heap.specs.Searches.{all_noted};

use crate::search::Search;
use crate::state::State;
use plain_data::{Items, Text};
use std::alloc::{AllocError, Global};

impl State {
    /// Notes the addresses in the values of names, in the order of the names.
    fn note_names(&self, search: &mut Search, names: &[Text]) -> Result<(), AllocError>
        requires closed { IsClosed self.now }
        requires room { vec_len search.old.marks ≡ length self.now.heap }
        ensures found { OnOk result (search.new.found ≡ all_noted search.old.found (flat_map (name_refs self.now) names.now)) }
        ensures room { vec_len search.new.marks ≡ vec_len search.old.marks }
    {
        for name in names {
            if let Some(value) = self.look(name) {
                search.note_value(value)?;
            }
        }
        Ok(())
    }

    /// Notes the addresses in the object whose address was found at that index.
    fn note_from(&self, search: &mut Search, index: usize) -> Result<(), AllocError>
        requires closed { IsClosed self.now }
        requires room { vec_len search.old.marks ≡ length self.now.heap }
        requires within { index < length search.old.found }
        ensures found { OnOk result (search.new.found ≡ all_noted search.old.found (refs_at self.now (slice_index_or search.old.found index 0))) }
        ensures room { vec_len search.new.marks ≡ vec_len search.old.marks }
    {
        let at = search.at(index);
        search.note_object(self.get(at))
    }

    /// The addresses of the objects that these names reach: those in the values of the names and, with each address, those
    /// in its object. Each is there once, in the order in which they are reached first: name by name, and then object by
    /// object in that same order.
    pub fn reach(&self, alloc: Global, names: &[Text]) -> Result<Items<u32>, AllocError>
        requires { IsClosed self.now }
        ensures members { IfOk result (λ found. (at : ℕ) → Contains found at ↔ Reach self.now names.now at) }
        ensures live { IfOk result (λ found. AreLive self.now.heap found) }
        ensures distinct { IfOk result (λ found. AllPairs (λ a b. a ≢ b) found) }

        // Each address is where it is met first.
        ensures order { IfOk result (λ found. found ≡ firsts (met self.now names.now found)) }
    {
        let mut search = Search::new(alloc, self.len())?;
        self.note_names(&mut search, names)?;
        let mut next = 0;
        while next < search.len() {
            self.note_from(&mut search, next)?;
            next += 1;
        }
        let Search { found, .. } = search;
        Ok(found)
    }
}
