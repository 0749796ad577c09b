ghost use Rattle.std.specs.Prelude.{◌≡◌, ◌<◌, ◌≤◌, ◌+◌, ◌^◌, ℕ, [], ◌∷◌, ◌++◌, length, slice_index, slice_set, IfOk, OnOk};
ghost use Rattle.std.specs.Vec.{vec_len, vec_capacity};

use std::alloc::{AllocError, Global};

/// The directed arcs of each node as linked lists, from the latest to the first. An entry is one more than an arc's
/// number, or 0 if the list ends.
#[derive(Debug, Drop)]
pub struct Lists {
    pub first: Vec<u32>,
    pub next: Vec<u32>,
}

/// The number at that index, or 0 after the end.
pub fn number_at(numbers: &[u32], at: u32) -> u32
    ensures { result ≡ slice_index numbers.now at }
{
    match numbers.get(at as usize) {
        Some(number) => *number,
        None => 0,
    }
}

impl Lists {
    /// No lists. Takes no memory.
    pub fn new(alloc: Global) -> Lists
        ensures first { result.first.items ≡ [] }
        ensures next { result.next.items ≡ [] }
    {
        Lists {
            first: Vec::new(alloc),
            next: Vec::new(alloc),
        }
    }

    /// Makes room for two arcs more, of nodes up to this one. Nothing else changes.
    pub fn make_room(&mut self, node: u32) -> Result<(), AllocError>
        ensures first { (n : ℕ) → slice_index self.new.first.items n ≡ slice_index self.old.first.items n }
        ensures next { self.new.next.items ≡ self.old.next.items }
        ensures node { OnOk result (node < length self.new.first.items) }
        ensures room { OnOk result (vec_len self.new.next + 2 ≤ vec_capacity self.new.next) }
    {
        self.next.reserve(2)?;
        'nodes: for _ in 0..u64::from(node) + 1 {
            if self.first.len() > node as usize {
                break;
            }
            self.first.push(0)?;
        }
        Ok(())
    }

    /// Adds an arc that leaves the node, before the others of its list.
    pub fn add(&mut self, node: u32)
        requires node { node < length self.old.first.items }
        requires room { vec_len self.old.next < vec_capacity self.old.next }
        requires few { length self.old.next.items + 1 < 2 ^ 32 }
        ensures first { self.new.first.items ≡ slice_set self.old.first.items node (length self.old.next.items + 1) }
        ensures next { self.new.next.items ≡ self.old.next.items ++ slice_index self.old.first.items node ∷ [] }
        ensures len { vec_len self.new.next ≡ vec_len self.old.next + 1 }
        ensures capacity { vec_capacity self.new.next ≡ vec_capacity self.old.next }
    {
        let position = self.first[node as usize];
        self.next.push_reserved(position);
        self.first[node as usize] = self.next.len() as u32;
    }
}
