ghost use Rattle.std.specs.Prelude.{ℕ, ◌≡◌, ◌<◌, All, length, slice_index_or, IfOk};
ghost use Rattle.py_heap.specs.References.{AreLive, IsClosed};
ghost use Rattle.part_bytes.specs.Parts.{order, number_in};

use plain_data::{Items, Text};
use py_heap::State;
use std::alloc::{AllocError, Global};

/// The objects that names reach, in the order in which they are reached first, with their numbers.
#[derive(Drop)]
pub struct Numbers {
    /// The addresses.
    pub order: Items<u32>,
    /// How many there are.
    pub total: u32,
    /// The number at each address of a reached object, and `total` at the others.
    pub by_address: Items<u32>,
    ghost counted: { total ≡ length order },
    ghost numbered_by: { (at : ℕ) → slice_index_or by_address at total ≡ number_in order at },
}

/// A count, if four bytes hold it: a part with one of 2^32 or more is want of memory.
pub(crate) fn count_of(n: usize) -> Result<u32, AllocError>
    ensures { IfOk result (λ count. count ≡ n) }
{
    if n > u32::MAX as usize {
        return Err(AllocError);
    }
    Ok(n as u32)
}

/// For each address below `room` its number in the order, and `total` for one that isn't in it.
fn by_address_of(
    alloc: Global,
    order: &[u32],
    room: usize,
    total: u32,
) -> Result<Items<u32>, AllocError>
    requires total { total ≡ length order.now }
    requires live { All (λ at. at < room) order.now }
    ensures { IfOk result (λ by_address. (at : ℕ) → slice_index_or by_address at total ≡ number_in order.now at) }
{
    let mut by_address = Items::from_vec(vec![in alloc; total; room]?);
    let mut next = total;
    while next > 0 {
        next -= 1;
        by_address.set(order[next as usize] as usize, next);
    }
    Ok(by_address)
}

impl Numbers {
    /// Those of the objects that these names reach. With 2^32 of them or more it is want of memory.
    pub fn new(alloc: Global, state: &State, names: &[Text]) -> Result<Numbers, AllocError>
        requires { IsClosed state.now }
        ensures order { IfOk result (λ numbers. numbers.order ≡ order state.now names.now) }
        ensures live { IfOk result (λ numbers. AreLive state.now.heap numbers.order) }
    {
        let order = state.reach(alloc, names)?;
        let total = count_of(order.len())?;
        let by_address = by_address_of(alloc, order.as_slice(), state.len(), total)?;
        Ok(Numbers {
            order,
            total,
            by_address,
        })
    }

    /// The number of the object at an address: how many come before it in the order. If it isn't in the order, this is `total`.
    pub fn number(&self, at: u32) -> u32
        ensures { result ≡ number_in self.now.order at }
    {
        match self.by_address.get(at as usize) {
            Some(number) => *number,
            None => self.total,
        }
    }
}
