ghost use Rattle.std.specs.Prelude.{◌≡◌, IfOk, None, IsSome, MatchOption, if◌then◌else◌, is_some};
ghost use Rattle.std.specs.Option.{option_copied};
ghost use Rattle.std.specs.FinMap as finite;
ghost use Rattle.py_heap.specs.Numbering.{IsNumbering};
ghost use Rattle.py_machine.specs.Slots.{emptied};

use crate::frame::FrameSlot;
use plain_data::{Items, Shared, Text, TextMap};
use py_value::Value;
use std::alloc::{AllocError, Global};
use std::marker::Model;

/// The locals of a call, which contracts see as a finite map from their names. The names are the function's: a call
/// copies none of them.
#[derive(Drop)]
pub struct Slots {
    numbers: Shared<TextMap<usize>>,
    values: Items<FrameSlot>,
}

impl Model for Slots {
    ghost use Rattle.std.specs.Prelude.{length};
    ghost use Rattle.std.specs.Ordering.{nat_cmp};
    ghost use Rattle.std.specs.Cmp.Lexicographic.{slice_cmp};
    ghost use Rattle.std.specs.FinMap as finite;
    ghost use Rattle.std.specs.Coded.{coded_ℕ, coded_list};
    ghost use Rattle.py_machine.specs.declared.frame.FrameSlot.{FrameSlot as SlotOf};
    ghost use Rattle.py_machine.specs.contracts.frame.FrameSlot as slot;
    ghost use Rattle.py_heap.specs.Numbering.{IsNumbering};
    ghost use Rattle.py_machine.specs.Slots.{filled};

    ghost Value = { finite.FinMap (slice_cmp nat_cmp) SlotOf };

    ghost coded = { finite.code (coded_list coded_ℕ) slot.the_row.coded };

    ghost view = { λ s. filled s.numbers s.values };

    ghost invariant = { λ s. IsNumbering s.numbers (length s.values) };
}

impl Slots {
    /// Each name that has a number, unbound. Takes memory for one list of so many slots.
    pub fn new(
        alloc: Global,
        numbers: Shared<TextMap<usize>>,
        count: usize,
    ) -> Result<Slots, AllocError>
        requires { IsNumbering numbers count }
        ensures { IfOk result (λ slots. slots ≡ emptied numbers) }
    {
        let mut values = Vec::with_capacity(alloc, count)?;
        for _slot in 0..count {
            values.push(FrameSlot::Empty)?;
        }
        Ok(Slots {
            numbers,
            values: Items::from_vec(values),
        })
    }

    /// The slot of a name, if it has one. One look-up in a map.
    #[inline(always)]
    pub fn look(&self, name: &Text) -> Option<&FrameSlot>
        ensures { option_copied result ≡ finite.get self.now name.now }
    {
        match self.numbers.get().look(name) {
            Some(at) => Some(&self.values.as_slice()[*at]),
            None => None,
        }
    }

    /// Gives a local a value. A name that has no slot gets it back, and nothing changes. One look-up in a map; takes no
    /// memory.
    #[inline(always)]
    pub fn hold(&mut self, name: &Text, value: Value) -> Option<Value>
        ensures { MatchOption result (IsSome (finite.get self.old name.now) × (self.new ≡ finite.insert self.old name.now (FrameSlot.Held value))) (λ back. (back ≡ value) × (finite.get self.old name.now ≡ None) × (self.new ≡ self.old)) }
    {
        match self.numbers.get().look(name) {
            Some(at) => {
                self.values.set(*at, FrameSlot::Held(value));
                None
            }
            None => Some(value),
        }
    }

    /// Takes a local's value away, and says whether the name has a slot: else nothing changes. One look-up in a map;
    /// takes no memory.
    pub fn clear(&mut self, name: &Text) -> bool
        ensures there { result ≡ is_some (finite.get self.old name.now) }
        ensures slots { self.new ≡ (if result then finite.insert self.old name.now FrameSlot.Empty else self.old) }
    {
        match self.numbers.get().look(name) {
            Some(at) => {
                self.values.set(*at, FrameSlot::Empty);
                true
            }
            None => false,
        }
    }
}
