ghost use Rattle.std.specs.Prelude.{◌≡◌, OnOk, OnErr, is_some};
ghost use Rattle.std.specs.FinMap as finite;
ghost use Rattle.py_machine.specs.Marked as spec;

use std::alloc::{AllocError, Global};
use std::collections::BTreeMap;
use std::marker::Model;

/// A set of numbers, which contracts see as a finite map to nothing.
#[derive(Drop)]
pub struct NumberSet {
    numbers: BTreeMap<u32, ()>,
}

impl Model for NumberSet {
    ghost use Rattle.std.specs.Ordering.{nat_cmp};
    ghost use Rattle.std.specs.FinMap as finite;
    ghost use Rattle.std.specs.FinSet.{FinSet, code};
    ghost use Rattle.std.specs.Coded.{coded_ℕ};

    ghost Value = { FinSet nat_cmp };

    ghost coded = { code coded_ℕ };

    ghost view = { λ s. finite.from_entries s.numbers.entries };
}

impl NumberSet {
    /// The empty set. Takes no memory.
    pub fn new(alloc: Global) -> NumberSet
        ensures { result ≡ finite.empty }
    {
        NumberSet {
            numbers: BTreeMap::new(alloc),
        }
    }

    /// Whether a number is in the set.
    pub fn has(&self, number: u32) -> bool
        ensures { result ≡ is_some (finite.get self.now number) }
    {
        self.numbers.get(&number).is_some()
    }

    /// Puts a number into the set. After an error nothing is changed.
    pub fn insert(&mut self, number: u32) -> Result<(), AllocError>
        ensures ok { OnOk result (self.new ≡ spec.with_member self.old number) }
        ensures err { OnErr result (self.new ≡ self.old) }
    {
        self.numbers.insert(number, ())?;
        Ok(())
    }
}
