ghost use Rattle.std.specs.Prelude.{◌≡◌};
ghost use Rattle.py_machine.specs.Marked as spec;

use crate::numbers::NumberSet;
use plain_data::TextMap;
use std::alloc::Global;

/// What a cell did that its report speaks of, as sets.
#[derive(Drop)]
pub struct Marks {
    /// The names looked up, found or not, before they were bound or unbound.
    pub looked: TextMap<()>,
    /// The names bound or unbound.
    pub bound: TextMap<()>,
    /// The addresses of the objects changed.
    pub changed: NumberSet,
    /// Whether it drew.
    pub drew: bool,
}

impl Marks {
    /// Nothing. Takes no memory.
    pub fn new(alloc: Global) -> Marks
        ensures { result ≡ spec.no_marks }
    {
        Marks {
            looked: TextMap::new(alloc),
            bound: TextMap::new(alloc),
            changed: NumberSet::new(alloc),
            drew: false,
        }
    }
}
