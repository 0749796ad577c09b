ghost use Rattle.std.specs.Prelude.{◌≡◌, OnOk, OnErr};
ghost use Rattle.py_heap.specs.declared.state.State.{State};
ghost use Rattle.py_heap.specs.References.{IsClosed};
ghost use Rattle.linked_parts.specs.After.{IsAfter};
ghost use Rattle.linked_parts.specs.Parts.{ArePartsOf};

use crate::listing::parts_of;
use crate::parts::Parts;
use py_heap::State;
use py_machine::Marks;
use std::alloc::{AllocError, Global};

impl Parts {
    /// Goes on after a cell with these marks: if these were the parts of the state before it, they become those of the
    /// state after it. After an error nothing is changed.
    pub fn after(&mut self, alloc: Global, state: &State, marks: &Marks) -> Result<(), AllocError>
        requires { IsClosed state.now }
        ensures ok { OnOk result ((before : State) → IsClosed before → ArePartsOf before self.old → IsAfter before marks.now state.now → ArePartsOf state.now self.new) }
        ensures err { OnErr result (self.new ≡ self.old) }
    {
        *self = parts_of(alloc, state)?;
        Ok(())
    }
}
