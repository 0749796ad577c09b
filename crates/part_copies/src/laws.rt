//! Parts of states, and what is written of them. Each law is the contract of a function that does nothing.

ghost use Rattle.std.specs.Prelude.{◌≡◌, ℕ, List, ◌++◌, length, Contains, Ok};
ghost use Rattle.py_heap.specs.declared.state.State.{State};
ghost use Rattle.py_heap.specs.References.{IsClosed};
ghost use Rattle.py_machine.specs.Runs.{Name};
ghost use Rattle.py_laws.specs.Same.{Same};
ghost use Rattle.part_bytes.specs.Parts.{part_of};
ghost use Rattle.part_bytes.specs.Texts.{part_text};
ghost use Rattle.checkpoint_reader.specs.PartReading.{part_read};
ghost use Rattle.checkpoint_laws.specs.SpelledParts.{HasPartText};
ghost use Rattle.part_loader.specs.Loading.{state_of};
ghost use Rattle.part_copies.specs.Written.{CanBeWritten};

/// What some names of a closed state have and reach is, as a state of its own, closed, and the same as the state over these names.
pub fn a_part_by_itself_is_a_copy()
    ensures closed { (s : State) (names : List Name) → IsClosed s → IsClosed (state_of (part_of s names)) }
    ensures same { (s : State) (names : List Name) → IsClosed s → Same (Contains names) s (state_of (part_of s names)) }
{}

/// If names can be written down, their part has a text. So that text is read as the part, whatever follows it, and the part is a
/// copy of the state over these names.
pub fn what_is_written_is_read_as_a_copy()
    ensures text { (s : State) (names : List Name) → IsClosed s → CanBeWritten s names → HasPartText (part_of s names) }
    ensures read { (s : State) (names : List Name) (rest : List ℕ) → IsClosed s → CanBeWritten s names
        → part_read (part_text s names ++ rest) ≡ Ok (part_of s names, length (part_text s names)) }
{}
