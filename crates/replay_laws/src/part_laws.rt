ghost use Rattle.std.specs.Prelude.{◌≡◌, List, Contains};
ghost use Rattle.py_heap.specs.declared.state.State.{State};
ghost use Rattle.py_heap.specs.References.{IsClosed};
ghost use Rattle.py_machine.specs.Runs.{Name};
ghost use Rattle.py_laws.specs.Same.{Same};
ghost use Rattle.part_bytes.specs.Parts.{part_of};
ghost use Rattle.part_bytes.specs.Texts.{part_text};

/// Closed states that are the same over the names of a part have one part with these names, by number, and so one text of it.
pub fn same_states_have_one_text()
    ensures part { (names : List Name) (s t : State) → IsClosed s → IsClosed t → Same (Contains names) s t → part_of s names ≡ part_of t names }
    ensures text { (names : List Name) (s t : State) → IsClosed s → IsClosed t → Same (Contains names) s t → part_text s names ≡ part_text t names }
{}
