ghost use Rattle.std.specs.Prelude.{ℕ, suc, List};
ghost use Rattle.graph_model.specs.declared.graph.Graph.{Graph};
ghost use Rattle.py_heap.specs.declared.state.State.{State};
ghost use Rattle.py_heap.specs.References.{IsClosed};
ghost use Rattle.py_machine.specs.Runs.{Name};
ghost use Rattle.linked_parts.specs.Parts.{HasValue};
ghost use Rattle.run_graph.specs.Histories.{Run};
ghost use Rattle.run_graph.specs.Soundness.{TreeReader, IsRun};
ghost use Rattle.run_graph.specs.RunLists.{ListedCell, IsRunList, run_of};
ghost use Rattle.every_history.specs.Reading.{read};
ghost use Rattle.every_history.specs.Existence.{IsInAPart, HasNext, HasHistory, HasSoundHistory};

/// In a closed state each name with a value is in a part.
pub fn each_name_is_in_a_part()
    ensures { (s : State) (x : Name) → IsClosed s → HasValue s x → IsInAPart s x }
{}

/// For every graph there is what a cell makes of it, if the states before and after the cell are closed. The graph need not be
/// the history of the cells before.
pub fn each_cell_makes_a_graph()
    ensures { (r : Run) (c : ℕ) (g : Graph) → IsClosed (r.state c) → IsClosed (r.state (suc c)) → HasNext r c g }
{}

/// Every run has a history. So has every list of cells, each run in the state that the one before it left, whatever trees their
/// codes have, under all draws, and whatever is taken as the size of a part. The numbers in such a graph have no bound.
pub fn every_run_has_a_history()
    ensures run { (r : Run) → IsRun r → HasHistory r }
    ensures run_list { (trees : TreeReader) (size : List Name → State → ℕ) (entries : List ListedCell) → HasHistory (run_of trees size entries) }
{}

/// Every list of codes, read by the reader and run from the empty state, each under just its draws, has a history. It is sound,
/// and with fewer than 2^32 cells and versions it has no fault.
pub fn every_list_of_codes_has_a_sound_history()
    ensures { (size : List Name → State → ℕ) (entries : List ListedCell) → IsRunList read entries → HasSoundHistory read (run_of read size entries) }
{}
