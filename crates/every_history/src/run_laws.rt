ghost use Rattle.std.specs.Prelude.{ℕ, ◌<◌, ◌^◌, List, length};
ghost use Rattle.graph_model.specs.declared.graph.Graph.{Graph};
ghost use Rattle.graph_model.specs.Faults.{IsGraph};
ghost use Rattle.py_heap.specs.declared.state.State.{State};
ghost use Rattle.py_machine.specs.Runs.{Name};
ghost use Rattle.run_graph.specs.Histories.{IsHistory};
ghost use Rattle.run_graph.specs.Soundness.{HasNames};
ghost use Rattle.run_graph.specs.RunLists.{ListedCell, run_of, entry_done};
ghost use Rattle.reader_laws.specs.Valid.{IsValidState};
ghost use Rattle.history_graph.specs.Ends.{LedTo};
ghost use Rattle.every_history.specs.Reading.{read};

/// Each cell of a list of codes, run from the empty state, binds and deletes only names that a program may bind, and looks up
/// only identifiers.
pub fn cells_of_codes_have_names()
    ensures { (size : List Name → State → ℕ) (entries : List ListedCell) → HasNames (run_of read size entries) }
{}

/// A cell of a code leads from a valid state to the one in which it ends, as its marks tell.
pub fn each_cell_leads_on()
    ensures { (cell : ListedCell) (s : State) → IsValidState s → LedTo s s.meter (entry_done read cell s).1.marks (entry_done read cell s).1.state }
{}

/// The history of a list of codes has no fault.
pub fn histories_of_codes_pass_the_check()
    ensures { (size : List Name → State → ℕ) (entries : List ListedCell) (g : Graph) → IsHistory (run_of read size entries) g
        → length entries < 2 ^ 32 → length g.versions < 2 ^ 32 → IsGraph g }
{}
