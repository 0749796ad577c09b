//! Which histories a cell may be added to, and what they are then. Each law is the contract of a function that does nothing.

ghost use Rattle.std.specs.Prelude.{ℕ, ◌≡◌, ◌+◌, ◌<◌, ◌^◌, List, length};
ghost use Rattle.py_heap.specs.declared.state.State.{State};
ghost use Rattle.py_machine.specs.declared.marks.Marks.{Marks};
ghost use Rattle.graph_model.specs.declared.graph.Graph.{Graph};
ghost use Rattle.graph_model.specs.Faults.{IsGraph};
ghost use Rattle.linked_parts.specs.Parts.{ArePartsOf};
ghost use Rattle.run_graph.specs.Histories.{Run, IsHistory};
ghost use Rattle.run_graph.specs.Soundness.{IsRun};
ghost use Rattle.run_graph.specs.Growing.{first_cells};
ghost use Rattle.run_graph.specs.Fitting.{Fits, IsStep, TellsParts};
ghost use Rattle.history_graph.specs.declared.history.History.{History};
ghost use Rattle.history_graph.specs.Ends.{HasCells, IsCellOf, Makes};

/// The history of the first cells of a run has those cells.
pub fn histories_have_cells()
    ensures { (r : Run) (c : ℕ) (g : Graph) → IsRun r → IsHistory (first_cells r c) g → HasCells c g }
{}

/// A graph without a fault has its cells.
pub fn checked_graphs_have_cells()
    ensures { (g : Graph) → IsGraph g → HasCells (length g.cells) g }
{}

/// If a graph was the history of the first cells of a run, it is that of one cell more once that cell has ended.
pub fn a_history_stays_one()
    ensures { (r : Run) (c : ℕ) (s : State) (code : List ℕ) (meter steps : ℕ) (marks : Marks) (old now : History)
        → Makes s code meter steps marks old now → IsCellOf r c s code meter steps marks → ArePartsOf (r.state c) old.parts
        → IsRun r → IsHistory (first_cells r c) old.graph → IsHistory (first_cells r (c + 1)) now.graph }
{}

/// A graph without a fault, whose active versions were the parts of the state, is one once the cell has ended; it need not be
/// the history of a run. Its active versions stay the parts if closed states that are the same tell one length of a
/// part's text.
pub fn a_checked_graph_stays_one()
    ensures checks { (r : Run) (c : ℕ) (s : State) (code : List ℕ) (meter steps : ℕ) (marks : Marks) (old now : History)
        → Makes s code meter steps marks old now → IsCellOf r c s code meter steps marks → ArePartsOf (r.state c) old.parts
        → IsGraph old.graph → length old.graph.cells ≡ c → Fits r c old.graph → IsStep r c
        → c + 1 < 2 ^ 32 → length now.graph.versions < 2 ^ 32 → IsGraph now.graph }
    ensures fits { (r : Run) (c : ℕ) (s : State) (code : List ℕ) (meter steps : ℕ) (marks : Marks) (old now : History)
        → Makes s code meter steps marks old now → IsCellOf r c s code meter steps marks → ArePartsOf (r.state c) old.parts
        → IsGraph old.graph → length old.graph.cells ≡ c → Fits r c old.graph → IsStep r c → TellsParts r → Fits r (c + 1) now.graph }
{}
