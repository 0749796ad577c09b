//! Sessions and their bytes. The law is the contract of a function that does nothing.

ghost use Rattle.std.specs.Prelude.{◌≡◌, ℕ, List, length};
ghost use Rattle.py_heap.specs.declared.state.State.{State};
ghost use Rattle.py_laws.specs.Same.{SameStates};
ghost use Rattle.graph_model.specs.declared.graph.Graph.{Graph};
ghost use Rattle.graph_model.specs.declared.plan.Plan.{Plan};
ghost use Rattle.graph_model.specs.Faults.{IsGraph};
ghost use Rattle.graph_model.specs.Plans.{NamesOf, IsFeasible};
ghost use Rattle.run_graph.specs.RunLists.{ListedCell, state_after};
ghost use Rattle.every_history.specs.Reading.{read};
ghost use Rattle.checkpoint_bytes.specs.Texts.{checkpoint_text};
ghost use Rattle.checkpoint_laws.specs.Spelled.{HasText};
ghost use Rattle.part_bytes.specs.Sizing.{size_of};
ghost use Rattle.replay_laws.specs.Sessions.{StandsFor};
ghost use Rattle.replay_laws.specs.Tidied.{AreObjectsOf};
ghost use Rattle.restore_run.specs.declared.restored.Restored.{Restored};
ghost use Rattle.restore_run.specs.declared.fault.RestoreFault.{RestoreFault};
ghost use Rattle.restore_run.specs.Restoring.{IsRestoredOn, IsRestoreFault};

/// A session that stands for some cells is written down under a feasible plan of its history. Whatever these bytes are restored to is
/// the same state, stands for the same cells, and has the same history; it has as many objects as names reach after these cells in a
/// session that never moved; and the bytes have no fault. So `restore` of these bytes gives the session back, unless memory runs out.
pub fn a_session_is_restored_from_its_bytes()
    ensures restored { (entries : List ListedCell) (g : Graph) (s : State) (p : Plan) → StandsFor read size_of entries g s → IsGraph g → NamesOf g p → IsFeasible g p
        → HasText s g p → (on : ℕ) (r : Restored) → IsRestoredOn (checkpoint_text s g p) on r
        → SameStates s r.kernel.state × StandsFor read size_of entries g r.kernel.state × (r.history.graph ≡ g) }
    ensures objects { (entries : List ListedCell) (g : Graph) (s : State) (p : Plan) → StandsFor read size_of entries g s → IsGraph g → NamesOf g p → IsFeasible g p
        → HasText s g p → (on : ℕ) (r : Restored) → IsRestoredOn (checkpoint_text s g p) on r
        → (order : List ℕ) → AreObjectsOf (state_after read entries (length entries)) order → r.objects ≡ length order }
    ensures no_fault { (entries : List ListedCell) (g : Graph) (s : State) (p : Plan) → StandsFor read size_of entries g s → IsGraph g → NamesOf g p → IsFeasible g p
        → HasText s g p → (f : RestoreFault) → IsRestoreFault (checkpoint_text s g p) f → ⊥ }
{}
