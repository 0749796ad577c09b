ghost use Rattle.std.specs.Prelude.{◌≡◌, ℕ, List, length};
ghost use Rattle.py_heap.specs.declared.state.State.{State};
ghost use Rattle.py_laws.specs.Same.{SameStates};
ghost use Rattle.graph_model.specs.declared.graph.Graph.{Graph};
ghost use Rattle.graph_model.specs.declared.plan.Plan.{Plan};
ghost use Rattle.graph_model.specs.Plans.{NamesOf, IsFeasible};
ghost use Rattle.every_history.specs.Reading.{read};
ghost use Rattle.checkpoint_bytes.specs.Texts.{checkpoint_text};
ghost use Rattle.part_bytes.specs.Sizing.{size_of};
ghost use Rattle.replay_laws.specs.Sessions.{StandsFor};
ghost use Rattle.replay_laws.specs.Tidied.{AreObjectsOf};
ghost use Rattle.restore_run.specs.declared.restored.Restored.{Restored};
ghost use Rattle.restore_run.specs.declared.fault.RestoreFault.{RestoreFault};
ghost use Rattle.restore_run.specs.Restoring.{IsRestoredOn, IsRestoreFault};
ghost use Rattle.session_core.specs.Meanings.{Served};
ghost use Rattle.notebook_meaning.specs.Cells.{cells_of, unmoved};
ghost use Rattle.notebook_meaning.specs.Lists.{IsRunOfAsks};
ghost use Rattle.session_texts.specs.Words.{HaveWords};

/// Take each list of asks that a session served, of which the words that it drew have 64 bits, each state and graph that stand for
/// its cells, and each plan that is feasible for the graph. What their bytes are restored to is the same state, stands for the same
/// cells, and has the same history; it has as many objects as names reach in a session that never moved; and the bytes have no
/// fault.
pub fn every_session_is_restored_from_its_bytes()
    ensures restored { (served : List Served) → IsRunOfAsks served → HaveWords (cells_of served) → (g : Graph) (s : State)
        → StandsFor read size_of (cells_of served) g s → (p : Plan) → NamesOf g p → IsFeasible g p
        → (on : ℕ) (r : Restored) → IsRestoredOn (checkpoint_text s g p) on r
        → SameStates s r.kernel.state × StandsFor read size_of (cells_of served) g r.kernel.state × (r.history.graph ≡ g) }
    ensures objects { (served : List Served) → IsRunOfAsks served → HaveWords (cells_of served) → (g : Graph) (s : State)
        → StandsFor read size_of (cells_of served) g s → (p : Plan) → NamesOf g p → IsFeasible g p
        → (on : ℕ) (r : Restored) → IsRestoredOn (checkpoint_text s g p) on r
        → (order : List ℕ) → AreObjectsOf (unmoved (cells_of served)) order → r.objects ≡ length order }
    ensures no_fault { (served : List Served) → IsRunOfAsks served → HaveWords (cells_of served) → (g : Graph) (s : State)
        → StandsFor read size_of (cells_of served) g s → (p : Plan) → NamesOf g p → IsFeasible g p
        → (f : RestoreFault) → IsRestoreFault (checkpoint_text s g p) f → ⊥ }
{}
