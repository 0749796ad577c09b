ghost use Rattle.std.specs.Prelude.{◌≡◌};
ghost use Rattle.py_heap.specs.declared.state.State.{State};
ghost use Rattle.py_heap.specs.References.{IsClosed};
ghost use Rattle.graph_model.specs.declared.graph.Graph.{Graph};
ghost use Rattle.graph_model.specs.declared.plan.Plan.{Plan};
ghost use Rattle.py_laws.specs.Same.{SameStates};
ghost use Rattle.checkpoint_bytes.specs.Texts.{checkpoint_text, checkpoint_text1};

/// Closed states that are the same, with an equal count and an equal meter, have one text of each version under each graph and each plan: the
/// graph needn't be theirs, nor the plan feasible.
pub fn same_states_have_one_checkpoint_text()
    ensures one { (s t : State) (graph : Graph) (plan : Plan) → IsClosed s → IsClosed t → SameStates s t
        → checkpoint_text1 s graph plan ≡ checkpoint_text1 t graph plan }
    ensures two { (s t : State) (graph : Graph) (plan : Plan) → IsClosed s → IsClosed t → SameStates s t
        → checkpoint_text s graph plan ≡ checkpoint_text t graph plan }
{}
