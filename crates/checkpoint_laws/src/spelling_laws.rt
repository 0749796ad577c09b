//! Checkpoints and their texts. The law is the contract of a function that does nothing.

ghost use Rattle.std.specs.Prelude.{Ok};
ghost use Rattle.py_heap.specs.declared.state.State.{State};
ghost use Rattle.graph_model.specs.declared.graph.Graph.{Graph};
ghost use Rattle.graph_model.specs.declared.plan.Plan.{Plan};
ghost use Rattle.graph_model.specs.Faults.{IsGraph};
ghost use Rattle.graph_model.specs.Plans.{NamesOf, IsFeasible};
ghost use Rattle.checkpoint_bytes.specs.Texts.{checkpoint_text, checkpoint_text1};
ghost use Rattle.checkpoint_reader.specs.Fields.{fields};
ghost use Rattle.checkpoint_reader.specs.Judging.{IsAnswer};
ghost use Rattle.checkpoint_laws.specs.Spelled.{EachCopied, HasText, HasText1, IsLike, checkpoint_for};

/// The text of a session under a plan, in either version, is read as the session's count and meter, its graph, this plan, and the part of each
/// version that the plan copies; if the graph has no fault, the plan is feasible for it, and each copied version is as the state has it.
pub fn a_text_is_read_back()
    ensures one { (s : State) (g : Graph) (p : Plan) → HasText1 s g p → IsGraph g → NamesOf g p → IsFeasible g p → EachCopied g p (IsLike s)
        → IsAnswer (fields (checkpoint_text1 s g p) 0) (Ok (checkpoint_for s g p)) }
    ensures two { (s : State) (g : Graph) (p : Plan) → HasText s g p → IsGraph g → NamesOf g p → IsFeasible g p
        → EachCopied g p (IsLike s) → IsAnswer (fields (checkpoint_text s g p) 0) (Ok (checkpoint_for s g p)) }
{}
