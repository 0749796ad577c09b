ghost use Rattle.std.specs.Prelude.{◌≡◌, ℕ, List, Ok};
ghost use Rattle.std.specs.Str.{IsUtf8};
ghost use Rattle.py_tree.specs.declared.statements.Stmt.{Stmt};
ghost use Rattle.py_reader.specs.Verdict.{verdict};
ghost use Rattle.graph_model.specs.declared.graph.Graph.{Graph};
ghost use Rattle.graph_model.specs.declared.plan.Plan.{Plan};
ghost use Rattle.graph_model.specs.Plans.{NamesOf, IsFeasible};
ghost use Rattle.py_heap.specs.declared.state.State.{State};
ghost use Rattle.part_bytes.specs.Sizing.{size_of};
ghost use Rattle.replay_laws.specs.Sessions.{StandsFor};
ghost use Rattle.checkpoint_laws.specs.Spelled.{HasText};
ghost use Rattle.run_graph.specs.RunLists.{ListedCell, state_after};
ghost use Rattle.every_history.specs.Reading.{read};
ghost use Rattle.checkpoint_bytes.specs.Texts.{checkpoint_text};
ghost use Rattle.checkpoint_bytes.specs.Plain.{IsPlainCheckpoint};
ghost use Rattle.session_core.specs.Meanings.{Served};
ghost use Rattle.notebook_meaning.specs.Cells.{cells_of, unmoved};
ghost use Rattle.notebook_meaning.specs.Codes.{HaveCodes};
ghost use Rattle.notebook_meaning.specs.Lists.{IsRunOfAsks};
ghost use Rattle.notebook_meaning.specs.Notebooks.{IsGraphOf, IsTextOf};
ghost use Rattle.plain_states.specs.Constants.{constants_in};
ghost use Rattle.plain_states.specs.Plain.{ArePlain, IsPlainState};
ghost use Rattle.session_texts.specs.Words.{HaveWords};

/// The literals in the tree of a text, and the names and texts of its functions, are plain: a text is UTF-8 of fewer than 2^32
/// bytes, and a number has 128 bits.
pub fn constants_of_codes_are_plain()
    ensures { (code : List ℕ) (body : List Stmt) → IsUtf8 code → verdict code ≡ Ok body → ArePlain (constants_in body) }
{}

/// Each state that cells leave holds only texts that are UTF-8 of fewer than 2^32 bytes and numbers of 128 bits, if their codes are
/// texts and their draws are words of 64 bits.
pub fn states_of_sessions_are_plain()
    ensures { (cells : List ListedCell) (n : ℕ) → HaveCodes cells → HaveWords cells → IsPlainState (state_after read cells n) }
{}

/// For each list of asks that a session served there is the graph of its cells. If the words that it drew have 64 bits, then under
/// each plan that is feasible for its graph there are bytes that are the text of its checkpoint. The same text is that of each
/// state that stands for the cells: what it counts and holds has room in it, and it can be read.
pub fn every_session_has_a_text()
    ensures graph { (served : List Served) → IsRunOfAsks served → (g : Graph) × IsGraphOf (cells_of served) g }
    ensures text { (served : List Served) → IsRunOfAsks served → HaveWords (cells_of served) → (g : Graph) → IsGraphOf (cells_of served) g
        → (p : Plan) → NamesOf g p → IsFeasible g p → IsTextOf (cells_of served) p (checkpoint_text (unmoved (cells_of served)) g p) }
    ensures standing { (served : List Served) → IsRunOfAsks served → HaveWords (cells_of served) → (g : Graph) (t : State)
        → StandsFor read size_of (cells_of served) g t → (p : Plan) → NamesOf g p → IsFeasible g p → HasText t g p }
    ensures plain { (served : List Served) → IsRunOfAsks served → HaveWords (cells_of served) → (g : Graph) → IsGraphOf (cells_of served) g
        → (p : Plan) → IsPlainCheckpoint (unmoved (cells_of served)) g p }
{}
