ghost use Rattle.std.specs.Prelude.{ℕ, ◌≡◌, ◌+◌, ◌≤◌, List, [], All, length};
ghost use Rattle.std.specs.Str.{IsUtf8};
ghost use Rattle.nb_outside.specs.declared.feed.Drawn.{Drawn};
ghost use Rattle.py_heap.specs.declared.state.State.{State};
ghost use Rattle.py_heap.specs.States.{empty};
ghost use Rattle.graph_model.specs.declared.graph.Graph.{Graph};
ghost use Rattle.graph_model.specs.declared.plan.Plan.{Plan};
ghost use Rattle.graph_model.specs.Plans.{NamesOf, IsFeasible};
ghost use Rattle.run_graph.specs.RunLists.{ListedCell, entry_done, state_after, steps_of, IsRunList};
ghost use Rattle.every_history.specs.Reading.{read};
ghost use Rattle.checkpoint_bytes.specs.Texts.{checkpoint_text};
ghost use Rattle.checkpoint_bytes.specs.Plain.{IsPlainCheckpoint};
ghost use Rattle.checkpoint_bytes.specs.Sessions.{IsWithinBounds, TellsOf};
ghost use Rattle.checkpoint_laws.specs.Spelled.{IsCode, HasText};
ghost use Rattle.part_bytes.specs.Sizing.{size_of};
ghost use Rattle.replay_laws.specs.Sessions.{StandsFor};
ghost use Rattle.reader_laws.specs.Valid.{IsValidState};
ghost use Rattle.session_core.specs.declared.request.Ask.{Ask};
ghost use Rattle.session_core.specs.Meanings.{Served, more, HasNoEnd};
ghost use Rattle.notebook_meaning.specs.Cells.{recorded, with_ask, cells_of, unmoved};
ghost use Rattle.notebook_meaning.specs.Codes.{HaveCodes};
ghost use Rattle.notebook_meaning.specs.Lists.{MayServe, IsRunOfAsks};
ghost use Rattle.notebook_meaning.specs.Notebooks.{IsGraphOf};

/// A code is recorded as a text of at most 262,148 bytes, which has the same tree as the code, or none if the code has none.
pub fn a_recorded_code_reads_alike()
    ensures code { (code : List ℕ) → IsUtf8 code → IsCode (recorded code) }
    ensures reads { (code : List ℕ) → IsUtf8 code → read (recorded code) ≡ read code }
{}

/// A list of asks goes on with what may be served after it, if no ask of it was an end.
pub fn a_list_goes_on()
    ensures cells { (served : List Served) (ask : Ask) (draws : List Drawn) → cells_of (more served ask draws) ≡ with_ask (cells_of served) ask draws }
    ensures goes_on { (served : List Served) (ask : Ask) (draws : List Drawn) → IsRunOfAsks served → HasNoEnd served → MayServe (cells_of served) ask draws
        → IsRunOfAsks (more served ask draws) }
    ensures last { (served : List Served) (ask : Ask) (draws : List Drawn) → IsRunOfAsks (more served ask draws) → MayServe (cells_of served) ask draws }
{}

/// The cells of a list of asks take just their draws, one after the other, and their codes are texts.
pub fn a_list_of_asks_is_a_run_list()
    ensures run_list { (served : List Served) → IsRunOfAsks served → IsRunList read (cells_of served) }
    ensures codes { (served : List Served) → IsRunOfAsks served → HaveCodes (cells_of served) }
{}

/// The empty state is valid. A cell with any text as its code keeps a valid state valid, whatever it draws. So each state that cells
/// with such codes leave is valid. No cell takes more than 1,000,000 steps.
pub fn states_of_codes_are_valid()
    ensures begins { IsValidState empty }
    ensures cell { (e : ListedCell) (s : State) → IsUtf8 e.code → IsValidState s → IsValidState (entry_done read e s).1.state }
    ensures states { (cells : List ListedCell) (n : ℕ) → HaveCodes cells → IsValidState (state_after read cells n) }
    ensures steps { (cells : List ListedCell) (n : ℕ) → steps_of read cells n ≤ 1000000 }
{}

/// A session that stands for cells has, under a feasible plan, the text that it would have if it had never moved. That text can
/// be read, if counts and numbers have room in it. The graph tells of the session's state: its versions that hold are the state's parts.
pub fn a_session_can_be_written()
    ensures text { (cells : List ListedCell) (g : Graph) (t : State) (p : Plan) → StandsFor read size_of cells g t → checkpoint_text t g p ≡ checkpoint_text (unmoved cells) g p }
    ensures has_text { (cells : List ListedCell) (g : Graph) (t : State) (p : Plan) → HaveCodes cells → StandsFor read size_of cells g t → IsGraphOf cells g
        → NamesOf g p → IsFeasible g p → IsPlainCheckpoint t g p → HasText (unmoved cells) g p }
    ensures tells { (cells : List ListedCell) (g : Graph) (t : State) → HaveCodes cells → StandsFor read size_of cells g t → IsGraphOf cells g → TellsOf g t }
    ensures bounds { (cells : List ListedCell) (g : Graph) → HaveCodes cells → IsGraphOf cells g → All IsWithinBounds g.cells }
{}
