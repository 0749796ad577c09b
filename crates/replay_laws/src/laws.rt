ghost use Rattle.std.specs.Prelude.{ℕ, ◌+◌, ◌≤◌, ◌≡◌, ◌↔◌, true, ◌++◌, Contains, List, [], ◌∷◌, length};
ghost use Rattle.graph_model.specs.declared.graph.CellRecord.{CellRecord};
ghost use Rattle.graph_model.specs.declared.graph.Graph.{Graph};
ghost use Rattle.graph_model.specs.declared.graph.Version.{Version};
ghost use Rattle.graph_model.specs.declared.plan.Plan.{Plan};
ghost use Rattle.graph_model.specs.Graphs.{CellAt, IsActive};
ghost use Rattle.graph_model.specs.Plans.{NamesOf, IsFeasible};
ghost use Rattle.py_heap.specs.declared.state.State.{State};
ghost use Rattle.py_heap.specs.References.{IsClosed};
ghost use Rattle.py_heap.specs.Reaching.{IsListOf, firsts, met};
ghost use Rattle.py_heap.specs.States.{empty};
ghost use Rattle.std.specs.List.{AllZip};
ghost use Rattle.py_machine.specs.Runs.{Name};
ghost use Rattle.py_meaning.specs.Cells.{Asks, UsesUp};
ghost use Rattle.py_laws.specs.Same.{HasPair, Same, SameStates, Every};
ghost use Rattle.py_laws.specs.Framed.{Renamed};
ghost use Rattle.run_graph.specs.Histories.{Run, IsHistory};
ghost use Rattle.run_graph.specs.Soundness.{TreeReader, statements, IsRun, Follows};
ghost use Rattle.run_graph.specs.RunLists.{ListedCell, raised, entry_done, state_after, IsRunList, run_of};
ghost use Rattle.run_graph.specs.Growing.{IsNext};
ghost use Rattle.run_graph.specs.Fitting.{TellsParts};
ghost use Rattle.run_graph.specs.Parts.{HasHandle};
ghost use Rattle.replay_laws.specs.Walks.{done_again, Walked, IsLoaded};
ghost use Rattle.replay_laws.specs.Copies.{AreCopies, with_copy};
ghost use Rattle.replay_laws.specs.Standing.{IsGivenBack, IsGood};
ghost use Rattle.replay_laws.specs.Restored.{with_tallies, HasVersions, IsRestored, TellsAlike};
ghost use Rattle.replay_laws.specs.Sessions.{StandsFor, IsCellFrom};
ghost use Rattle.part_bytes.specs.Sizing.{holds_handle, size_of};
ghost use Rattle.replay_laws.specs.Tidied.{IsTidied, AreObjectsOf};

/// After each cell of the walk of a feasible plan, every version that holds and that the plan gave back is the same as in the
/// run, and apart from all other names; and a name that no cell bound so far has no value.
pub fn a_walk_keeps_what_it_gave_back()
    ensures { (read : TreeReader) (copy : ℕ → State) (r : Run) (g : Graph) (p : Plan) → IsRun r → Follows read r → IsHistory r g → NamesOf g p
        → IsFeasible g p → AreCopies g p (r.state r.cells) copy → (c : ℕ) (t : State) → c ≤ r.cells → Walked read copy g p c t
        → IsGood r g c (IsGivenBack p) t }
{}

/// A feasible plan of the history of a run list restores its last state, whatever is stale in between. No cell that is run
/// again asks for a draw. The state at the end of the walk is the same as the last of the run over every name, and it has its
/// count and meter once these are set; a name that has no value there has none; its parts are exactly the active versions
/// with a value, with their handles.
pub fn a_feasible_plan_restores_the_session()
    ensures never_asks { (read : TreeReader) (copy : ℕ → State) (size : List Name → State → ℕ) (entries : List ListedCell) (g : Graph) (p : Plan)
        → IsRunList read entries → IsHistory (run_of read size entries) g → NamesOf g p → IsFeasible g p
        → AreCopies g p (state_after read entries (length entries)) copy
        → (c : ℕ) (t : State) (x : CellRecord) → Walked read copy g p c t → Contains p.rerun (c + 1) → CellAt g (c + 1) x
        → Asks (done_again read x t) → ⊥ }
    ensures restores { (read : TreeReader) (copy : ℕ → State) (size : List Name → State → ℕ) (entries : List ListedCell) (g : Graph) (p : Plan)
        → IsRunList read entries → IsHistory (run_of read size entries) g → NamesOf g p → IsFeasible g p
        → AreCopies g p (state_after read entries (length entries)) copy
        → (t : State) → Walked read copy g p (length entries) t → IsRestored g (state_after read entries (length entries)) t }
{}

/// Such a walk can be made, and it comes to its end.
pub fn a_walk_can_be_made()
    ensures { (read : TreeReader) (copy : ℕ → State) (size : List Name → State → ℕ) (entries : List ListedCell) (g : Graph) (p : Plan)
        → IsRunList read entries → IsHistory (run_of read size entries) g → NamesOf g p → IsFeasible g p
        → AreCopies g p (state_after read entries (length entries)) copy
        → (t : State) × Walked read copy g p (length entries) t }
{}

/// A walk is one, of whatever graph and plan: two walks over the first cells end in states that are the same, and a cell asks
/// for a draw after both or after neither.
pub fn two_walks_end_alike()
    ensures same { (read : TreeReader) (copy : ℕ → State) (g : Graph) (p : Plan) (c : ℕ) (t u : State) → Walked read copy g p c t
        → Walked read copy g p c u → SameStates t u }
    ensures asks { (read : TreeReader) (copy : ℕ → State) (g : Graph) (p : Plan) (c : ℕ) (t u : State) (x : CellRecord) → Walked read copy g p c t
        → Walked read copy g p c u → Asks (done_again read x t) → Asks (done_again read x u) }
{}

/// A copy is loaded by putting its objects after those that are there. A whole state is a copy for each of its versions.
pub fn a_copy_is_loaded()
    ensures loaded { (names : List Name) (copy t : State) → IsClosed copy → IsClosed t → IsLoaded names copy t (with_copy copy names t) }
    ensures whole { (g : Graph) (p : Plan) (last : State) → IsClosed last → AreCopies g p last (λ v. last) }
{}

/// The size of a version is the length of the text of its part, or 0 if a handle is in it or it has no value. Closed states that
/// are the same tell one size, and so do the states of a run.
pub fn sizes_are_told_alike()
    ensures handle { (names : List Name) (s : State) → IsClosed s → (holds_handle names s ≡ true) ↔ HasHandle s names }
    ensures alike { TellsAlike size_of }
    ensures parts { (r : Run) → ((c : ℕ) (names : List Name) → r.size c names ≡ size_of names (r.state c)) → TellsParts r }
{}

/// The parts of a restored state have texts as long as the graph says, if closed states that are the same tell one length.
pub fn a_restored_state_has_the_sizes()
    ensures { (read : TreeReader) (size : List Name → State → ℕ) (entries : List ListedCell) (g : Graph) → IsHistory (run_of read size entries) g → TellsAlike size
        → (t : State) → IsRestored g (state_after read entries (length entries)) t → (v : ℕ) (x : Version) → IsActive g v x
        → x.size ≡ size x.names t }
{}

/// At the end the objects that no name reaches are dropped, and the others are numbered anew. That can be done with each closed
/// state. It keeps the state, and leaves as many objects as names reach in any state that is the same. States that are the same
/// become equal by it.
pub fn tidying_keeps_the_state()
    ensures done { (t : State) → IsClosed t → (u : State) × IsTidied t u }
    ensures same { (t u : State) → IsTidied t u → SameStates t u }
    ensures objects { (s t u : State) (order : List ℕ) → Same Every s t → IsTidied t u → AreObjectsOf s order → length u.heap ≡ length order }
    ensures equal { (s t u w : State) → SameStates s t → IsTidied s u → IsTidied t w → u ≡ w }
{}

/// In two states that are the same over some names, what these reach is reached in one order: index by index the addresses
/// are a pair of objects that match.
pub fn same_states_are_reached_in_one_order()
    ensures { (names : List Name) (s t : State) (same : Same (Contains names) s t) (left right : List ℕ) → IsListOf s names left
        → IsListOf t names right → left ≡ firsts (met s names left) → right ≡ firsts (met t names right)
        → AllZip (HasPair same.by) left right }
{}

/// A session stands for a list of cells: its graph is their history, and its state is the same as after these cells, run
/// one after the other and never moved. A new session stands for none. A further cell does the same in the session as it
/// does after these cells, and with it the session stands for one cell more, if its graph becomes what the cell makes of it.
pub fn a_session_goes_on()
    ensures begins { (read : TreeReader) (size : List Name → State → ℕ) → StandsFor read size [] (record { cells = []; versions = [] }) empty }
    ensures does_the_same { (read : TreeReader) (size : List Name → State → ℕ) (entries : List ListedCell) (g : Graph) (t : State) → StandsFor read size entries g t
        → (e : ListedCell) → Renamed (entry_done read e (state_after read entries (length entries))) (entry_done read e t) }
    ensures goes_on { (read : TreeReader) (size : List Name → State → ℕ) (entries : List ListedCell) (g : Graph) (t : State) → StandsFor read size entries g t
        → TellsAlike size → (e : ListedCell) → UsesUp (statements (read e.code)) (raised e t) e.draws → (r : Run) (k : Graph)
        → IsCellFrom read size e t (length entries) r → IsNext r (length entries) g k
        → StandsFor read size (entries ++ e ∷ []) k (entry_done read e t).1.state }
{}

/// A move keeps what a session stands for, so that it may go on and move again: restored by any feasible plan, from copies of
/// its own state, and with its count and meter set; also with its objects numbered anew. No cell that is run again asks for a
/// draw. With their objects numbered anew the session before the move and the session after it are equal.
pub fn a_move_keeps_the_session()
    ensures never_asks { (read : TreeReader) (copy : ℕ → State) (size : List Name → State → ℕ) (entries : List ListedCell) (g : Graph) (t : State) (p : Plan)
        → StandsFor read size entries g t → NamesOf g p → IsFeasible g p → AreCopies g p t copy
        → (c : ℕ) (u : State) (x : CellRecord) → Walked read copy g p c u → Contains p.rerun (c + 1) → CellAt g (c + 1) x
        → Asks (done_again read x u) → ⊥ }
    ensures moves { (read : TreeReader) (copy : ℕ → State) (size : List Name → State → ℕ) (entries : List ListedCell) (g : Graph) (t : State) (p : Plan)
        → StandsFor read size entries g t → NamesOf g p → IsFeasible g p → AreCopies g p t copy
        → (u : State) → Walked read copy g p (length entries) u → StandsFor read size entries g (with_tallies t u) }
    ensures equal { (read : TreeReader) (copy : ℕ → State) (size : List Name → State → ℕ) (entries : List ListedCell) (g : Graph) (t : State) (p : Plan)
        → StandsFor read size entries g t → NamesOf g p → IsFeasible g p → AreCopies g p t copy
        → (u v w : State) → Walked read copy g p (length entries) u → IsTidied t v → IsTidied (with_tallies t u) w → v ≡ w }
    ensures tidies { (read : TreeReader) (size : List Name → State → ℕ) (entries : List ListedCell) (g : Graph) (t u : State)
        → StandsFor read size entries g t → IsTidied t u → StandsFor read size entries g u }
{}

/// The active versions of a session are the parts of its state, with their handles, and with the lengths of their texts if
/// closed states that are the same tell one length.
pub fn a_session_has_its_versions()
    ensures parts { (read : TreeReader) (size : List Name → State → ℕ) (entries : List ListedCell) (g : Graph) (t : State)
        → StandsFor read size entries g t → HasVersions g t }
    ensures sizes { (read : TreeReader) (size : List Name → State → ℕ) (entries : List ListedCell) (g : Graph) (t : State)
        → StandsFor read size entries g t → TellsAlike size → (v : ℕ) (x : Version) → IsActive g v x → x.size ≡ size x.names t }
{}
