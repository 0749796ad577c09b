ghost use Rattle.std.specs.Prelude.{◌≡◌, ◌↔◌, ◌⊎◌, ◌++◌, ℕ, Bool, true, Contains, IsTrue, List, Some, slice_get};
ghost use Rattle.nb_outside.specs.declared.feed.Drawn.{Drawn};
ghost use Rattle.py_tree.specs.declared.statements.Def.{Def};
ghost use Rattle.py_tree.specs.declared.statements.Stmt.{Stmt};
ghost use Rattle.py_value.specs.declared.value.Value.{Value};
ghost use Rattle.py_heap.specs.declared.heap.Object.TheVariants as object;
ghost use Rattle.py_heap.specs.declared.state.State.{State};
ghost use Rattle.py_heap.specs.References.{IsClosed};
ghost use Rattle.py_heap.specs.Reaching.{Reach};
ghost use Rattle.py_heap.specs.Valid.{IsValidBy};
ghost use Rattle.py_machine.specs.Marked.{IsIn, IsLooked, IsBound, IsChanged, IsDrew};
ghost use Rattle.py_machine.specs.Runs.{Name};
ghost use Rattle.py_meaning.specs.Cells.{outcome, traced, end_state, Asks};
ghost use Rattle.py_laws.specs.Same.{Same, SameStates, SameWithin, IsListOf};
ghost use Rattle.py_laws.specs.Framed.{Framed, FramedWithin, Agree, Renamed};
ghost use Rattle.py_laws.specs.Allowed.{AreAllowedBy};
ghost use Rattle.py_laws.specs.Mentioned.{names_in, AllPass, FunctionsPass};

/// What a cell does depends on the names that it looks up, and on its draws, alone. From two states that are the same over
/// these names, with equal meters and under the same draws, it does the same. In neither does it change a name that it doesn't
/// bind or unbind, or an object that was there and that these names don't reach. What these names and those bound reach at its
/// end was reached by these names before, or is new.
pub fn cells_depend_on_what_they_look_up()
    ensures same_draws { (names : List Name) (body : List Stmt) (draws : List Drawn) (s t : State) → Same (Contains names) s t → s.meter ≡ t.meter
        → ((name : Name) → IsIn (outcome body s draws).1.marks.looked name → Contains names name)
        → Framed names s t (outcome body s draws) (outcome body t draws) }
    // If the first run ends without asking for more draws, a cell that didn't draw may be given any others.
    ensures agreeing_draws { (names : List Name) (body : List Stmt) (draws others : List Drawn) (s t : State) → Same (Contains names) s t
        → s.meter ≡ t.meter → ((name : Name) → IsIn (outcome body s draws).1.marks.looked name → Contains names name)
        → (Asks (outcome body s draws) → ⊥) → Agree (outcome body s draws) draws others
        → Framed names s t (outcome body s draws) (outcome body t others) }
{}

/// From closed states, each pair of the end states is of objects that the names reached, or of new ones.
pub fn cells_pair_what_names_reach()
    ensures { (names : List Name) (body : List Stmt) (draws : List Drawn) (s t : State) → IsClosed s → IsClosed t → Same (Contains names) s t
        → s.meter ≡ t.meter → ((name : Name) → IsIn (outcome body s draws).1.marks.looked name → Contains names name)
        → FramedWithin names s t (outcome body s draws) (outcome body t draws) }
{}

/// In a closed state there is a list of just the addresses that some names reach.
pub fn what_names_reach_is_a_list()
    ensures { (names : List Name) (s : State) → IsClosed s → (found : List ℕ) × IsListOf s names found }
{}

/// Closed states that are the same over some names are the same by pairs of only what these names reach.
pub fn sameness_is_of_what_is_reached()
    ensures { (names : List Name) (s t : State) → IsClosed s → IsClosed t → Same (Contains names) s t → SameWithin names s t }
{}

/// Two states that are the same over some names and over others, which reach nothing in common with them in either state, are
/// the same over all of them.
pub fn sameness_joins()
    ensures { (names more : List Name) (s t : State) → SameWithin names s t → SameWithin more s t
        → ((at : ℕ) → Reach s names at → Reach s more at → ⊥) → ((at : ℕ) → Reach t names at → Reach t more at → ⊥)
        → SameWithin (names ++ more) s t }
{}

/// From two states that are the same, and under the same draws, a cell does the same, and ends in two that are the same.
pub fn cells_run_alike_in_same_states()
    ensures { (body : List Stmt) (draws : List Drawn) (s t : State) → SameStates s t → Renamed (outcome body s draws) (outcome body t draws) }
{}

/// A cell keeps a state closed: if each reference named an object before, each does after.
pub fn cells_keep_states_closed()
    ensures { (body : List Stmt) (draws : List Drawn) (s : State) → IsClosed s → IsClosed (end_state body s draws) }
{}

/// A cell keeps a state valid, whatever test the definitions of functions have to pass, if two things are so. Each name that the
/// cell's statements bind is one that a program may bind, and each function that they define has such a name and passes the test.
/// The same is so of the statements in the body of each function that passes the test.
pub fn cells_keep_states_valid()
    ensures { (test : Def → Bool) (body : List Stmt) (draws : List Drawn) (s : State) → AreAllowedBy test body
        → ((def : Def) → IsTrue (test def) → AreAllowedBy test def.body) → IsValidBy test s → IsValidBy test (end_state body s draws) }
{}

/// A cell leaves each tuple as it is, and reports no change of one. What a tuple holds may change.
pub fn cells_change_no_tuple()
    ensures stay { (body : List Stmt) (draws : List Drawn) (s : State) (at : ℕ) (items : List Value)
        → slice_get s.heap at ≡ Some (object.Tuple items) → slice_get (end_state body s draws).heap at ≡ Some (object.Tuple items) }
    ensures unmarked { (body : List Stmt) (draws : List Drawn) (s : State) (at : ℕ) (items : List Value)
        → slice_get s.heap at ≡ Some (object.Tuple items) → IsIn (outcome body s draws).1.marks.changed at → ⊥ }
{}

/// A cell looks up, binds and deletes only names that are in its statements or in the functions of its state: if these all pass
/// a test, so do those. At its end the names in the functions of the state pass it too.
pub fn cells_use_names_that_stand_in_trees()
    ensures names { (test : Name → Bool) (body : List Stmt) (draws : List Drawn) (s : State) → IsClosed s → AllPass test (names_in body)
        → FunctionsPass test s → (name : Name)
        → IsIn (outcome body s draws).1.marks.looked name ⊎ IsIn (outcome body s draws).1.marks.bound name → IsTrue (test name) }
    ensures functions { (test : Name → Bool) (body : List Stmt) (draws : List Drawn) (s : State) → IsClosed s
        → AllPass test (names_in body) → FunctionsPass test s → FunctionsPass test (end_state body s draws) }
{}

/// What a machine has marked of a cell is the report of the cell's trace: the names looked up before they were bound or
/// unbound, those bound or unbound, the addresses changed, and whether a draw was taken.
pub fn marks_report_the_trace()
    ensures looked { (body : List Stmt) (s : State) (draws : List Drawn) (name : Name)
        → IsIn (outcome body s draws).1.marks.looked name ↔ IsLooked name (traced body s draws) }
    ensures bound { (body : List Stmt) (s : State) (draws : List Drawn) (name : Name)
        → IsIn (outcome body s draws).1.marks.bound name ↔ IsBound name (traced body s draws) }
    ensures changed { (body : List Stmt) (s : State) (draws : List Drawn) (at : ℕ)
        → IsIn (outcome body s draws).1.marks.changed at ↔ IsChanged at (traced body s draws) }
    ensures drew { (body : List Stmt) (s : State) (draws : List Drawn)
        → ((outcome body s draws).1.marks.drew ≡ true) ↔ IsDrew (traced body s draws) }
{}

/// If a cell doesn't ask for more draws, others after those that it has change nothing.
pub fn more_draws_change_nothing()
    ensures { (body : List Stmt) (s : State) (draws more : List Drawn) → (Asks (outcome body s draws) → ⊥)
        → outcome body s (draws ++ more) ≡ outcome body s draws }
{}

/// A closed state is the same as itself. It has to be closed: a reference matches another only by a pair, and a pair has
/// an object on each side, so a reference to no object matches nothing, not even itself.
pub fn a_state_is_the_same_as_itself()
    ensures over_a_list { (names : List Name) (s : State) → IsClosed s → Same (Contains names) s s }
    ensures over_a_set { (named : Name → Bool) (s : State) → IsClosed s → Same (λ name. IsTrue (named name)) s s }
    ensures over_all { (s : State) → IsClosed s → SameStates s s }
{}

/// If a state is the same as another, the other is the same as it.
pub fn sameness_goes_both_ways()
    ensures over_a_list { (names : List Name) (s t : State) → Same (Contains names) s t → Same (Contains names) t s }
    ensures over_a_set { (named : Name → Bool) (s t : State) → Same (λ name. IsTrue (named name)) s t
        → Same (λ name. IsTrue (named name)) t s }
    ensures over_all { (s t : State) → SameStates s t → SameStates t s }
{}

/// If a state is the same as a second, and that is the same as a third, the first is the same as the third.
pub fn sameness_goes_on()
    ensures over_a_list { (names : List Name) (s t u : State) → Same (Contains names) s t → Same (Contains names) t u
        → Same (Contains names) s u }
    ensures over_a_set { (named : Name → Bool) (s t u : State) → Same (λ name. IsTrue (named name)) s t
        → Same (λ name. IsTrue (named name)) t u → Same (λ name. IsTrue (named name)) s u }
    ensures over_all { (s t u : State) → SameStates s t → SameStates t u → SameStates s u }
{}
