ghost use Rattle.std.specs.Prelude.{◌≤◌, List};
ghost use Rattle.std.specs.FinMap as finite;
ghost use Rattle.nb_outside.specs.declared.feed.Drawn.{Drawn};
ghost use Rattle.py_tree.specs.declared.statements.Stmt.{Stmt};
ghost use Rattle.py_heap.specs.declared.state.State.{State};
ghost use Rattle.py_heap.specs.States.{empty};
ghost use Rattle.py_meaning.specs.Cells.{outcome, end_state};
ghost use Rattle.plain_states.specs.Constants.{constants_in};
ghost use Rattle.plain_states.specs.Plain.{ArePlain, AreWords, IsPlainState};

/// The empty state is plain. A cell keeps a plain state plain if the constants of its tree are plain, and its draws are words of
/// 64 bits. Each name that it looks up before it binds or deletes it takes a step.
pub fn cells_keep_states_plain()
    ensures begins { IsPlainState empty }
    ensures cells { (body : List Stmt) (draws : List Drawn) (s : State) → ArePlain (constants_in body) → AreWords draws → IsPlainState s
        → IsPlainState (end_state body s draws) }
    ensures looked { (body : List Stmt) (draws : List Drawn) (s : State) → ArePlain (constants_in body) → AreWords draws → IsPlainState s
        → finite.len (outcome body s draws).1.marks.looked ≤ (outcome body s draws).1.steps }
{}
