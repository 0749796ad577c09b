ghost use Rattle.std.specs.Prelude.{◌≤◌, ℕ, Bool, List};
ghost use Rattle.py_tree.specs.declared.expressions.Expr.{Expr};
ghost use Rattle.py_tree.specs.declared.statements.Stmt.{Stmt};
ghost use Rattle.py_machine.specs.declared.iteration.Iteration.{Iteration};
ghost use Rattle.py_machine.specs.Runs.{Name};
ghost use Rattle.py_meaning.specs.Meaning.{level, most_turns, rounds, turns};
ghost use Rattle.py_laws.specs.Loops.{RunAlike, while_turn, for_turn};

/// The bound that the meaning of a loop puts on its turns changes nothing: with any greater bound, the loop does the same on
/// each machine. So its meaning is a turn, and then the same loop again if the turn goes on.
pub fn bounds_of_loops_change_nothing()
    ensures whiles { (levels n : ℕ) (test : Expr) (body : List Stmt) → most_turns ≤ n
        → RunAlike (turns (level levels) n test body) (turns (level levels) most_turns test body) }
    ensures fors { (levels n : ℕ) (names : List Name) (comma : Bool) (body : List Stmt) (from : Iteration) → most_turns ≤ n
        → RunAlike (rounds (level levels) n names comma body from) (rounds (level levels) most_turns names comma body from) }
    ensures while_again { (levels : ℕ) (test : Expr) (body : List Stmt)
        → RunAlike (turns (level levels) most_turns test body)
        (while_turn (level levels) test body (turns (level levels) most_turns test body)) }
    ensures for_again { (levels : ℕ) (names : List Name) (comma : Bool) (body : List Stmt) (from : Iteration)
        → RunAlike (rounds (level levels) most_turns names comma body from)
        (for_turn (level levels) names comma body from (rounds (level levels) most_turns names comma body)) }
{}
