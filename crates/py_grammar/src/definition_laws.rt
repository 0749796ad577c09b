ghost use Rattle.std.specs.Prelude.{◌≡◌, ◌↔◌, ℕ, List, Option, Some, None, take, slice_get};
ghost use Rattle.py_token.specs.declared.kinds.Kind.{Kind};
ghost use Rattle.py_grammar.specs.declared.constructs.Construct.{Construct};
ghost use Rattle.py_grammar.specs.Statements.{Cell, Params, Block, IsCell};
ghost use Rattle.py_grammar.specs.States.{State, start, done, run};
ghost use Rattle.py_grammar.specs.Outside.{outside};
ghost use Rattle.py_grammar.specs.Alone.{alone, BeginsDefinition, IsFailingAlone, FailsAlone};
ghost use Rattle.py_grammar.specs.AloneMachine.{step_alone, run_alone};

/// What is read of a function alone is read of a cell, and leaves the same forms open.
pub fn what_is_read_alone_is_read()
    ensures { (tokens : List Kind) (state : State) → run_alone start tokens ≡ Some state → run start tokens ≡ Some state }
{}

/// What is read alone to its end is exactly what spells one function, and it gives the cell of that function.
pub fn what_is_read_alone_is_one_function()
    ensures { (tokens : List Kind) (cell : Cell) → (run_alone start tokens ≡ Some (done cell))
        ↔ ((called : List ℕ) × (takes : Params) × (block : Block) × (cell ≡ alone called takes block) × IsCell tokens cell) }
{}

/// One function alone begins with tokens if and only if the machine reads them.
pub fn what_is_read_alone_begins_a_function()
    ensures { (tokens : List Kind) → BeginsDefinition tokens ↔ ((state : State) × (run_alone start tokens ≡ Some state)) }
{}

/// The token at which the machine stops is the first that no function alone goes on with.
pub fn it_stops_at_the_failing_token_alone()
    ensures { (tokens : List Kind) (place : ℕ) (state : State) (token : Kind) → run_alone start (take place tokens) ≡ Some state
        → slice_get tokens place ≡ Some token → step_alone state token ≡ None → IsFailingAlone tokens place }
{}

/// At the failing token the machine stops.
pub fn it_stops_alone_at_no_other()
    ensures { (tokens : List Kind) (place : ℕ) → IsFailingAlone tokens place
        → (state : State) × (token : Kind) × (run_alone start (take place tokens) ≡ Some state) × (slice_get tokens place ≡ Some token)
        × (step_alone state token ≡ None) }
{}

/// No other token fails, and it begins no other construct.
pub fn the_failing_token_alone_is_the_only_one()
    ensures { (tokens : List Kind) (one other : ℕ) (begun also : Option Construct) → FailsAlone tokens one begun → FailsAlone tokens other also
        → (one ≡ other) × (begun ≡ also) }
{}

/// If no function alone begins with the tokens, one of them fails.
pub fn some_token_fails_alone()
    ensures { (tokens : List Kind) → (BeginsDefinition tokens → ⊥)
        → (place : ℕ) × (construct : Option Construct) × FailsAlone tokens place construct }
{}

/// A token that begins a construct outside the grammar is refused.
pub fn what_is_outside_is_refused_alone()
    ensures { (state : State) (token : Kind) (construct : Construct) → outside state token ≡ Some construct → step_alone state token ≡ None }
{}
