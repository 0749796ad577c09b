//! That what the program holds of a cell is what its forms say. The forms are those of the grammar, and `rest` is what is to
//! come.
ghost use Rattle.std.specs.Prelude.{◌≡◌, ℕ, Bool, max, List};
ghost use Rattle.py_token.specs.declared.kinds.Kind.{Kind};
ghost use Rattle.py_grammar.specs.Statements.{Statements};
ghost use Rattle.py_grammar.specs.States.{State};
ghost use Rattle.py_grammar.specs.Outside as forms;
ghost use Rattle.py_grammar.specs.Depth.{in_statements};
ghost use Rattle.py_frames.specs.Under.{first, nth, placed};
ghost use Rattle.py_blocks.specs.Blocks.{Texts};
ghost use Rattle.py_blocks.specs.Held.{held_state};
ghost use Rattle.py_blocks.specs.Kept.{under_statements};
ghost use Rattle.py_blocks.specs.Outside.{outside};
ghost use Rattle.py_blocks.specs.Follows.{StepFollows, RunFollows, KeepsTrees, ReadsCells};
ghost use Rattle.py_blocks.specs.declared.state.State as machine;
ghost use Rattle.py_blocks.specs.Steps.{Names, moves};
ghost use Rattle.py_blocks.specs.Forced.{forced_now, Grows};
ghost use Rattle.py_blocks.specs.Telling.{TellsDepth, TellsCells};

/// One more token is read exactly if the forms go on with it. What is held then is what they say.
pub fn a_token_is_read_as_its_forms_are()
    ensures { (place : ℕ → ℕ) → StepFollows place }
{}

/// Tokens are read from the first exactly if their forms are. What is held then is what they say.
pub fn tokens_are_read_as_their_forms_are()
    ensures { RunFollows }
{}

/// A cell is read to its end. Unless it is too deep its tree is held, and the first place at each depth.
pub fn a_cell_is_read_with_its_tree()
    ensures { ReadsCells }
{}

/// The construct outside the grammar that a token begins is that of the forms.
pub fn a_construct_begins_where_the_forms_say()
    ensures { (place : ℕ → ℕ) (texts : Texts) (state : State) (token : Kind) (rest : List Kind) → outside (held_state place texts state rest) token ≡ forms.outside state token }
{}

/// The place kept for a depth is where the first part of the statements that deep begins.
pub fn the_places_are_the_first_at_each_depth()
    ensures { (place : ℕ → ℕ) → ((a b : ℕ) → place (max a b) ≡ max (place a) (place b)) → (statements : Statements) (rest : List Kind) (depth : ℕ)
        → placed place (first (in_statements statements rest depth)) ≡ nth depth (under_statements place statements rest) }
{}

/// The tree of a statement that isn't too deep is the tree of the grammar.
pub fn the_tree_is_kept()
    ensures { (place : ℕ → ℕ) → KeepsTrees place }
{}

/// What is forced stays forced: with one more token each depth is reached no later.
pub fn what_is_forced_stays_forced()
    ensures { (alone : Bool) (texts : Texts) (at left : ℕ) (state : machine.State) (names : Names) (token : Kind)
        → Grows (forced_now state) (moves alone texts at left state names token) }
{}

/// What is forced of tokens tells whether they are too deep, and where.
pub fn what_is_forced_tells_what_is_too_deep()
    ensures { TellsDepth }
{}

/// What is held of a cell at its end tells whether it is too deep, and where.
pub fn a_cell_tells_whether_it_is_too_deep()
    ensures { TellsCells }
{}
