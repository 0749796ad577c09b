//! What is true of the machine whatever is read: each law is the contract of a function that does nothing.
ghost use Rattle.std.specs.Prelude.{◌≡◌, Bool, is_some, ℕ, max, ◌<◌, List, ◌∷◌, length};
ghost use Rattle.py_token.specs.declared.kinds.Kind.{Kind};
ghost use Rattle.py_grammar.specs.Expressions.{Exprs, spell_exprs};
ghost use Rattle.py_grammar.specs.Trees.{tree_exprs};
ghost use Rattle.py_grammar.specs.Depth.{at_exprs};
ghost use Rattle.py_grammar.specs.Readings.{Reading, read};
ghost use Rattle.py_frames.specs.Steps.{step};
ghost use Rattle.py_frames.specs.Held.{held, held_if, value_if, seen, seen_if};
ghost use Rattle.py_frames.specs.Under.{all, under_exprs, first, nth, placed};
ghost use Rattle.py_frames.specs.Kept.{kept_exprs};
ghost use Rattle.py_frames.specs.declared.frames.State as machine;
ghost use Rattle.py_frames.specs.Forced.{forced, Grows, Ending, Adds};
ghost use Rattle.py_frames.specs.Targets.{sight, Agrees};
ghost use Rattle.py_grammar.specs.Readings.{whole, narrow, undivided};
ghost use Rattle.py_grammar.specs.States as states;
ghost use Rattle.py_grammar.specs.Outside.{outside_reading};
ghost use Rattle.py_frames.specs.Constructs.{construct, may_end};
ghost use Rattle.py_frames.specs.Ends.{ended, is_narrow, is_undivided, is_begun};
ghost use Rattle.py_grammar.specs.States.{targets_in};

/// One more token in the machine is one more token in the forms.
pub fn the_machine_reads_the_forms()
    ensures { (place : ℕ → ℕ) (reading : Reading) (token : Kind) (stop : List Kind)
        → step (held place reading (token ∷ stop)) token (place (length (token ∷ stop))) ≡ held_if place (read reading token) stop }
{}

/// The place kept for a depth is where the first part that deep begins.
pub fn the_places_are_the_first_at_each_depth()
    ensures { (place : ℕ → ℕ) → ((a b : ℕ) → place (max a b) ≡ max (place a) (place b)) → (exprs : Exprs) (rest : List Kind) (depth : ℕ)
        → placed place (first (at_exprs exprs rest depth)) ≡ nth depth (all place (spell_exprs exprs rest) (under_exprs place exprs rest)) }
{}

/// The tree of what isn't too deep is the tree of the grammar.
pub fn the_tree_is_kept()
    ensures { (place : ℕ → ℕ) (exprs : Exprs) (rest : List Kind) → length (under_exprs place exprs rest) < 64 → kept_exprs place exprs rest ≡ tree_exprs exprs }
{}

/// What may be assigned to is seen in the machine where the forms are targets.
pub fn the_machine_sees_targets()
    ensures { (place : ℕ → ℕ) (reading : Reading) (rest : List Kind) → sight (held place reading rest) ≡ seen_if place (whole reading) rest }
{}

/// What is forced stays forced: with one more token each depth is reached no later. What is read may still turn out to be targets,
/// which are no parts.
pub fn what_is_forced_stays_forced()
    ensures { (targets : Bool) (state : machine.State) (token : Kind) (left : ℕ) → Grows targets (forced targets state) (step state token left) }
{}

/// And no more is forced: by these tokens what is open ends, and none of them begins a part before itself.
pub fn what_is_open_can_end_without_more()
    ensures { (targets : Bool) (state : machine.State) (token : Kind) (left : ℕ) → Ending state token → Adds targets left (forced targets state) (step state token left) }
{}

/// The targets that it sees are those of the forms.
pub fn the_targets_are_those_of_the_forms()
    ensures { (place : ℕ → ℕ) (exprs : Exprs) (rest : List Kind) → Agrees (seen place exprs rest) (targets_in exprs) }
{}

/// What ends is the form that has been read.
pub fn what_ends_is_the_form()
    ensures { (place : ℕ → ℕ) (reading : Reading) (rest : List Kind) → ended (held place reading rest) ≡ value_if place (whole reading) rest }
{}

/// The machine tells what has been read of a primary alone, and of an expression alone, and whether anything has.
pub fn the_machine_tells_what_is_outermost()
    ensures { (place : ℕ → ℕ) (reading : Reading) (rest : List Kind) → (is_narrow (held place reading rest) ≡ narrow reading)
        × (is_undivided (held place reading rest) ≡ undivided reading) × (is_begun (held place reading rest) ≡ states.is_begun reading) }
{}

/// The construct outside the grammar that a token begins is that of the forms, and so is whether what has been read may end.
pub fn the_machine_tells_what_a_token_begins()
    ensures { (place : ℕ → ℕ) (reading : Reading) (token : Kind) (rest : List Kind) → (construct (held place reading rest) token ≡ outside_reading reading token)
        × (may_end (held place reading rest) ≡ is_some (whole reading)) }
{}
