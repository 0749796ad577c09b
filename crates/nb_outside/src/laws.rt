ghost use Rattle.std.specs.Prelude.{List, [], ◌∷◌, ◌++◌};
ghost use Rattle.nb_outside.specs.declared.feed.Drawn.{Drawn};
ghost use Rattle.nb_outside.specs.Feeds.{Seen, Gives, Fed};

/// What was taken from a feed adds up: nothing at first, by each draw what it gave, and of two stretches of time what was
/// taken in the first and then what was taken in the second.
#[tactic(auto, using(crate::proofs::Feeding::fed_none, crate::proofs::Feeding::fed_one, crate::proofs::Feeding::fed_more))]
pub fn draws_add_up()
    ensures none { (s : Seen) → Fed s [] s }
    ensures one { (s t : Seen) (d : Drawn) → Gives s d t → Fed s (d ∷ []) t }
    ensures more { (s t u : Seen) (first second : List Drawn) → Fed s first t → Fed t second u → Fed s (first ++ second) u }
{}
