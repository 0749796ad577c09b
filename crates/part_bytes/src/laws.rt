//! The order of a part's objects, and the text of a small part. Each law is the contract of a function that does nothing.

ghost use Rattle.std.specs.Prelude.{ℕ, ◌≡◌, List, [], ◌∷◌, codes, Contains};
ghost use Rattle.py_heap.specs.declared.state.State.{State};
ghost use Rattle.py_heap.specs.References.{IsClosed};
ghost use Rattle.py_heap.specs.Reaching.{Reach, IsListOf, firsts, met};
ghost use Rattle.part_bytes.specs.Examples.{two_in_x, two_in_x_bytes};
ghost use Rattle.part_bytes.specs.Parts.{order};
ghost use Rattle.part_bytes.specs.Texts.{part_text};

/// In a closed state the order of a part's objects has those that the names reach and no others, in the order in which they
/// are met first: in the values of the names, name by name, and then in the objects, in this same order. No other list is such
/// an order.
pub fn the_order_is_that_of_first_reach()
    ensures reached { (s : State) (names : List (List ℕ)) → IsClosed s → IsListOf s names (order s names) }
    ensures first { (s : State) (names : List (List ℕ)) → IsClosed s → order s names ≡ firsts (met s names (order s names)) }
    ensures alone { (s : State) (names : List (List ℕ)) (found : List ℕ) → IsClosed s → ((at : ℕ) → Contains found at → Reach s names at)
        → found ≡ firsts (met s names found) → found ≡ order s names }
{}

/// If `x` is 2, its part is written as these bytes.
pub fn the_text_of_a_small_part()
    ensures { part_text two_in_x (codes "x" ∷ []) ≡ two_in_x_bytes }
{}
