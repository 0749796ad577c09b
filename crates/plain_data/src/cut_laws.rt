ghost use Rattle.std.specs.Prelude.{ℕ, ◌≡◌, ◌+◌, ◌<◌, ◌≤◌, List, length};
ghost use Rattle.std.specs.Str.{IsUtf8};
ghost use Rattle.plain_data.specs.Cuts.{prefix_within};

/// The longest beginning of whole characters within `n` bytes is a text of at most `n` bytes. A text of at most `n` bytes is
/// its own beginning. Of a longer one, fewer than four of the first `n` bytes are left out, since a character has at most four.
pub fn a_text_is_cut_near_the_end_of_its_room()
    ensures text { (n : ℕ) (text : List ℕ) → IsUtf8 text → IsUtf8 (prefix_within n text) }
    ensures within { (n : ℕ) (text : List ℕ) → length (prefix_within n text) ≤ n }
    ensures whole { (n : ℕ) (text : List ℕ) → length text ≤ n → prefix_within n text ≡ text }
    ensures near { (n : ℕ) (text : List ℕ) → IsUtf8 text → n < length text → n < length (prefix_within n text) + 4 }
{}
