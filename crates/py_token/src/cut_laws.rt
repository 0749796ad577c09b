ghost use Rattle.std.specs.Prelude.{◌≡◌, ◌++◌, ◌∷◌, [], ℕ, true, List, Ok};
ghost use Rattle.std.specs.List.{slice_range};
ghost use Rattle.py_token.specs.declared.kinds.Kind.TheVariants.{Newline};
ghost use Rattle.py_token.specs.declared.kinds.Token.{Token};
ghost use Rattle.py_token.specs.Lines.{tokens_of};
ghost use Rattle.py_token.specs.Cuts.{kinds, is_word, level, begins_line, AreCut};

/// Some tokens of a text begin and end with a word, no block is open before them and a line begins there, and after them the
/// line ends. Then the bytes from the first to the last of them, as a text alone, have tokens of the same kinds, and after
/// these the line's end and the ends of the blocks that are open.
pub fn a_cut_text_has_the_same_tokens()
    ensures { (code : List ℕ) (before middle after : List Token) (first last end : Token)
        → tokens_of code ≡ Ok (before ++ first ∷ (middle ++ last ∷ (end ∷ after))) → is_word first.kind ≡ true → is_word last.kind ≡ true
        → end.kind ≡ Newline → begins_line true (kinds before) ≡ true → level 0 (kinds before) ≡ 0
        → AreCut (slice_range code first.start last.end) (kinds (first ∷ (middle ++ last ∷ []))) }
{}
