ghost use Rattle.std.specs.Prelude.{◌≡◌, ◌⊎◌, ◌∷◌, ◌++◌, [], ℕ, true, List, Ok, Err};
ghost use Rattle.py_token.specs.declared.faults.TokenFault.TheVariants.{BadIndent};
ghost use Rattle.py_token.specs.declared.kinds.Kind.{Kind};
ghost use Rattle.py_token.specs.declared.kinds.Token.{Token};
ghost use Rattle.py_token.specs.Lines.{tokens_of};
ghost use Rattle.py_token.specs.Cuts.{kinds, is_word};
ghost use Rattle.py_token.specs.Indentation.{Shifts, IsMisfit, Descends, InOneLine, brackets, Lines, Misfits};

/// The tokens of a text are lines, whose `Indent`s and `Dedent`s are those that the stack of open depths gives for the depth
/// at which the line's first word stands. At first 0 alone is open.
pub fn lines_are_indented()
    ensures { (code : List ℕ) (tokens : List Token) → tokens_of code ≡ Ok tokens → (left : List ℕ) × Lines code (0 ∷ []) tokens left }
{}

/// After a word that leaves no bracket open, no line feed stands before the next token: only a `Newline` ends the line.
pub fn lines_go_on_in_brackets_alone()
    ensures { (code : List ℕ) (before after : List Token) (word next : Token) → tokens_of code ≡ Ok (before ++ word ∷ next ∷ after) → is_word word.kind ≡ true
        → brackets 0 (kinds (before ++ word ∷ [])) ≡ 0 → InOneLine code word.end next.start }
{}

/// A text is refused for a wrong indent at a place only if a line stands there whose depth is less than the deepest of the
/// depths that the text above it leaves open, and is none of them.
pub fn a_bad_indent_is_not_open()
    ensures { (code : List ℕ) (at : ℕ) → tokens_of code ≡ Err (BadIndent at) → Misfits code at }
{}

/// While depths are open that descend to 0, a line of a depth either misfits or gives one list of markers and leaves one list
/// of depths open, which descend to 0 too.
pub fn each_depth_shifts_once_or_misfits()
    ensures each { (depth : ℕ) (stack : List ℕ) → Descends stack → IsMisfit depth stack ⊎ ((markers : List Kind) × (after : List ℕ) × Shifts depth stack markers after) }
    ensures once { (depth : ℕ) (stack after other : List ℕ) (markers others : List Kind) → Shifts depth stack markers after → Shifts depth stack others other
        → (markers ≡ others) × (after ≡ other) }
    ensures not_both { (depth : ℕ) (stack after : List ℕ) (markers : List Kind) → IsMisfit depth stack → Shifts depth stack markers after → ⊥ }
    ensures descends { (depth : ℕ) (stack after : List ℕ) (markers : List Kind) → Descends stack → Shifts depth stack markers after → Descends after }
{}
