ghost use Rattle.std.specs.Prelude.{◌≡◌, ℕ, List, Ok};
ghost use Rattle.py_names.specs.Names.{is_variable};
ghost use Rattle.py_token.specs.declared.kinds.Token.{Token};
ghost use Rattle.py_token.specs.Lines.{tokens_of};
ghost use Rattle.py_grammar.specs.Statements.{Cell, IsCell};
ghost use Rattle.py_grammar.specs.Trees.{Source, tree_cell};
ghost use Rattle.py_laws.specs.Mentioned.{names_in, AllPass};
ghost use Rattle.reader_laws.specs.Kinds.{kinds};

/// If the tokens of a text are a cell, each name that is in the cell's tree is one that a program may bind: an identifier
/// that is no keyword. This is so of names that are looked up, of targets, of functions, parameters and methods, and of what
/// `del` and `global` name.
pub fn names_in_trees_of_cells_are_variables()
    ensures { (code : List ℕ) (tokens : List Token) (source : Source) (cell : Cell) → tokens_of code ≡ Ok tokens
        → IsCell (kinds tokens) cell → AllPass is_variable (names_in (tree_cell source cell)) }
{}
