ghost use Rattle.std.specs.Prelude.{◌≡◌, ℕ, List, Ok};
ghost use Rattle.py_names.specs.Names.{is_variable};
ghost use Rattle.py_tree.specs.declared.statements.Def.{Def};
ghost use Rattle.py_tree.specs.declared.statements.Stmt.{Stmt};
ghost use Rattle.py_reader.specs.Verdict.{verdict};
ghost use Rattle.py_reader.specs.DefinitionVerdict.{verdict_alone};
ghost use Rattle.py_laws.specs.Mentioned.{names_in, names_by_def, AllPass};

/// Each name in the tree of a code is one that a program may bind: an identifier that is no keyword. The same holds in the tree
/// of a function alone. This is so of names that are looked up, of targets, of functions, parameters and methods, and of what
/// `del` and `global` name.
pub fn names_in_trees_are_variables()
    ensures cells { (code : List ℕ) (body : List Stmt) → verdict code ≡ Ok body → AllPass is_variable (names_in body) }
    ensures functions { (code : List ℕ) (def : Def) → verdict_alone code ≡ Ok def → AllPass is_variable (names_by_def def) }
{}
