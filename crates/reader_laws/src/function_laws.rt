ghost use Rattle.std.specs.Prelude.{◌≡◌, ℕ, List, Ok};
ghost use Rattle.std.specs.Str.{IsUtf8};
ghost use Rattle.py_tree.specs.declared.statements.Def.{Def};
ghost use Rattle.py_tree.specs.declared.statements.Stmt.{Stmt};
ghost use Rattle.py_laws.specs.Allowed.{AreAllowed};
ghost use Rattle.py_reader.specs.Verdict.{verdict};
ghost use Rattle.reader_laws.specs.Texts.{IsItsText};

/// The statements of a code bind only names that a program may bind, and each function in them, at any depth, is the one that
/// its text alone is read as. The same holds of the body of each function that its text alone is read as.
pub fn functions_are_what_their_texts_read_as()
    ensures cells { (code : List ℕ) (body : List Stmt) → IsUtf8 code → verdict code ≡ Ok body → AreAllowed IsItsText body }
    ensures functions { (def : Def) → IsItsText def → AreAllowed IsItsText def.body }
{}
