ghost use Rattle.std.specs.Prelude.{◌++◌, ◌∷◌, [], ℕ, Bool, IsTrue, List, Option};
ghost use Rattle.std.specs.List.{flat_map};
ghost use Rattle.py_tree.specs.declared.expressions.Expr.{Expr};
ghost use Rattle.py_tree.specs.declared.expressions.Op.{Op};
ghost use Rattle.py_tree.specs.declared.statements.Def.{Def};
ghost use Rattle.py_tree.specs.declared.statements.Stmt.{Stmt};
ghost use Rattle.py_value.specs.declared.key.Key.{Key};
ghost use Rattle.py_value.specs.declared.value.Value.{Value};
ghost use Rattle.py_heap.specs.Dicts.{Pairs};
ghost use Rattle.py_heap.specs.Reaching.{held_refs};
ghost use Rattle.py_heap.specs.References.{value_refs, pair_refs};
ghost use Rattle.py_heap.specs.declared.heap.SequenceKind.{SequenceKind};
ghost use Rattle.py_heap.specs.declared.state.State.{State};
ghost use Rattle.py_heap.specs.Valid.{IsValidBy};
ghost use Rattle.py_machine.specs.Runs.{start};
ghost use Rattle.py_machine.specs.declared.method.BoundMethod.{BoundMethod};
ghost use Rattle.py_meaning.specs.Operators.{joined, made_text, operated};
ghost use Rattle.py_meaning.specs.Compared.{compared};
ghost use Rattle.py_meaning.specs.Items.{indexed, sliced, item_stored, item_deleted};
ghost use Rattle.py_meaning.specs.Methods.{extend, method_called};
ghost use Rattle.py_meaning.specs.Meaning.{augmented, cell, filled, handle_called, level, put, tell_called};
ghost use Rattle.py_meaning.specs.Meaning as meaning;
ghost use Rattle.py_laws.specs.Allowed.{IsAllowed, AreAllowedBy};
ghost use Rattle.py_laws.specs.Sound.{IsSound, KeepsSound, GivesSound, BodiesPass, method_refs};

/// Each run of the meaning keeps a machine sound, and so its state valid, if the references among the values that it is given
/// name objects; a reference that it gives then names one too. This is so whatever test the definitions of functions have to
/// pass, if the bodies of those that pass it bind only names that a program may bind and define only functions that pass it.
pub fn runs_keep_machines_sound()
    // A cell begins with a sound machine.
    ensures starts { (test : Def → Bool) (s : State) → IsValidBy test s → IsSound test (start s) }
    ensures operators { (test : Def → Bool) (o : Op) (left right : Value) → BodiesPass test
        → GivesSound test (value_refs left ++ value_refs right) (operated o left right) }
    ensures augmentations { (test : Def → Bool) (o : Op) (left right : Value) → BodiesPass test
        → GivesSound test (value_refs left ++ value_refs right) (augmented o left right) }
    ensures comparisons { (test : Def → Bool) (levels : ℕ) (o : Op) (left right : Value) → BodiesPass test
        → KeepsSound test (value_refs left ++ value_refs right) (compared levels o left right) }
    ensures indexes { (test : Def → Bool) (of at : Value) → BodiesPass test
        → GivesSound test (value_refs of ++ value_refs at) (indexed of at) }
    ensures slices { (test : Def → Bool) (of : Value) (from to : Option Value) → BodiesPass test
        → GivesSound test (value_refs of ++ (held_refs value_refs from ++ held_refs value_refs to)) (sliced of from to) }
    ensures stores { (test : Def → Bool) (on at held : Value) → BodiesPass test
        → KeepsSound test (value_refs on ++ (value_refs at ++ value_refs held)) (item_stored on at held) }
    ensures deletions { (test : Def → Bool) (on at : Value) → BodiesPass test
        → KeepsSound test (value_refs on ++ value_refs at) (item_deleted on at) }
    ensures sequences { (test : Def → Bool) (kind : SequenceKind) (items : List Value) → BodiesPass test
        → GivesSound test (flat_map value_refs items) (joined kind items) }
    ensures texts { (test : Def → Bool) (text : List ℕ) → BodiesPass test → GivesSound test [] (made_text text) }
    ensures puts { (test : Def → Bool) (at : ℕ) (key : Key) (held : Value) → BodiesPass test
        → KeepsSound test ((at ∷ []) ++ value_refs held) (put at key held) }
    ensures fills { (test : Def → Bool) (at : ℕ) (pairs : Pairs) → BodiesPass test
        → GivesSound test ((at ∷ []) ++ flat_map pair_refs pairs) (filled at pairs) }
    ensures extensions { (test : Def → Bool) (at : ℕ) (more : List Value) → BodiesPass test
        → KeepsSound test ((at ∷ []) ++ flat_map value_refs more) (extend at more) }
    ensures methods { (test : Def → Bool) (method : BoundMethod) (args : List Value) → BodiesPass test
        → GivesSound test (method_refs method ++ flat_map value_refs args) (method_called method args) }
    ensures handles { (test : Def → Bool) (args : List Value) → BodiesPass test
        → GivesSound test (flat_map value_refs args) (handle_called args) }
    ensures tells { (test : Def → Bool) (args : List Value) → BodiesPass test
        → GivesSound test (flat_map value_refs args) (tell_called args) }
    ensures results { (test : Def → Bool) (held : Value) → BodiesPass test → KeepsSound test (value_refs held) (meaning.result held) }
    ensures calls { (test : Def → Bool) (levels : ℕ) (callee : Value) (args : List Value) → BodiesPass test
        → GivesSound test (value_refs callee ++ flat_map value_refs args) ((level levels).calls callee args) }
    ensures expressions { (test : Def → Bool) (levels : ℕ) (e : Expr) → BodiesPass test → GivesSound test [] ((level levels).eval e) }
    // A statement, too, binds only such names, and defines only functions that pass.
    ensures statements { (test : Def → Bool) (levels : ℕ) (s : Stmt) → BodiesPass test → IsAllowed (λ def. IsTrue (test def)) s
        → KeepsSound test [] ((level levels).exec s) }
    ensures cells { (test : Def → Bool) (body : List Stmt) → BodiesPass test → AreAllowedBy test body → KeepsSound test [] (cell body) }
{}
