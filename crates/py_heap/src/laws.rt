ghost use Rattle.std.specs.Prelude.{ℕ, ◌≡◌, ◌<◌, ◌≤◌, ◌++◌, Bool, IsTrue, Contains, List, [], ◌∷◌, All, length, insert, remove, slice_set};
ghost use Rattle.py_names.specs.Names.{is_variable};
ghost use Rattle.py_tree.specs.declared.statements.Def.{Def};
ghost use Rattle.py_value.specs.declared.key.Key.{Key};
ghost use Rattle.py_value.specs.declared.value.Value.{Value};
ghost use Rattle.py_heap.specs.declared.heap.Object.{Object};
ghost use Rattle.py_heap.specs.declared.state.State.{State};
ghost use Rattle.py_heap.specs.Dicts.{with_pair, without_key};
ghost use Rattle.py_heap.specs.Objects.{items_at, pairs_at};
ghost use Rattle.py_heap.specs.Reaching.{Reach, IsListOf, firsts, met};
ghost use Rattle.py_heap.specs.References.{value_refs, object_refs, AreLive, IsClosed};
ghost use Rattle.py_heap.specs.States.{empty, with_name, without_name, with_object, with_items, with_pairs, with_uses};
ghost use Rattle.py_heap.specs.Valid.{IsValidBy, IsValidObjectBy};

use crate::meter::METER_LIMIT;

/// No operation makes a state that names an address without an object, if what it puts in names none.
pub fn operations_keep_closed()
    ensures new { IsClosed empty }
    ensures set_count { (s : State) (n : ℕ) → IsClosed s → IsClosed (record s { count = n }) }

    // `charge` too sets the meter, or changes nothing.
    ensures set_meter { (s : State) (n : ℕ) → IsClosed s → IsClosed (record s { meter = n }) }
    ensures bind { (s : State) (name : List ℕ) (value : Value) → IsClosed s → AreLive s.heap (value_refs value)
        → IsClosed (with_name s name value) }
    ensures unbind { (s : State) (name : List ℕ) → IsClosed s → IsClosed (without_name s name) }
    ensures add { (s : State) (new : Object) → IsClosed s → AreLive s.heap (object_refs new) → IsClosed (with_object s new) }
    ensures set_item { (s : State) (at index : ℕ) (value : Value) → IsClosed s → AreLive s.heap (value_refs value)
        → IsClosed (with_items s at (slice_set (items_at s.heap at) index value)) }
    ensures push_item { (s : State) (at : ℕ) (value : Value) → IsClosed s → AreLive s.heap (value_refs value)
        → IsClosed (with_items s at (items_at s.heap at ++ value ∷ [])) }
    ensures extend_items { (s : State) (at : ℕ) (more : List Value) → IsClosed s → All (λ item. AreLive s.heap (value_refs item)) more
        → IsClosed (with_items s at (items_at s.heap at ++ more)) }
    ensures insert_item { (s : State) (at index : ℕ) (value : Value) → IsClosed s → AreLive s.heap (value_refs value)
        → IsClosed (with_items s at (insert (items_at s.heap at) index value)) }
    ensures remove_item { (s : State) (at index : ℕ) → IsClosed s → IsClosed (with_items s at (remove (items_at s.heap at) index)) }
    ensures put_key { (s : State) (at : ℕ) (key : Key) (value : Value) → IsClosed s → AreLive s.heap (value_refs value)
        → IsClosed (with_pairs s at (with_pair (pairs_at s.heap at) key value)) }
    ensures remove_key { (s : State) (at : ℕ) (key : Key) → IsClosed s → IsClosed (with_pairs s at (without_key (pairs_at s.heap at) key)) }

    // `clear` empties a list or a dict.
    ensures clear_list { (s : State) (at : ℕ) → IsClosed s → IsClosed (with_items s at []) }
    ensures clear_dict { (s : State) (at : ℕ) → IsClosed s → IsClosed (with_pairs s at []) }
    ensures raise_uses { (s : State) (at uses : ℕ) → IsClosed s → IsClosed (with_uses s at uses) }
{}

/// No operation makes a valid state invalid: what it puts in names no address without an object, a name that it binds is one
/// that a program may bind, an object that it adds is valid, and the meter stays within its limit. This is so whatever test
/// the definitions of functions have to pass.
pub fn operations_keep_valid()
    ensures new { (test : Def → Bool) → IsValidBy test empty }
    ensures set_count { (test : Def → Bool) (s : State) (n : ℕ) → IsValidBy test s → IsValidBy test (record s { count = n }) }

    // `charge` too sets the meter, or changes nothing.
    ensures set_meter { (test : Def → Bool) (s : State) (n : ℕ) → IsValidBy test s → n ≤ METER_LIMIT → IsValidBy test (record s { meter = n }) }
    ensures bind { (test : Def → Bool) (s : State) (name : List ℕ) (value : Value) → IsValidBy test s → IsTrue (is_variable name)
        → AreLive s.heap (value_refs value) → IsValidBy test (with_name s name value) }
    ensures unbind { (test : Def → Bool) (s : State) (name : List ℕ) → IsValidBy test s → IsValidBy test (without_name s name) }
    ensures add { (test : Def → Bool) (s : State) (new : Object) → IsValidBy test s → AreLive s.heap (object_refs new)
        → IsValidObjectBy test new → IsValidBy test (with_object s new) }
    ensures set_item { (test : Def → Bool) (s : State) (at index : ℕ) (value : Value) → IsValidBy test s → AreLive s.heap (value_refs value)
        → IsValidBy test (with_items s at (slice_set (items_at s.heap at) index value)) }
    ensures push_item { (test : Def → Bool) (s : State) (at : ℕ) (value : Value) → IsValidBy test s → AreLive s.heap (value_refs value)
        → IsValidBy test (with_items s at (items_at s.heap at ++ value ∷ [])) }
    ensures extend_items { (test : Def → Bool) (s : State) (at : ℕ) (more : List Value) → IsValidBy test s
        → All (λ item. AreLive s.heap (value_refs item)) more → IsValidBy test (with_items s at (items_at s.heap at ++ more)) }
    ensures insert_item { (test : Def → Bool) (s : State) (at index : ℕ) (value : Value) → IsValidBy test s → AreLive s.heap (value_refs value)
        → IsValidBy test (with_items s at (insert (items_at s.heap at) index value)) }
    ensures remove_item { (test : Def → Bool) (s : State) (at index : ℕ) → IsValidBy test s
        → IsValidBy test (with_items s at (remove (items_at s.heap at) index)) }
    ensures put_key { (test : Def → Bool) (s : State) (at : ℕ) (key : Key) (value : Value) → IsValidBy test s → AreLive s.heap (value_refs value)
        → IsValidBy test (with_pairs s at (with_pair (pairs_at s.heap at) key value)) }
    ensures remove_key { (test : Def → Bool) (s : State) (at : ℕ) (key : Key) → IsValidBy test s
        → IsValidBy test (with_pairs s at (without_key (pairs_at s.heap at) key)) }
    ensures clear_list { (test : Def → Bool) (s : State) (at : ℕ) → IsValidBy test s → IsValidBy test (with_items s at []) }
    ensures clear_dict { (test : Def → Bool) (s : State) (at : ℕ) → IsValidBy test s → IsValidBy test (with_pairs s at []) }
    ensures raise_uses { (test : Def → Bool) (s : State) (at uses : ℕ) → IsValidBy test s → IsValidBy test (with_uses s at uses) }
{}

/// In a closed state each address that names reach has an object, and a list has exactly the addresses that they reach.
pub fn closed_states_list_what_is_reached()
    ensures live { (s : State) (names : List (List ℕ)) (at : ℕ) → IsClosed s → Reach s names at → at < length s.heap }
    ensures listed { (s : State) (names : List (List ℕ)) → IsClosed s → ((found : List ℕ) × IsListOf s names found) }
{}

/// The clauses of `State::reach` name one list: two lists of reached addresses, each in the order in which what it holds
/// is met first, are equal.
pub fn first_reached_is_one_list()
    ensures { (s : State) (names : List (List ℕ)) (a b : List ℕ) → ((at : ℕ) → Contains a at → Reach s names at)
        → ((at : ℕ) → Contains b at → Reach s names at) → a ≡ firsts (met s names a) → b ≡ firsts (met s names b) → a ≡ b }
{}
