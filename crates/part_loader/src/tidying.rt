ghost use Rattle.std.specs.Prelude.{◌≡◌, ◌++◌, Bool, IfOk, OnOk};
ghost use Rattle.std.specs.List.{flat_map};
ghost use Rattle.std.specs.FinMap as finite;
ghost use Rattle.py_tree.specs.declared.statements.Def.{Def};
ghost use Rattle.py_heap.specs.References.{AreLive, IsClosed};
ghost use Rattle.py_heap.specs.Valid.{IsValidBy};
ghost use Rattle.part_bytes.specs.Parts.{number_in, objects_of};
ghost use Rattle.replay_laws.specs.Tidied.{IsTidied};
ghost use Rattle.part_loader.specs.Loading.{AreMovedNames};

use crate::moving::{moved_object, moved_value};
use part_bytes::Numbers;
use plain_data::Text;
use py_heap::State;
use std::alloc::{AllocError, Global};

// After an error the new state means nothing, and is only dropped.

/// Puts the objects at the numbered addresses of a state into another, in their order.
fn add_numbered(
    alloc: Global,
    fresh: &mut State,
    state: &State,
    numbers: &Numbers,
) -> Result<(), AllocError>
    requires { AreLive state.now.heap numbers.now.order }
    ensures { OnOk result (fresh.new ≡ record fresh.old { heap = fresh.old.heap ++ flat_map (objects_of state.now (number_in numbers.now.order)) numbers.now.order }) }
{
    for at in numbers.order.as_slice() {
        fresh.add(moved_object(alloc, numbers, state.get(*at))?)?;
    }
    Ok(())
}

/// Gives names of a state their values in another.
fn bind_numbered(
    alloc: Global,
    fresh: &mut State,
    state: &State,
    numbers: &Numbers,
    names: &[Text],
) -> Result<(), AllocError>
    requires { fresh.old.globals ≡ finite.empty }
    ensures names { OnOk result (AreMovedNames state.now (number_in numbers.now.order) names.now fresh.new.globals) }
    ensures rest { OnOk result (fresh.new ≡ record fresh.old { globals = fresh.new.globals }) }
{
    for name in names {
        if let Some(value) = state.look(name) {
            fresh.bind(alloc, name, moved_value(numbers, value)?)?;
        }
    }
    Ok(())
}

/// The state with the objects that names reach alone, numbered from 0 in the order in which the ascending names reach them first.
/// If the state is valid, so is this one.
pub fn tidied(alloc: Global, state: &State) -> Result<State, AllocError>
    requires { IsClosed state.now }
    ensures tidied { IfOk result (λ tidied. IsTidied state.now tidied) }
    ensures valid { IfOk result (λ tidied. (test : Def → Bool) → IsValidBy test state.now → IsValidBy test tidied) }
{
    let names = state.names(alloc)?;
    let numbers = Numbers::new(alloc, state, names.as_slice())?;
    let mut fresh = State::new(alloc);
    add_numbered(alloc, &mut fresh, state, &numbers)?;
    bind_numbered(alloc, &mut fresh, state, &numbers, names.as_slice())?;
    fresh.set_count(state.count());
    fresh.set_meter(state.meter());
    Ok(fresh)
}
