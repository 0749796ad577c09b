ghost use Rattle.std.specs.Prelude.{◌≡◌, ◌++◌, Bool, map, length, OnOk};
ghost use Rattle.py_tree.specs.declared.statements.Def.{Def};
ghost use Rattle.py_heap.specs.References.{IsClosed};
ghost use Rattle.py_heap.specs.Valid.{IsValidBy};
ghost use Rattle.part_bytes.specs.Parts.{numbered_object};
ghost use Rattle.replay_laws.specs.Copies.{higher_object, put_name, with_objects};
ghost use Rattle.replay_laws.specs.Walks.{IsLoaded};
ghost use Rattle.part_loader.specs.Loading as spec;

use crate::moving::{Above, into_moved, moved_value};
use part_bytes::PartValue;
use plain_data::{Items, Text};
use py_heap::{Object, State};
use py_value::Value;
use std::alloc::{AllocError, Global};

// After an error the state means nothing, and is only dropped.

/// Puts objects after those that there are, with addresses that are `above.base` higher.
fn add_objects(
    alloc: Global,
    state: &mut State,
    above: &Above,
    objects: Items<Object>,
) -> Result<(), AllocError>
    ensures { OnOk result (state.new ≡ with_objects (map (higher_object above.now.base) objects) state.old) }
{
    for object in objects.into_vec() {
        state.add(into_moved(alloc, above, object)?)?;
    }
    Ok(())
}

/// Gives a name a value, with addresses that are `above.base` higher, or takes away the one that it has.
fn put(
    alloc: Global,
    state: &mut State,
    above: &Above,
    name: &Text,
    held: &Option<Value>,
) -> Result<(), AllocError>
    ensures { OnOk result (state.new ≡ put_name above.now.base state.old name.now held.now) }
{
    match held {
        Some(value) => state.bind(alloc, name, moved_value(above, value)?),
        None => {
            state.unbind(name);
            Ok(())
        }
    }
}

/// Gives each name what it has in the part.
fn put_all(
    alloc: Global,
    state: &mut State,
    above: &Above,
    names: &[Text],
    held: &[Option<Value>],
) -> Result<(), AllocError>
    ensures { OnOk result (state.new ≡ spec.put_held above.now.base names.now held.now state.old) }
{
    let mut rest = names;
    let mut values = held;
    while let [name, names @ ..] = rest {
        let [value, others @ ..] = values else {
            break;
        };
        put(alloc, state, above, name, value)?;
        rest = names;
        values = others;
    }
    Ok(())
}

/// Puts the objects of a part after those that there are, and gives its names what they have in it. An object without references
/// isn't copied.
fn load_after(alloc: Global, state: &mut State, part: PartValue) -> Result<(), AllocError>
    ensures { OnOk result (state.new ≡ spec.loaded part state.old) }
{
    let PartValue {
        names,
        values,
        objects,
    } = part;
    let above = Above { base: state.len() };
    add_objects(alloc, state, &above, objects)?;
    put_all(alloc, state, &above, names.as_slice(), values.as_slice())
}

/// Loads a part: puts its objects after those that there are, and gives its names what they have in it.
///
/// If the part is whole and the state is closed, the names of the part are in the state as they are in the part, they share nothing with
/// what was there, and all else in the state is as before. If the part is valid too, a valid state stays valid. After want of memory
/// nothing is known of the state, and it is only dropped.
pub fn load(alloc: Global, state: &mut State, part: PartValue) -> Result<(), AllocError>
    ensures exact { OnOk result (state.new ≡ spec.loaded part state.old) }
    ensures is_load { OnOk result (spec.IsWhole part → IsClosed state.old → IsLoaded part.names (spec.state_of part) state.old state.new) }
    ensures valid { OnOk result ((test : Def → Bool) → spec.IsWhole part → spec.IsValidPartBy test part → IsValidBy test state.old → IsValidBy test state.new) }
{
    load_after(alloc, state, part)
}
