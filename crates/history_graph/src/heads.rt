ghost use Rattle.std.specs.Prelude.{◌≡◌, length, IfOk, OnOk};
ghost use Rattle.py_heap.specs.declared.state.State.{State};
ghost use Rattle.linked_parts.specs.Parts.{ArePartsOf};
ghost use Rattle.history_graph.specs.Written.{IsByLeast};
ghost use Rattle.history_graph.specs.Left.{ArePartHeads, AddsGone, AreHeads, AreWithin};

use crate::written::{by_least, first_name, is_written};
use linked_parts::Parts;
use plain_data::{Text, TextMap};
use py_heap::State;
use py_machine::Marks;
use std::alloc::{AllocError, Global};

/// What a cell left under a name.
#[derive(Clone, Copy, Debug)]
pub(crate) enum Left {
    /// The part with that number, whose least name it is.
    Part(usize),
    /// No value: the name was deleted.
    Gone,
}

/// Of the parts those that a cell with these marks wrote, by their least names.
fn part_heads(
    alloc: Global,
    before: &Parts,
    now: &Parts,
    marks: &Marks,
) -> Result<TextMap<Left>, AllocError>
    ensures heads { IfOk result (λ heads. (s t : State) → ArePartsOf s before.now → ArePartsOf t now.now → ArePartHeads before.now now.now marks.now (length now.now.list) heads) }
    ensures within { IfOk result (λ heads. AreWithin now.now heads) }
{
    let index = by_least(alloc, before)?;
    let list = now.list.as_slice();
    let mut heads = TextMap::new(alloc);
    for n in 0..list.len() {
        let part = &list[n];
        if is_written(before, &index, marks, part) {
            let name = first_name(alloc, part.names.as_slice())?;
            heads.bind(name, Left::Part(n))?;
        }
    }
    Ok(heads)
}

/// Notes as deleted those of the names that have no value.
fn add_gone(
    alloc: Global,
    state: &State,
    names: &[Text],
    heads: &mut TextMap<Left>,
) -> Result<(), AllocError>
    ensures { OnOk result (AddsGone state.now names.now heads.old heads.new) }
{
    for name in names {
        if state.look(name).is_none() {
            heads.bind(name.copy(alloc)?, Left::Gone)?;
        }
    }
    Ok(())
}

/// What a cell with these marks left: the parts that it wrote, by their least names, and the names that it deleted.
pub(crate) fn heads_of(
    alloc: Global,
    state: &State,
    before: &Parts,
    now: &Parts,
    marks: &Marks,
) -> Result<TextMap<Left>, AllocError>
    requires { ArePartsOf state.now now.now }
    ensures heads { IfOk result (λ heads. (s : State) → ArePartsOf s before.now → AreHeads before.now now.now marks.now state.now heads) }
    ensures within { IfOk result (λ heads. AreWithin now.now heads) }
{
    let mut heads = part_heads(alloc, before, now, marks)?;
    let bound = marks.bound.names(alloc)?;
    add_gone(alloc, state, bound.as_slice(), &mut heads)?;
    Ok(heads)
}
