//! The texts of a checkpoint, in the order of first use.

ghost use Rattle.std.specs.Prelude.{◌≡◌, ◌+◌, cond, [], length, IfOk, OnOk};
ghost use Rattle.py_heap.specs.References.{IsClosed};
ghost use Rattle.part_bytes.specs.Tables.{with_texts};
ghost use Rattle.part_bytes.specs.Uses.{part_texts};
ghost use Rattle.checkpoint_bytes.specs.Marks.{AreMarksOf};
ghost use Rattle.checkpoint_bytes.specs.Texts as spec;

use graph_model::{CellRecord, Graph, Plan, Version};
use part_bytes::{TextTable, add_part_texts};
use plain_data::Items;
use py_heap::State;
use std::alloc::{AllocError, Global};

// After an error the table may have some of the texts, and is only dropped.

/// The codes of the cells.
fn add_codes<'a>(texts: &mut TextTable<'a>, cells: &'a [CellRecord]) -> Result<(), AllocError>
    ensures { OnOk result (texts.new ≡ with_texts texts.old (spec.codes_of cells.now)) }
{
    for cell in cells {
        texts.number(cell.code.as_str())?;
    }
    Ok(())
}

/// The texts of the part of a version, if it is to be copied.
fn add_if_copied<'a>(
    alloc: Global,
    texts: &mut TextTable<'a>,
    state: &'a State,
    copied: bool,
    version: &Version,
) -> Result<(), AllocError>
    requires { IsClosed state.now }
    ensures { OnOk result (texts.new ≡ with_texts texts.old (cond copied (part_texts state.now version.now.names) [])) }
{
    if copied {
        add_part_texts(alloc, state, version.names.as_slice(), texts)?;
    }
    Ok(())
}

/// The texts of the parts that the plan copies.
fn add_copied<'a>(
    alloc: Global,
    texts: &mut TextTable<'a>,
    state: &'a State,
    marks: &Items<bool>,
    versions: &[Version],
    plan: &Plan,
) -> Result<(), AllocError>
    requires closed { IsClosed state.now }
    requires marks { AreMarksOf plan.now.copied (length versions.now + 1) marks.now }
    ensures { OnOk result (texts.new ≡ with_texts texts.old (spec.each_from (spec.copied_texts state.now plan.now) 1 versions.now)) }
{
    for index in 0..versions.len() {
        add_if_copied(
            alloc,
            texts,
            state,
            marks.as_slice()[index + 1],
            &versions[index],
        )?;
    }
    Ok(())
}

/// The texts to which the checkpoint of a session under a plan refers, each once, in the order of first use: the codes of its cells, and then
/// the texts of the parts that the plan copies. With 2^32 of them or more it is want of memory.
pub(crate) fn texts_of<'a>(
    alloc: Global,
    state: &'a State,
    graph: &'a Graph,
    marks: &Items<bool>,
    plan: &Plan,
) -> Result<TextTable<'a>, AllocError>
    requires closed { IsClosed state.now }
    requires marks { AreMarksOf plan.now.copied (length graph.now.versions + 1) marks.now }
    ensures { IfOk result (λ texts. texts ≡ spec.table_of state.now graph.now plan.now) }
{
    let mut texts = TextTable::new(alloc);
    add_codes(&mut texts, graph.cells.as_slice())?;
    add_copied(
        alloc,
        &mut texts,
        state,
        marks,
        graph.versions.as_slice(),
        plan,
    )?;
    Ok(texts)
}
