ghost use Rattle.std.specs.Prelude.{◌≡◌, ◌+◌, ◌<◌, ◌≤◌, ◌^◌, ◌++◌, ◌∷◌, [], All, length, take, IfOk, OnOk, OnErr};
ghost use Rattle.history_graph.specs.Active.{AreActive, AreThose};
ghost use Rattle.history_graph.specs.Grown.{AreNamesOf, HasFresh, count_on, AreMarked};

use crate::active::active_version;
use crate::sets::{add_names, has_one_of};
use graph_model::{CellRecord, Graph, Version};
use plain_data::{Items, TextMap};
use std::alloc::{AllocError, Global};
use std::mem::replace;

/// The names of the versions.
pub(crate) fn names_of(alloc: Global, versions: &[Version]) -> Result<TextMap<()>, AllocError>
    ensures { IfOk result (λ fresh. AreNamesOf versions.now fresh) }
{
    let mut fresh = TextMap::new(alloc);
    for version in versions {
        add_names(alloc, &mut fresh, version.names.as_slice())?;
    }
    Ok(fresh)
}

/// The numbers of versions that held before a cell, each list ascending.
#[derive(Drop)]
pub(crate) struct Turnover {
    /// Of those that hold after it too.
    pub(crate) stay: Items<u32>,
    /// Of those that it replaces.
    pub(crate) go: Items<u32>,
}

/// Of the active versions those that go are those that have one of the names.
pub(crate) fn turnover_of(
    alloc: Global,
    graph: &Graph,
    active: &[u32],
    fresh: &TextMap<()>,
) -> Result<Turnover, AllocError>
    requires { AreActive graph.now active.now }
    ensures stay { IfOk result (λ it. AreThose (λ v. ¬ HasFresh graph.now fresh.now v) active.now it.stay) }
    ensures go { IfOk result (λ it. AreThose (HasFresh graph.now fresh.now) active.now it.go) }
{
    let mut stay = Items::new(alloc);
    let mut go = Items::new(alloc);
    for v in active {
        let version = active_version(graph, *v);
        if has_one_of(fresh, version.names.as_slice()) {
            go.push(*v)?;
        } else {
            stay.push(*v)?;
        }
    }
    Ok(Turnover { stay, go })
}

/// Puts the next numbers at the end, as many as the count. After an error some of them may be there.
pub(crate) fn add_numbers(numbers: &mut Items<u32>, last: u32, count: u32) -> Result<(), AllocError>
    requires { last + count < 2 ^ 32 }
    ensures { OnOk result (numbers.new ≡ numbers.old ++ count_on last count) }
{
    for index in 0..count {
        numbers.push(last + index + 1)?;
    }
    Ok(())
}

/// Marks the versions of these numbers as replaced by the cell with that number.
pub(crate) fn age(alloc: Global, versions: &mut Items<Version>, numbers: &[u32], writer: u32)
    requires { All (λ v. (0 < v) × (v ≤ length versions.old)) numbers.now }
    ensures { AreMarked writer numbers.now versions.old versions.new }
{
    let mut all = replace(versions, Items::new(alloc)).into_vec();
    for v in numbers {
        let version = &mut all[*v as usize - 1];
        version.replaced = writer;
    }
    *versions = Items::from_vec(all);
}

/// Puts the versions at the end. After an error nothing is changed.
fn append(
    alloc: Global,
    versions: &mut Items<Version>,
    more: Items<Version>,
) -> Result<(), AllocError>
    ensures ok { OnOk result (versions.new ≡ versions.old ++ more) }
    ensures err { OnErr result (versions.new ≡ versions.old) }
{
    let mut all = replace(versions, Items::new(alloc)).into_vec();
    let mut more = more.into_vec();
    let appended = all.append(&mut more);
    *versions = Items::from_vec(all);
    appended
}

/// Takes all versions off but the first `count`.
fn cut(alloc: Global, versions: &mut Items<Version>, count: usize)
    ensures { versions.new ≡ take count versions.old }
{
    let mut all = replace(versions, Items::new(alloc)).into_vec();
    all.truncate(count);
    *versions = Items::from_vec(all);
}

/// Puts the record of a cell and its versions at the end. After an error nothing is changed.
pub(crate) fn add_cell(
    alloc: Global,
    graph: &mut Graph,
    cell: CellRecord,
    news: Items<Version>,
) -> Result<(), AllocError>
    ensures ok { OnOk result (graph.new ≡ record { cells = graph.old.cells ++ cell ∷ []; versions = graph.old.versions ++ news }) }
    ensures err { OnErr result (graph.new ≡ graph.old) }
{
    let count = graph.versions.len();
    append(alloc, &mut graph.versions, news)?;
    let pushed = graph.cells.push(cell);
    if pushed.is_err() {
        cut(alloc, &mut graph.versions, count);
    }
    pushed
}
