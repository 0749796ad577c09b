ghost use Rattle.std.specs.Prelude.{◌≡◌, ◌<◌, ◌≤◌, ◌+◌, ◌^◌, ◌↔◌, ◌⊎◌, IsTrue, Contains, length, MatchResult, MatchOption};
ghost use Rattle.flow_model.specs.First.{IsFirst};
ghost use Rattle.graph_model.specs.Graphs.{VersionAt, CellAt};
ghost use Rattle.graph_model.specs.Faults.{Never, Ascends, IsGraph};
ghost use Rattle.graph_model.specs.Marks.{WroteOld};
ghost use Rattle.graph_model.specs.Plans.{NamesOf, IsFeasible};
ghost use Rattle.plan_model.specs.Failing.{IsLost, CopiesHandle, FailsVersion, LacksWriter, LacksSomeWriter, RerunFails, FailsCell, IsFirstFailing};

use graph_model::{CellRecord, Graph, Plan, Version};
use std::error::Error;
use std::fmt;

/// A version or a cell.
#[derive(Clone, Copy, Debug, PartialEq, Eq)]
pub enum Item {
    Version(u32),
    Cell(u32),
}

impl fmt::Display for Item {
    fn fmt<W: fmt::Write>(&self, f: &mut fmt::Formatter<W>) -> fmt::Result {
        match *self {
            Item::Version(v) => write!(f, "version {v}"),
            Item::Cell(c) => write!(f, "cell {c}"),
        }
    }
}

impl Error for Item {}

/// Whether the number is among the numbers, which ascend.
fn has(numbers: &[u32], number: u32) -> bool
    requires { Ascends (λ m n. m < n) numbers.now }
    ensures { IsTrue result ↔ Contains numbers.now number }
{
    numbers.binary_search(&number).is_ok()
}

fn is_lost(plan: &Plan, v: u32, version: &Version) -> bool
    requires copied { Ascends (λ m n. m < n) plan.now.copied }
    requires rerun { Ascends (λ m n. m < n) plan.now.rerun }
    ensures { IsTrue result ↔ IsLost plan.now v version.now }
{
    version.replaced == 0
        && !has(plan.copied.as_slice(), v)
        && !has(plan.rerun.as_slice(), version.writer)
}

fn copies_handle(plan: &Plan, v: u32, version: &Version) -> bool
    requires { Ascends (λ m n. m < n) plan.now.copied }
    ensures { IsTrue result ↔ CopiesHandle plan.now v version.now }
{
    version.handle && has(plan.copied.as_slice(), v)
}

fn version_fails(plan: &Plan, v: u32, version: &Version) -> bool
    requires copied { Ascends (λ m n. m < n) plan.now.copied }
    requires rerun { Ascends (λ m n. m < n) plan.now.rerun }
    ensures { IsTrue result ↔ (IsLost plan.now v version.now ⊎ CopiesHandle plan.now v version.now) }
{
    is_lost(plan, v, version) || copies_handle(plan, v, version)
}

fn fails_version(graph: &Graph, plan: &Plan, v: u32) -> bool
    requires copied { Ascends (λ m n. m < n) plan.now.copied }
    requires rerun { Ascends (λ m n. m < n) plan.now.rerun }
    ensures { IsTrue result ↔ FailsVersion graph.now plan.now v }
{
    match graph.version(v) {
        Some(version) => version_fails(plan, v, version),
        None => false,
    }
}

fn lacks_writer(graph: &Graph, rerun: &[u32], v: u32) -> bool
    requires { Ascends (λ m n. m < n) rerun.now }
    ensures { IsTrue result ↔ LacksWriter graph.now rerun.now v }
{
    match graph.old_writer(v) {
        Some(writer) => !has(rerun, writer),
        None => false,
    }
}

fn lacks_some_writer(graph: &Graph, rerun: &[u32], reads: &[u32]) -> bool
    requires { Ascends (λ m n. m < n) rerun.now }
    ensures { IsTrue result ↔ LacksSomeWriter graph.now rerun.now reads.now }
{
    for v in reads {
        if lacks_writer(graph, rerun, *v) {
            return true;
        }
    }
    false
}

fn rerun_fails(graph: &Graph, rerun: &[u32], cell: &CellRecord) -> bool
    requires { Ascends (λ m n. m < n) rerun.now }
    ensures { IsTrue result ↔ RerunFails graph.now rerun.now cell.now }
{
    lacks_some_writer(graph, rerun, cell.reads.as_slice()) || cell.drew
}

fn fails_cell(graph: &Graph, plan: &Plan, c: u32) -> bool
    requires { Ascends (λ m n. m < n) plan.now.rerun }
    ensures { IsTrue result ↔ FailsCell graph.now plan.now c }
{
    let rerun = plan.rerun.as_slice();
    match graph.cell(c) {
        Some(cell) => has(rerun, c) && rerun_fails(graph, rerun, cell),
        None => false,
    }
}

fn first_failing_version(graph: &Graph, plan: &Plan) -> Option<u32>
    requires few { length graph.now.versions < 2 ^ 32 }
    requires copied { Ascends (λ m n. m < n) plan.now.copied }
    requires rerun { Ascends (λ m n. m < n) plan.now.rerun }
    ensures { MatchOption result (Never (FailsVersion graph.now plan.now)) (λ v. IsFirst (FailsVersion graph.now plan.now) v) }
{
    for before in 0..graph.version_count() {
        if fails_version(graph, plan, before + 1) {
            return Some(before + 1);
        }
    }
    None
}

fn first_failing_cell(graph: &Graph, plan: &Plan) -> Option<u32>
    requires few { length graph.now.cells < 2 ^ 32 }
    requires rerun { Ascends (λ m n. m < n) plan.now.rerun }
    ensures { MatchOption result (Never (FailsCell graph.now plan.now)) (λ c. IsFirst (FailsCell graph.now plan.now) c) }
{
    for before in 0..graph.cell_count() {
        if fails_cell(graph, plan, before + 1) {
            return Some(before + 1);
        }
    }
    None
}

/// Whether the plan is feasible: each active version is copied or its writer is run again, each cell is run again with
/// the writers of the replaced versions that it read, nothing copied holds a handle, and nothing run again drew. Else
/// the first version, or else the first cell, at which it isn't. Takes no memory.
pub fn feasible(graph: &Graph, plan: &Plan) -> Result<(), Item>
    requires graph { IsGraph graph.now }
    requires names { NamesOf graph.now plan.now }
    ensures { MatchResult result (λ _. IsFeasible graph.now plan.now) (IsFirstFailing graph.now plan.now) }
{
    if let Some(v) = first_failing_version(graph, plan) {
        return Err(Item::Version(v));
    }
    match first_failing_cell(graph, plan) {
        Some(c) => Err(Item::Cell(c)),
        None => Ok(()),
    }
}
