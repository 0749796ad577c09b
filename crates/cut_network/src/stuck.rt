ghost use Rattle.std.specs.Prelude.{ℕ, ◌≡◌, ◌<◌, ◌↔◌, true, false, Contains, length, IsTrue, IfOk, MatchOption};
ghost use Rattle.flow_model.specs.First.{IsFirst};
ghost use Rattle.graph_model.specs.Graphs.{ReadsOldOf, IsStuck, IsFirstStuck};
ghost use Rattle.graph_model.specs.Marks.{IsMarked, WroteOld, WroteOldOf};
ghost use Rattle.graph_model.specs.Faults.{Ascends, IsGraph};
ghost use Rattle.cut_network.specs.Drawn.{HasDrawn, LeadsTo};

use graph_model::{CellRecord, Graph};
use std::alloc::{AllocError, Global};

/// A version that can't be copied, and a cell that it needs and that can't run again.
#[derive(Clone, Copy)]
pub(crate) struct StuckPair {
    pub version: u32,
    pub cell: u32,
}

fn has_drawn(graph: &Graph, c: u32) -> bool
    ensures { IsTrue result ↔ HasDrawn graph.now c }
{
    match graph.cell(c) {
        Some(cell) => cell.drew,
        None => false,
    }
}

/// Whether some cell drew.
fn some_drew(graph: &Graph) -> bool
    requires { IsGraph graph.now }
    ensures { result ≡ false → (c : ℕ) → ¬ HasDrawn graph.now c }
{
    for before in 0..graph.cell_count() {
        if has_drawn(graph, before + 1) {
            return true;
        }
    }
    false
}

/// The least of these cells that drew.
fn first_drawn(graph: &Graph, cells: &[u32]) -> Option<u32>
    requires { Ascends (λ m n. m < n) cells.now }
    ensures { MatchOption result ((c : ℕ) → ¬ (Contains cells.now c × HasDrawn graph.now c))
        (λ c. IsFirst (λ d. Contains cells.now d × HasDrawn graph.now d) c) }
{
    for c in cells {
        if has_drawn(graph, *c) {
            return Some(*c);
        }
    }
    None
}

/// The least cell with which version `v` is stuck.
fn stuck_cell(alloc: Global, graph: &Graph, v: u32) -> Result<Option<u32>, AllocError>
    requires { IsGraph graph.now }
    ensures { IfOk result (λ cell. MatchOption cell ((c : ℕ) → ¬ IsStuck graph.now v c) (λ c. IsFirst (IsStuck graph.now v) c)) }
{
    match graph.version(v) {
        Some(version) if version.replaced == 0 && version.handle => {
            let cells = graph.need(alloc, v)?;
            Ok(first_drawn(graph, &cells))
        }
        _ => Ok(None),
    }
}

/// Whether there is a mark at that number.
fn has_mark(marks: &[bool], at: u32) -> bool
    ensures { IsTrue result ↔ IsMarked marks.now at }
{
    match marks.get(at as usize) {
        Some(mark) => *mark,
        None => false,
    }
}

/// Whether version `v` is replaced, and its writer has a mark.
fn writer_marked(graph: &Graph, v: u32, marks: &[bool]) -> bool
    ensures { (w : ℕ) → WroteOld graph.now v w → IsMarked marks.now w → result ≡ true }
{
    match graph.old_writer(v) {
        Some(writer) => has_mark(marks, writer),
        None => false,
    }
}

/// Whether one of these versions is replaced, and its writer has a mark.
fn some_marked(graph: &Graph, reads: &[u32], marks: &[bool]) -> bool
    ensures { (w : ℕ) → WroteOldOf graph.now reads.now w → IsMarked marks.now w → result ≡ true }
{
    for v in reads {
        if writer_marked(graph, *v, marks) {
            return true;
        }
    }
    false
}

/// Whether the cell drew, or read a replaced version whose writer has a mark.
fn record_leads(graph: &Graph, cell: &CellRecord, marks: &[bool]) -> bool
    ensures drew { cell.now.drew ≡ true → result ≡ true }
    ensures before { (w : ℕ) → WroteOldOf graph.now cell.now.reads w → IsMarked marks.now w → result ≡ true }
{
    if cell.drew {
        return true;
    }
    some_marked(graph, cell.reads.as_slice(), marks)
}

/// Whether cell `c` drew, or read a replaced version whose writer has a mark.
fn leads_on(graph: &Graph, c: u32, marks: &[bool]) -> bool
    ensures drew { HasDrawn graph.now c → result ≡ true }
    ensures before { (w : ℕ) → ReadsOldOf graph.now c w → IsMarked marks.now w → result ≡ true }
{
    match graph.cell(c) {
        Some(cell) => record_leads(graph, cell, marks),
        None => false,
    }
}

/// Sets the mark at that number, or leaves it.
fn mark_if(marks: &mut Vec<bool>, at: u32, wanted: bool)
    requires { at < length marks.old.items }
    ensures room { length marks.new.items ≡ length marks.old.items }
    ensures here { wanted ≡ true → IsMarked marks.new.items at }
    ensures kept { (w : ℕ) → IsMarked marks.old.items w → IsMarked marks.new.items w }
{
    if wanted {
        marks[at as usize] = true;
    }
}

/// A mark for each cell that drew or can't run again without one that drew.
fn drawn_marks(alloc: Global, graph: &Graph) -> Result<Vec<bool>, AllocError>
    requires { IsGraph graph.now }
    ensures { IfOk result (λ marks. (c d : ℕ) → LeadsTo graph.now c d → HasDrawn graph.now d → IsMarked marks.items c) }
{
    let mut marks = vec![in alloc; false; graph.cells.len() + 1]?;
    for before in 0..graph.cell_count() {
        let c = before + 1;
        let lead = leads_on(graph, c, &marks);
        mark_if(&mut marks, c, lead);
    }
    Ok(marks)
}

/// Whether version `v` may be stuck: its writer has a mark.
fn may_stick(graph: &Graph, v: u32, marks: &[bool]) -> bool
    requires { (c d : ℕ) → LeadsTo graph.now c d → HasDrawn graph.now d → IsMarked marks.now c }
    ensures { result ≡ false → (c : ℕ) → ¬ IsStuck graph.now v c }
{
    match graph.version(v) {
        Some(version) => has_mark(marks, version.writer),
        None => false,
    }
}

/// The least cell with which version `v` is stuck; its need is looked at only if its writer has a mark.
fn stuck_cell_by(
    alloc: Global,
    graph: &Graph,
    v: u32,
    marks: &[bool],
) -> Result<Option<u32>, AllocError>
    requires graph { IsGraph graph.now }
    requires marks { (c d : ℕ) → LeadsTo graph.now c d → HasDrawn graph.now d → IsMarked marks.now c }
    ensures { IfOk result (λ cell. MatchOption cell ((c : ℕ) → ¬ IsStuck graph.now v c) (λ c. IsFirst (IsStuck graph.now v) c)) }
{
    if !may_stick(graph, v, marks) {
        return Ok(None);
    }
    stuck_cell(alloc, graph, v)
}

/// The stuck pair with the least version, and of that version the least cell.
pub(crate) fn first_stuck(alloc: Global, graph: &Graph) -> Result<Option<StuckPair>, AllocError>
    requires { IsGraph graph.now }
    ensures { IfOk result (λ pair. MatchOption pair ((v c : ℕ) → ¬ IsStuck graph.now v c) (λ p. IsFirstStuck graph.now p.version p.cell)) }
{
    if !some_drew(graph) {
        return Ok(None);
    }
    let marks = drawn_marks(alloc, graph)?;
    for before in 0..graph.version_count() {
        let version = before + 1;
        if let Some(cell) = stuck_cell_by(alloc, graph, version, &marks)? {
            return Ok(Some(StuckPair { version, cell }));
        }
    }
    Ok(None)
}
