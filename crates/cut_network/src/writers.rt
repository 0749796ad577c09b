ghost use Rattle.std.specs.Prelude.{ℕ, ◌≡◌, ◌<◌, ◌↔◌, Contains, IfOk};
ghost use Rattle.graph_model.specs.declared.graph.CellRecord.{CellRecord};
ghost use Rattle.graph_model.specs.Graphs.{CellAt};
ghost use Rattle.graph_model.specs.Faults.{Ascends, IsGraph};
ghost use Rattle.graph_model.specs.Marks.{WroteOldOf};
ghost use Rattle.graph_model.specs.Networks.{old_writers};

use graph_model::Graph;
use std::alloc::{AllocError, Global};

/// The writers of the replaced versions among these, as often as they wrote one.
fn writers_among(alloc: Global, graph: &Graph, reads: &[u32]) -> Result<Vec<u32>, AllocError>
    ensures { IfOk result (λ writers. (w : ℕ) → Contains writers.items w ↔ WroteOldOf graph.now reads.now w) }
{
    let mut writers = Vec::new(alloc);
    for v in reads {
        if let Some(writer) = graph.old_writer(*v) {
            writers.push(writer)?;
        }
    }
    Ok(writers)
}

/// The numbers in order, each once.
fn sort_once(numbers: &mut Vec<u32>)
    ensures ascends { Ascends (λ m n. m < n) numbers.new.items }
    ensures members { (n : ℕ) → Contains numbers.new.items n ↔ Contains numbers.old.items n }
{
    numbers.sort_unstable();
    numbers.dedup();
}

/// The writers of the replaced versions that cell `c` read, ascending, each once.
pub(crate) fn old_writers(alloc: Global, graph: &Graph, c: u32) -> Result<Vec<u32>, AllocError>
    requires graph { IsGraph graph.now }
    requires cell { (x : CellRecord) × CellAt graph.now c x }
    ensures { IfOk result (λ writers. writers.items ≡ old_writers graph.now c) }
{
    match graph.cell(c) {
        Some(cell) => {
            let mut writers = writers_among(alloc, graph, cell.reads.as_slice())?;
            sort_once(&mut writers);
            Ok(writers)
        }
        None => unreachable!(),
    }
}
