ghost use Rattle.std.specs.Prelude.{IfOk};
ghost use Rattle.history_graph.specs.Active.{AreActive};
ghost use Rattle.history_graph.specs.Touched.{IsRecordOf};

use crate::missing::missing_of;
use crate::reads::reads_of;
use graph_model::{CellRecord, Graph};
use plain_data::Text;
use py_machine::Marks;
use std::alloc::{AllocError, Global};

/// The record of a cell with this code and these marks, of the versions that hold as it begins.
pub(crate) fn record_of(
    alloc: Global,
    graph: &Graph,
    active: &[u32],
    code: &str,
    meter: u32,
    steps: u32,
    marks: &Marks,
) -> Result<CellRecord, AllocError>
    requires { AreActive graph.now active.now }
    ensures { IfOk result (λ cell. IsRecordOf graph.now code.now meter steps marks.now cell) }
{
    let reads = reads_of(alloc, graph, active, marks)?;
    let missing = missing_of(alloc, graph, active, marks)?;
    Ok(CellRecord {
        code: Text::new(alloc, code)?,
        meter,
        steps,
        drew: marks.drew,
        reads,
        missing,
    })
}
