ghost use Rattle.std.specs.Prelude.{◌≡◌, true, IfOk};
ghost use Rattle.checkpoint_reader.specs.Reads.{tells};
ghost use Rattle.checkpoint_reader.specs.Numbered.{AreFields, IsRestorable};
ghost use Rattle.checkpoint_reader.specs.Judging.{IsCheckpointJudged};

use crate::checkpoint::Checkpoint;
use crate::fault::CheckpointFault;
use crate::fields::{Cells, Fields, Versions};
use graph_model::{Graph, Plan};
use plan_model::{Item, feasible};
use std::alloc::Global;

/// What was read as a checkpoint, if its graph is one and its plan agrees with it and with the parts.
pub(crate) fn judged(alloc: Global, read: Fields) -> Result<Checkpoint, CheckpointFault>
    requires { AreFields read }
    ensures exact { tells result ≡ true → IsCheckpointJudged read result }
    ensures restorable { IfOk result IsRestorable }
{
    let Fields {
        count,
        meter,
        cells,
        versions,
    } = read;
    let Cells {
        records,
        rerun,
        known: _cells_known,
    } = cells;
    let Versions {
        records: all,
        copied,
        parts,
        unlike,
        known: _known,
    } = versions;
    let graph = Graph {
        cells: records,
        versions: all,
    };
    let plan = Plan { copied, rerun };
    if let Err(fault) = graph.check(alloc)? {
        return Err(CheckpointFault::Graph(fault));
    }
    if let Some(v) = unlike {
        return Err(CheckpointFault::PlanDisagrees(Item::Version(v)));
    }
    if let Err(item) = feasible(&graph, &plan) {
        return Err(CheckpointFault::PlanDisagrees(item));
    }
    Ok(Checkpoint {
        count,
        meter,
        graph,
        plan,
        parts,
    })
}
