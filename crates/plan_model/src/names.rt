ghost use Rattle.std.specs.Prelude.{ℕ, ◌≡◌, ◌↔◌, IsTrue, Contains};
ghost use Rattle.graph_model.specs.declared.graph.CellRecord.{CellRecord};
ghost use Rattle.graph_model.specs.declared.graph.Version.{Version};
ghost use Rattle.graph_model.specs.Graphs.{CellAt, IsActive};
ghost use Rattle.graph_model.specs.Plans.{NamesOf};

use graph_model::{Graph, Plan, numbers_ascend};

fn is_cell(graph: &Graph, c: u32) -> bool
    ensures { IsTrue result ↔ ((x : CellRecord) × CellAt graph.now c x) }
{
    match graph.cell(c) {
        Some(_) => true,
        None => false,
    }
}

fn all_active(graph: &Graph, copied: &[u32]) -> bool
    ensures { IsTrue result ↔ ((v : ℕ) → Contains copied.now v → (x : Version) × IsActive graph.now v x) }
{
    for v in copied {
        if !graph.is_active(*v) {
            return false;
        }
    }
    true
}

fn all_cells(graph: &Graph, rerun: &[u32]) -> bool
    ensures { IsTrue result ↔ ((c : ℕ) → Contains rerun.now c → (x : CellRecord) × CellAt graph.now c x) }
{
    for c in rerun {
        if !is_cell(graph, *c) {
            return false;
        }
    }
    true
}

/// Whether the plan names active versions and cells of the graph, each list ascending. Takes no memory.
pub fn is_plan_of(graph: &Graph, plan: &Plan) -> bool
    ensures { IsTrue result ↔ NamesOf graph.now plan.now }
{
    let copied = plan.copied.as_slice();
    let rerun = plan.rerun.as_slice();
    numbers_ascend(copied)
        && numbers_ascend(rerun)
        && all_active(graph, copied)
        && all_cells(graph, rerun)
}
