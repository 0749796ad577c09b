ghost use Rattle.std.specs.Prelude.{◌≡◌, ◌<◌, ◌≤◌, ◌+◌, ◌^◌, sum_by};
ghost use Rattle.graph_model.specs.Faults.{IsGraph};
ghost use Rattle.graph_model.specs.Plans.{NamesOf, IsFeasible, AreAdmitted, copy_cost, rerun_cost, cost};

use crate::weights::{copy_weight, rerun_weight};
use graph_model::{Graph, Plan, Weights};

/// What copying version `v` costs.
fn copy_cost(graph: &Graph, weights: &Weights, v: u32) -> u64
    requires base { weights.now.copy_base ≤ 1000000 }
    requires per { weights.now.per_byte ≤ 1000000 }
    ensures { result ≡ copy_cost graph.now weights.now v }
{
    match graph.versions.get(v.saturating_sub(1) as usize) {
        Some(version) => copy_weight(weights, version),
        None => 0,
    }
}

/// What running cell `c` again costs.
fn rerun_cost(graph: &Graph, weights: &Weights, c: u32) -> u64
    requires base { weights.now.run_base ≤ 1000000 }
    requires per { weights.now.per_step ≤ 1000000 }
    ensures { result ≡ rerun_cost graph.now weights.now c }
{
    match graph.cells.get(c.saturating_sub(1) as usize) {
        Some(cell) => rerun_weight(weights, cell),
        None => 0,
    }
}

fn cost_of_copies(graph: &Graph, weights: &Weights, copied: &[u32]) -> u64
    requires base { weights.now.copy_base ≤ 1000000 }
    requires per { weights.now.per_byte ≤ 1000000 }
    requires fits { sum_by (copy_cost graph.now weights.now) copied.now < 2 ^ 63 }
    ensures { result ≡ sum_by (copy_cost graph.now weights.now) copied.now }
{
    let mut total = 0;
    for v in copied {
        total += copy_cost(graph, weights, *v);
    }
    total
}

fn cost_of_reruns(graph: &Graph, weights: &Weights, rerun: &[u32]) -> u64
    requires base { weights.now.run_base ≤ 1000000 }
    requires per { weights.now.per_step ≤ 1000000 }
    requires fits { sum_by (rerun_cost graph.now weights.now) rerun.now < 2 ^ 63 }
    ensures { result ≡ sum_by (rerun_cost graph.now weights.now) rerun.now }
{
    let mut total = 0;
    for c in rerun {
        total += rerun_cost(graph, weights, *c);
    }
    total
}

/// What a feasible plan costs: the sum of the weights of its members. Takes no memory.
pub fn cost(graph: &Graph, weights: &Weights, plan: &Plan) -> u64
    requires graph { IsGraph graph.now }
    requires weights { AreAdmitted graph.now weights.now }
    requires names { NamesOf graph.now plan.now }
    requires feasible { IsFeasible graph.now plan.now }
    ensures { result ≡ cost graph.now weights.now plan.now }
{
    cost_of_copies(graph, weights, plan.copied.as_slice())
        + cost_of_reruns(graph, weights, plan.rerun.as_slice())
}
