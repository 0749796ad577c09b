ghost use Rattle.std.specs.Prelude.{◌≡◌};
ghost use Rattle.graph_model.specs.Plans.{AreAdmitted};
ghost use Rattle.graph_model.specs.Networks.{copy_capacity, rerun_capacity};

use graph_model::{Graph, Weights};
use plan_model::{copy_weight, rerun_weight};

/// More than every plan costs: the capacity of an arc that no least cut crosses.
pub(crate) const UNBOUNDED: u64 = 1 << 63;

/// What copying version `v` costs; more than every plan if it holds a handle.
pub(crate) fn copy_capacity(graph: &Graph, weights: &Weights, v: u32) -> u64
    requires { AreAdmitted graph.now weights.now }
    ensures { result ≡ copy_capacity graph.now weights.now v }
{
    match graph.versions.get(v.saturating_sub(1) as usize) {
        Some(version) if version.handle => UNBOUNDED,
        Some(version) => copy_weight(weights, version),
        None => 0,
    }
}

/// What running cell `c` again costs; more than every plan if it drew.
pub(crate) fn rerun_capacity(graph: &Graph, weights: &Weights, c: u32) -> u64
    requires { AreAdmitted graph.now weights.now }
    ensures { result ≡ rerun_capacity graph.now weights.now c }
{
    match graph.cells.get(c.saturating_sub(1) as usize) {
        Some(cell) if cell.drew => UNBOUNDED,
        Some(cell) => rerun_weight(weights, cell),
        None => 0,
    }
}
