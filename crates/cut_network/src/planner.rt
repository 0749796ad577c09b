ghost use Rattle.std.specs.Prelude.{ℕ, ◌≡◌, ◌<◌, ◌+◌, ◌^◌, length, IfOk, OnOk, IfErr};
ghost use Rattle.flow_arcs.specs.Sides.{side};
ghost use Rattle.graph_model.specs.Graphs.{IsStuck, IsFirstStuck};
ghost use Rattle.graph_model.specs.Faults.{IsGraph};
ghost use Rattle.graph_model.specs.Plans.{AreAdmitted};
ghost use Rattle.graph_model.specs.Networks.{actives, IsCertified, plan_of_cut};
ghost use Rattle.cut_network.specs.Arcs.{node_count};
ghost use Rattle.cut_network.specs.declared.planner.PlanFault.{PlanFault};
ghost use Rattle.cut_network.specs.declared.planner.PlanFault.TheVariants.{OutOfMemory};

use crate::active::active_versions;
use crate::network::network_of;
use crate::shown::carrying_arcs;
use crate::stuck::first_stuck;
use flow_arcs::max_flow_with_cut;
use graph_model::{Certified, Graph, Plan, Weights};
use plain_data::Items;
use std::alloc::{AllocError, Global};
use std::error::Error;
use std::fmt;

/// Why there is no plan.
#[derive(Clone, Copy, Debug, PartialEq, Eq)]
pub enum PlanFault {
    OutOfMemory,
    /// The version holds a handle, so it can't be copied, and it needs the cell, which drew and can't run again.
    Stuck { version: u32, cell: u32 },
}

impl From<AllocError> for PlanFault {
    ghost from_gives = { λ _ e. e ≡ OutOfMemory };

    fn from(_error: AllocError) -> PlanFault {
        PlanFault::OutOfMemory
    }
}

impl fmt::Display for PlanFault {
    fn fmt<W: fmt::Write>(&self, f: &mut fmt::Formatter<W>) -> fmt::Result {
        match *self {
            PlanFault::OutOfMemory => write!(f, "out of memory"),
            PlanFault::Stuck { version, cell } => {
                write!(f, "version {version} is stuck with cell {cell}")
            }
        }
    }
}

impl Error for PlanFault {}

/// The active versions that a cut leaves outside.
fn copied_by(
    alloc: Global,
    graph: &Graph,
    active: &[u32],
    inside: &[bool],
) -> Result<Vec<u32>, AllocError>
    requires active { active.now ≡ actives graph.now }
    requires nodes { length inside.now ≡ node_count graph.now }
    ensures { IfOk result (λ copied. copied.items ≡ (plan_of_cut graph.now (side inside.now)).copied) }
{
    let mut copied = Vec::new(alloc);
    for (i, v) in active.iter().enumerate() {
        if !inside[i + 2] {
            copied.push(*v)?;
        }
    }
    Ok(copied)
}

/// The cells that a cut has inside. The node of cell 0, if there were one, would be `cells`.
fn rerun_by(
    alloc: Global,
    graph: &Graph,
    cells: usize,
    inside: &[bool],
) -> Result<Vec<u32>, AllocError>
    requires few { length graph.now.cells < 2 ^ 32 }
    requires cells { cells ≡ 1 + length (actives graph.now) }
    requires nodes { length inside.now ≡ node_count graph.now }
    ensures { IfOk result (λ rerun. rerun.items ≡ (plan_of_cut graph.now (side inside.now)).rerun) }
{
    let mut rerun = Vec::new(alloc);
    for before in 0..graph.cell_count() {
        let c = before + 1;
        if inside[cells + c as usize] {
            rerun.push(c)?;
        }
    }
    Ok(rerun)
}

/// The plan that a cut stands for.
fn plan_by(
    alloc: Global,
    graph: &Graph,
    active: &[u32],
    inside: &[bool],
) -> Result<Plan, AllocError>
    requires few { length graph.now.cells < 2 ^ 32 }
    requires active { active.now ≡ actives graph.now }
    requires nodes { length inside.now ≡ node_count graph.now }
    ensures { IfOk result (λ plan. plan ≡ plan_of_cut graph.now (side inside.now)) }
{
    let copied = copied_by(alloc, graph, active, inside)?;
    let rerun = rerun_by(alloc, graph, active.len() + 1, inside)?;
    Ok(Plan {
        copied: Items::from_vec(copied),
        rerun: Items::from_vec(rerun),
    })
}

/// A least-cost plan if nothing is stuck.
fn least_plan(alloc: Global, graph: &Graph, weights: &Weights) -> Result<Certified, AllocError>
    requires graph { IsGraph graph.now }
    requires weights { AreAdmitted graph.now weights.now }
    requires free { (v c : ℕ) → ¬ IsStuck graph.now v c }
    ensures { IfOk result (λ c. IsCertified graph.now weights.now c) }
{
    let net = network_of(alloc, graph, weights)?;
    let (flow, cut) = max_flow_with_cut(alloc, &net)?;
    let active = active_versions(alloc, graph)?;
    let plan = plan_by(alloc, graph, &active, cut.inside.as_slice())?;
    let arcs = carrying_arcs(alloc, &active, net.arcs(), flow.on.as_slice())?;
    Ok(Certified {
        plan,
        cost: flow.value(&net) as u64,
        arcs: Items::from_vec(arcs),
    })
}

/// A plan of least cost, with the arcs of a greatest flow of the plan network, whose value is that cost. If there is no
/// plan, the error names the first version that can be neither copied nor computed again, and the first cell that it
/// needs and that can't run again.
pub fn plan(alloc: Global, graph: &Graph, weights: &Weights) -> Result<Certified, PlanFault>
    requires graph { IsGraph graph.now }
    requires weights { AreAdmitted graph.now weights.now }
    ensures certified { IfOk result (λ c. IsCertified graph.now weights.now c) }
    ensures never_stuck { OnOk result ((v c : ℕ) → ¬ IsStuck graph.now v c) }
    ensures stuck { (v c : ℕ) → result ≡ Err (PlanFault.Stuck v c) → IsFirstStuck graph.now v c }
{
    if let Some(pair) = first_stuck(alloc, graph)? {
        return Err(PlanFault::Stuck {
            version: pair.version,
            cell: pair.cell,
        });
    }
    Ok(least_plan(alloc, graph, weights)?)
}
