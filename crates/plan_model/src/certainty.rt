ghost use Rattle.std.specs.Prelude.{◌≡◌};
ghost use Rattle.graph_model.specs.Faults.{IsGraph};
ghost use Rattle.graph_model.specs.Plans.{NamesOf, AreAdmitted};
ghost use Rattle.graph_model.specs.Networks.{net_of};
ghost use Rattle.plan_model.specs.Checking.{IsPlanJudged};

use crate::costs::cost;
use crate::feasibility::{Item, feasible};
use flow_arcs::{ArcFlow, FlowFault, Network, check_flow};
use graph_model::{Graph, Plan, Weights};

/// What a plan is, judged with a flow.
#[derive(Clone, Copy, Debug, PartialEq, Eq)]
pub enum PlanCheck {
    /// The plan isn't feasible: the first version, or else the first cell, at which it isn't.
    Infeasible(Item),
    /// The flow isn't legal, and why.
    BadFlow(FlowFault),
    /// The plan's cost and the flow's value differ.
    Unequal(u64, u128),
    /// The plan's cost is the flow's value, so no feasible plan costs less.
    Best,
}

/// Judges a plan with a flow over the plan network: the first of the answers that holds. Takes no memory.
pub fn check_plan(
    graph: &Graph,
    weights: &Weights,
    plan: &Plan,
    net: &Network,
    flow: &ArcFlow,
) -> PlanCheck
    requires graph { IsGraph graph.now }
    requires weights { AreAdmitted graph.now weights.now }
    requires names { NamesOf graph.now plan.now }
    requires net { net.now ≡ net_of graph.now weights.now }
    ensures { IsPlanJudged graph.now weights.now plan.now flow.now.on result }
{
    if let Err(item) = feasible(graph, plan) {
        return PlanCheck::Infeasible(item);
    }
    if let Err(fault) = check_flow(net, flow) {
        return PlanCheck::BadFlow(fault);
    }
    let sum = cost(graph, weights, plan);
    let carried = flow.value(net);
    if u128::from(sum) == carried {
        PlanCheck::Best
    } else {
        PlanCheck::Unequal(sum, carried)
    }
}
