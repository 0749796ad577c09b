//! What is said of a graph, its plans and its network.

ghost use Rattle.graph_model.specs.Faults.{IsGraph};
ghost use Rattle.graph_model.specs.Plans.{AreAdmitted, NamesOf};

use crate::given::{flow_given, graph_given, plan_given, weights_given};
use crate::steps::has_too_many;
use crate::words::{certified_text, need_text, network_text};
use anyhow::{Result, bail};
use cut_network::{PlanFault, network_of, plan};
use flow_arcs::ArcFlow;
use graph_model::{Certified, Graph, Plan, Weights};
use json_members::{small_in, text_in};
use plan_model::{PlanCheck, check_plan, check_weights, cost, feasible, is_plan_of};
use serde_json::Value;
use std::alloc::{AllocError, Global};

/// The cells that a version needs.
fn needed(alloc: Global, graph: &Graph, line: &Value) -> Result<String>
    requires { IsGraph graph.now }
{
    let version = small_in(line, "version")?;
    match graph.version(version) {
        Some(_) => {
            let cells = graph.need(alloc, version)?;
            Ok(need_text(alloc, cells.as_slice())?)
        }
        None => bail!("there is no version {version}"),
    }
}

/// What a plan costs, or where it isn't feasible.
fn cost_text(
    alloc: Global,
    graph: &Graph,
    weights: &Weights,
    plan: &Plan,
) -> Result<String, AllocError>
    requires graph { IsGraph graph.now }
    requires weights { AreAdmitted graph.now weights.now }
    requires names { NamesOf graph.now plan.now }
{
    match feasible(graph, plan) {
        Ok(()) => {
            let sum = cost(graph, weights, plan);
            format!(in alloc; "cost {sum}")
        }
        Err(item) => format!(in alloc; "not feasible at {item}"),
    }
}

/// What the planner's plan costs when it is judged again, which has to be what the planner says.
fn judged_again(alloc: Global, graph: &Graph, weights: &Weights, best: &Certified) -> Result<String>
    requires graph { IsGraph graph.now }
    requires weights { AreAdmitted graph.now weights.now }
{
    if !is_plan_of(graph, &best.plan) {
        bail!("the plan is none of this graph")
    }
    let text = cost_text(alloc, graph, weights, &best.plan)?;
    let cost = best.cost;
    let told = format!(in alloc; "cost {cost}")?;
    if text.as_str() != told.as_str() {
        bail!("the plan says {told}, and is judged {text}")
    }
    Ok(text)
}

/// What the planner's plan costs when it is judged again, or that some version is stuck.
fn least_text(alloc: Global, graph: &Graph, weights: &Weights) -> Result<String>
    requires graph { IsGraph graph.now }
    requires weights { AreAdmitted graph.now weights.now }
{
    match plan(alloc, graph, weights) {
        Ok(best) => judged_again(alloc, graph, weights, &best),
        Err(PlanFault::OutOfMemory) => Err(AllocError.into()),
        Err(fault) => Ok(format!(in alloc; "{fault}")?),
    }
}

/// The planner's plan, its cost, and the arcs that show it.
fn best_text(alloc: Global, graph: &Graph, weights: &Weights) -> Result<String>
    requires graph { IsGraph graph.now }
    requires weights { AreAdmitted graph.now weights.now }
{
    let best = plan(alloc, graph, weights)?;
    Ok(certified_text(alloc, &best)?)
}

/// What a plan is, judged with a flow.
fn judged_text(alloc: Global, answer: PlanCheck) -> Result<String, AllocError> {
    match answer {
        PlanCheck::Infeasible(item) => format!(in alloc; "not feasible at {item}"),
        PlanCheck::BadFlow(fault) => format!(in alloc; "{fault}"),
        PlanCheck::Unequal(sum, value) => format!(in alloc; "cost {sum} but value {value}"),
        PlanCheck::Best => format!(in alloc; "best"),
    }
}

/// What is said of a plan with what each arc carries.
fn judged_with_flow(
    alloc: Global,
    graph: &Graph,
    weights: &Weights,
    plan: &Plan,
    flow: &ArcFlow,
) -> Result<String>
    requires graph { IsGraph graph.now }
    requires weights { AreAdmitted graph.now weights.now }
    requires names { NamesOf graph.now plan.now }
{
    let net = network_of(alloc, graph, weights)?;
    let answer = check_plan(graph, weights, plan, &net, flow);
    Ok(judged_text(alloc, answer)?)
}

/// What is said of the plan that a line gives.
fn plan_answer(alloc: Global, graph: &Graph, weights: &Weights, line: &Value) -> Result<String>
    requires graph { IsGraph graph.now }
    requires weights { AreAdmitted graph.now weights.now }
{
    let plan = plan_given(alloc, line)?;
    if !is_plan_of(graph, &plan) {
        bail!("the plan is none of this graph")
    }
    if line.get("on").is_none() {
        return Ok(cost_text(alloc, graph, weights, &plan)?);
    }
    let flow = flow_given(alloc, line)?;
    judged_with_flow(alloc, graph, weights, &plan, &flow)
}

/// What is said of a graph under weights that are admitted.
fn weighed_answer(
    alloc: Global,
    ask: &str,
    graph: &Graph,
    weights: &Weights,
    line: &Value,
) -> Result<String>
    requires graph { IsGraph graph.now }
    requires weights { AreAdmitted graph.now weights.now }
{
    match ask {
        "plan" => best_text(alloc, graph, weights),
        "least" => least_text(alloc, graph, weights),
        "judge" => plan_answer(alloc, graph, weights, line),
        "network" => {
            let net = network_of(alloc, graph, weights)?;
            Ok(network_text(alloc, &net)?)
        }
        _ => bail!("nothing is asked by {ask}"),
    }
}

/// Whether weights are admitted.
fn weights_text(alloc: Global, graph: &Graph, line: &Value) -> Result<String> {
    let weights = weights_given(line)?;
    match check_weights(graph, &weights) {
        Ok(()) => Ok(format!(in alloc; "admitted")?),
        Err(fault) => Ok(format!(in alloc; "{fault}")?),
    }
}

/// What is said of a graph under the weights that a line gives.
fn weights_answer(alloc: Global, ask: &str, graph: &Graph, line: &Value) -> Result<String>
    requires { IsGraph graph.now }
{
    let weights = weights_given(line)?;
    match check_weights(graph, &weights) {
        Ok(()) => weighed_answer(alloc, ask, graph, &weights, line),
        Err(fault) => bail!("{fault}"),
    }
}

/// What is said of a graph.
fn checked_answer(alloc: Global, ask: &str, graph: &Graph, line: &Value) -> Result<String>
    requires { IsGraph graph.now }
{
    match ask {
        "check" => Ok(format!(in alloc; "a graph")?),
        "need" => needed(alloc, graph, line),
        _ => weights_answer(alloc, ask, graph, line),
    }
}

/// What is said of cells and versions: whether their weights are admitted, or else first whether they are a graph.
fn given_answer(alloc: Global, ask: &str, graph: &Graph, line: &Value) -> Result<String> {
    if has_too_many(graph) {
        bail!("too many cells")
    }
    if ask == "weigh" {
        return weights_text(alloc, graph, line);
    }
    match graph.check(alloc)? {
        Ok(()) => checked_answer(alloc, ask, graph, line),
        Err(fault) => Ok(format!(in alloc; "{fault}")?),
    }
}

/// What is said of a line that has `ask`.
pub(crate) fn graph_answer(alloc: Global, line: &Value) -> Result<String> {
    let ask = text_in(line, "ask")?;
    let graph = graph_given(alloc, line)?;
    given_answer(alloc, ask, &graph, line)
}
