ghost use Rattle.std.specs.Prelude.{◌≡◌, ◌≤◌, ◌^◌, length, false, OnOk};
ghost use Rattle.graph_model.specs.Faults.{IsGraph};
ghost use Rattle.graph_model.specs.Plans.{AreAdmitted, NamesOf};
ghost use Rattle.graph_model.specs.Networks.{net_of};

use crate::session::make_session;
use crate::shape::{Shape, make_shape};
use anyhow::{Result, bail};
use cut_network::{network_of, plan};
use flow_arcs::{ArcFlow, Network, max_flow};
use graph_model::{Certified, Graph, Node, Plan, Weights};
use plan_model::{PlanCheck, check_plan, check_weights, is_plan_of};
use std::alloc::Global;
use std::rt::Clock;
use std::time::Instant;

/// The most cells that are planned.
pub(crate) const MOST: u32 = 100_000;

/// More cells and versions than are planned.
const TOO_MANY: usize = 1 << 20;

const WEIGHTS: Weights = Weights {
    copy_base: 1,
    per_byte: 1,
    run_base: 1,
    per_step: 1,
};

/// How long each step took, in microseconds.
#[derive(Clone, Copy)]
pub(crate) struct Times {
    /// The check of the graph.
    pub check: u128,
    /// The plan, with its network and its flow.
    pub plan: u128,
    /// The greatest flow alone.
    pub flow: u128,
    /// `check_plan` on that plan and flow.
    pub judge: u128,
}

/// The graph of that shape.
pub(crate) fn made(alloc: Global, shape: &str, count: u32) -> Result<Graph> {
    if shape == "session" {
        return Ok(make_session(alloc, count)?);
    }
    match Shape::named(shape) {
        Some(shape) => Ok(make_shape(alloc, shape, count)?),
        None => bail!("no such shape"),
    }
}

/// What the arcs from the source carry together.
fn flow_shown(best: &Certified) -> u128 {
    let mut sum = 0u128;
    for arc in best.arcs.as_slice() {
        if arc.from == Node::Source {
            sum = sum.saturating_add(u128::from(arc.flow));
        }
    }
    sum
}

/// What a least-cost plan of the graph of that shape costs.
pub(crate) fn cost_line(alloc: Global, shape: &str, count: u32) -> Result<String> {
    let graph = made(alloc, shape, count.min(MOST))?;
    let best = planned(alloc, &graph)?;
    let flow = flow_shown(&best);
    let cost = best.cost;
    Ok(format!(in alloc; "cells {count} cost {cost} flow {flow}")?)
}

/// Whether there are more cells or versions than are planned.
pub(crate) fn has_too_many(graph: &Graph) -> bool
    ensures { result ≡ false → (length graph.now.cells ≤ 2 ^ 20) × (length graph.now.versions ≤ 2 ^ 20) }
{
    graph.cells.len() > TOO_MANY || graph.versions.len() > TOO_MANY
}

/// Refuses what is no graph.
fn check_graph(alloc: Global, graph: &Graph) -> Result<()>
    ensures { OnOk result (IsGraph graph.now) }
{
    if has_too_many(graph) {
        bail!("too many cells")
    }
    match graph.check(alloc)? {
        Ok(()) => Ok(()),
        Err(_) => bail!("no graph"),
    }
}

/// Refuses weights that aren't admitted.
fn refuse_weights(graph: &Graph, weights: &Weights) -> Result<()>
    ensures { OnOk result (AreAdmitted graph.now weights.now) }
{
    match check_weights(graph, weights) {
        Ok(()) => Ok(()),
        Err(_) => bail!("too much weight"),
    }
}

/// A least-cost plan of the graph, which is checked first.
fn planned(alloc: Global, graph: &Graph) -> Result<Certified> {
    check_graph(alloc, graph)?;
    refuse_weights(graph, &WEIGHTS)?;
    Ok(plan(alloc, graph, &WEIGHTS)?)
}

/// A greatest flow, and how long it takes.
fn flow_time(rt: &(impl Clock + AllocGlobal), net: &Network) -> Result<(ArcFlow, u128)> {
    let start = Instant::now(rt)?;
    let flow = max_flow(rt.alloc(), net)?;
    let took = start.elapsed(rt)?.as_micros();
    Ok((flow, took))
}

/// How long the check of the graph takes, which it passes.
fn check_time(rt: &(impl Clock + AllocGlobal), graph: &Graph) -> Result<u128>
    ensures { OnOk result (IsGraph graph.now) }
{
    let start = Instant::now(rt)?;
    check_graph(rt.alloc(), graph)?;
    Ok(start.elapsed(rt)?.as_micros())
}

/// A least-cost plan, and how long it takes.
fn plan_time(
    rt: &(impl Clock + AllocGlobal),
    graph: &Graph,
    weights: &Weights,
) -> Result<(Certified, u128)>
    requires graph { IsGraph graph.now }
    requires weights { AreAdmitted graph.now weights.now }
{
    let start = Instant::now(rt)?;
    let best = plan(rt.alloc(), graph, weights)?;
    let took = start.elapsed(rt)?.as_micros();
    Ok((best, took))
}

/// How long `check_plan` takes, which finds the plan best.
fn judge_time(
    rt: &impl Clock,
    graph: &Graph,
    weights: &Weights,
    plan: &Plan,
    net: &Network,
    flow: &ArcFlow,
) -> Result<u128>
    requires graph { IsGraph graph.now }
    requires weights { AreAdmitted graph.now weights.now }
    requires names { NamesOf graph.now plan.now }
    requires net { net.now ≡ net_of graph.now weights.now }
{
    let start = Instant::now(rt)?;
    let answer = check_plan(graph, weights, plan, net, flow);
    let took = start.elapsed(rt)?.as_micros();
    if answer == PlanCheck::Best {
        Ok(took)
    } else {
        bail!("the plan isn't best")
    }
}

/// How long the greatest flow takes, and then `check_plan`, which finds the plan best.
fn judged(
    rt: &(impl Clock + AllocGlobal),
    graph: &Graph,
    weights: &Weights,
    plan: &Plan,
) -> Result<(u128, u128)>
    requires graph { IsGraph graph.now }
    requires weights { AreAdmitted graph.now weights.now }
{
    if !is_plan_of(graph, plan) {
        bail!("no plan of the graph")
    }
    let net = network_of(rt.alloc(), graph, weights)?;
    let (flow, sought) = flow_time(rt, &net)?;
    let judged = judge_time(rt, graph, weights, plan, &net, &flow)?;
    Ok((sought, judged))
}

/// How long the check of the graph takes, the plan, and the check of the plan.
pub(crate) fn timed(rt: &(impl Clock + AllocGlobal), graph: &Graph) -> Result<Times> {
    let check = check_time(rt, graph)?;
    refuse_weights(graph, &WEIGHTS)?;
    let (best, plan) = plan_time(rt, graph, &WEIGHTS)?;
    let (flow, judge) = judged(rt, graph, &WEIGHTS, &best.plan)?;
    Ok(Times {
        check,
        plan,
        flow,
        judge,
    })
}
