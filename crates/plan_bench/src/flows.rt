//! What is said of a network and its flows.

use crate::given::{flow_given, network_given};
use crate::plain::plain_value;
use anyhow::{Result, bail};
use flow_arcs::{ArcFlow, Cut, Network, check_flow, max_flow, max_flow_with_cut};
use serde_json::Value;
use std::alloc::Global;

/// Whether a node is in a cut.
fn is_inside(cut: &Cut, node: u32) -> bool {
    cut.inside.get(node as usize).copied() == Some(true)
}

/// What the arcs out of a cut may carry together.
fn capacity_of(net: &Network, cut: &Cut) -> u128 {
    let mut sum = 0u128;
    for arc in net.arcs() {
        if is_inside(cut, arc.from) && !is_inside(cut, arc.to) {
            sum = sum.saturating_add(u128::from(arc.capacity));
        }
    }
    sum
}

/// What a flow that has a number for each arc sends from the source.
fn value_of(net: &Network, flow: &ArcFlow) -> Result<u128> {
    if flow.on.len() == net.arcs().len() {
        Ok(flow.value(net))
    } else {
        bail!("the flow hasn't one number for each arc")
    }
}

/// The value of the greatest flow that is sought alone.
fn value_alone(alloc: Global, net: &Network) -> Result<u128> {
    let flow = max_flow(alloc, net)?;
    match check_flow(net, &flow) {
        Ok(()) => value_of(net, &flow),
        Err(fault) => bail!("the flow isn't legal: {fault}"),
    }
}

/// The value of the greatest flow that is sought with a cut, and the cut.
fn value_with_cut(alloc: Global, net: &Network) -> Result<(u128, Cut)> {
    let (flow, cut) = max_flow_with_cut(alloc, net)?;
    let value = value_of(net, &flow)?;
    if is_inside(&cut, 0) && !is_inside(&cut, 1) {
        Ok((value, cut))
    } else {
        bail!("the cut doesn't part the source from the sink")
    }
}

/// The value of a greatest flow, and the capacity of a cut of it.
fn greatest(alloc: Global, net: &Network) -> Result<String> {
    let alone = value_alone(alloc, net)?;
    let (value, cut) = value_with_cut(alloc, net)?;
    if value != alone {
        bail!("two greatest flows have two values")
    }
    let plain = plain_value(alloc, net)?;
    if value != plain {
        bail!("the plainest solver finds {plain}, and the other {value}")
    }
    let capacity = capacity_of(net, &cut);
    Ok(format!(in alloc; "value {value} cut {capacity}")?)
}

/// The value of a flow, or its first fault.
fn judged(alloc: Global, net: &Network, flow: &ArcFlow) -> Result<String> {
    match check_flow(net, flow) {
        Ok(()) => {
            let value = value_of(net, flow)?;
            Ok(format!(in alloc; "value {value}")?)
        }
        Err(fault) => Ok(format!(in alloc; "{fault}")?),
    }
}

/// What is said of a line that has `nodes`.
pub(crate) fn flow_answer(alloc: Global, line: &Value) -> Result<String> {
    let net = network_given(alloc, line)?;
    if line.get("on").is_some() {
        let flow = flow_given(alloc, line)?;
        judged(alloc, &net, &flow)
    } else {
        greatest(alloc, &net)
    }
}
