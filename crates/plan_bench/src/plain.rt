//! The plainest solver of greatest flows, which the other one is compared with. It has no lists and no levels: it walks over all
//! arcs until it reaches nothing more, and sends what it may along one path to the sink, again and again.

use flow_arcs::Network;
use std::alloc::{AllocError, Global};

/// How a node was reached from the source.
#[derive(Clone, Copy, PartialEq, Eq)]
enum Step {
    /// It wasn't.
    Not,
    /// It is the source.
    Source,
    /// Along the arc of that number.
    Along(usize),
    /// Back along it.
    Back(usize),
}

fn step_to(steps: &[Step], node: u32) -> Step {
    match steps.get(node as usize) {
        Some(step) => *step,
        None => Step::Not,
    }
}

/// Reaches a node from another, if that one is reached and this one isn't.
fn reach(steps: &mut [Step], from: u32, to: u32, step: Step) -> bool {
    if step_to(steps, from) == Step::Not || step_to(steps, to) != Step::Not {
        return false;
    }
    match steps.get_mut(to as usize) {
        Some(it) => {
            *it = step;
            true
        }
        None => false,
    }
}

/// Reaches over each arc what it can, and says whether that was any node.
fn reach_more(net: &Network, on: &[u64], steps: &mut [Step]) -> bool {
    let mut any = false;
    for (i, arc) in net.arcs().iter().enumerate() {
        let carried = on.get(i).copied().unwrap_or(0);
        if carried < arc.capacity && reach(steps, arc.from, arc.to, Step::Along(i)) {
            any = true;
        }
        if carried > 0 && reach(steps, arc.to, arc.from, Step::Back(i)) {
            any = true;
        }
    }
    any
}

/// A path on which more may be sent, from the sink back to the source; empty if there is none.
fn path_back(alloc: Global, net: &Network, on: &[u64]) -> Result<Vec<Step>, AllocError> {
    let mut steps = vec![in alloc; Step::Not; net.nodes() as usize]?;
    if let Some(step) = steps.get_mut(0) {
        *step = Step::Source;
    }
    for _ in 0..net.nodes() {
        if !reach_more(net, on, &mut steps) {
            break;
        }
    }
    let mut path = Vec::new(alloc);
    let mut node = 1;
    for _ in 0..net.nodes() {
        let step = step_to(&steps, node);
        node = match step {
            Step::Along(i) => net.arcs().get(i).map_or(0, |arc| arc.from),
            Step::Back(i) => net.arcs().get(i).map_or(0, |arc| arc.to),
            Step::Not | Step::Source => break,
        };
        path.push(step)?;
    }
    Ok(path)
}

/// How much more a step may carry.
fn room_of(net: &Network, on: &[u64], step: Step) -> u64 {
    match step {
        Step::Along(i) => {
            let capacity = net.arcs().get(i).map_or(0, |arc| arc.capacity);
            capacity.saturating_sub(on.get(i).copied().unwrap_or(0))
        }
        Step::Back(i) => on.get(i).copied().unwrap_or(0),
        Step::Not | Step::Source => 0,
    }
}

/// Sends an amount over a step.
fn send_over(on: &mut [u64], step: Step, amount: u64) {
    match step {
        Step::Along(i) => {
            if let Some(carried) = on.get_mut(i) {
                *carried = carried.saturating_add(amount);
            }
        }
        Step::Back(i) => {
            if let Some(carried) = on.get_mut(i) {
                *carried = carried.saturating_sub(amount);
            }
        }
        Step::Not | Step::Source => {}
    }
}

/// The value of a greatest flow.
pub(crate) fn plain_value(alloc: Global, net: &Network) -> Result<u128, AllocError> {
    let mut on = vec![in alloc; 0u64; net.arcs().len()]?;
    let mut value = 0u128;
    for _ in 0..u64::MAX {
        let path = path_back(alloc, net, &on)?;
        let mut amount = u64::MAX;
        for step in &path {
            amount = amount.min(room_of(net, &on, *step));
        }
        if path.is_empty() || amount == 0 {
            break;
        }
        for step in &path {
            send_over(&mut on, *step, amount);
        }
        value = value.saturating_add(u128::from(amount));
    }
    Ok(value)
}
