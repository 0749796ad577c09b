ghost use Rattle.std.specs.Prelude.{◌≡◌, MatchResult};
ghost use Rattle.flow_model.specs.Flows.{IsLegal};
ghost use Rattle.flow_arcs.specs.Faults.{IsFirstFault};

use crate::flow::{ArcFlow, sums_at};
use crate::network::Network;
use std::error::Error;
use std::fmt;

/// What is wrong with a flow.
#[derive(Clone, Copy, Debug, PartialEq, Eq)]
pub enum FlowFault {
    /// It doesn't have one number for each arc.
    Length,
    /// That arc carries more than its capacity, and it is the first.
    Over(u32),
    /// That inner node doesn't give what it takes, and it is the first.
    Unbalanced(u32),
}

impl fmt::Display for FlowFault {
    fn fmt<W: fmt::Write>(&self, f: &mut fmt::Formatter<W>) -> fmt::Result {
        match *self {
            FlowFault::Length => write!(f, "the flow hasn't one number for each arc"),
            FlowFault::Over(arc) => write!(f, "arc {arc} carries more than its capacity"),
            FlowFault::Unbalanced(node) => write!(f, "node {node} doesn't give what it takes"),
        }
    }
}

impl Error for FlowFault {}

/// Whether a flow is legal, and else its first fault: its length, then the arcs, then the nodes. Takes no memory.
pub fn check_flow(net: &Network, flow: &ArcFlow) -> Result<(), FlowFault>
    ensures { MatchResult result (λ _. IsLegal net.now flow.now.on) (IsFirstFault net.now flow.now.on) }
{
    let arcs = net.arcs();
    let on = flow.on.as_slice();
    if on.len() != arcs.len() {
        return Err(FlowFault::Length);
    }
    for (i, arc) in arcs.iter().enumerate() {
        if on[i] > arc.capacity {
            return Err(FlowFault::Over(i as u32));
        }
    }
    for node in 2..net.nodes() {
        let sums = sums_at(net, on, node);
        if sums.taken != sums.given {
            return Err(FlowFault::Unbalanced(node));
        }
    }
    Ok(())
}
