ghost use Rattle.std.specs.Prelude.{◌≡◌, length, IfOk};
ghost use Rattle.cut_network.specs.Shown.{inner_node, node_of, shown};

use flow_model::Arc;
use graph_model::{FlowArc, Node};
use std::alloc::{AllocError, Global};

/// The node of an active version, or, after these, of a cell.
fn inner_node(active: &[u32], number: u32) -> Node
    ensures { result ≡ inner_node active.now number }
{
    match active.get(number.saturating_sub(2) as usize) {
        Some(v) => Node::Version(*v),
        None => Node::Cell(number.saturating_sub(1).saturating_sub(active.len() as u32)),
    }
}

/// The node with this number.
fn node_of(active: &[u32], number: u32) -> Node
    ensures { result ≡ node_of active.now number }
{
    match number {
        0 => Node::Source,
        1 => Node::Sink,
        _ => inner_node(active, number),
    }
}

/// The arcs that carry something, in their order.
pub(crate) fn carrying_arcs(
    alloc: Global,
    active: &[u32],
    arcs: &[Arc],
    on: &[u64],
) -> Result<Vec<FlowArc>, AllocError>
    requires { length on.now ≡ length arcs.now }
    ensures { IfOk result (λ carrying. carrying.items ≡ shown active.now arcs.now on.now) }
{
    let mut carrying = Vec::new(alloc);
    for (i, arc) in arcs.iter().enumerate() {
        let flow = on[i];
        if flow != 0 {
            let from = node_of(active, arc.from);
            let to = node_of(active, arc.to);
            carrying.push(FlowArc { from, to, flow })?;
        }
    }
    Ok(carrying)
}
