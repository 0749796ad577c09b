//! Plans and networks in words.

use flow_arcs::Network;
use graph_model::{Certified, Node};
use std::alloc::{AllocError, Global};

/// Adds each number after these words.
fn put_numbers(
    alloc: Global,
    text: &mut String,
    words: &str,
    numbers: &[u32],
) -> Result<(), AllocError> {
    for number in numbers {
        text.push_str(format!(in alloc; "{words}{number}")?.as_str())?;
    }
    Ok(())
}

/// `need` and the cells.
pub(crate) fn need_text(alloc: Global, cells: &[u32]) -> Result<String, AllocError> {
    let mut text = String::from_str(alloc, "need")?;
    put_numbers(alloc, &mut text, " c", cells)?;
    Ok(text)
}

/// A node as the lines of a plan have it.
fn node_text(alloc: Global, node: Node) -> Result<String, AllocError> {
    match node {
        Node::Source => format!(in alloc; "s"),
        Node::Sink => format!(in alloc; "t"),
        Node::Version(v) => format!(in alloc; "v{v}"),
        Node::Cell(c) => format!(in alloc; "c{c}"),
    }
}

/// What a plan copies and runs again, its cost, and the arcs that carry something.
pub(crate) fn certified_text(alloc: Global, best: &Certified) -> Result<String, AllocError> {
    let mut text = String::from_str(alloc, "copy")?;
    put_numbers(alloc, &mut text, " v", best.plan.copied.as_slice())?;
    text.push_str(" run")?;
    put_numbers(alloc, &mut text, " c", best.plan.rerun.as_slice())?;
    text.push_str(format!(in alloc; " cost {}", best.cost)?.as_str())?;
    for arc in best.arcs.as_slice() {
        let from = node_text(alloc, arc.from)?;
        let to = node_text(alloc, arc.to)?;
        let flow = arc.flow;
        let line = format!(in alloc; ", {from} {to} {flow}")?;
        text.push_str(line.as_str())?;
    }
    Ok(text)
}

/// How many nodes a network has, and the nodes and the capacity of each arc.
pub(crate) fn network_text(alloc: Global, net: &Network) -> Result<String, AllocError> {
    let mut text = format!(in alloc; "nodes {}", net.nodes())?;
    for arc in net.arcs() {
        let (from, to, capacity) = (arc.from, arc.to, arc.capacity);
        let line = format!(in alloc; ", {from} {to} {capacity}")?;
        text.push_str(line.as_str())?;
    }
    Ok(text)
}
