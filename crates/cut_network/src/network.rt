ghost use Rattle.std.specs.Prelude.{ℕ, ◌≡◌, ◌<◌, ◌≤◌, ◌+◌, ◌^◌, length, map, Contains, IfOk, OnOk};
ghost use Rattle.std.specs.List.{flat_map};
ghost use Rattle.graph_model.specs.declared.graph.CellRecord.{CellRecord};
ghost use Rattle.graph_model.specs.Graphs.{CellAt};
ghost use Rattle.graph_model.specs.Faults.{IsGraph};
ghost use Rattle.graph_model.specs.Plans.{AreAdmitted};
ghost use Rattle.graph_model.specs.Networks.{actives, cell_numbers, old_writers, net_of};
ghost use Rattle.cut_network.specs.Arcs.{more, node_count, copy_numbers, writer_numbers, read_numbers, reads_numbers, rerun_numbers};

use crate::active::{active_versions, writer_of};
use crate::capacity::{UNBOUNDED, copy_capacity, rerun_capacity};
use crate::writers::old_writers;
use flow_arcs::Network;
use graph_model::{Graph, Weights};
use std::alloc::{AllocError, Global};

/// Adds the arcs from the source to the active versions.
fn add_copies(
    net: &mut Network,
    graph: &Graph,
    weights: &Weights,
    active: &[u32],
) -> Result<(), AllocError>
    requires weights { AreAdmitted graph.now weights.now }
    requires active { active.now ≡ actives graph.now }
    requires nodes { net.old.nodes ≡ node_count graph.now }
    requires few { node_count graph.now < 2 ^ 32 }
    ensures { OnOk result (net.new ≡ more net.old (map (copy_numbers graph.now weights.now) (actives graph.now))) }
{
    for (i, v) in active.iter().enumerate() {
        net.add(0, i as u32 + 2, copy_capacity(graph, weights, *v))?;
    }
    Ok(())
}

/// Adds the arcs from the active versions to their writers.
fn add_writers(net: &mut Network, graph: &Graph, active: &[u32]) -> Result<(), AllocError>
    requires graph { IsGraph graph.now }
    requires active { active.now ≡ actives graph.now }
    requires nodes { net.old.nodes ≡ node_count graph.now }
    requires few { node_count graph.now < 2 ^ 32 }
    ensures { OnOk result (net.new ≡ more net.old (map (writer_numbers graph.now) (actives graph.now))) }
{
    let cells = active.len() as u32 + 1;
    for (i, v) in active.iter().enumerate() {
        net.add(i as u32 + 2, cells + writer_of(graph, *v), UNBOUNDED)?;
    }
    Ok(())
}

/// Adds the arcs from cell `c` to the writers of the replaced versions that it read. The node of cell 0, if there were
/// one, would be `cells`.
fn add_reads_of(
    net: &mut Network,
    graph: &Graph,
    cells: u32,
    c: u32,
    writers: &[u32],
) -> Result<(), AllocError>
    requires graph { IsGraph graph.now }
    requires cell { (x : CellRecord) × CellAt graph.now c x }
    requires writers { writers.now ≡ old_writers graph.now c }
    requires cells { cells ≡ 1 + length (actives graph.now) }
    requires nodes { net.old.nodes ≡ node_count graph.now }
    requires few { node_count graph.now < 2 ^ 32 }
    ensures { OnOk result (net.new ≡ more net.old (reads_numbers graph.now c)) }
{
    for writer in writers {
        net.add(cells + c, cells + *writer, UNBOUNDED)?;
    }
    Ok(())
}

/// Adds the arcs from the cells to the writers of the replaced versions that they read.
fn add_reads(alloc: Global, net: &mut Network, graph: &Graph, cells: u32) -> Result<(), AllocError>
    requires graph { IsGraph graph.now }
    requires cells { cells ≡ 1 + length (actives graph.now) }
    requires nodes { net.old.nodes ≡ node_count graph.now }
    requires few { node_count graph.now < 2 ^ 32 }
    ensures { OnOk result (net.new ≡ more net.old (flat_map (reads_numbers graph.now) (cell_numbers graph.now))) }
{
    for before in 0..graph.cell_count() {
        let c = before + 1;
        let writers = old_writers(alloc, graph, c)?;
        add_reads_of(net, graph, cells, c, &writers)?;
    }
    Ok(())
}

/// Adds the arcs from the cells to the sink.
fn add_reruns(
    net: &mut Network,
    graph: &Graph,
    weights: &Weights,
    cells: u32,
) -> Result<(), AllocError>
    requires weights { AreAdmitted graph.now weights.now }
    requires cells { cells ≡ 1 + length (actives graph.now) }
    requires nodes { net.old.nodes ≡ node_count graph.now }
    requires few { node_count graph.now < 2 ^ 32 }
    ensures { OnOk result (net.new ≡ more net.old (map (rerun_numbers graph.now weights.now) (cell_numbers graph.now))) }
{
    for before in 0..graph.cell_count() {
        let c = before + 1;
        net.add(cells + c, 1, rerun_capacity(graph, weights, c))?;
    }
    Ok(())
}

/// The plan network: the source, the active versions, the cells and the sink, with an arc from the source to each active
/// version (the cost of its copy), from each active version to its writer, from each cell to the writers of the replaced
/// versions that it read, and from each cell to the sink (the cost of its run). A network of 2^32 nodes or more is too
/// large for memory.
pub fn network_of(alloc: Global, graph: &Graph, weights: &Weights) -> Result<Network, AllocError>
    requires graph { IsGraph graph.now }
    requires weights { AreAdmitted graph.now weights.now }
    ensures { IfOk result (λ net. net ≡ net_of graph.now weights.now) }
{
    let active = active_versions(alloc, graph)?;
    let nodes = 2 + active.len() + graph.cells.len();
    if nodes > u32::MAX as usize {
        return Err(AllocError);
    }
    let cells = active.len() as u32 + 1;
    let mut net = Network::new(alloc, nodes as u32);
    add_copies(&mut net, graph, weights, &active)?;
    add_writers(&mut net, graph, &active)?;
    add_reads(alloc, &mut net, graph, cells)?;
    add_reruns(&mut net, graph, weights, cells)?;
    Ok(net)
}
