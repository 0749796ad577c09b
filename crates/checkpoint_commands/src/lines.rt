ghost use Rattle.std.specs.Prelude.{◌≡◌, ◌∷◌, ◌++◌, IfOk, OnOk};
ghost use Rattle.std.specs.List.{flat_map};
ghost use Rattle.checkpoint_commands.specs.Lines as spec;

use graph_model::{Certified, FlowArc, Graph, Node};
use plain_data::Text;
use std::alloc::{AllocError, Global};

// Each function puts text at the end. After an error the text means nothing, and is only dropped.

fn put_cost(alloc: Global, out: &mut Text, cost: u64) -> Result<(), AllocError>
    ensures { OnOk result (out.new ≡ out.old ++ spec.cost_line cost) }
{
    let line = format!(in alloc; "cost {cost} flow {cost}\n")?;
    out.push_str(line.as_str())
}

/// A name after a space.
fn put_name(out: &mut Text, name: &Text) -> Result<(), AllocError>
    ensures { OnOk result (out.new ≡ out.old ++ 32 ∷ name.now) }
{
    out.push_str(" ")?;
    out.push_str(name.as_str())
}

fn put_names(out: &mut Text, names: &[Text]) -> Result<(), AllocError>
    ensures { OnOk result (out.new ≡ out.old ++ spec.spaced names.now) }
{
    for name in names {
        put_name(out, name)?;
    }
    Ok(())
}

/// The names of a version, each after a space.
fn put_names_of(out: &mut Text, graph: &Graph, version: u32) -> Result<(), AllocError>
    ensures { OnOk result (out.new ≡ out.old ++ spec.spaced (spec.names_of graph.now version)) }
{
    if version == 0 {
        return Ok(());
    }
    match graph.versions.get(version as usize - 1) {
        Some(found) => put_names(out, found.names.as_slice()),
        None => Ok(()),
    }
}

fn put_copied(alloc: Global, out: &mut Text, graph: &Graph, version: u32) -> Result<(), AllocError>
    ensures { OnOk result (out.new ≡ out.old ++ spec.copy_line graph.now version) }
{
    let begun = format!(in alloc; "copy v{version}")?;
    out.push_str(begun.as_str())?;
    put_names_of(out, graph, version)?;
    out.push_str("\n")
}

fn put_all_copied(
    alloc: Global,
    out: &mut Text,
    graph: &Graph,
    versions: &[u32],
) -> Result<(), AllocError>
    ensures { OnOk result (out.new ≡ out.old ++ flat_map (spec.copy_line graph.now) versions.now) }
{
    for version in versions {
        put_copied(alloc, out, graph, *version)?;
    }
    Ok(())
}

fn put_rerun(alloc: Global, out: &mut Text, cell: u32) -> Result<(), AllocError>
    ensures { OnOk result (out.new ≡ out.old ++ spec.run_line cell) }
{
    let line = format!(in alloc; "run c{cell}\n")?;
    out.push_str(line.as_str())
}

fn put_all_rerun(alloc: Global, out: &mut Text, cells: &[u32]) -> Result<(), AllocError>
    ensures { OnOk result (out.new ≡ out.old ++ flat_map spec.run_line cells.now) }
{
    for cell in cells {
        put_rerun(alloc, out, *cell)?;
    }
    Ok(())
}

/// A node: `s` and `t` for the source and the sink, `v` or `c` with a number for a version or a cell.
fn put_node(alloc: Global, out: &mut Text, node: Node) -> Result<(), AllocError>
    ensures { OnOk result (out.new ≡ out.old ++ spec.node_text node) }
{
    match node {
        Node::Source => out.push_str(" s"),
        Node::Version(v) => {
            let text = format!(in alloc; " v{v}")?;
            out.push_str(text.as_str())
        }
        Node::Cell(c) => {
            let text = format!(in alloc; " c{c}")?;
            out.push_str(text.as_str())
        }
        Node::Sink => out.push_str(" t"),
    }
}

fn put_arc(alloc: Global, out: &mut Text, arc: &FlowArc) -> Result<(), AllocError>
    ensures { OnOk result (out.new ≡ out.old ++ spec.arc_line arc.now) }
{
    let FlowArc { from, to, flow } = *arc;
    out.push_str("arc")?;
    put_node(alloc, out, from)?;
    put_node(alloc, out, to)?;
    let end = format!(in alloc; " {flow}\n")?;
    out.push_str(end.as_str())
}

fn put_arcs(alloc: Global, out: &mut Text, arcs: &[FlowArc]) -> Result<(), AllocError>
    ensures { OnOk result (out.new ≡ out.old ++ flat_map spec.arc_line arcs.now) }
{
    for arc in arcs {
        put_arc(alloc, out, arc)?;
    }
    Ok(())
}

/// The lines of a plan with its certificate: `cost 2 flow 2`; for each version that is copied `copy v2 y` with its names, for
/// each cell that is run again `run c1`, and for each arc that carries something `arc s v1 2`, where `s` is the source, `t` the
/// sink.
pub fn plan_lines(alloc: Global, graph: &Graph, best: &Certified) -> Result<Text, AllocError>
    ensures { IfOk result (λ text. text ≡ spec.plan_lines graph.now best.now) }
{
    let mut out = Text::new(alloc, "")?;
    put_cost(alloc, &mut out, best.cost)?;
    put_all_copied(alloc, &mut out, graph, best.plan.copied.as_slice())?;
    put_all_rerun(alloc, &mut out, best.plan.rerun.as_slice())?;
    put_arcs(alloc, &mut out, best.arcs.as_slice())?;
    Ok(out)
}
