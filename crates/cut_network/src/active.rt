ghost use Rattle.std.specs.Prelude.{◌≡◌, ◌<◌, ◌≤◌, ◌+◌, ◌^◌, length, IfOk};
ghost use Rattle.graph_model.specs.Networks.{actives, writer_of};

use graph_model::Graph;
use std::alloc::{AllocError, Global};

/// The cell that wrote version `v`, counted from 1.
pub(crate) fn writer_of(graph: &Graph, v: u32) -> u32
    ensures { result ≡ writer_of graph.now v }
{
    match graph.versions.get(v.saturating_sub(1) as usize) {
        Some(version) => version.writer,
        None => 0,
    }
}

/// The numbers of the active versions, ascending.
pub(crate) fn active_versions(alloc: Global, graph: &Graph) -> Result<Vec<u32>, AllocError>
    requires { length graph.now.versions < 2 ^ 32 }
    ensures active { IfOk result (λ active. active.items ≡ actives graph.now) }
    ensures few { IfOk result (λ active. length active.items ≤ length graph.now.versions) }
{
    let mut active = Vec::new(alloc);
    for before in 0..graph.version_count() {
        if graph.is_active(before + 1) {
            active.push(before + 1)?;
        }
    }
    Ok(active)
}
