ghost use Rattle.std.specs.Prelude.{◌≡◌, ◌<◌, ◌^◌, ◌↔◌, IsTrue, length, MatchOption};
ghost use Rattle.graph_model.specs.declared.graph.CellRecord.{CellRecord};
ghost use Rattle.graph_model.specs.declared.graph.Version.{Version};
ghost use Rattle.graph_model.specs.Graphs.{CellAt, VersionAt, IsActive};
ghost use Rattle.graph_model.specs.Networks.{is_active_at};

use crate::graph::{CellRecord, Graph, Version};

impl Graph {
    /// How many cells there are.
    pub fn cell_count(&self) -> u32
        requires { length self.now.cells < 2 ^ 32 }
        ensures { result ≡ length self.now.cells }
    {
        self.cells.len() as u32
    }

    /// How many versions there are.
    pub fn version_count(&self) -> u32
        requires { length self.now.versions < 2 ^ 32 }
        ensures { result ≡ length self.now.versions }
    {
        self.versions.len() as u32
    }

    /// The record of cell `c`.
    pub fn cell(&self, c: u32) -> Option<&CellRecord>
        ensures { MatchOption result ((x : CellRecord) → ¬ CellAt self.now c x) (λ x. CellAt self.now c x.now) }
    {
        if c == 0 {
            None
        } else {
            self.cells.get(c as usize - 1)
        }
    }

    /// Version `v`.
    pub fn version(&self, v: u32) -> Option<&Version>
        ensures { MatchOption result ((x : Version) → ¬ VersionAt self.now v x) (λ x. VersionAt self.now v x.now) }
    {
        if v == 0 {
            None
        } else {
            self.versions.get(v as usize - 1)
        }
    }

    /// Whether version `v` holds at the end.
    pub fn is_active(&self, v: u32) -> bool
        ensures active { IsTrue result ↔ ((x : Version) × IsActive self.now v x) }
        ensures numbered { 0 < v → result ≡ is_active_at self.now v }
    {
        match self.version(v) {
            Some(version) => version.replaced == 0,
            None => false,
        }
    }
}
