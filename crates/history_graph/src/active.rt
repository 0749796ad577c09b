ghost use Rattle.std.specs.Prelude.{ℕ, ◌≡◌, ◌+◌, ◌<◌, ◌^◌, [], All, length, IfOk, OnOk, OnErr};
ghost use Rattle.graph_model.specs.Graphs.{IsActive};
ghost use Rattle.history_graph.specs.Active.{Holds, AreActive};
ghost use Rattle.history_graph.specs.Grown.{IsGrown};

use crate::growth::{Turnover, add_cell, add_numbers, age, names_of, turnover_of};
use graph_model::{CellRecord, Graph, Version};
use plain_data::Items;
use std::alloc::{AllocError, Global};
use std::marker::Model;

/// The version of that number, which holds.
pub(crate) fn active_version(graph: &Graph, v: u32) -> &Version
    requires { Holds graph.now v }
    ensures { IsActive graph.now v result.now }
{
    &graph.versions.as_slice()[v as usize - 1]
}

/// The numbers of the versions that hold, ascending.
fn active_of(alloc: Global, graph: &Graph) -> Result<Items<u32>, AllocError>
    requires { length graph.now.versions < 2 ^ 32 }
    ensures { IfOk result (λ active. AreActive graph.now active) }
{
    let versions = graph.versions.as_slice();
    let mut active = Items::new(alloc);
    for index in 0..versions.len() {
        let version = &versions[index];
        if version.replaced == 0 {
            active.push(index as u32 + 1)?;
        }
    }
    Ok(active)
}

/// A graph that knows which of its versions hold, or finds them when they are asked for. Contracts see the graph.
#[derive(Debug, Drop)]
pub(crate) struct ActiveGraph {
    graph: Graph,
    /// The numbers of the versions that hold, ascending; None until they are asked for.
    active: Option<Items<u32>>,
}

impl Model for ActiveGraph {
    ghost use Rattle.std.specs.Prelude.{◌<◌, ◌^◌, length};
    ghost use Rattle.graph_model.specs.declared.graph.Graph.{Graph};
    ghost use Rattle.history_graph.specs.Active.{AreNoted};

    ghost Value = { Graph };

    ghost view = { λ it. it.graph };

    ghost invariant = { λ it. (length it.graph.versions < 2 ^ 32) × AreNoted it.graph it.active };
}

impl ActiveGraph {
    /// The graph of no cells. Takes no memory.
    pub(crate) fn new(alloc: Global) -> ActiveGraph
        ensures { result ≡ record { cells = []; versions = [] } }
    {
        ActiveGraph {
            graph: Graph {
                cells: Items::new(alloc),
                versions: Items::new(alloc),
            },
            active: Some(Items::new(alloc)),
        }
    }

    /// This graph. Takes no memory.
    pub(crate) fn of(graph: Graph) -> ActiveGraph
        requires { length graph.versions < 2 ^ 32 }
        ensures { result ≡ graph }
    {
        ActiveGraph {
            graph,
            active: None,
        }
    }

    /// The graph.
    pub(crate) fn graph(&self) -> &Graph
        ensures { result.now ≡ self.now }
    {
        &self.graph
    }

    /// The numbers of the versions that hold, ascending, which are taken out. If they aren't known, this goes once over the versions.
    pub(crate) fn take_active(&mut self, alloc: Global) -> Result<Items<u32>, AllocError>
        ensures active { IfOk result (AreActive self.old) }
        ensures same { self.new ≡ self.old }
    {
        match self.active.take() {
            Some(active) => Ok(active),
            None => active_of(alloc, &self.graph),
        }
    }

    /// Adds a cell with its record and its versions, and marks the older versions that these replace. After an error nothing
    /// is changed. Of the older versions it looks at those that hold, whose numbers are given.
    pub(crate) fn grow(
        &mut self,
        alloc: Global,
        active: Items<u32>,
        cell: CellRecord,
        news: Items<Version>,
        writer: u32,
    ) -> Result<(), AllocError>
        requires active { AreActive self.old active }
        requires writer { 0 < writer }
        requires news { All (λ x. x.replaced ≡ 0) news }
        requires few { length self.old.versions + length news < 2 ^ 32 }
        ensures ok { OnOk result (IsGrown writer cell news self.old self.new) }
        ensures err { OnErr result (self.new ≡ self.old) }
    {
        let fresh = names_of(alloc, news.as_slice())?;
        let Turnover { mut stay, go } = turnover_of(alloc, &self.graph, active.as_slice(), &fresh)?;
        let last = self.graph.versions.len() as u32;
        add_numbers(&mut stay, last, news.len() as u32)?;
        add_cell(alloc, &mut self.graph, cell, news)?;
        age(alloc, &mut self.graph.versions, go.as_slice(), writer);
        self.active = Some(stay);
        Ok(())
    }
}
