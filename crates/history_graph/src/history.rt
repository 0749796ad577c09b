ghost use Rattle.std.specs.Prelude.{◌≡◌, ◌<◌, ◌^◌, [], Err, IfOk, OnOk, IfErr, length};
ghost use Rattle.std.specs.FinMap as finite;
ghost use Rattle.py_heap.specs.declared.state.State.{State};
ghost use Rattle.py_heap.specs.References.{IsClosed};
ghost use Rattle.py_heap.specs.States.{empty};
ghost use Rattle.graph_model.specs.declared.plan.Tally.{Tally};
ghost use Rattle.linked_parts.specs.Parts.{ArePartsOf};
ghost use Rattle.history_graph.specs.Tallies.{OnTally, IsOver, IsFirstOver};
ghost use Rattle.history_graph.specs.Texts.{HasManyTexts};
ghost use Rattle.history_graph.specs.Room.{IsFirstWith};
ghost use Rattle.history_graph.specs.Touched.{Records};
ghost use Rattle.history_graph.specs.Ends.{Makes, LedTo};
ghost use Rattle.history_graph.specs.Usable.{IsUsableHistory};

use crate::active::ActiveGraph;
use crate::fault::HistoryFault;
use crate::heads::heads_of;
use crate::record::record_of;
use crate::room::first_over;
use crate::texts::are_many;
use crate::versions::versions_of;
use graph_model::{Graph, Tally};
use linked_parts::{Parts, parts_of};
use plain_data::Items;
use py_heap::State;
use py_machine::Marks;
use std::alloc::{AllocError, Global};
use std::marker::Model;

/// The first of the numbers of cells, of versions, of names and of distinct texts that is 2^32 or more, with a cell of this code
/// that leaves `news` versions and ends in this state, whose parts these are.
fn over(
    alloc: Global,
    kept: &ActiveGraph,
    state: &State,
    parts: &Parts,
    code: &str,
    news: usize,
) -> Result<Option<Tally>, AllocError>
    requires closed { IsClosed state.now }
    requires parts { ArePartsOf state.now parts.now }
    ensures { IfOk result (λ over. IsFirstWith (length kept.now.cells) (length kept.now.versions) news (length (finite.keys state.now.globals)) (HasManyTexts kept.now state.now code.now) over) }
{
    let names = state.names(alloc)?;
    let graph = kept.graph();
    let first = first_over(graph.cells.len(), graph.versions.len(), news, names.len());
    if first.is_some() {
        return Ok(first);
    }
    if are_many(alloc, graph, state, parts, names.as_slice(), code)? {
        return Ok(Some(Tally::Texts));
    }
    Ok(None)
}

/// The graph of the cells of a session so far, and the parts of its state.
#[derive(Debug, Drop)]
pub struct History {
    graph: ActiveGraph,
    parts: Parts,
}

impl Model for History {
    ghost use Rattle.history_graph.specs.Histories.{HistoryView};

    ghost Value = { HistoryView };

    ghost view = { λ h. record { graph = h.graph; parts = h.parts } };
}

impl History {
    /// That of no cells. Takes no memory.
    pub fn new(alloc: Global) -> History
        ensures nothing { result ≡ record { graph = record { cells = []; versions = [] }; parts = record { list = [] } } }
        ensures usable { IsUsableHistory empty result }
    {
        History {
            graph: ActiveGraph::new(alloc),
            parts: Parts {
                list: Items::new(alloc),
            },
        }
    }

    /// That with this graph and these parts. Takes no memory: which versions hold is looked for as the next cell ends.
    pub fn of(graph: Graph, parts: Parts) -> History
        requires { length graph.versions < 2 ^ 32 }
        ensures { result ≡ record { graph = graph; parts = parts } }
    {
        History {
            graph: ActiveGraph::of(graph),
            parts,
        }
    }

    /// The graph.
    pub fn graph(&self) -> &Graph
        ensures { result.now ≡ self.now.graph }
    {
        self.graph.graph()
    }

    /// Adds a cell that ended in this state, with its code, the meter as it began, its steps and its marks: its record, and
    /// a version of each part that it wrote and of each name that it deleted. After `OutOfMemory` nothing is changed; after
    /// `TooMany` a history is only dropped.
    ///
    /// It answers `TooMany` exactly if one of five numbers would be 2^32 or more after the cell, and with the first of them
    /// that would: those of cells; of versions; of names with a value; of distinct texts, counted together, of the codes of
    /// the cells, of the values of names, and of the objects that names reach (a list's items, a dict's keys and values, the
    /// source of a function, the name of a handle); and of the bytes of a part that the cell wrote and that holds no handle.
    /// Texts are counted one by one only if the slots that could have them are that many.
    ///
    /// It goes over the versions that hold and their names, and over the names and objects of the state; each name is looked
    /// for in an ordered map. So the cost is that of finding the parts, and beside it near-linear in the names of the session
    /// and in what the cell touched. It doesn't grow with the number of cells, nor with that of replaced versions.
    pub fn end_cell(
        &mut self,
        alloc: Global,
        state: &State,
        code: &str,
        meter: u32,
        steps: u32,
        marks: &Marks,
    ) -> Result<(), HistoryFault>
        requires { IsClosed state.now }
        ensures next { OnOk result (Makes state.now code.now meter steps marks.now self.old self.new) }
        ensures recorded { OnOk result (Records self.old.graph code.now meter steps marks.now self.new.graph) }
        ensures parts { OnOk result (ArePartsOf state.now self.new.parts) }
        ensures few { OnOk result ((length self.new.graph.cells < 2 ^ 32) × (length self.new.graph.versions < 2 ^ 32)) }
        ensures fits { OnOk result ((s : State) → ArePartsOf s self.old.parts → (t : Tally) → ¬ IsOver self.old state.now code.now marks.now t) }
        ensures too_many { IfErr result (OnTally (λ t. (s : State) → ArePartsOf s self.old.parts → IsFirstOver self.old state.now code.now marks.now t)) }
        // Of every history, also of one that is none of a run: if it could go on from the state before the cell, it can from this one.
        ensures stays { OnOk result ((before : State) → IsUsableHistory before self.old → LedTo before meter marks.now state.now → IsUsableHistory state.now self.new) }
        ensures memory { result ≡ Err HistoryFault.OutOfMemory → self.new ≡ self.old }
    {
        let parts = parts_of(alloc, state)?;
        let heads = heads_of(alloc, state, &self.parts, &parts, marks)?;
        let names = heads.names(alloc)?;
        if let Some(tally) = over(alloc, &self.graph, state, &parts, code, names.len())? {
            return Err(HistoryFault::TooMany(tally));
        }
        let active = self.graph.take_active(alloc)?;
        let graph = self.graph.graph();
        let cell = record_of(alloc, graph, active.as_slice(), code, meter, steps, marks)?;
        let writer = graph.cells.len() as u32 + 1;
        let news = versions_of(alloc, state, &parts, &heads, names.as_slice(), writer)?;
        self.graph.grow(alloc, active, cell, news, writer)?;
        self.parts = parts;
        Ok(())
    }
}
