ghost use Rattle.std.specs.Prelude.{ℕ, ◌≡◌, ◌≢◌, ◌<◌, ◌^◌, ◌↔◌, IsTrue, Contains, length, IfOk, MatchOption, MatchResult};
ghost use Rattle.flow_model.specs.First.{IsFirst};
ghost use Rattle.graph_model.specs.declared.graph.Version.{Version};
ghost use Rattle.graph_model.specs.Graphs.{VersionAt};
ghost use Rattle.std.specs.FinMap as finite;
ghost use Rattle.graph_model.specs.Faults.{ComesBefore, HasNoVariable, HasNoIdentifier, NamesAreBad, HasBadNames, CellsAreBad, StandsOutOfOrder, HasBadWriter, IsTwoActive, CannotRead, ReadsAreBad, WrittenBefore, MissesAreBad, HasWrongReads, HasWrongMisses, RecordIsBad, HasBadRead, Never, IsFault, IsGraph};
ghost use Rattle.graph_model.specs.Walks.{IsIndex};

use crate::graph::{CellRecord, Graph, GraphFault, Version};
use crate::index::Replacements;
use crate::order::{is_below, least_name, numbers_ascend, texts_ascend};
use plain_data::{Text, TextMap};
use py_names::{is_identifier, is_variable};
use std::alloc::{AllocError, Global};

fn has_no_variable(names: &[Text]) -> bool
    ensures { IsTrue result ↔ HasNoVariable names.now }
{
    for name in names {
        if !is_variable(name.as_str()) {
            return true;
        }
    }
    false
}

fn has_no_identifier(names: &[Text]) -> bool
    ensures { IsTrue result ↔ HasNoIdentifier names.now }
{
    for name in names {
        if !is_identifier(name.as_str()) {
            return true;
        }
    }
    false
}

fn names_are_bad(version: &Version) -> bool
    ensures { IsTrue result ↔ NamesAreBad version.now }
{
    let names = version.names.as_slice();
    names.is_empty()
        || !texts_ascend(names)
        || has_no_variable(names)
        || (version.absent && names.len() > 1)
}

fn comes_before(x: &Version, y: &Version) -> bool
    ensures { IsTrue result ↔ ComesBefore x.now y.now }
{
    let least = least_name(x.names.as_slice());
    x.writer < y.writer || (x.writer == y.writer && is_below(least, least_name(y.names.as_slice())))
}

fn cells_are_bad(cells: usize, version: &Version) -> bool
    ensures { IsTrue result ↔ CellsAreBad cells version.now }
{
    let writer = version.writer as usize;
    let replaced = version.replaced as usize;
    writer == 0 || cells < writer || (replaced != 0 && (replaced <= writer || cells < replaced))
}

impl Graph {
    fn stands_out_of_order(&self, v: u32, version: &Version) -> bool
        requires { 0 < v }
        ensures { IsTrue result ↔ StandsOutOfOrder self.now v version.now }
    {
        match self.version(v - 1) {
            Some(before) => !comes_before(before, version),
            None => false,
        }
    }

    fn has_bad_names(&self, v: u32) -> bool
        ensures { IsTrue result ↔ HasBadNames self.now v }
    {
        match self.version(v) {
            Some(version) => names_are_bad(version),
            None => false,
        }
    }

    fn has_bad_writer(&self, v: u32) -> bool
        ensures { IsTrue result ↔ HasBadWriter self.now v }
    {
        match self.version(v) {
            Some(version) => {
                cells_are_bad(self.cells.len(), version) || self.stands_out_of_order(v, version)
            }
            None => false,
        }
    }

    fn written_before(&self, index: &TextMap<u32>, c: u32, name: &Text) -> bool
        requires writers { Never (HasBadWriter self.now) }
        requires index { IsIndex self.now 0 index.now }
        ensures { IsTrue result ↔ WrittenBefore self.now c name.now }
    {
        match index.look(name) {
            Some(v) => match self.version(*v) {
                Some(version) => version.writer < c,
                None => false,
            },
            None => false,
        }
    }

    fn cannot_read(&self, c: u32, v: u32) -> bool
        ensures { IsTrue result ↔ CannotRead self.now c v }
    {
        match self.version(v) {
            Some(version) => {
                c <= version.writer || (version.replaced != 0 && version.replaced < c)
            }
            None => true,
        }
    }

    fn reads_are_bad(&self, c: u32, reads: &[u32]) -> bool
        ensures { IsTrue result ↔ ReadsAreBad self.now c reads.now }
    {
        for v in reads {
            if self.cannot_read(c, *v) {
                return true;
            }
        }
        false
    }

    fn misses_are_bad(&self, index: &TextMap<u32>, c: u32, names: &[Text]) -> bool
        requires writers { Never (HasBadWriter self.now) }
        requires index { IsIndex self.now 0 index.now }
        ensures { IsTrue result ↔ MissesAreBad self.now c names.now }
    {
        for name in names {
            if self.written_before(index, c, name) {
                return true;
            }
        }
        false
    }

    fn has_wrong_reads(&self, c: u32, reads: &[u32]) -> bool
        ensures { IsTrue result ↔ HasWrongReads self.now c reads.now }
    {
        !numbers_ascend(reads) || self.reads_are_bad(c, reads)
    }

    fn has_wrong_misses(&self, index: &TextMap<u32>, c: u32, missing: &[Text]) -> bool
        requires writers { Never (HasBadWriter self.now) }
        requires index { IsIndex self.now 0 index.now }
        ensures { IsTrue result ↔ HasWrongMisses self.now c missing.now }
    {
        !texts_ascend(missing)
            || has_no_identifier(missing)
            || self.misses_are_bad(index, c, missing)
    }

    fn record_is_bad(&self, index: &TextMap<u32>, c: u32, cell: &CellRecord) -> bool
        requires writers { Never (HasBadWriter self.now) }
        requires index { IsIndex self.now 0 index.now }
        ensures { IsTrue result ↔ RecordIsBad self.now c cell.now }
    {
        self.has_wrong_reads(c, cell.reads.as_slice())
            || self.has_wrong_misses(index, c, cell.missing.as_slice())
    }

    fn has_bad_read(&self, index: &TextMap<u32>, c: u32) -> bool
        requires writers { Never (HasBadWriter self.now) }
        requires index { IsIndex self.now 0 index.now }
        ensures { IsTrue result ↔ HasBadRead self.now c }
    {
        match self.cell(c) {
            Some(cell) => self.record_is_bad(index, c, cell),
            None => false,
        }
    }

    /// The first version with bad names.
    fn first_bad_names(&self) -> Option<u32>
        requires { length self.now.versions < 2 ^ 32 }
        ensures { MatchOption result (Never (HasBadNames self.now)) (λ n. IsFirst (HasBadNames self.now) n) }
    {
        for before in 0..self.version_count() {
            if self.has_bad_names(before + 1) {
                return Some(before + 1);
            }
        }
        None
    }

    /// The first version with a bad writer, or out of order.
    fn first_bad_writer(&self) -> Option<u32>
        requires { length self.now.versions < 2 ^ 32 }
        ensures { MatchOption result (Never (HasBadWriter self.now)) (λ n. IsFirst (HasBadWriter self.now) n) }
    {
        for before in 0..self.version_count() {
            if self.has_bad_writer(before + 1) {
                return Some(before + 1);
            }
        }
        None
    }

    /// The first cell with a bad record.
    fn first_bad_read(&self, index: &TextMap<u32>) -> Option<u32>
        requires few { length self.now.cells < 2 ^ 32 }
        requires writers { Never (HasBadWriter self.now) }
        requires index { IsIndex self.now 0 index.now }
        ensures { MatchOption result (Never (HasBadRead self.now)) (λ n. IsFirst (HasBadRead self.now) n) }
    {
        for before in 0..self.cell_count() {
            if self.has_bad_read(index, before + 1) {
                return Some(before + 1);
            }
        }
        None
    }

    /// Whether the graph is one. Four walks look: at the names of the versions, at their writers and order, at their
    /// replacements, and at what the cells read and missed. The first walk that meets a fault names it, at the least
    /// number. The last two walks look names up in an index, for which memory may run out.
    pub fn check(&self, alloc: Global) -> Result<Result<(), GraphFault>, AllocError>
        requires cells { length self.now.cells < 2 ^ 32 }
        requires versions { length self.now.versions < 2 ^ 32 }
        ensures { IfOk result (λ answer. MatchResult answer (λ _. IsGraph self.now) (IsFault self.now)) }
    {
        if let Some(v) = self.first_bad_names() {
            return Ok(Err(GraphFault::BadNames(v)));
        }
        if let Some(v) = self.first_bad_writer() {
            return Ok(Err(GraphFault::BadWriter(v)));
        }
        let Replacements { index, clash } = self.replacements(alloc)?;
        if let Some(v) = clash {
            return Ok(Err(GraphFault::TwoActive(v)));
        }
        match self.first_bad_read(&index) {
            Some(c) => Ok(Err(GraphFault::BadRead(c))),
            None => Ok(Ok(())),
        }
    }
}
