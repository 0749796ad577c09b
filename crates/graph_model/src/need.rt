ghost use Rattle.std.specs.Prelude.{ℕ, ◌≡◌, ◌<◌, ◌≤◌, ◌+◌, ◌^◌, ◌↔◌, ◌⊎◌, Contains, length, IfOk, MatchOption};
ghost use Rattle.graph_model.specs.declared.graph.Version.{Version};
ghost use Rattle.graph_model.specs.Graphs.{VersionAt, Needs, ReadsOldOf};
ghost use Rattle.graph_model.specs.Faults.{Ascends, IsGraph};
ghost use Rattle.graph_model.specs.Marks.{IsMarked, WroteOld, WroteOldOf};

use crate::graph::Graph;
use std::alloc::{AllocError, Global};

/// The numbers at which there is a mark, ascending.
fn marked_numbers(alloc: Global, marks: &[bool]) -> Result<Vec<u32>, AllocError>
    requires { length marks.now ≤ 2 ^ 32 }
    ensures ascends { IfOk result (λ cells. Ascends (λ m n. m < n) cells.items) }
    ensures members { IfOk result (λ cells. (c : ℕ) → Contains cells.items c ↔ IsMarked marks.now c) }
{
    let mut numbers = Vec::new(alloc);
    for (c, mark) in marks.iter().enumerate() {
        if *mark {
            numbers.push(c as u32)?;
        }
    }
    Ok(numbers)
}

impl Graph {
    /// The cell that wrote version `v`, if the version is replaced.
    pub fn old_writer(&self, v: u32) -> Option<u32>
        ensures { MatchOption result ((w : ℕ) → ¬ WroteOld self.now v w) (λ w. WroteOld self.now v w) }
    {
        match self.version(v) {
            Some(version) if version.replaced != 0 => Some(version.writer),
            _ => None,
        }
    }

    /// The cell that wrote version `v`, which is one of the versions.
    pub fn writer(&self, v: u32) -> u32
        requires { (x : Version) × VersionAt self.now v x }
        ensures { (x : Version) × VersionAt self.now v x × (x.writer ≡ result) }
    {
        match self.version(v) {
            Some(version) => version.writer,
            None => unreachable!(),
        }
    }

    /// Marks the writers of the replaced versions among these.
    fn mark_writers(&self, reads: &[u32], marks: &mut [bool])
        requires graph { IsGraph self.now }
        requires room { length marks.old ≡ length self.now.cells + 1 }
        ensures { (w : ℕ) → IsMarked marks.new w ↔ (IsMarked marks.old w ⊎ WroteOldOf self.now reads.now w) }
    {
        for v in reads {
            if let Some(writer) = self.old_writer(*v) {
                marks[writer as usize] = true;
            }
        }
    }

    /// Marks the writers of the replaced versions that cell `c` read.
    fn mark_old(&self, c: u32, marks: &mut [bool])
        requires graph { IsGraph self.now }
        requires room { length marks.old ≡ length self.now.cells + 1 }
        ensures { (w : ℕ) → IsMarked marks.new w ↔ (IsMarked marks.old w ⊎ ReadsOldOf self.now c w) }
    {
        if let Some(cell) = self.cell(c) {
            self.mark_writers(cell.reads.as_slice(), marks);
        }
    }

    /// A mark for each number up to that of the last cell, and none set but that of the writer of version `v`.
    fn marks_of_writer(&self, alloc: Global, v: u32) -> Result<Vec<bool>, AllocError>
        requires graph { IsGraph self.now }
        requires version { (x : Version) × VersionAt self.now v x }
        ensures room { IfOk result (λ marks. length marks.items ≡ length self.now.cells + 1) }
        ensures writer { IfOk result (λ marks. (w : ℕ) → IsMarked marks.items w ↔ ((x : Version) × VersionAt self.now v x × (x.writer ≡ w))) }
    {
        let mut marks = vec![in alloc; false; self.cells.len() + 1]?;
        let writer = self.writer(v);
        marks[writer as usize] = true;
        Ok(marks)
    }

    /// The marks of the cells that version `v` needs.
    fn marks_of_need(&self, alloc: Global, v: u32) -> Result<Vec<bool>, AllocError>
        requires graph { IsGraph self.now }
        requires version { (x : Version) × VersionAt self.now v x }
        ensures room { IfOk result (λ marks. length marks.items ≡ length self.now.cells + 1) }
        ensures needed { IfOk result (λ marks. (c : ℕ) → IsMarked marks.items c ↔ Needs self.now v c) }
    {
        let mut marks = self.marks_of_writer(alloc, v)?;
        let mut left = self.cell_count();
        while left > 0 {
            if marks[left as usize] {
                self.mark_old(left, &mut marks);
            }
            left -= 1;
        }
        Ok(marks)
    }

    /// The cells that version `v` needs: its writer and, with each cell, the writers of the replaced versions that it
    /// read. They ascend.
    pub fn need(&self, alloc: Global, v: u32) -> Result<Vec<u32>, AllocError>
        requires graph { IsGraph self.now }
        requires version { (x : Version) × VersionAt self.now v x }
        ensures ascends { IfOk result (λ cells. Ascends (λ m n. m < n) cells.items) }
        ensures members { IfOk result (λ cells. (c : ℕ) → Contains cells.items c ↔ Needs self.now v c) }
    {
        let marks = self.marks_of_need(alloc, v)?;
        marked_numbers(alloc, marks.as_slice())
    }
}
