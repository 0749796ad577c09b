ghost use Rattle.std.specs.Prelude.{ℕ, ◌≡◌, ◌<◌, ◌≤◌, ◌-◌, ◌^◌, ◌↔◌, IsTrue, length, IfOk, OnOk, MatchOption};
ghost use Rattle.flow_model.specs.First.{IsFirst};
ghost use Rattle.graph_model.specs.Graphs.{VersionAt};
ghost use Rattle.graph_model.specs.Faults.{HasBadWriter, IsTwoActive, Never};
ghost use Rattle.graph_model.specs.Walks.{IsIndex, ClashesBy, SomeClashes, IsLeastClash};

use crate::graph::{Graph, Version};
use plain_data::{Text, TextMap};
use std::alloc::{AllocError, Global};

/// What a walk over the versions from the last to the first has found.
#[derive(Drop)]
pub(crate) struct Replacements {
    /// For each name the first version that has it.
    pub index: TextMap<u32>,
    /// The first version that isn't replaced as it should be.
    pub clash: Option<u32>,
}

impl Graph {
    /// Whether version `v`, by this name, is replaced by another cell than that of the next version with it, or by none.
    fn clashes_by(&self, index: &TextMap<u32>, v: u32, version: &Version, name: &Text) -> bool
        requires { IsIndex self.now v index.now }
        ensures { IsTrue result ↔ ClashesBy self.now v version.now name.now }
    {
        match index.look(name) {
            Some(u) => match self.version(*u) {
                Some(next) => next.writer != version.replaced,
                None => false,
            },
            None => version.replaced != 0,
        }
    }

    fn some_clashes(&self, index: &TextMap<u32>, v: u32, version: &Version) -> bool
        requires { IsIndex self.now v index.now }
        ensures { IsTrue result ↔ SomeClashes self.now v version.now }
    {
        for name in version.names.as_slice() {
            if self.clashes_by(index, v, version, name) {
                return true;
            }
        }
        false
    }

    /// Puts the names of version `v` into the index of those after it.
    fn index_names(
        &self,
        alloc: Global,
        v: u32,
        version: &Version,
        index: &mut TextMap<u32>,
    ) -> Result<(), AllocError>
        requires version { VersionAt self.now v version.now }
        requires index { IsIndex self.now v index.old }
        ensures { OnOk result (IsIndex self.now (v - 1) index.new) }
    {
        for name in version.names.as_slice() {
            index.bind(name.copy(alloc)?, v)?;
        }
        Ok(())
    }

    /// Of the versions from `v` on, the least that clashes; `later` is that of the versions after `v`.
    fn least_clash(
        &self,
        index: &TextMap<u32>,
        v: u32,
        version: &Version,
        later: Option<u32>,
    ) -> Option<u32>
        requires version { VersionAt self.now v version.now }
        requires index { IsIndex self.now v index.now }
        requires later { IsLeastClash self.now v later }
        ensures { IsLeastClash self.now (v - 1) result }
    {
        if self.some_clashes(index, v, version) {
            Some(v)
        } else {
            later
        }
    }

    /// Takes version `v` in, once the versions after it are in.
    fn take_in(&self, alloc: Global, v: u32, found: &mut Replacements) -> Result<(), AllocError>
        requires index { IsIndex self.now v found.old.index }
        requires clash { IsLeastClash self.now v found.old.clash }
        ensures index { OnOk result (IsIndex self.now (v - 1) found.new.index) }
        ensures clash { OnOk result (IsLeastClash self.now (v - 1) found.new.clash) }
    {
        match self.version(v) {
            Some(version) => {
                found.clash = self.least_clash(&found.index, v, version, found.clash);
                self.index_names(alloc, v, version, &mut found.index)
            }
            None => Ok(()),
        }
    }

    /// An index of the names, and the first version that isn't replaced as it should be.
    pub(crate) fn replacements(&self, alloc: Global) -> Result<Replacements, AllocError>
        requires few { length self.now.versions < 2 ^ 32 }
        requires writers { Never (HasBadWriter self.now) }
        ensures index { IfOk result (λ it. IsIndex self.now 0 it.index) }
        ensures clash { IfOk result (λ it. MatchOption it.clash (Never (IsTwoActive self.now)) (λ n. IsFirst (IsTwoActive self.now) n)) }
    {
        let mut found = Replacements {
            index: TextMap::new(alloc),
            clash: None,
        };
        let mut v = self.version_count();
        while v > 0 {
            self.take_in(alloc, v, &mut found)?;
            v -= 1;
        }
        Ok(found)
    }
}
