ghost use Rattle.std.specs.Prelude.{◌≡◌, true, OnOk};
ghost use Rattle.py_machine.specs.Marked as spec;
ghost use Rattle.py_machine.specs.Notes.{IsMarked};

use crate::marks::Marks;
use plain_data::{Text, TextMap};
use std::alloc::{AllocError, Global};
use std::marker::Model;

/// The marks of a cell that runs, which contracts see as `Marks`. A name that comes again and again takes one look-up, and an
/// object that is changed again and again none.
#[derive(Drop)]
pub struct Notes {
    marks: Marks,
    /// Names that came before: whether they are bound or unbound.
    seen: TextMap<bool>,
    /// The object that was changed last.
    latest: Option<u32>,
}

impl Model for Notes {
    ghost use Rattle.py_machine.specs.declared.marks.Marks.{Marks as MarksOf};
    ghost use Rattle.py_machine.specs.contracts.marks.Marks as marks_row;
    ghost use Rattle.py_machine.specs.Notes.{AreMarked, IsChangedIn};

    ghost Value = { MarksOf };

    ghost coded = { marks_row.the_row.coded };

    ghost view = { λ n. n.marks };

    ghost invariant = { λ n. AreMarked n.marks n.seen × IsChangedIn n.marks n.latest };
}

impl Notes {
    /// Nothing yet. Takes no memory.
    pub fn new(alloc: Global) -> Notes
        ensures { result ≡ spec.no_marks }
    {
        Notes {
            marks: Marks::new(alloc),
            seen: TextMap::new(alloc),
            latest: None,
        }
    }

    /// The marks. Takes no memory.
    pub fn into_marks(self) -> Marks
        ensures { result ≡ self }
    {
        let Notes { marks, .. } = self;
        marks
    }

    /// Remembers of a name that is marked whether it is bound or unbound.
    #[inline(never)]
    fn remember(&mut self, alloc: Global, name: &Text, bound: bool) -> Result<(), AllocError>
        requires { IsMarked bound self.old name.now }
        ensures { self.new ≡ self.old }
    {
        self.seen.put(alloc, name, bound)?;
        Ok(())
    }

    /// Whether a name is remembered. Then one more look at it changes nothing.
    #[inline(always)]
    fn is_seen(&self, name: &Text) -> bool
        ensures { result ≡ true → spec.noted (spec.Look name.now) self.now ≡ self.now }
    {
        self.seen.look(name).is_some()
    }

    /// Whether a name is remembered as bound or unbound.
    #[inline(always)]
    fn is_seen_bound(&self, name: &Text) -> bool
        ensures { result ≡ true → spec.has_member self.now.bound name.now ≡ true }
    {
        match self.seen.look(name) {
            Some(bound) => *bound,
            None => false,
        }
    }

    #[inline(never)]
    fn is_bound(&self, name: &Text) -> bool
        ensures { result ≡ spec.has_member self.now.bound name.now }
    {
        self.marks.bound.look(name).is_some()
    }

    #[inline(never)]
    fn is_looked(&self, name: &Text) -> bool
        ensures { result ≡ spec.has_member self.now.looked name.now }
    {
        self.marks.looked.look(name).is_some()
    }

    #[inline(never)]
    fn add_looked(&mut self, alloc: Global, name: &Text) -> Result<(), AllocError>
        ensures { OnOk result (self.new ≡ record self.old { looked = spec.with_member self.old.looked name.now }) }
    {
        self.marks.looked.bind(name.copy(alloc)?, ())?;
        Ok(())
    }

    #[inline(never)]
    fn add_bound(&mut self, alloc: Global, name: &Text) -> Result<(), AllocError>
        ensures { OnOk result (self.new ≡ record self.old { bound = spec.with_member self.old.bound name.now }) }
    {
        self.marks.bound.bind(name.copy(alloc)?, ())?;
        Ok(())
    }

    /// Notes that a name is looked up.
    #[inline(always)]
    pub fn look(&mut self, alloc: Global, name: &Text) -> Result<(), AllocError>
        ensures { OnOk result (self.new ≡ spec.noted (spec.Look name.now) self.old) }
    {
        if self.is_seen(name) {
            return Ok(());
        }
        if self.is_bound(name) {
            return self.remember(alloc, name, true);
        }
        if self.is_looked(name) {
            return self.remember(alloc, name, false);
        }
        self.add_looked(alloc, name)
    }

    /// Notes that a name is bound.
    #[inline(always)]
    pub fn bind(&mut self, alloc: Global, name: &Text) -> Result<(), AllocError>
        ensures { OnOk result (self.new ≡ spec.noted (spec.Bind name.now) self.old) }
    {
        if self.is_seen_bound(name) {
            return Ok(());
        }
        if self.is_bound(name) {
            return self.remember(alloc, name, true);
        }
        self.add_bound(alloc, name)
    }

    /// Notes that a name is unbound.
    pub fn unbind(&mut self, alloc: Global, name: &Text) -> Result<(), AllocError>
        ensures { OnOk result (self.new ≡ spec.noted (spec.Unbind name.now) self.old) }
    {
        self.bind(alloc, name)
    }

    /// Whether the object at an address was changed last.
    fn is_latest(&self, at: u32) -> bool
        ensures { result ≡ true → spec.has_member self.now.changed at ≡ true }
    {
        match self.latest {
            Some(last) => last == at,
            None => false,
        }
    }

    /// Notes that the object at an address is changed.
    pub fn change(&mut self, at: u32) -> Result<(), AllocError>
        ensures { OnOk result (self.new ≡ spec.noted (spec.Change at) self.old) }
    {
        if self.is_latest(at) {
            return Ok(());
        }
        self.marks.changed.insert(at)?;
        self.latest = Some(at);
        Ok(())
    }

    /// Notes that the cell drew.
    pub fn draw(&mut self)
        ensures { self.new ≡ spec.noted spec.Drew self.old }
    {
        self.marks.drew = true;
    }
}
