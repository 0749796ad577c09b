ghost use Rattle.std.specs.Prelude.{◌≡◌, IfOk, None, Ok, slice_get};
ghost use Rattle.std.specs.Option.{option_copied};
ghost use Rattle.py_machine.specs.Runs as spec;
ghost use Rattle.py_machine.specs.Runs.{Is, Runs, Grows, Feeding};

use crate::builtins::builtin_named;
use crate::error::{Fault, memory_error, name_error, step_limit_error, unbound_error};
use crate::frame::{Change, Frame, FrameSlot};
use crate::notes::Notes;
use nb_outside::{Drawn, Feed};
use plain_data::{Items, Text};
use py_heap::{HeapFault, Object, State};
use py_value::{Key, Value};
use std::alloc::{AllocError, Global};
use std::mem;

/// The most steps of a cell.
pub const MAX_STEPS: u32 = 1_000_000;

/// What a cell works on.
#[derive(Drop)]
pub struct Machine {
    pub state: State,
    /// The steps of the cell so far.
    pub steps: u32,
    /// What the cell printed so far.
    pub printed: Text,
    /// What the cell drew so far.
    pub drawn: Items<Drawn>,
    /// What the cell did so far.
    pub marks: Notes,
    /// The locals of the call that runs, if one does.
    pub frame: Option<Frame>,
}

impl Machine {
    /// The machine of a cell that begins on this state. Takes no memory but for the text.
    pub fn new(alloc: Global, state: State) -> Result<Machine, AllocError>
        ensures { IfOk result (λ machine. machine ≡ spec.start state) }
    {
        Ok(Machine {
            state,
            steps: 0,
            printed: Text::new(alloc, "")?,
            drawn: Items::new(alloc),
            marks: Notes::new(alloc),
            frame: None,
        })
    }

    /// Counts a step.
    #[inline(always)]
    #[tactic(auto, unfolding(crate::specs::Runs::step))]
    pub fn step(&mut self, alloc: Global) -> Result<(), Fault>
        ensures runs { Is (spec.step self.old) result self.new }
        ensures drawn { self.new.drawn ≡ self.old.drawn }
    {
        if self.steps < MAX_STEPS {
            self.steps += 1;
            return Ok(());
        }
        Err(Fault::Raised(step_limit_error(alloc)?))
    }

    /// Raises the meter.
    #[inline(always)]
    #[tactic(auto, unfolding(crate::specs::Runs::charge))]
    pub fn charge(&mut self, alloc: Global, units: u64) -> Result<(), Fault>
        ensures runs { Is (spec.charge units self.old) result self.new }
        ensures drawn { self.new.drawn ≡ self.old.drawn }
    {
        match self.state.charge(units) {
            Ok(()) => Ok(()),
            Err(HeapFault::MeterSpent) => Err(Fault::Raised(memory_error(alloc)?)),
        }
    }

    /// The value of a name: a local's, or else a global's, or else a built-in function.
    #[inline(always)]
    #[tactic(auto, unfolding(crate::specs::Runs::look))]
    pub fn look(&mut self, alloc: Global, name: &Text) -> Result<Value, Fault>
        ensures runs { Is (spec.look name.now self.old) result self.new }
        ensures drawn { self.new.drawn ≡ self.old.drawn }
    {
        if let Some(frame) = &self.frame {
            match frame.slots.look(name) {
                Some(FrameSlot::Held(value)) => return Ok(value.copy()?),
                Some(FrameSlot::Empty) => return Err(Fault::Raised(unbound_error(alloc, name)?)),
                None => {}
            }
        }
        self.look_global(alloc, name)
    }

    #[inline(always)]
    fn look_global(&mut self, alloc: Global, name: &Text) -> Result<Value, Fault>
        ensures runs { Is (spec.looked name.now None self.old) result self.new }
        ensures drawn { self.new.drawn ≡ self.old.drawn }
    {
        self.marks.look(alloc, name)?;
        if let Some(value) = self.state.look(name) {
            return Ok(value.copy()?);
        }
        match builtin_named(name.as_str()) {
            Some(builtin) => Ok(Value::Builtin(builtin)),
            None => Err(Fault::Raised(name_error(alloc, name)?)),
        }
    }

    /// Asks that a local or a global has a value.
    #[tactic(auto, unfolding(crate::specs::Runs::seek))]
    pub fn seek(&mut self, alloc: Global, name: &Text) -> Result<(), Fault>
        ensures runs { Is (spec.seek name.now self.old) result self.new }
        ensures drawn { self.new.drawn ≡ self.old.drawn }
    {
        if let Some(frame) = &self.frame {
            match frame.slots.look(name) {
                Some(FrameSlot::Held(_)) => return Ok(()),
                Some(FrameSlot::Empty) => return Err(Fault::Raised(unbound_error(alloc, name)?)),
                None => {}
            }
        }
        self.seek_global(alloc, name)
    }

    fn seek_global(&mut self, alloc: Global, name: &Text) -> Result<(), Fault>
        ensures runs { Is (spec.sought name.now None self.old) result self.new }
        ensures drawn { self.new.drawn ≡ self.old.drawn }
    {
        self.marks.look(alloc, name)?;
        match self.state.look(name) {
            Some(_) => Ok(()),
            None => Err(Fault::Raised(name_error(alloc, name)?)),
        }
    }

    /// Gives a local or a global a value.
    #[inline(always)]
    #[tactic(auto, unfolding(crate::specs::Runs::bind))]
    pub fn bind(&mut self, alloc: Global, name: &Text, value: Value) -> Result<(), Fault>
        ensures runs { Is (spec.bind name.now value self.old) result self.new }
        ensures drawn { self.new.drawn ≡ self.old.drawn }
    {
        let value = match &mut self.frame {
            Some(frame) => match frame.slots.hold(name, value) {
                Some(value) => value,
                None => return Ok(()),
            },
            None => value,
        };
        self.bind_global(alloc, name, value)
    }

    #[inline(always)]
    fn bind_global(&mut self, alloc: Global, name: &Text, value: Value) -> Result<(), Fault>
        ensures runs { Is (Ok tt, spec.bound name.now value None self.old) result self.new }
        ensures drawn { self.new.drawn ≡ self.old.drawn }
    {
        self.marks.bind(alloc, name)?;
        self.state.bind(alloc, name, value)?;
        Ok(())
    }

    /// Takes a local's or a global's value away.
    #[tactic(auto, unfolding(crate::specs::Runs::unbind))]
    pub fn unbind(&mut self, alloc: Global, name: &Text) -> Result<(), Fault>
        ensures runs { Is (spec.unbind name.now self.old) result self.new }
        ensures drawn { self.new.drawn ≡ self.old.drawn }
    {
        if let Some(frame) = &mut self.frame {
            if frame.slots.clear(name) {
                return Ok(());
            }
        }
        self.unbind_global(alloc, name)
    }

    fn unbind_global(&mut self, alloc: Global, name: &Text) -> Result<(), Fault>
        ensures runs { Is (Ok tt, spec.unbound name.now None self.old) result self.new }
        ensures drawn { self.new.drawn ≡ self.old.drawn }
    {
        self.marks.unbind(alloc, name)?;
        self.state.unbind(name);
        Ok(())
    }

    /// Whether a name is a local of the call that runs.
    #[inline(always)]
    #[tactic(auto, unfolding(crate::specs::Runs::is_local))]
    pub fn is_local(&self, name: &Text) -> bool
        ensures { (Ok result, self.now) ≡ spec.is_local name.now self.now }
    {
        match &self.frame {
            Some(frame) => frame.slots.look(name).is_some(),
            None => false,
        }
    }

    /// Begins a call with these locals, and gives the frame outside.
    #[inline(always)]
    #[tactic(auto, unfolding(crate::specs::Runs::enter))]
    pub fn enter(&mut self, frame: Frame) -> Result<Option<Frame>, Fault>
        ensures runs { Is (spec.enter frame self.old) result self.new }
        ensures drawn { self.new.drawn ≡ self.old.drawn }
    {
        Ok(mem::replace(&mut self.frame, Some(frame)))
    }

    /// Ends a call, inside this frame. After an error it isn't called: the cell ends then.
    #[inline(always)]
    #[tactic(auto, unfolding(crate::specs::Runs::leave))]
    pub fn leave(&mut self, outer: Option<Frame>) -> Result<(), Fault>
        ensures runs { Is (spec.leave outer self.old) result self.new }
        ensures drawn { self.new.drawn ≡ self.old.drawn }
    {
        self.frame = outer;
        Ok(())
    }

    /// Makes an object, and answers its address.
    #[tactic(auto, unfolding(crate::specs::Runs::add))]
    pub fn add(&mut self, object: Object) -> Result<u32, Fault>
        ensures runs { Is (spec.add object self.old) result self.new }
        ensures drawn { self.new.drawn ≡ self.old.drawn }
    {
        Ok(self.state.add(object)?)
    }

    /// The object at an address, if there is one.
    #[inline(always)]
    pub fn object_at(&self, at: u32) -> Option<&Object>
        ensures { option_copied result ≡ slice_get self.now.state.heap at }
    {
        if (at as usize) < self.state.len() {
            Some(self.state.get(at))
        } else {
            None
        }
    }

    /// Changes the object at an address. If it isn't of the change's kind, or none is there, nothing changes.
    pub fn change(&mut self, at: u32, change: Change) -> Result<(), Fault>
        ensures runs { Is (spec.change at change self.old) result self.new }
        ensures drawn { self.new.drawn ≡ self.old.drawn }
    {
        match change {
            Change::Push(item) => self.push(at, item),
            Change::Extend(items) => self.extend(at, items),
            Change::Insert { at: position, item } => self.insert(at, position, item),
            Change::Set { at: position, item } => self.set(at, position, item),
            Change::Remove { at: position } => self.remove(at, position),
            Change::Put { key, value } => self.put(at, key, value),
            Change::Drop(key) => self.drop_key(at, key),
            Change::Clear => self.clear(at),
            Change::Use => self.raise_uses(at),
        }
    }

    #[tactic(auto, unfolding(crate::specs::Runs::change))]
    fn push(&mut self, at: u32, item: Value) -> Result<(), Fault>
        ensures runs { Is (spec.change at (Change.Push item) self.old) result self.new }
        ensures drawn { self.new.drawn ≡ self.old.drawn }
    {
        if self.state.is_list(at) {
            self.marks.change(at)?;
            self.state.push_item(at, item)?;
        }
        Ok(())
    }

    #[tactic(auto, unfolding(crate::specs::Runs::change))]
    fn extend(&mut self, at: u32, items: Items<Value>) -> Result<(), Fault>
        ensures runs { Is (spec.change at (Change.Extend items) self.old) result self.new }
        ensures drawn { self.new.drawn ≡ self.old.drawn }
    {
        if self.state.is_list(at) {
            self.marks.change(at)?;
            self.state.extend_items(at, items)?;
        }
        Ok(())
    }

    #[tactic(auto, unfolding(crate::specs::Runs::change))]
    fn insert(&mut self, at: u32, position: u32, item: Value) -> Result<(), Fault>
        ensures runs { Is (spec.change at (Change.Insert position item) self.old) result self.new }
        ensures drawn { self.new.drawn ≡ self.old.drawn }
    {
        if self.state.is_list(at) && position as usize <= self.state.list(at).len() {
            self.marks.change(at)?;
            self.state.insert_item(at, position, item)?;
        }
        Ok(())
    }

    #[tactic(auto, unfolding(crate::specs::Runs::change))]
    fn set(&mut self, at: u32, position: u32, item: Value) -> Result<(), Fault>
        ensures runs { Is (spec.change at (Change.Set position item) self.old) result self.new }
        ensures drawn { self.new.drawn ≡ self.old.drawn }
    {
        if self.state.is_list(at) && (position as usize) < self.state.list(at).len() {
            self.marks.change(at)?;
            self.state.set_item(at, position, item);
        }
        Ok(())
    }

    #[tactic(auto, unfolding(crate::specs::Runs::change))]
    fn remove(&mut self, at: u32, position: u32) -> Result<(), Fault>
        ensures runs { Is (spec.change at (Change.Remove position) self.old) result self.new }
        ensures drawn { self.new.drawn ≡ self.old.drawn }
    {
        if self.state.is_list(at) && (position as usize) < self.state.list(at).len() {
            self.marks.change(at)?;
            let _item = self.state.remove_item(at, position);
        }
        Ok(())
    }

    #[tactic(auto, unfolding(crate::specs::Runs::change))]
    fn put(&mut self, at: u32, key: Key, value: Value) -> Result<(), Fault>
        ensures runs { Is (spec.change at (Change.Put key value) self.old) result self.new }
        ensures drawn { self.new.drawn ≡ self.old.drawn }
    {
        if self.state.is_dict(at) {
            self.marks.change(at)?;
            self.state.put_key(at, key, value)?;
        }
        Ok(())
    }

    #[tactic(auto, unfolding(crate::specs::Runs::change))]
    fn drop_key(&mut self, at: u32, key: Key) -> Result<(), Fault>
        ensures runs { Is (spec.change at (Change.Drop key) self.old) result self.new }
        ensures drawn { self.new.drawn ≡ self.old.drawn }
    {
        if self.state.is_dict(at) {
            self.marks.change(at)?;
            let _value = self.state.remove_key(at, &key);
        }
        Ok(())
    }

    #[tactic(auto, unfolding(crate::specs::Runs::change))]
    fn clear(&mut self, at: u32) -> Result<(), Fault>
        ensures runs { Is (spec.change at Change.Clear self.old) result self.new }
        ensures drawn { self.new.drawn ≡ self.old.drawn }
    {
        if self.state.is_list(at) || self.state.is_dict(at) {
            self.marks.change(at)?;
            self.state.clear(at);
        }
        Ok(())
    }

    #[tactic(auto, unfolding(crate::specs::Runs::change))]
    fn raise_uses(&mut self, at: u32) -> Result<(), Fault>
        ensures runs { Is (spec.change at Change.Use self.old) result self.new }
        ensures drawn { self.new.drawn ≡ self.old.drawn }
    {
        if self.state.is_handle(at) {
            self.marks.change(at)?;
            self.state.raise_uses(at);
        }
        Ok(())
    }

    /// Writes to the text printed so far.
    #[tactic(auto, unfolding(crate::specs::Runs::write))]
    pub fn write(&mut self, text: &str) -> Result<(), Fault>
        ensures runs { Is (spec.write text.now self.old) result self.new }
        ensures drawn { self.new.drawn ≡ self.old.drawn }
    {
        self.printed.push_str(text)?;
        Ok(())
    }

    /// Takes a draw from the feed, and records it. If there is no memory for it, nothing is drawn.
    fn take<F: Feed>(&mut self, feed: &mut F) -> Result<Drawn, AllocError>
        ensures takes { IfOk result (λ draw. self.new ≡ spec.drawn draw self.old) }
        ensures grows { Grows self.old self.new }
        ensures fed { Feeding self.old.drawn (F.seen feed.old) self.new.drawn (F.seen feed.new) }
    {
        let at = self.drawn.len();
        self.drawn.push(Drawn::Failed)?;
        let draw = feed.draw();
        self.drawn.set(at, draw);
        self.marks.draw();
        Ok(draw)
    }

    /// Draws a word, and records what came.
    pub fn draw<F: Feed>(&mut self, feed: &mut F) -> Result<u64, Fault>
        ensures runs { Runs spec.draw self.old result self.new }
        ensures grows { Grows self.old self.new }
        ensures fed { Feeding self.old.drawn (F.seen feed.old) self.new.drawn (F.seen feed.new) }
    {
        match self.take(feed)? {
            Drawn::Word(word) => Ok(word),
            Drawn::Failed => Err(Fault::DrawFailed),
        }
    }
}
