ghost use Rattle.std.specs.Prelude.{◌≡◌, ◌++◌, [], ◌∷◌, List, Some, None, length, true, false, IfOk, MatchOption, MatchResult};
ghost use Rattle.crossbeam_queue.specs.SegTies.{IsSegPassOf};
ghost use Rattle.ruled_queue.specs.Rule.{joined};
ghost use Rattle.session_core.specs.declared.entry.Entry.{Entry};
ghost use Rattle.session_queues.specs.Ends.{one_more, all_of, AreFirst, GoesOn, IsOpen, IsTakenOf, AreFirstPushed, KnowsPushed, IsDrainedOf, publishes, pushed_by};

use crate::items::OutNumbers;
use crate::reader::Reader;
use crate::shared::SharedQueues;
use ruled_queue::{Queue, Seat};
use session_core::Entry;
use std::alloc::{AllocError, Global};
use std::marker::Model;
use std::mem;
use std::sync::Wait;

/// The owner's side of the out queue.
#[derive(Drop)]
pub struct Outlet {
    pub(crate) out: Seat<Entry>,
    /// How many entries were pushed.
    pub(crate) count: u32,
    /// Whether the reader is closed.
    pub(crate) closed: bool,
}

impl Model for Outlet {
    ghost use Rattle.std.specs.Prelude.{◌≡◌, None};
    ghost use Rattle.session_queues.specs.Ends.{Outgoing, pushed_while, IsOutlet};

    ghost Value = { Outgoing };

    ghost view = { λ o. record { out_queue = record { web = o.out.web; heap = o.out.heap }; pushed = pushed_while o.closed o.out.me.view.client } };

    ghost invariant = { λ o. (o.out.me.hand ≡ None) × (o.out.me.spare ≡ None) × IsOutlet o.closed o.out.me.view.client o.count };
}

impl Outlet {
    /// How many entries were pushed; None once the reader is closed.
    pub fn pushed(&self) -> Option<u32>
        ensures { MatchOption result (self.now.pushed ≡ None) (λ count. (pushed : List Entry) × (self.now.pushed ≡ Some pushed) × (count ≡ length pushed)) }
    {
        if self.closed { None } else { Some(self.count) }
    }

    /// Pushes a copy of an entry, while the reader isn't closed. After 2^32 - 1 entries it also fails as for want of memory.
    fn publish<R: Wait>(
        &mut self,
        rt: &R,
        alloc: Global,
        shared: &SharedQueues,
        entry: &Entry,
    ) -> Result<(), AllocError>
        requires queue { self.old.out_queue ≡ shared.now.out }
        requires open { IsOpen self.old.pushed }
        ensures { MatchResult result (λ _. self.new ≡ record self.old { pushed = one_more self.old.pushed entry.now }) (λ _. self.new ≡ self.old) }
    {
        if self.count == u32::MAX {
            return Err(AllocError);
        }
        push_copy(rt, alloc, &shared.out, &mut self.out, entry)?;
        self.count += 1;
        Ok(())
    }

    /// Pushes, in order, a copy of each of these entries that was not pushed yet; nothing once the reader is closed. What was
    /// pushed before are the first of them. After an error perhaps some more of them, in order, were pushed.
    pub fn publish_all<R: Wait>(
        &mut self,
        rt: &R,
        alloc: Global,
        shared: &SharedQueues,
        entries: &[Entry],
    ) -> Result<(), AllocError>
        requires queue { self.old.out_queue ≡ shared.now.out }
        requires first { AreFirst self.old.pushed entries.now }
        ensures all { IfOk result (λ _. self.new ≡ record self.old { pushed = all_of self.old.pushed entries.now }) }
        ensures first { (self.new.out_queue ≡ self.old.out_queue) × AreFirst self.new.pushed entries.now }
        ensures goes_on { GoesOn self.old.pushed self.new.pushed }
    {
        let Some(count) = self.pushed() else {
            return Ok(());
        };
        for entry in &entries[count as usize..] {
            self.publish(rt, alloc, shared, entry)?;
        }
        Ok(())
    }

    /// Closes the reader, and says how many entries it took. These are the first of those that were pushed. What is still
    /// queued is dropped.
    pub fn close<R: Wait>(&mut self, rt: &R, shared: &SharedQueues, reader: Reader) -> u32
        requires queue { self.old.out_queue ≡ shared.now.out }
        requires reader { reader.out_queue ≡ shared.now.out }
        ensures outlet { self.new ≡ record self.old { pushed = None } }
        ensures taken { IsTakenOf self.old.pushed reader.entries }
        ensures count { result ≡ length reader.entries }
    {
        let Reader { out, taken } = reader;
        if self.closed {
            ruled_queue::one_consumer(rt, &shared.out, &mut self.out, out);
        } else {
            take_back(&shared.out, &mut self.out, out);
            drop_left(rt, &shared.out, &mut self.out);
            self.closed = true;
        }
        taken
    }
}

/// Pushes a copy of an entry.
fn push_copy<R: Wait>(
    rt: &R,
    alloc: Global,
    queue: &Queue<Entry, OutNumbers>,
    seat: &mut Seat<Entry>,
    entry: &Entry,
) -> Result<(), AllocError>
    requires queue { IsSegPassOf queue.now seat.old }
    requires view { seat.old.me.view.client ≡ publishes (pushed_by seat.old.me.view.client) }
    ensures queue { IsSegPassOf queue.now seat.new }
    ensures done { MatchResult result (λ _. seat.new.me.view.client ≡ publishes (pushed_by seat.old.me.view.client ++ entry.now ∷ []))
        (λ _. seat.new.me.view.client ≡ seat.old.me.view.client) }
{
    let copy = entry.copy(alloc)?;
    ruled_queue::push_or_drop(rt, queue, seat, copy)
}

/// Replaces the producer's seat by the reader's, which takes in the producer's numbers.
fn take_back(queue: &Queue<Entry, OutNumbers>, seat: &mut Seat<Entry>, reader: Seat<Entry>)
    requires queue { IsSegPassOf queue.now seat.old × IsSegPassOf queue.now reader }
    requires producer { seat.old.me.view.client.pops ≡ false }
    ensures queue { IsSegPassOf queue.now seat.new }
    ensures view { seat.new.me.view.client ≡ joined reader.me.view.client seat.old.me.view.client }
{
    let producer = mem::replace(seat, reader);
    ruled_queue::join(queue, seat, producer);
}

/// Drops all that is still queued on out. What was popped before are the first entries that were pushed.
fn drop_left<R: Wait>(rt: &R, queue: &Queue<Entry, OutNumbers>, seat: &mut Seat<Entry>)
    requires queue { IsSegPassOf queue.now seat.old }
    requires consumer { seat.old.me.view.client.pops ≡ true }
    ensures queue { IsSegPassOf queue.now seat.new }
    ensures consumer { seat.new.me.view.client.pops ≡ true }
    ensures first { AreFirstPushed seat.old.me.view.client }
    ensures drained { (pushed : List Entry) → KnowsPushed seat.old.me.view.client pushed → IsDrainedOf seat.new.me.view.client pushed }
{
    if drop_one(rt, queue, seat) {
        drop_rest(rt, queue, seat);
    }
}

fn drop_rest<R: Wait>(rt: &R, queue: &Queue<Entry, OutNumbers>, seat: &mut Seat<Entry>)
    requires queue { IsSegPassOf queue.now seat.old }
    requires consumer { seat.old.me.view.client.pops ≡ true }
    ensures queue { IsSegPassOf queue.now seat.new }
    ensures consumer { seat.new.me.view.client.pops ≡ true }
    ensures drained { (pushed : List Entry) → KnowsPushed seat.old.me.view.client pushed → IsDrainedOf seat.new.me.view.client pushed }
{
    for _ in rt.forever() {
        if !drop_one(rt, queue, seat) {
            return;
        }
    }
    unreachable!()
}

/// Drops the front. Whether there was one; if not, all that was pushed was popped.
fn drop_one<R: Wait>(rt: &R, queue: &Queue<Entry, OutNumbers>, seat: &mut Seat<Entry>) -> bool
    requires queue { IsSegPassOf queue.now seat.old }
    requires consumer { seat.old.me.view.client.pops ≡ true }
    ensures queue { IsSegPassOf queue.now seat.new }
    ensures consumer { seat.new.me.view.client.pops ≡ true }
    ensures first { AreFirstPushed seat.old.me.view.client }
    ensures known { (pushed : List Entry) → KnowsPushed seat.old.me.view.client pushed → KnowsPushed seat.new.me.view.client pushed }
    ensures drained { result ≡ false → (pushed : List Entry) → KnowsPushed seat.old.me.view.client pushed → IsDrainedOf seat.new.me.view.client pushed }
{
    ruled_queue::pop_and_drop(rt, queue, seat)
}
