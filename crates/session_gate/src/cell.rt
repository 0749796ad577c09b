ghost use Rattle.std.specs.Prelude.{◌≡◌, ◌+◌, ◌<◌, ◌^◌, [], ◌∷◌, ◌++◌, Some, slice_get, IfOk, IfSome, MatchOption, MatchResult};
ghost use Rattle.nb_outside.specs.Feeds.{HasAll};
ghost use Rattle.session_core.specs.Legal.{progress_of, sealed, arriving};
ghost use Rattle.session_queues.specs.declared.items.MainItem.{MainItem};
ghost use Rattle.session_queues.specs.Passes.{IsPassOf, HoldsAll, admitted_by, parted, next_pass, taking_in};
ghost use Rattle.session_queues.specs.Ends.{first_pass, nothing_on, gathered};
ghost use Rattle.session_gate.specs.Facts.{IsOurs, IsWhole, owner_of};
ghost use Rattle.session_gate.specs.Custodies.{OnTaken, IsFinished};

use crate::lease::Lease;
use crate::parcel::Parcel;
use crate::resident::Resident;
use crate::slot::{Name, Slot, Take};
use nb_outside::Feed;
use session_core::{Channel, Engine, Entry, Header, Request};
use session_queues::{Pass, Queues, Reader, SharedQueues};
use std::alloc::{AllocError, Global};
use std::marker::Model;
use std::sync::{Arc, Mutex, Wait};

/// A session that all threads share: its slot, which a lock guards, and a share of its queues.
pub struct SessionCell<E: Engine, F: Feed, N: Name> {
    shared: Arc<SharedQueues, Global>,
    number: u32,
    slot: Mutex<Slot<E, F, N>>,
}

impl<E: Engine, F: Feed, N: Name> Model for SessionCell<E, F, N> {
    ghost use Rattle.std.specs.Prelude.{◌≡◌, ℕ, slice_get, Some};
    ghost use Rattle.session_queues.specs.declared.shared.SharedQueues.{SharedQueues};

    ghost Value = { SharedQueues × ℕ };

    ghost view = { λ c. (c.shared.value, c.number) };

    ghost invariant = { λ c. slice_get N.queues c.number ≡ Some c.shared.value };
}

impl<E: Engine + Drop, F: Feed, N: Name> SessionCell<E, F, N> {
    /// The cell of a session that isn't open yet. The name lists its queues under its number.
    pub fn new(queues: &Queues, number: u32) -> Result<SessionCell<E, F, N>, AllocError>
        requires { slice_get N.queues number ≡ Some queues.now }
        ensures { IfOk result (λ cell. cell ≡ (queues.now, number)) }
    {
        let shared = queues.share()?;
        Ok(SessionCell {
            shared,
            number,
            slot: Mutex::new(Slot::new()),
        })
    }

    /// The name lists its queues under its number.
    pub fn is_listed(&self)
        ensures { slice_get N.queues self.now.1 ≡ Some self.now.0 }
    {
        let _ = &self.number;
    }

    /// A pass with the next number. Takes no memory.
    pub fn split(&self, pass: &mut Pass) -> Pass
        requires pass { IsPassOf self.now.0 pass.old }
        requires first { (0 < pass.old.main.given) × (pass.old.main.given + 1 < 2 ^ 32) }
        ensures old { pass.new ≡ parted pass.old }
        ensures new { result ≡ next_pass pass.old }
    {
        pass.split(&self.shared)
    }

    /// Takes the lists of the other pass into this one. Takes no memory.
    pub fn join(&self, pass: &mut Pass, other: Pass)
        requires { IsPassOf self.now.0 pass.old × IsPassOf self.now.0 other }
        ensures { pass.new ≡ taking_in pass.old other }
    {
        pass.join(&self.shared, other);
    }

    /// Pushes a request on the queue that it belongs to. It comes back for want of memory alone.
    pub fn admit<R: Wait>(&self, rt: &R, pass: &mut Pass, request: Request) -> Result<(), Request>
        requires pass { IsPassOf self.now.0 pass.old }
        requires number { request.frontend ≡ pass.old.number }
        ensures { MatchResult result (λ _. pass.new ≡ admitted_by pass.old request) (λ r. (r ≡ request) × (pass.new ≡ pass.old)) }
    {
        pass.admit(rt, &self.shared, request)
    }

    /// Takes the next entry for the reader. None if none was there at a step of this call. Takes no memory.
    pub fn read<R: Wait>(&self, rt: &R, reader: &mut Reader) -> Option<Entry>
        requires { reader.old.out_queue ≡ self.now.0.out }
        ensures { MatchOption result (reader.new ≡ reader.old) (λ entry. reader.new ≡ record reader.old { entries = reader.old.entries ++ entry ∷ [] }) }
    {
        reader.read(rt, &self.shared)
    }

    /// Opens the session in one hold of the lock, and gives the first pass and the one reader. The queues come back for want of
    /// memory alone.
    pub fn open<R: Wait>(
        &self,
        rt: &R,
        alloc: Global,
        queues: Queues,
        kernel: u128,
        hosts: u32,
        engine: E,
        feed: F,
        host: u32,
        request: Header,
        channel: Channel,
    ) -> Result<(Pass, Reader), Queues>
        requires name { (queues ≡ self.now.0) × (hosts ≡ N.hosts) }
        requires host { host < hosts }
        requires engine { E.stands_for engine [] × (E.host_of engine ≡ host) }
        requires feed { HasAll (F.seen feed) × ((F.seen feed).made ≡ N.gives kernel) }
        ensures { MatchResult result
            (λ made. (made.0 ≡ first_pass queues (MainItem.Opening kernel host request channel)) × (made.1 ≡ nothing_on queues))
            (λ back. back ≡ queues) }
    {
        let mut guard = self.slot.lock(rt);
        let slot = &mut *guard;
        slot.open(
            rt,
            alloc,
            queues,
            self.number,
            kernel,
            hosts,
            engine,
            feed,
            host,
            request,
            channel,
        )
    }

    /// Takes the session for this host in one hold of the lock. A lease that it gives is this cell's, and this host owns the
    /// session.
    pub fn take<R: Wait>(&self, rt: &R, host: u32) -> Take<E, F>
        ensures { OnTaken (λ lease. (owner_of lease ≡ host) × IsOurs self.now N.hosts N.gives F.seen lease) result }
    {
        let mut guard = self.slot.lock(rt);
        let slot = &mut *guard;
        match slot.take(host) {
            Take::Taken(lease) => {
                if lease.number() == self.number {
                    Take::Taken(lease)
                } else {
                    slot.give(rt, lease);
                    Take::Out
                }
            }
            other => other,
        }
    }

    /// Puts a lease back in one hold of the lock. No owner of its session is there.
    pub fn give<R: Wait>(&self, rt: &R, lease: Lease<E, F>)
        requires { IsOurs self.now N.hosts N.gives F.seen lease }
    {
        let _ = &self.number;
        let mut guard = self.slot.lock(rt);
        let slot = &mut *guard;
        slot.give(rt, lease);
    }

    /// Puts a sealed session there in one hold of the lock. No owner of it is there.
    pub fn seal<R: Wait>(&self, rt: &R, parcel: Parcel<E, F>)
        requires ours { IsOurs self.now N.hosts N.gives F.seen parcel.held }
        requires sealed { (progress_of parcel.held.entries).phase ≡ sealed parcel.again parcel.to }
    {
        let _ = &self.number;
        let mut guard = self.slot.lock(rt);
        let slot = &mut *guard;
        slot.seal(rt, parcel);
    }

    /// Gives a session that is sealed for this host, in one hold of the lock. The parcel is this cell's, is for this host, and
    /// came there.
    pub fn collect<R: Wait>(&self, rt: &R, host: u32) -> Option<Parcel<E, F>>
        ensures { IfSome result (λ parcel. (parcel.to ≡ host) × ((progress_of parcel.held.entries).phase ≡ arriving parcel.again parcel.to)
            × IsOurs self.now N.hosts N.gives F.seen parcel.held) }
    {
        let mut guard = self.slot.lock(rt);
        let slot = &mut *guard;
        if !slot.is_of(self.number) {
            return None;
        }
        slot.collect(host)
    }

    /// Puts back the lease of a session that was collected, and then adopted or resumed, in one hold of the lock. No owner of it
    /// is there.
    pub fn settle<R: Wait>(&self, rt: &R, lease: Lease<E, F>)
        requires { IsOurs self.now N.hosts N.gives F.seen lease }
    {
        self.give(rt, lease);
    }

    /// The owner at the end, with what the pass holds joined into its own: whole if the pass holds all passes. Cell and pass come
    /// back if no owner is there, or it is sealed.
    pub fn finish(self, pass: Pass) -> Result<Resident<E, F>, (SessionCell<E, F, N>, Pass)>
        requires { IsPassOf self.0 pass }
        ensures finished { MatchResult result (IsFinished N.hosts self.0 self.1 pass N.gives F.seen) (λ back. (back.0 ≡ self) × (back.1 ≡ pass)) }
        ensures whole { HoldsAll pass → IfOk result IsWhole }
    {
        let SessionCell {
            shared,
            number,
            slot,
        } = self;
        let slot = slot.into_inner();
        if !slot.is_of(number) {
            return Err((closed(shared, number, slot), pass));
        }
        slot.has_queues(number);
        match slot.finish(pass) {
            Ok(resident) => Ok(resident),
            Err((slot, pass)) => Err((closed(shared, number, slot), pass)),
        }
    }

    /// A lease of this cell, with what the pass holds joined into its own: whole if the pass holds all passes.
    pub fn gather<R: Wait>(self, rt: &R, lease: Lease<E, F>, pass: Pass) -> Lease<E, F>
        requires lease { IsOurs self N.hosts N.gives F.seen lease }
        requires pass { IsPassOf self.0 pass }
        ensures same { result ≡ record lease { ends = gathered lease.ends pass } }
        ensures whole { HoldsAll pass → IsWhole result }
    {
        let SessionCell {
            shared: _,
            number: _,
            slot,
        } = self;
        let mut slot = slot.into_inner();
        let mut lease = lease;
        lease.make_way(rt, &mut slot);
        slot.discard();
        lease.join(pass);
        lease
    }

    /// Lets the cell go, with whoever is there.
    pub fn discard(self) {
        let SessionCell {
            shared: _,
            number: _,
            slot,
        } = self;
        slot.into_inner().discard();
    }
}

/// A cell again, at the end.
fn closed<E: Engine, F: Feed, N: Name>(
    shared: Arc<SharedQueues, Global>,
    number: u32,
    slot: Slot<E, F, N>,
) -> SessionCell<E, F, N>
    requires { slice_get N.queues number ≡ Some shared.value }
    ensures { result ≡ (shared.value, number) }
{
    SessionCell {
        shared,
        number,
        slot: Mutex::new(slot),
    }
}
