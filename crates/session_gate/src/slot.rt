ghost use Rattle.std.specs.Prelude.{◌≡◌, ◌<◌, ◌==◌, [], true, false, Some, slice_get, IfOk, IfSome, MatchOption, MatchResult};
ghost use Rattle.nb_outside.specs.Feeds.{HasAll};
ghost use Rattle.session_queues.specs.declared.items.MainItem.{MainItem};
ghost use Rattle.session_queues.specs.Ends.{first_pass, nothing_on};
ghost use Rattle.session_gate.specs.Facts.{OwesNone, IsBare, IsIn, IsSettled, owner_of};
ghost use Rattle.session_gate.specs.Custodies.{took, is_of, HasQueues, OnTaken, IsInOrder, HasOwner, Collects, Finishes, IsFree, IsAtRest, IsSealedUp, IsCollected, IsPassHere, IsNew};
ghost use Rattle.session_gate.specs.declared.slot.Custody.TheVariants.{Unopened, In, Out, Sealed};

use crate::lease::Lease;
use crate::parcel::Parcel;
use crate::resident::Resident;
use nb_outside::Feed;
use session_core::{Channel, Engine, Header};
use session_queues::{Ends, Pass, Queues, Reader};
use std::alloc::Global;
use std::marker::{Brand, Model, PhantomData};
use std::sync::Wait;
use std::{mem, thread};

/// The sessions of one run, which are known before its locks are made: the number of hosts, the queues of each session, and what
/// the feed of each kernel gives.
pub trait Name {
    ghost use Rattle.std.specs.Prelude.{ℕ, List, Option};
    ghost use Rattle.nb_outside.specs.declared.feed.Drawn.{Drawn};
    ghost use Rattle.session_queues.specs.declared.shared.SharedQueues.{SharedQueues};

    ghost hosts: { ℕ };

    ghost queues: { List SharedQueues };

    // What the feed of each kernel's session is made with, if that is told.
    ghost gives: { ℕ → Option (List Drawn) };
}

impl Name for Brand {
    ghost use Rattle.std.specs.Prelude.{[], None};

    ghost hosts = { 0 };

    ghost queues = { [] };

    ghost gives = { λ kernel. None };
}

/// What taking a session gives.
pub enum Take<E: Engine, F: Feed> {
    Taken(Lease<E, F>),
    /// Another host owns it.
    Elsewhere(u32),
    Unopened,
    /// Its owner is out.
    Out,
    /// It is sealed for that host.
    Sealed(u32),
}

/// What is in a slot.
pub enum Custody<E: Engine, F: Feed> {
    Unopened,
    In(Resident<E, F>),
    /// The owner is out.
    Out,
    Sealed(Parcel<E, F>),
}

/// Where the owner of a session is kept while nobody works: what a session's lock guards.
pub struct Slot<E: Engine, F: Feed, N: Name> {
    state: Custody<E, F>,
    name: PhantomData<N>,
}

impl<E: Engine, F: Feed, N: Name> Model for Slot<E, F, N> {
    ghost use Rattle.session_gate.specs.declared.slot.Custody.{Custody};

    ghost Value = { Custody E F };

    ghost use Rattle.session_gate.specs.Custodies.{IsInOrder};

    ghost view = { λ s. s.state };

    ghost invariant = { λ s. IsInOrder N.hosts N.queues N.gives F.seen s.state };
}

impl<E: Engine, F: Feed, N: Name> Slot<E, F, N> {
    /// The slot of a session that isn't open yet. Takes no memory.
    pub fn new() -> Slot<E, F, N>
        ensures { result ≡ Unopened }
    {
        Slot::of(Custody::Unopened)
    }

    /// A slot with this in it.
    fn of(state: Custody<E, F>) -> Slot<E, F, N>
        requires { IsInOrder N.hosts N.queues N.gives F.seen state }
        ensures { result ≡ state }
    {
        Slot {
            state,
            name: PhantomData,
        }
    }

    /// Takes the session for this host, if it is there and the host owns it. Takes no memory.
    pub fn take(&mut self, host: u32) -> Take<E, F>
        ensures answer { (result, self.new) ≡ took self.old host }
        ensures ours { OnTaken (λ lease. IsAtRest N.hosts N.queues N.gives F.seen lease × (owner_of lease ≡ host)) result }
    {
        match mem::replace(&mut self.state, Custody::Out) {
            Custody::In(resident) => {
                let owner = resident.owner();
                if owner == host {
                    Take::Taken(Lease { resident })
                } else {
                    put(&mut self.state, Custody::In(resident));
                    Take::Elsewhere(owner)
                }
            }
            Custody::Unopened => {
                put(&mut self.state, Custody::Unopened);
                Take::Unopened
            }
            Custody::Out => Take::Out,
            Custody::Sealed(parcel) => {
                let to = parcel.to;
                put(&mut self.state, Custody::Sealed(parcel));
                Take::Sealed(to)
            }
        }
    }

    /// Puts a lease that owes nothing in a free slot.
    fn put_lease(&mut self, lease: Lease<E, F>)
        requires free { IsFree self.old }
        requires ours { IsIn N.hosts N.queues N.gives F.seen lease × OwesNone lease × IsBare lease }
        ensures { self.new ≡ In lease }
    {
        let Lease { resident } = lease;
        put(&mut self.state, Custody::In(resident));
    }

    /// Puts a sealed session in a free slot.
    fn put_parcel(&mut self, parcel: Parcel<E, F>)
        requires free { IsFree self.old }
        requires ours { IsSealedUp N.hosts N.queues N.gives F.seen parcel }
        ensures { self.new ≡ Sealed parcel }
    {
        put(&mut self.state, Custody::Sealed(parcel));
    }

    /// Whether the owner of the session of this number is here, sealed or not.
    pub fn is_of(&self, number: u32) -> bool
        ensures { result ≡ is_of self.now number }
    {
        match &self.state {
            Custody::Unopened | Custody::Out => false,
            Custody::In(resident) => resident.number() == number,
            Custody::Sealed(parcel) => parcel.resident.number() == number,
        }
    }

    /// Whoever is here under this number has the queues that the name lists under it.
    pub(crate) fn has_queues(&self, number: u32)
        ensures { is_of self.now number ≡ true → HasQueues (λ queues. slice_get N.queues number ≡ Some queues) self.now }
    {
        let _ = &self.state;
    }

    /// The owner, with what the pass holds joined into its own; or slot and pass as they were, if no owner is here or it is
    /// sealed. Takes no memory.
    pub fn finish(self, pass: Pass) -> Result<Resident<E, F>, (Slot<E, F, N>, Pass)>
        requires { IsPassHere self pass }
        ensures finishes { Finishes self pass result }
        ensures rest { IfOk result (λ _. HasOwner (IsAtRest N.hosts N.queues N.gives F.seen) self) }
    {
        let Slot { state, name: _ } = self;
        match state {
            Custody::In(resident) => {
                let mut resident = resident;
                resident.join(pass);
                Ok(resident)
            }
            Custody::Unopened => Err((Slot::of(Custody::Unopened), pass)),
            Custody::Out => Err((Slot::of(Custody::Out), pass)),
            Custody::Sealed(parcel) => Err((Slot::of(Custody::Sealed(parcel)), pass)),
        }
    }

    /// Hands a sealed session to the host that it is for, and notes that it came there. Takes no memory.
    pub fn collect(&mut self, host: u32) -> Option<Parcel<E, F>>
        ensures collects { Collects self.old host result self.new }
        ensures ours { IfSome result (λ parcel. IsCollected N.hosts N.queues N.gives F.seen parcel) }
    {
        match mem::replace(&mut self.state, Custody::Out) {
            Custody::Sealed(parcel) => {
                if parcel.to == host {
                    Some(parcel.arrive())
                } else {
                    put(&mut self.state, Custody::Sealed(parcel));
                    None
                }
            }
            Custody::In(resident) => {
                put(&mut self.state, Custody::In(resident));
                None
            }
            Custody::Unopened => {
                put(&mut self.state, Custody::Unopened);
                None
            }
            Custody::Out => None,
        }
    }
}

/// Puts something in a free slot.
fn put<E: Engine, F: Feed>(custody: &mut Custody<E, F>, state: Custody<E, F>)
    requires { IsFree custody.old }
    ensures { custody.new ≡ state }
{
    match mem::replace(custody, state) {
        Custody::Unopened | Custody::Out => (),
        Custody::In(_other) => unreachable!(),
        Custody::Sealed(_other) => unreachable!(),
    }
}

impl<E: Engine + Drop, F: Feed, N: Name> Slot<E, F, N> {
    /// Puts a lease that owes nothing here. An owner of its session never is here. If one of another session is, which it is in no
    /// run, it stays, and the call doesn't return. Takes no memory.
    pub fn give<R: Wait>(&mut self, rt: &R, lease: Lease<E, F>)
        requires { IsIn N.hosts N.queues N.gives F.seen lease × OwesNone lease × IsBare lease }
        ensures free { IsFree self.old }
        ensures here { self.new ≡ In lease }
    {
        let mut lease = lease;
        lease.make_way(rt, self);
        self.put_lease(lease);
    }

    /// Puts a sealed session here, as `give` does a lease. Takes no memory.
    pub fn seal<R: Wait>(&mut self, rt: &R, parcel: Parcel<E, F>)
        requires { IsSealedUp N.hosts N.queues N.gives F.seen parcel }
        ensures free { IsFree self.old }
        ensures here { self.new ≡ Sealed parcel }
    {
        let mut parcel = parcel;
        parcel.make_way(rt, self);
        self.put_parcel(parcel);
    }

    /// Puts the lease of a session that was collected, and then adopted or resumed, here, as `give` does. Takes no memory.
    pub fn settle<R: Wait>(&mut self, rt: &R, lease: Lease<E, F>)
        requires { IsIn N.hosts N.queues N.gives F.seen lease × OwesNone lease × IsBare lease }
        ensures free { IsFree self.old }
        ensures here { self.new ≡ In lease }
    {
        self.give(rt, lease);
    }

    /// Opens a session here, and gives the first pass and the one reader. The queues come back for want of memory alone. An owner of
    /// their session never is here yet. If one of another session is, which it is in no run, it stays, and the call doesn't return.
    pub fn open<R: Wait>(
        &mut self,
        rt: &R,
        alloc: Global,
        queues: Queues,
        number: u32,
        kernel: u128,
        hosts: u32,
        engine: E,
        feed: F,
        host: u32,
        request: Header,
        channel: Channel,
    ) -> Result<(Pass, Reader), Queues>
        requires name { (slice_get N.queues number ≡ Some queues) × (hosts ≡ N.hosts) }
        requires host { host < hosts }
        requires engine { E.stands_for engine [] × (E.host_of engine ≡ host) }
        requires feed { HasAll (F.seen feed) × ((F.seen feed).made ≡ N.gives kernel) }
        ensures free { IsFree self.old }
        ensures opened { MatchResult result
            (λ made. HasOwner (IsNew engine feed queues number kernel hosts host request channel) self.new × (made.0 ≡ first_pass queues (MainItem.Opening kernel host request channel)) × (made.1 ≡ nothing_on queues))
            (λ back. (back ≡ queues) × (self.new ≡ self.old)) }
    {
        let mut queues = queues;
        self.make_way_for(rt, &mut queues, number);
        self.open_free(
            rt, alloc, queues, number, kernel, hosts, engine, feed, host, request, channel,
        )
    }

    /// Opens a session in a free slot.
    fn open_free<R: Wait>(
        &mut self,
        rt: &R,
        alloc: Global,
        queues: Queues,
        number: u32,
        kernel: u128,
        hosts: u32,
        engine: E,
        feed: F,
        host: u32,
        request: Header,
        channel: Channel,
    ) -> Result<(Pass, Reader), Queues>
        requires free { IsFree self.old }
        requires name { (slice_get N.queues number ≡ Some queues) × (hosts ≡ N.hosts) }
        requires host { host < hosts }
        requires engine { E.stands_for engine [] × (E.host_of engine ≡ host) }
        requires feed { HasAll (F.seen feed) × ((F.seen feed).made ≡ N.gives kernel) }
        ensures { MatchResult result
            (λ made. HasOwner (IsNew engine feed queues number kernel hosts host request channel) self.new × (made.0 ≡ first_pass queues (MainItem.Opening kernel host request channel)) × (made.1 ≡ nothing_on queues))
            (λ back. (back ≡ queues) × (self.new ≡ self.old)) }
    {
        match Resident::open(
            rt, alloc, queues, number, kernel, hosts, engine, feed, host, request, channel,
        ) {
            Ok((resident, pass, reader)) => {
                put(&mut self.state, Custody::In(resident));
                Ok((pass, reader))
            }
            Err(queues) => Err(queues),
        }
    }

    /// Makes sure that nobody is here, before this owner, or a parcel with it, is put here. An owner of its session never is. If
    /// one of another session is, which it is in no run, it stays, and the call doesn't return.
    pub(crate) fn make_way<R: Wait>(&mut self, rt: &R, resident: &mut Resident<E, F>)
        requires { IsIn N.hosts N.queues N.gives F.seen resident.old }
        ensures free { IsFree self.new }
        ensures kept { self.new ≡ self.old }
        ensures same { resident.new ≡ resident.old }
        ensures before { is_of self.old resident.old.number ≡ false }
    {
        if let Some(ends) = self.oust(resident.number()) {
            resident.meets(rt, ends);
        }
        self.wait_unless_free(rt);
    }

    /// The same before the session of these queues is opened here.
    fn make_way_for<R: Wait>(&mut self, rt: &R, queues: &mut Queues, number: u32)
        requires { slice_get N.queues number ≡ Some queues.old }
        ensures free { IsFree self.new }
        ensures kept { self.new ≡ self.old }
        ensures same { queues.new ≡ queues.old }
        ensures before { is_of self.old number ≡ false }
    {
        if let Some(ends) = self.oust(number) {
            queues.meets(rt, ends);
        }
        self.wait_unless_free(rt);
    }

    /// Nobody is here once it returns: if somebody is, it doesn't.
    fn wait_unless_free<R: Wait>(&self, rt: &R)
        ensures { IsFree self.now }
    {
        match &self.state {
            Custody::Unopened | Custody::Out => (),
            Custody::In(_) | Custody::Sealed(_) => wait_forever(rt),
        }
    }

    /// The ends of the queues of the owner of the session of this number, which is let go. None if it isn't here, and then
    /// nothing has changed.
    fn oust(&mut self, number: u32) -> Option<Ends>
        ensures { MatchOption result ((is_of self.old number ≡ false) × (self.new ≡ self.old)) (λ ends. slice_get N.queues number ≡ Some ends.queues) }
    {
        if !self.is_of(number) {
            return None;
        }
        match self.clear(number) {
            Some(ends) => Some(ends),
            None => unreachable!(),
        }
    }

    /// Lets whoever is here go. If it was an owner of the session of this number, its ends of the queues come back.
    fn clear(&mut self, number: u32) -> Option<Ends>
        ensures free { IsFree self.new }
        ensures ends { MatchOption result (is_of self.old number ≡ false) (λ ends. slice_get N.queues number ≡ Some ends.queues) }
    {
        match mem::replace(&mut self.state, Custody::Out) {
            Custody::Unopened | Custody::Out => None,
            Custody::In(resident) => own_ends(resident, number),
            Custody::Sealed(parcel) => own_ends(resident_of(parcel), number),
        }
    }

    /// Lets the slot go, with whoever is there.
    pub fn discard(self) {
        let mut slot = self;
        let _ = slot.clear(0);
        let Slot { state, name: _ } = slot;
        match state {
            Custody::Unopened | Custody::Out => (),
            Custody::In(_other) => unreachable!(),
            Custody::Sealed(_other) => unreachable!(),
        }
    }
}

/// Never returns.
fn wait_forever<R: Wait>(rt: &R)
    ensures { ⊥ }
{
    for _ in rt.forever() {
        thread::yield_now();
    }
    unreachable!()
}

/// Lets a Resident go. If it is of the session of this number, its ends of the queues come back.
fn own_ends<E: Engine + Drop, F: Feed>(resident: Resident<E, F>, number: u32) -> Option<Ends>
    ensures { MatchOption result ((resident.number == number) ≡ false) (λ ends. (resident.number ≡ number) × (ends ≡ resident.ends)) }
{
    let own = resident.number();
    if_own(ends_of(resident), own, number)
}

fn if_own(ends: Ends, own: u32, number: u32) -> Option<Ends>
    ensures { MatchOption result ((own == number) ≡ false) (λ e. (own ≡ number) × (e ≡ ends)) }
{
    if own == number { Some(ends) } else { None }
}

/// The ends of the queues of a Resident. The rest is let go.
fn ends_of<E: Engine + Drop, F: Feed>(resident: Resident<E, F>) -> Ends
    ensures { result ≡ resident.ends }
{
    let Resident {
        engine: _,
        feed: _,
        journal: _,
        ends,
        outlet: _,
        number: _,
        kernel: _,
        hosts: _,
        dead: _,
        count: _,
    } = resident;
    ends
}

/// The Resident that was sealed. The pack is let go.
fn resident_of<E: Engine + Drop, F: Feed>(parcel: Parcel<E, F>) -> Resident<E, F>
    ensures { result ≡ parcel.held }
{
    let Parcel {
        resident,
        bytes: _,
        certified: _,
        again: _,
        from: _,
        to: _,
    } = parcel;
    resident
}
