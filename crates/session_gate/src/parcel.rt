ghost use Rattle.std.specs.Prelude.{◌≡◌, ◌≤◌, ◌+◌, [], ◌∷◌, ◌++◌, false, IfOk};
ghost use Rattle.session_core.specs.declared.entry.Entry.{Entry};
ghost use Rattle.session_core.specs.Legal.{progress_of, sealed, arriving, IsLegal};
ghost use Rattle.session_gate.specs.Facts.{OwesNone, IsIn, HasSame, HasNoted, owner_of};
ghost use Rattle.session_gate.specs.Custodies.{is_of, IsFree};

use crate::lease::Lease;
use crate::resident::Resident;
use crate::slot::{Name, Slot};
use graph_model::Certified;
use nb_outside::Feed;
use plain_data::Items;
use session_core::{Engine, Entry, Request};
use std::alloc::{AllocError, Global};
use std::marker::Model;
use std::sync::Wait;

/// A session that is sealed for another host: its Resident, with the old engine, and the pack.
pub struct Parcel<E: Engine, F: Feed> {
    pub(crate) resident: Resident<E, F>,
    pub(crate) bytes: Items<u8>,
    pub(crate) certified: Certified,
    /// The second copy of the request.
    pub(crate) again: Request,
    pub(crate) from: u32,
    pub(crate) to: u32,
}

impl<E: Engine, F: Feed> Model for Parcel<E, F> {
    ghost use Rattle.session_gate.specs.Facts.{Away, IsParcel};

    ghost Value = { Away E F };

    ghost view = { λ p. record { held = p.resident; bytes = p.bytes; certified = p.certified; again = p.again; from = p.from; to = p.to } };

    ghost invariant = { λ p. IsParcel E.meaning (record { held = p.resident; bytes = p.bytes; certified = p.certified; again = p.again; from = p.from; to = p.to }) };
}

impl<E: Engine, F: Feed> Parcel<E, F> {
    /// The packed bytes.
    pub fn bytes(&self) -> &[u8]
        ensures { result.now ≡ self.now.bytes }
    {
        self.bytes.as_slice()
    }

    /// The new host.
    pub fn to(&self) -> u32
        ensures { result ≡ self.now.to }
    {
        self.to
    }

    /// Its journal is legal.
    pub fn is_legal(&self)
        ensures { IsLegal E.meaning self.now.held.hosts self.now.held.entries }
    {
        self.resident.is_legal();
    }

    /// Notes that the parcel came to its host.
    pub fn arrive(self) -> Parcel<E, F>
        requires { (progress_of self.held.entries).phase ≡ sealed self.again self.to }
        ensures noted { HasNoted self.held result.held (Entry.Moved self.to) }
        ensures kept { result ≡ record self { held = result.held } }
    {
        let Parcel {
            resident,
            bytes,
            certified,
            again,
            from,
            to,
        } = self;
        let mut resident = resident;
        resident.note(Entry::Moved { to });
        Parcel {
            resident,
            bytes,
            certified,
            again,
            from,
            to,
        }
    }

    /// What the bytes restore on the new host, and how many objects it has: an engine with which the session may go on.
    pub fn unpack(&self, alloc: Global) -> Result<(E, u32), AllocError>
        ensures image { IfOk result (λ made. E.is_image made.0 self.now.bytes self.now.to) }
        ensures host { IfOk result (λ made. E.host_of made.0 ≡ self.now.to) }
        ensures stands { IfOk result (λ made. E.stands_for made.0 (progress_of self.now.held.entries).served) }
        ensures objects { IfOk result (λ made. E.meaning.HasObjects (progress_of self.now.held.entries).served made.1) }
    {
        self.resident.stands();
        E::unpack(alloc, self.bytes.as_slice(), self.to)
    }

    /// Goes on with the old engine, on the old host.
    pub fn resume(self) -> Lease<E, F>
        requires { (progress_of self.held.entries).phase ≡ arriving self.again self.to }
        ensures noted { HasNoted self.held result (Entry.Resumed self.from self.again) }
        ensures owner { owner_of result ≡ self.from }
        ensures owes { OwesNone result }
    {
        let Parcel {
            resident,
            bytes: _,
            certified: _,
            again,
            from,
            to: _,
        } = self;
        let mut resident = resident;
        resident.note(Entry::Resumed {
            host: from,
            request: again,
        });
        Lease { resident }
    }

    /// Goes on with the engine that the bytes restore on the new host. The old one is let go.
    pub fn adopt(self, engine: E, objects: u32) -> Lease<E, F>
    where
        E: Drop,
        requires arriving { (progress_of self.held.entries).phase ≡ arriving self.again self.to }
        requires image { E.is_image engine self.bytes self.to }
        requires host { E.host_of engine ≡ self.to }
        requires stands { E.stands_for engine (progress_of self.held.entries).served }
        requires objects { E.meaning.HasObjects (progress_of self.held.entries).served objects }
        ensures engine { result.engine ≡ engine }
        ensures entries { result.entries ≡ self.held.entries ++ Entry.Adopted self.from self.to self.again self.certified objects ∷ [] }
        ensures owner { owner_of result ≡ self.to }
        ensures same { HasSame self.held result × (result.feed ≡ self.held.feed) × (self.held.spare ≡ result.spare + 1) }
        ensures owes { OwesNone result }
    {
        let Parcel {
            resident,
            bytes: _,
            certified,
            again,
            from,
            to,
        } = self;
        let mut resident = resident;
        let entry = Entry::Adopted {
            from,
            to,
            request: again,
            certified,
            objects,
        };
        resident.adopt(engine, entry);
        Lease { resident }
    }
}

impl<E: Engine + Drop, F: Feed> Parcel<E, F> {
    /// Makes sure that a slot is free, before the parcel is put there. An owner of the parcel's session is never in it. If one of
    /// another session is, which it is in no run, it stays there, and the call doesn't return.
    pub(crate) fn make_way<N: Name, R: Wait>(&mut self, rt: &R, slot: &mut Slot<E, F, N>)
        requires { IsIn N.hosts N.queues N.gives F.seen self.old.held }
        ensures free { IsFree slot.new }
        ensures kept { slot.new ≡ slot.old }
        ensures same { self.new ≡ self.old }
        ensures before { is_of slot.old self.old.held.number ≡ false }
    {
        slot.make_way(rt, &mut self.resident);
    }
}
