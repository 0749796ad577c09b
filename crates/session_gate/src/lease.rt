ghost use Rattle.std.specs.Prelude.{◌≡◌, ◌≢◌, ◌<◌, ◌≤◌, ◌+◌, [], ◌∷◌, ◌++◌, None, false, cond, length, List, IfOk, MatchOption, MatchResult, true};
ghost use Rattle.session_core.specs.declared.entry.Entry.{Entry};
ghost use Rattle.session_core.specs.Asks.{IsWork, IsMove, is_move, is_control};
ghost use Rattle.session_core.specs.Engines.{Packs};
ghost use Rattle.session_core.specs.Legal.{progress_of, sealed, IsLegal, IsReason, MayTry};
ghost use Rattle.session_core.specs.Stepping.{GoesBy, IsVerdict};
ghost use Rattle.session_core.specs.Feeding.{HasFed};
ghost use Rattle.session_queues.specs.Passes.{IsPassOf};
ghost use Rattle.session_queues.specs.Ends.{FoundNothing, HasWaiting, looked_at_both, TookRequest, admitted_main, admitted_control, gathered, all_of, GoesOn};
ghost use Rattle.session_gate.specs.Facts.{OwesNone, Owes, IsSettled, IsWhole, IsIn, HasSame, HasNoted, owner_of};
ghost use Rattle.session_gate.specs.Slots.{IsServed};
ghost use Rattle.session_gate.specs.Custodies.{is_of, IsFree};

use crate::parcel::Parcel;
use crate::resident::Resident;
use crate::served::ServedAs;
use crate::slot::{Name, Slot};
use graph_model::Weights;
use nb_outside::Feed;
use session_core::{
    Alone, Engine, Entry, Journal, MoveRefusal, PackFault, Packed, Request, Verdict,
};
use session_queues::{Pass, Reader};
use std::alloc::{AllocError, Global};
use std::marker::Model;
use std::sync::Wait;

/// A Resident that is out with its owner.
pub struct Lease<E: Engine, F: Feed> {
    pub(crate) resident: Resident<E, F>,
}

impl<E: Engine, F: Feed> Model for Lease<E, F> {
    ghost use Rattle.session_gate.specs.Facts.{Holds, IsSettled};

    ghost Value = { Holds E F };

    ghost view = { λ l. l.resident };

    ghost invariant = { λ l. IsSettled l.resident };
}

impl<E: Engine, F: Feed> Resident<E, F> {
    /// The Resident, out with its owner.
    pub fn work(self) -> Lease<E, F>
        requires { IsSettled self }
        ensures { result ≡ self }
    {
        Lease { resident: self }
    }
}

impl<E: Engine, F: Feed> Lease<E, F> {
    /// The host that owns the session.
    pub fn host(&self) -> u32
        ensures { result ≡ owner_of self.now }
    {
        self.resident.owner()
    }

    /// The number of its session.
    pub fn number(&self) -> u32
        ensures { result ≡ self.now.number }
    {
        self.resident.number()
    }

    /// The kernel of its session.
    pub fn kernel(&self) -> u128
        ensures { result ≡ self.now.kernel }
    {
        self.resident.kernel()
    }

    /// The number of hosts.
    pub fn hosts(&self) -> u32
        ensures { result ≡ self.now.hosts }
    {
        self.resident.hosts()
    }

    /// The journal.
    pub fn journal(&self) -> &Journal
        ensures entries { result.now.entries ≡ self.now.entries }
        ensures spare { result.now.spare ≡ self.now.spare }
    {
        &self.resident.journal
    }

    /// The engine.
    pub fn engine(&self) -> &E
        ensures { result.now ≡ self.now.engine }
    {
        &self.resident.engine
    }

    /// Whether the session is dead.
    pub fn is_dead(&self) -> bool
        ensures { result ≡ (progress_of self.now.entries).dead }
    {
        self.resident.is_dead()
    }

    /// Its journal is legal and settled.
    pub fn is_legal(&self)
        ensures legal { IsLegal E.meaning self.now.hosts self.now.entries }
        ensures settled { IsSettled self.now }
    {
        self.resident.is_legal();
    }

    /// What is to be done about a request to move.
    pub fn judge(&self, alloc: Global, request: &Request) -> Verdict
        requires { is_move request.now.ask ≡ true }
        ensures { IsVerdict E.meaning self.now.hosts (progress_of self.now.entries) request.now result }
    {
        self.resident.judge(alloc, request)
    }

    /// A pack of the engine under these weights, or why there is none.
    pub fn pack(&self, alloc: Global, weights: &Weights) -> Result<Packed, PackFault>
        requires { (progress_of self.now.entries).dead ≡ false }
        ensures { Packs E.meaning (progress_of self.now.entries).served weights.now result }
    {
        self.resident.pack(alloc, weights)
    }

    /// Makes room for `more` further entries. There is never room for fewer than before, and the entries are as before.
    pub fn reserve(&mut self, more: u32) -> Result<(), AllocError>
        ensures same { (self.new.engine ≡ self.old.engine) × (self.new.feed ≡ self.old.feed) × (self.new.entries ≡ self.old.entries) × HasSame self.old self.new }
        ensures kept { self.old.spare ≤ self.new.spare }
        ensures spare { IfOk result (λ _. more ≤ self.new.spare) }
    {
        self.resident.reserve(more)
    }

    /// The control queue's front, or else the main queue's, which the lease then owes. None if each of the two was found empty
    /// at a step of this call. Each that was found empty counts one empty look more. Takes no memory.
    pub fn pop<R: Wait>(&mut self, rt: &R) -> Option<Request>
        requires owes { OwesNone self.old }
        requires spare { 3 ≤ self.old.spare }
        ensures same { (self.new.engine ≡ self.old.engine) × (self.new.feed ≡ self.old.feed) × (self.new.entries ≡ self.old.entries) × (self.new.spare ≡ self.old.spare)
            × (self.new.out ≡ self.old.out) × (self.new.number ≡ self.old.number) × (self.new.hosts ≡ self.old.hosts) × (self.new.kernel ≡ self.old.kernel) }
        ensures popped { MatchOption result ((self.new.ends ≡ looked_at_both self.old.ends) × FoundNothing self.old.ends) (λ request. TookRequest self.old.ends request self.new.ends × Owes self.new request) }
    {
        self.resident.pop(rt)
    }

    /// Answers the owed request, which is no move: it ran, the session died of it, or was dead.
    pub fn serve(&mut self, alloc: Global, request: Request) -> ServedAs
        requires owes { Owes self.old request }
        requires work { IsWork request.ask }
        requires spare { 1 ≤ self.old.spare }
        ensures owes { OwesNone self.new }
        ensures same { HasSame self.old self.new × (self.old.spare ≡ self.new.spare + 1) }
        ensures made { (F.seen self.new.feed).made ≡ (F.seen self.old.feed).made }
        ensures entry { (entry : Entry) × (self.new.entries ≡ self.old.entries ++ entry ∷ []) × IsServed result (owner_of self.old) request (progress_of self.old.entries).dead entry }
    {
        self.resident.serve(alloc, request)
    }

    /// Pushes a request on its queue. The lease has to be whole. The request comes back for want of memory alone.
    pub fn admit<R: Wait>(&mut self, rt: &R, request: Request) -> Result<(), Request>
        requires whole { IsWhole self.old }
        requires given { request.frontend < self.old.ends.main.given }
        ensures { MatchResult result
            (λ _. self.new ≡ record self.old { ends = cond (is_control request) (admitted_control self.old.ends request) (admitted_main self.old.ends request) })
            (λ r. (r ≡ request) × (self.new ≡ self.old)) }
    {
        self.resident.admit(rt, request)
    }

    /// Pushes on out, in order, a copy of each entry of the journal that was not pushed yet; nothing once the reader is closed.
    /// After an error perhaps some more of them, in order, were pushed.
    pub fn publish<R: Wait>(&mut self, rt: &R, alloc: Global) -> Result<(), AllocError>
        ensures same { self.new ≡ record self.old { out = self.new.out } }
        ensures all { IfOk result (λ _. self.new.out ≡ record self.old.out { pushed = all_of self.old.out.pushed self.old.entries }) }
        ensures goes_on { GoesOn self.old.out.pushed self.new.out.pushed }
    {
        self.resident.publish(rt, alloc)
    }

    /// Closes the reader, and says how many entries it took. These are the journal's first. What is still queued for
    /// it is dropped.
    pub fn close_reader<R: Wait>(&mut self, rt: &R, reader: Reader) -> u32
        requires { reader.out_queue ≡ self.old.ends.queues.out }
        ensures closed { self.new ≡ record self.old { out = record self.old.out { pushed = None } } }
        ensures count { result ≡ length reader.entries }
        ensures first { (rest : List Entry) × (self.old.entries ≡ reader.entries ++ rest) }
    {
        self.resident.close_reader(rt, reader)
    }

    /// Notes that the owed request to move is refused, and why.
    pub fn refuse(self, request: Request, reason: MoveRefusal) -> Lease<E, F>
        requires owes { Owes self request }
        requires spare { 1 ≤ self.spare }
        requires reason { IsMove (λ to weights. IsReason E.meaning self.hosts (progress_of self.entries) to weights reason) request.ask }
        ensures noted { HasNoted self result (Entry.Refused (owner_of self) request reason) }
        ensures owes { OwesNone result }
    {
        let Lease { resident } = self;
        let mut resident = resident;
        let host = resident.owner();
        resident.note(Entry::Refused {
            host,
            request,
            reason,
        });
        Lease { resident }
    }

    /// Notes that the session stays for want of memory. No reason against the owed move holds, but perhaps the last.
    pub fn resume(self, request: Request) -> Lease<E, F>
        requires owes { Owes self request }
        requires spare { 1 ≤ self.spare }
        requires may { IsMove (MayTry E.meaning self.hosts (progress_of self.entries)) request.ask }
        ensures noted { HasNoted self result (Entry.Resumed (owner_of self) request) }
        ensures owes { OwesNone result }
    {
        let Lease { resident } = self;
        let mut resident = resident;
        let host = resident.owner();
        resident.note(Entry::Resumed { host, request });
        Lease { resident }
    }

    /// Seals the session for the host that the owed request asks for, with a pack of its engine.
    pub fn depart(self, request: Request, again: Request, to: u32, packed: Packed) -> Parcel<E, F>
        requires owes { Owes self request }
        requires spare { 3 ≤ self.spare }
        requires again { again ≡ request }
        requires packed { GoesBy E.meaning self.hosts (progress_of self.entries) packed to request.ask }
        ensures noted { HasNoted self result.held (Entry.Sealed (owner_of self) request to) }
        ensures to { result.to ≡ to }
        ensures sealed { (progress_of result.held.entries).phase ≡ sealed again to }
        ensures from { result.from ≡ owner_of self }
        ensures kept { (result.bytes ≡ packed.bytes) × (result.certified ≡ packed.certified) × (result.again ≡ again) }
        ensures owes { OwesNone result.held }
    {
        let Lease { resident } = self;
        let mut resident = resident;
        let host = resident.owner();
        let Packed { bytes, certified } = packed;
        resident.note(Entry::Sealed { host, request, to });
        Parcel {
            resident,
            bytes,
            certified,
            again,
            from: host,
            to,
        }
    }

    /// The journal alone. The engine is let go.
    pub fn into_journal(self) -> Journal
    where
        E: Drop,
        requires owes { OwesNone self }
        ensures entries { result.entries ≡ self.entries }
        ensures legal { IsLegal E.meaning self.hosts self.entries }
    {
        let Lease { resident } = self;
        let Resident {
            engine: _,
            feed: _,
            journal,
            ends: _,
            outlet: _,
            number: _,
            kernel: _,
            hosts: _,
            dead: _,
            count: _,
        } = resident;
        journal
    }

    /// Lets the session go, with all that waits for it. Its journal is legal. Just what that says was taken from the feed since it was
    /// made, and after it what was drawn for a request of which the session died for want of memory. What was popped is the front
    /// of each producer's list that the lease has. Takes no memory.
    pub fn let_go<R: Wait>(self, rt: &R)
    where
        E: Drop,
        requires owes { OwesNone self }
        ensures legal { IsLegal E.meaning self.hosts self.entries }
        ensures fed { HasFed (F.seen self.feed).made self.entries (F.seen self.feed) }
        ensures waits { HasWaiting self.ends }
    {
        let Lease { resident } = self;
        let Resident {
            engine: _,
            feed: _,
            journal: _,
            ends,
            outlet: _,
            number: _,
            kernel: _,
            hosts: _,
            dead: _,
            count: _,
        } = resident;
        ends.let_go(rt);
    }

    /// The session on one thread, settled between two requests, and its feed. Just what the journal says was taken from the feed
    /// since it was made, and after it what was drawn for a request of which the session died for want of memory.
    pub fn into_alone(self) -> (Alone<E>, F)
    where
        E: Drop,
        requires owes { OwesNone self }
        ensures alone { (result.0.entries ≡ self.entries) × (result.0.hosts ≡ self.hosts) × (result.0.spare ≡ self.spare) }
        ensures feed { result.1 ≡ self.feed }
        ensures fed { HasFed (F.seen self.feed).made self.entries (F.seen self.feed) }
    {
        let Lease { resident } = self;
        let Resident {
            engine,
            feed,
            journal,
            ends: _,
            outlet: _,
            number: _,
            kernel: _,
            hosts,
            dead,
            count,
        } = resident;
        (Alone::of(engine, journal, hosts, dead, count), feed)
    }
}

impl<E: Engine + Drop, F: Feed> Lease<E, F> {
    /// Makes sure that a slot is free, before the lease is put there. An owner of the lease's session is never in it. If one of
    /// another session is, which it is in no run, it stays there, and the call doesn't return.
    pub(crate) fn make_way<N: Name, R: Wait>(&mut self, rt: &R, slot: &mut Slot<E, F, N>)
        requires { IsIn N.hosts N.queues N.gives F.seen self.old }
        ensures free { IsFree slot.new }
        ensures kept { slot.new ≡ slot.old }
        ensures same { self.new ≡ self.old }
        ensures before { is_of slot.old self.old.number ≡ false }
    {
        slot.make_way(rt, &mut self.resident);
    }

    /// Takes in what a producer's pass holds.
    pub(crate) fn join(&mut self, pass: Pass)
        requires { IsPassOf self.old.ends.queues pass }
        ensures { self.new ≡ record self.old { ends = gathered self.old.ends pass } }
    {
        self.resident.join(pass);
    }
}
