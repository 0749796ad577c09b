ghost use Rattle.std.specs.Prelude.{◌≡◌, ◌≢◌, ◌<◌, ◌≤◌, ◌+◌, [], ◌∷◌, ◌++◌, true, false, None, cond, length, List, IfOk, MatchOption, MatchResult};
ghost use Rattle.session_core.specs.declared.entry.Entry.{Entry};
ghost use Rattle.session_core.specs.Asks.{IsWork, is_move, is_control};
ghost use Rattle.session_core.specs.Engines.{Packs};
ghost use Rattle.session_core.specs.Legal.{progress_of, after, MayCome, IsLegal};
ghost use Rattle.session_core.specs.Stepping.{IsVerdict};
ghost use Rattle.session_queues.specs.Passes.{IsPassOf, KeepsAll};
ghost use Rattle.session_queues.specs.Ends.{FoundNothing, looked_at_both, TookRequest, gathered, admitted_main, admitted_control, all_of, GoesOn};
ghost use Rattle.session_gate.specs.Facts.{OwesNone, Owes, IsSettled, IsWhole, HasSame, HasNoted, owner_of};
ghost use Rattle.session_gate.specs.Slots.{IsQuiet, IsStill, IsServed};

use crate::served::ServedAs;
use graph_model::Weights;
use nb_outside::Feed;
use session_core::steps::{answer_dead, serve};
use session_core::{Engine, Entry, Journal, PackFault, Packed, Request, Verdict, judge};
use session_queues::{Ends, Outlet, Pass, Reader};
use std::alloc::{AllocError, Global};
use std::marker::Model;
use std::sync::Wait;

/// The one owner of a session: its engine, its feed, its journal and its ends of the queues. It can't be copied or let
/// go unnoticed.
pub struct Resident<E: Engine, F: Feed> {
    pub(crate) engine: E,
    pub(crate) feed: F,
    pub(crate) journal: Journal,
    pub(crate) ends: Ends,
    pub(crate) outlet: Outlet,
    pub(crate) number: u32,
    pub(crate) kernel: u128,
    pub(crate) hosts: u32,
    pub(crate) dead: bool,
    /// The count of what was served, once the session is dead.
    pub(crate) count: u32,
}

impl<E: Engine, F: Feed> Model for Resident<E, F> {
    ghost use Rattle.session_gate.specs.Facts.{Holds, IsResident};

    ghost Value = { Holds E F };

    ghost view = { λ r. record { engine = r.engine; feed = r.feed; entries = r.journal.entries; spare = r.journal.spare; ends = r.ends; out = r.outlet; number = r.number; kernel = r.kernel; hosts = r.hosts } };

    ghost invariant = { λ r. IsResident E.meaning (E.stands_for r.engine) (E.host_of r.engine) (F.seen r.feed) r.hosts r.dead r.count r.kernel r.journal.entries r.ends r.outlet };
}

impl<E: Engine, F: Feed> Resident<E, F> {
    /// The host that owns the session.
    pub(crate) fn owner(&self) -> u32
        requires { IsSettled self.now }
        ensures { result ≡ owner_of self.now }
    {
        self.journal.owner().unwrap()
    }

    /// The number of its session.
    pub fn number(&self) -> u32
        ensures { result ≡ self.now.number }
    {
        self.number
    }

    /// The kernel of its session.
    pub(crate) fn kernel(&self) -> u128
        ensures { result ≡ self.now.kernel }
    {
        self.kernel
    }

    /// The number of hosts.
    pub(crate) fn hosts(&self) -> u32
        ensures { result ≡ self.now.hosts }
    {
        self.hosts
    }

    /// Whether the session is dead.
    pub(crate) fn is_dead(&self) -> bool
        ensures { result ≡ (progress_of self.now.entries).dead }
    {
        self.dead
    }

    /// Its journal is legal.
    pub(crate) fn is_legal(&self)
        ensures { IsLegal E.meaning self.now.hosts self.now.entries }
    {
        let _ = &self.journal;
    }

    /// While the session is alive its engine stands for what was served.
    pub(crate) fn stands(&self)
        ensures { (progress_of self.now.entries).dead ≡ false → E.stands_for self.now.engine (progress_of self.now.entries).served }
    {
        let _ = &self.dead;
    }

    /// What is to be done about a request to move.
    pub(crate) fn judge(&self, alloc: Global, request: &Request) -> Verdict
        requires settled { IsSettled self.now }
        requires asked { is_move request.now.ask ≡ true }
        ensures { IsVerdict E.meaning self.now.hosts (progress_of self.now.entries) request.now result }
    {
        judge(
            alloc,
            &self.engine,
            &self.journal,
            self.hosts,
            self.dead,
            request,
        )
    }

    /// A pack of the engine under these weights, or why there is none.
    pub(crate) fn pack(&self, alloc: Global, weights: &Weights) -> Result<Packed, PackFault>
        requires { (progress_of self.now.entries).dead ≡ false }
        ensures { Packs E.meaning (progress_of self.now.entries).served weights.now result }
    {
        let _ = &self.dead;
        self.engine.pack(alloc, weights)
    }

    /// Makes room for `more` further entries, and never leaves less room.
    pub(crate) fn reserve(&mut self, more: u32) -> Result<(), AllocError>
        ensures same { (self.new.engine ≡ self.old.engine) × (self.new.feed ≡ self.old.feed) × (self.new.entries ≡ self.old.entries) × HasSame self.old self.new }
        ensures kept { self.old.spare ≤ self.new.spare }
        ensures spare { IfOk result (λ _. more ≤ self.new.spare) }
    {
        self.journal.reserve(more)
    }

    /// The front of the control queue, or else of the main queue, which is then owed. None if each was found empty.
    pub(crate) fn pop<R: Wait>(&mut self, rt: &R) -> Option<Request>
        requires { OwesNone self.old }
        ensures same { (self.new.engine ≡ self.old.engine) × (self.new.feed ≡ self.old.feed) × (self.new.entries ≡ self.old.entries) × (self.new.spare ≡ self.old.spare)
            × (self.new.out ≡ self.old.out) × (self.new.number ≡ self.old.number) × (self.new.hosts ≡ self.old.hosts) × (self.new.kernel ≡ self.old.kernel) }
        ensures popped { MatchOption result ((self.new.ends ≡ looked_at_both self.old.ends) × FoundNothing self.old.ends) (λ request. TookRequest self.old.ends request self.new.ends × Owes self.new request) }
    {
        self.ends.pop(rt)
    }

    /// Puts an entry at the journal's end that may come there. It changes neither what was served, nor whether the session is
    /// dead, nor the owner.
    pub(crate) fn note(&mut self, entry: Entry)
        requires spare { 1 ≤ self.old.spare }
        requires may { MayCome E.meaning self.old.hosts (progress_of self.old.entries) entry }
        requires quiet { IsQuiet (progress_of self.old.entries) entry }
        requires owes { OwesNone (record self.old { entries = self.old.entries ++ entry ∷ [] }) }
        ensures noted { HasNoted self.old self.new entry }
        ensures owes { OwesNone self.new }
    {
        self.journal.push(entry);
    }

    /// Answers the owed request, which is no move.
    pub(crate) fn serve(&mut self, alloc: Global, request: Request) -> ServedAs
        requires owes { Owes self.old request }
        requires work { IsWork request.ask }
        requires spare { 1 ≤ self.old.spare }
        requires settled { IsSettled self.old }
        ensures owes { OwesNone self.new }
        ensures settled { IsSettled self.new }
        ensures same { HasSame self.old self.new × (self.old.spare ≡ self.new.spare + 1) }
        ensures made { (F.seen self.new.feed).made ≡ (F.seen self.old.feed).made }
        ensures entry { (entry : Entry) × (self.new.entries ≡ self.old.entries ++ entry ∷ []) × IsServed result (owner_of self.old) request (progress_of self.old.entries).dead entry }
    {
        if self.dead {
            answer_dead(&self.engine, &mut self.journal, self.count, request);
            return ServedAs::Dead;
        }
        let before = self.engine.count();
        let is_end = request.ask.is_end();
        if !serve(
            alloc,
            &mut self.journal,
            &mut self.engine,
            &mut self.feed,
            request,
        ) {
            self.dead = true;
            self.count = before;
            return ServedAs::Died;
        }
        self.count = self.engine.count();
        self.dead = is_end;
        ServedAs::Ran
    }

    /// Notes that the session goes on with another engine, which stands for what was served, on the host of the entry.
    pub(crate) fn adopt(&mut self, engine: E, entry: Entry)
    where
        E: Drop,
        requires spare { 1 ≤ self.old.spare }
        requires may { MayCome E.meaning self.old.hosts (progress_of self.old.entries) entry }
        requires still { IsStill (progress_of self.old.entries) entry }
        requires owes { OwesNone (record self.old { entries = self.old.entries ++ entry ∷ [] }) }
        requires stands { E.stands_for engine (progress_of self.old.entries).served × (E.host_of engine ≡ (after (progress_of self.old.entries) entry).owner) }
        ensures engine { self.new.engine ≡ engine }
        ensures noted { (self.new.feed ≡ self.old.feed) × (self.new.entries ≡ self.old.entries ++ entry ∷ []) × (self.old.spare ≡ self.new.spare + 1) × HasSame self.old self.new }
        ensures owes { OwesNone self.new }
    {
        self.engine = engine;
        self.journal.push(entry);
    }

    /// Pushes on out, in order, a copy of each entry that was not pushed yet; nothing once the reader is closed. After an error
    /// perhaps some more of them, in order, were pushed.
    pub(crate) fn publish<R: Wait>(&mut self, rt: &R, alloc: Global) -> Result<(), AllocError>
        ensures same { self.new ≡ record self.old { out = self.new.out } }
        ensures all { IfOk result (λ _. self.new.out ≡ record self.old.out { pushed = all_of self.old.out.pushed self.old.entries }) }
        ensures goes_on { GoesOn self.old.out.pushed self.new.out.pushed }
    {
        self.outlet
            .publish_all(rt, alloc, self.ends.shared(), self.journal.entries())
    }

    /// Closes the reader, and says how many entries it took. These are the journal's first.
    pub(crate) fn close_reader<R: Wait>(&mut self, rt: &R, reader: Reader) -> u32
        requires { reader.out_queue ≡ self.old.ends.queues.out }
        ensures closed { self.new ≡ record self.old { out = record self.old.out { pushed = None } } }
        ensures count { result ≡ length reader.entries }
        ensures first { (rest : List Entry) × (self.old.entries ≡ reader.entries ++ rest) }
    {
        self.outlet.close(rt, self.ends.shared(), reader)
    }

    /// Two owners of one session never meet.
    pub(crate) fn meets<R: Wait>(&mut self, rt: &R, other: Ends)
        requires { other.queues ≡ self.old.ends.queues }
        ensures { ⊥ }
    {
        self.ends.meets(rt, other);
    }

    /// Takes in what a producer's pass holds.
    pub(crate) fn join(&mut self, pass: Pass)
        requires { IsPassOf self.old.ends.queues pass }
        ensures { self.new ≡ record self.old { ends = gathered self.old.ends pass } }
    {
        self.ends.join(pass);
    }

    /// Pushes a request on its queue. All passes have to be joined before. The request comes back for want of memory alone.
    pub(crate) fn admit<R: Wait>(&mut self, rt: &R, request: Request) -> Result<(), Request>
        requires whole { IsWhole self.old }
        requires given { request.frontend < self.old.ends.main.given }
        ensures { MatchResult result
            (λ _. self.new ≡ record self.old { ends = cond (is_control request) (admitted_control self.old.ends request) (admitted_main self.old.ends request) })
            (λ r. (r ≡ request) × (self.new ≡ self.old)) }
    {
        self.ends.admit(rt, request)
    }
}
