//! A link is heard and told while the workers of its sessions run.

ghost use Rattle.std.specs.Prelude.{◌≡◌, ◌<◌, false, Some, length, is_ok, IfOk, OnOk, MatchResult};
ghost use Rattle.jupyter_frames.specs.Framing.{IsBegun};
ghost use Rattle.node_intake.specs.Taking.{EndsSo, EndsOrGoesOn};
ghost use Rattle.node_serve.specs.Sent.{wire, left_of};
ghost use Rattle.node_serve.specs.Service.{Serves, IsEnd};
ghost use Rattle.node_serve.specs.Hearing.{end_in, Heeds, HeedsFront};

use crate::bell::Bell;
use crate::telling::{next_frames, tell, tell_error};
use jupyter_frames::Framer;
use nb_links::{Link, Polled};
use nb_outside::Feeds;
use node_intake::{Desk, Intake, IntakeEnd, read_room, take_frames};
use node_run::AdmissionDesk;
use plain_data::Items;
use session_core::Engine;
use session_gate::Name;
use std::alloc::{AllocError, Global};
use std::sync::Wait;
use std::thread::Threads;
use std::time::Clock;

/// For how many milliseconds a poll waits while no session has unanswered requests.
const IDLE: u32 = 1_000;

/// For how many milliseconds the link isn't polled, at most, while sessions work.
const BUSY: u32 = 5;

/// What a link says.
pub(crate) enum Heard {
    /// Bytes came.
    More,
    /// Nothing is ready.
    NotYet,
    /// Nothing more is taken in.
    Ended(IntakeEnd),
}

/// What was taken in of a link, and what it was told of that.
#[derive(Drop)]
pub(crate) struct Service<'a, E: Engine, Q: Feeds, N: Name, R> {
    pub(crate) framer: Framer,
    pub(crate) node: Intake<AdmissionDesk<'a, E, Q, N, R>>,
    /// How many of the errors were told.
    pub(crate) told: usize,
    /// How many entries were told that answer something.
    pub(crate) answered: u64,
}

/// How many entries were told that answer something, once one with these frames was told.
fn answered_after(answered: u64, frames: &Items<u8>) -> u64 {
    if frames.is_empty() {
        return answered;
    }
    answered.saturating_add(1)
}

impl<'a, E: Engine + Drop, Q: Feeds, N: Name, R: Wait> Service<'a, E, Q, N, R> {
    /// Tells the next entry of the session at that index. Whether one was there.
    fn tell_next<L: Link>(
        &mut self,
        alloc: Global,
        link: &mut L,
        is_cut: &mut bool,
        at: usize,
    ) -> Result<bool, AllocError>
        requires at { at < length self.old.node.desk }
        ensures count { OnOk result (length self.new.node.desk ≡ length self.old.node.desk) }
        ensures serves { Serves (is_ok result) N.hosts N.queues (wire (L.line link.old) (L.faults link.old) is_cut.old) (wire (L.line link.new) (L.faults link.new) is_cut.new) self.old.framer self.old.node self.old.told self.new.framer self.new.node self.new.told }
        ensures held { OnOk result (self.new.framer ≡ self.old.framer) }
    {
        match next_frames(alloc, &mut self.node.desk, at) {
            Ok(Some(frames)) => match tell(link, is_cut, frames.as_slice()) {
                Ok(()) => {
                    self.answered = answered_after(self.answered, &frames);
                    Ok(true)
                }
                Err(error) => Err(error),
            },
            Ok(None) => Ok(false),
            Err(error) => Err(error),
        }
    }

    /// Tells the next error. Whether one was left.
    fn tell_one_error<L: Link>(
        &mut self,
        alloc: Global,
        link: &mut L,
        is_cut: &mut bool,
    ) -> Result<bool, AllocError>
        ensures serves { Serves (is_ok result) N.hosts N.queues (wire (L.line link.old) (L.faults link.old) is_cut.old) (wire (L.line link.new) (L.faults link.new) is_cut.new) self.old.framer self.old.node self.old.told self.new.framer self.new.node self.new.told }
        ensures held { OnOk result (self.new.framer ≡ self.old.framer) }
    {
        let errors = self.node.errors.as_slice();
        let at = self.told;
        if errors.len() <= at {
            return Ok(false);
        }
        let error = &errors[at];
        match tell_error(alloc, link, is_cut, at as u64 + 1, error) {
            Ok(()) => {
                self.told += 1;
                Ok(true)
            }
            Err(error) => Err(error),
        }
    }

    /// Tells the next error and the next entry of each session. Whether there was one.
    fn tell_ready<L: Link>(
        &mut self,
        alloc: Global,
        link: &mut L,
        is_cut: &mut bool,
    ) -> Result<bool, AllocError>
        ensures serves { Serves (is_ok result) N.hosts N.queues (wire (L.line link.old) (L.faults link.old) is_cut.old) (wire (L.line link.new) (L.faults link.new) is_cut.new) self.old.framer self.old.node self.old.told self.new.framer self.new.node self.new.told }
        ensures held { OnOk result (self.new.framer ≡ self.old.framer) }
    {
        match self.tell_one_error(alloc, link, is_cut) {
            Ok(has_told) => self.tell_sessions(alloc, link, is_cut, has_told),
            Err(error) => Err(error),
        }
    }

    /// Tells the next entry of each session. Whether there was one, or something was told before.
    fn tell_sessions<L: Link>(
        &mut self,
        alloc: Global,
        link: &mut L,
        is_cut: &mut bool,
        has_told: bool,
    ) -> Result<bool, AllocError>
        ensures serves { Serves (is_ok result) N.hosts N.queues (wire (L.line link.old) (L.faults link.old) is_cut.old) (wire (L.line link.new) (L.faults link.new) is_cut.new) self.old.framer self.old.node self.old.told self.new.framer self.new.node self.new.told }
        ensures held { OnOk result (self.new.framer ≡ self.old.framer) }
    {
        let mut has_told = has_told;
        for at in 0..self.node.desk.sessions() {
            match self.tell_next(alloc, link, is_cut, at) {
                Ok(told) => has_told = has_told || told,
                Err(error) => return Err(error),
            }
        }
        Ok(has_told)
    }

    /// Whether a session has a request, or its opening, that wasn't answered yet.
    fn is_waiting(&self) -> bool {
        let mut asked = 0u64;
        for at in 0..self.node.desk.sessions() {
            let requests = self.node.desk.requests(at) as u64;
            asked = asked.saturating_add(requests).saturating_add(1);
        }
        self.answered < asked
    }

    /// Takes in what came.
    fn take_piece<W: Threads + Sync>(
        &mut self,
        rt: &W,
        alloc: Global,
        hosts: u32,
        piece: &[u8],
    ) -> Result<Heard, AllocError>
        requires hosts { N.hosts ≡ hosts }
        ensures took { MatchResult result (λ heard. Heeds N.queues hosts self.old.framer self.old.node self.old.told piece.now heard self.new.framer self.new.node self.new.told)
            (λ _. HeedsFront N.queues hosts self.old.framer self.old.node piece.now self.new.node) }
    {
        match self.framer.feed(alloc, piece) {
            Ok(()) => match take_frames(rt, alloc, hosts, &mut self.framer, &mut self.node) {
                Ok(true) => Ok(Heard::More),
                Ok(false) => Ok(Heard::Ended(IntakeEnd::End)),
                Err(error) => Err(error),
            },
            Err(error) => Err(error),
        }
    }

    /// Polls the link, and takes in what comes.
    fn hear<L: Link, W: Threads + Sync>(
        &mut self,
        rt: &W,
        alloc: Global,
        hosts: u32,
        link: &mut L,
        is_cut: &mut bool,
        room: &mut [u8],
        patience: u32,
    ) -> Result<Heard, AllocError>
        requires hosts { N.hosts ≡ hosts }
        requires begun { IsBegun self.old.framer.bytes }
        requires room { 0 < length room.old }
        requires whole { is_cut.old ≡ false }
        ensures serves { Serves (is_ok result) N.hosts N.queues (wire (L.line link.old) (L.faults link.old) is_cut.old) (wire (L.line link.new) (L.faults link.new) is_cut.new) self.old.framer self.old.node self.old.told self.new.framer self.new.node self.new.told }
        ensures ends { IfOk result (λ heard. EndsOrGoesOn (end_in heard) (left_of (L.line link.new)) self.new.framer.bytes × IsEnd (end_in heard) is_cut.new) }
        ensures room { length room.new ≡ length room.old }
    {
        match link.poll(room, patience) {
            Polled::Bytes(count) => self.take_piece(rt, alloc, hosts, &room[..count]),
            Polled::NotYet => Ok(Heard::NotYet),
            Polled::End => Ok(Heard::Ended(IntakeEnd::End)),
            Polled::Failed => {
                *is_cut = true;
                Ok(Heard::Ended(IntakeEnd::Failed))
            }
            Polled::OutOfMemory => Err(AllocError),
        }
    }

    /// Tells what is ready, and then hears the link. Gives how reading ends, if it does. Where nothing is to be told or heard it
    /// sleeps for a while.
    fn turn<L: Link, W: Threads + Wait + Clock + Sync>(
        &mut self,
        rt: &W,
        alloc: Global,
        hosts: u32,
        link: &mut L,
        is_cut: &mut bool,
        bell: &Bell,
        room: &mut [u8],
    ) -> Result<Option<IntakeEnd>, AllocError>
        requires hosts { N.hosts ≡ hosts }
        requires begun { IsBegun self.old.framer.bytes }
        requires room { 0 < length room.old }
        requires whole { is_cut.old ≡ false }
        ensures serves { Serves (is_ok result) N.hosts N.queues (wire (L.line link.old) (L.faults link.old) is_cut.old) (wire (L.line link.new) (L.faults link.new) is_cut.new) self.old.framer self.old.node self.old.told self.new.framer self.new.node self.new.told }
        ensures ends { IfOk result (λ end. EndsOrGoesOn end (left_of (L.line link.new)) self.new.framer.bytes × IsEnd end is_cut.new) }
        ensures room { length room.new ≡ length room.old }
    {
        let rings = bell.rings(rt);
        match self.tell_ready(alloc, link, is_cut) {
            Ok(has_told) => {
                if *is_cut {
                    return Ok(Some(IntakeEnd::Failed));
                }
                let is_busy = has_told || self.is_waiting();
                let patience = if is_busy { 0 } else { IDLE };
                match self.hear(rt, alloc, hosts, link, is_cut, room, patience) {
                    Ok(heard) => Ok(rested(rt, bell, rings, is_busy && !has_told, heard)),
                    Err(error) => Err(error),
                }
            }
            Err(error) => Err(error),
        }
    }

    /// Turns until nothing more is taken in, and gives why.
    fn turns<L: Link, W: Threads + Wait + Clock + Sync>(
        &mut self,
        rt: &W,
        alloc: Global,
        hosts: u32,
        link: &mut L,
        is_cut: &mut bool,
        bell: &Bell,
        room: &mut [u8],
    ) -> Result<IntakeEnd, AllocError>
        requires hosts { N.hosts ≡ hosts }
        requires begun { IsBegun self.old.framer.bytes }
        requires room { 0 < length room.old }
        requires whole { is_cut.old ≡ false }
        ensures serves { Serves (is_ok result) N.hosts N.queues (wire (L.line link.old) (L.faults link.old) is_cut.old) (wire (L.line link.new) (L.faults link.new) is_cut.new) self.old.framer self.old.node self.old.told self.new.framer self.new.node self.new.told }
        ensures ends { IfOk result (λ end. EndsSo end (left_of (L.line link.new)) self.new.framer.bytes × IsEnd (Some end) is_cut.new) }
    {
        for _ in rt.forever() {
            match self.turn(rt, alloc, hosts, link, is_cut, bell, room) {
                Ok(Some(end)) => return Ok(end),
                Ok(None) => {}
                Err(error) => return Err(error),
            }
        }
        unreachable!()
    }

    /// Serves the link until nothing more is taken in, and gives why.
    pub(crate) fn attend<L: Link, W: Threads + Wait + Clock + Sync>(
        &mut self,
        rt: &W,
        alloc: Global,
        hosts: u32,
        link: &mut L,
        is_cut: &mut bool,
        bell: &Bell,
    ) -> Result<IntakeEnd, AllocError>
        requires hosts { N.hosts ≡ hosts }
        requires begun { IsBegun self.old.framer.bytes }
        requires whole { is_cut.old ≡ false }
        ensures serves { Serves (is_ok result) N.hosts N.queues (wire (L.line link.old) (L.faults link.old) is_cut.old) (wire (L.line link.new) (L.faults link.new) is_cut.new) self.old.framer self.old.node self.old.told self.new.framer self.new.node self.new.told }
        ensures ends { IfOk result (λ end. EndsSo end (left_of (L.line link.new)) self.new.framer.bytes × IsEnd (Some end) is_cut.new) }
    {
        match read_room(alloc) {
            Ok(room) => {
                let mut room = room;
                self.turns(rt, alloc, hosts, link, is_cut, bell, room.as_mut_slice())
            }
            Err(error) => Err(error),
        }
    }
}

/// How reading ends after this was heard. Before it goes on it sleeps until a session has answered, if that is worthwhile and nothing
/// came.
fn rested<W: Wait + Clock>(
    rt: &W,
    bell: &Bell,
    rings: u64,
    may_sleep: bool,
    heard: Heard,
) -> Option<IntakeEnd>
    ensures { result ≡ end_in heard }
{
    match heard {
        Heard::Ended(end) => Some(end),
        Heard::More => None,
        Heard::NotYet => {
            if may_sleep {
                bell.wait_past(rt, rings, BUSY);
            }
            None
        }
    }
}
