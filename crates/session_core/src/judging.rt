ghost use Rattle.std.specs.Prelude.{◌≡◌, true, false, MatchOption};
ghost use Rattle.session_core.specs.declared.request.Ask.TheVariants as asks;
ghost use Rattle.session_core.specs.Asks.{is_move};
ghost use Rattle.session_core.specs.Legal.{settled, progress_of};
ghost use Rattle.session_core.specs.Stepping.{IsEarly, IsFree, IsVerdict};

use crate::engine::{Engine, Packed};
use crate::entry::MoveRefusal;
use crate::journal::Journal;
use crate::request::{Ask, Request};
use crate::steps::settled_owner;
use graph_model::Weights;
use std::alloc::Global;

/// What is to be done about a request to move.
pub enum Verdict {
    /// It is refused for this reason, which is the first that holds.
    Refuse(MoveRefusal),
    /// The session stays for want of memory. No reason holds but perhaps the last.
    Stay,
    /// The session goes to that host by this pack. No reason holds.
    Go {
        /// A copy of the request.
        again: Request,
        to: u32,
        packed: Packed,
    },
}

/// What is to be done about a request to move of a session with this engine and this journal, on one of `hosts` hosts.
pub fn judge<E: Engine>(
    alloc: Global,
    engine: &E,
    journal: &Journal,
    hosts: u32,
    dead: bool,
    request: &Request,
) -> Verdict
    requires settled { (progress_of journal.now.entries).phase ≡ settled }
    requires dead { dead ≡ (progress_of journal.now.entries).dead }
    requires stands { dead ≡ false → E.stands_for engine.now (progress_of journal.now.entries).served }
    requires asked { is_move request.now.ask ≡ true }
    ensures { IsVerdict E.meaning hosts (progress_of journal.now.entries) request.now result }
{
    let (to, weights) = aim_of(&request.ask);
    if let Some(reason) = reason_before_planning(journal, hosts, dead, to) {
        return Verdict::Refuse(reason);
    }
    match engine.pack(alloc, &weights) {
        Ok(packed) => match request.copy(alloc) {
            Ok(again) => Verdict::Go {
                again,
                to: to as u32,
                packed,
            },
            Err(_) => Verdict::Stay,
        },
        Err(fault) => match fault.reason() {
            Some(reason) => Verdict::Refuse(reason),
            None => Verdict::Stay,
        },
    }
}

/// The host and the weights of a move.
fn aim_of(ask: &Ask) -> (u64, Weights)
    requires { is_move ask.now ≡ true }
    ensures { ask.now ≡ asks.Migrate result.0 result.1 }
{
    match ask {
        Ask::Migrate { to, weights } => (*to, *weights),
        _ => unreachable!(),
    }
}

/// The first reason not to plan a move: the session is dead, it is on that host, or there is no such host.
fn reason_before_planning(journal: &Journal, hosts: u32, dead: bool, to: u64) -> Option<MoveRefusal>
    requires settled { (progress_of journal.now.entries).phase ≡ settled }
    requires dead { dead ≡ (progress_of journal.now.entries).dead }
    ensures { MatchOption result (IsFree hosts (progress_of journal.now.entries) to) (IsEarly hosts (progress_of journal.now.entries) to) }
{
    if dead {
        return Some(MoveRefusal::DeadKernel);
    }
    if to == u64::from(settled_owner(journal)) {
        return Some(MoveRefusal::SameHost);
    }
    if to >= u64::from(hosts) {
        return Some(MoveRefusal::UnknownHost(to));
    }
    None
}
