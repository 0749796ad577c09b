//! The steps of a session on one thread. Each puts at the journal's end entries that may come there.

ghost use Rattle.std.specs.Prelude.{◌≡◌, ℕ, ◌+◌, ◌≤◌, ◌<◌, true, false, [], ◌∷◌, ◌++◌, Some};
ghost use Rattle.session_core.specs.declared.entry.Entry.{Entry};
ghost use Rattle.session_core.specs.Asks.{IsWork, is_move, is_end};
ghost use Rattle.session_core.specs.Entries.{IsEnd, RanOrDied};
ghost use Rattle.session_core.specs.Legal.{settled, progress_of};
ghost use Rattle.session_core.specs.Machine.{IsNoted};
ghost use Rattle.session_core.specs.Stepping.{IsPackOf, HasGone, HasEnded};
ghost use Rattle.session_core.specs.Feeding.{TellsDraws, Drew};

use crate::engine::{Engine, Packed};
use crate::entry::{Entry, MoveRefusal};
use crate::journal::Journal;
use crate::judging::{Verdict, judge};
use crate::reply::Done;
use crate::request::Request;
use nb_outside::Feed;
use std::alloc::Global;

/// The host of a session that is settled.
pub(crate) fn settled_owner(journal: &Journal) -> u32
    requires { (progress_of journal.now.entries).phase ≡ settled }
    ensures { result ≡ (progress_of journal.now.entries).owner }
{
    journal.owner().unwrap()
}

/// Serves a request that is no move on a session that is alive: it ran (true), or the session died (false). The entry that says so
/// has the draws that were taken from the feed; only a death for want of memory doesn't say them.
pub fn serve<E: Engine, F: Feed>(
    alloc: Global,
    journal: &mut Journal,
    engine: &mut E,
    feed: &mut F,
    request: Request,
) -> bool
    requires spare { 1 ≤ journal.old.spare }
    requires work { IsWork request.ask }
    requires settled { (progress_of journal.old.entries).phase ≡ settled }
    requires alive { (progress_of journal.old.entries).dead ≡ false }
    requires stands { E.stands_for engine.old (progress_of journal.old.entries).served }
    ensures noted { (hosts : ℕ) → (entry : Entry) × IsEnd (λ r. r ≡ request) entry × IsNoted E.meaning hosts journal.old.entries journal.new.entries entry }
    ensures how { (entry : Entry) × (journal.new.entries ≡ journal.old.entries ++ entry ∷ []) × RanOrDied result (progress_of journal.old.entries).owner request entry }
    ensures stands { result ≡ true → E.stands_for engine.new (progress_of journal.new.entries).served }
    ensures host { result ≡ true → E.host_of engine.new ≡ E.host_of engine.old }
    ensures ends { result ≡ true → (progress_of journal.new.entries).dead ≡ is_end request.ask }
    ensures dead { result ≡ false → (progress_of journal.new.entries).dead ≡ true }
    ensures served { result ≡ false → (progress_of journal.new.entries).served ≡ (progress_of journal.old.entries).served }
    ensures fed { (entry : Entry) × (journal.new.entries ≡ journal.old.entries ++ entry ∷ []) × Drew entry (F.seen feed.old) (F.seen feed.new)
        × (result ≡ true → TellsDraws entry) }
    ensures spare { journal.old.spare ≡ journal.new.spare + 1 }
{
    let host = settled_owner(journal);
    let count = engine.count();
    match engine.run(alloc, &request.ask, feed) {
        Ok(done) => {
            let Done { reply, draws } = done;
            journal.push(Entry::Ran {
                host,
                request,
                draws,
                reply,
            });
            true
        }
        Err(fault) => {
            let cause = fault.cause();
            journal.push(Entry::Died {
                host,
                request,
                count,
                cause,
            });
            false
        }
    }
}

/// Answers a request that is no move on a dead session. `count` is the count of what the session served.
pub fn answer_dead<E: Engine>(_engine: &E, journal: &mut Journal, count: u32, request: Request)
    requires spare { 1 ≤ journal.old.spare }
    requires work { IsWork request.ask }
    requires settled { (progress_of journal.old.entries).phase ≡ settled }
    requires dead { (progress_of journal.old.entries).dead ≡ true }
    requires count { count ≡ E.meaning.count (progress_of journal.old.entries).served }
    ensures noted { (hosts : ℕ) → (entry : Entry) × IsEnd (λ r. r ≡ request) entry × IsNoted E.meaning hosts journal.old.entries journal.new.entries entry }
    ensures how { journal.new.entries ≡ journal.old.entries ++ Entry.Dead (progress_of journal.old.entries).owner request count ∷ [] }
    ensures spare { journal.old.spare ≡ journal.new.spare + 1 }
{
    let host = settled_owner(journal);
    journal.push(Entry::Dead {
        host,
        request,
        count,
    });
}

/// Puts the entry that says that the session doesn't move, and why.
fn refuse(journal: &mut Journal, request: Request, reason: MoveRefusal)
    requires spare { 1 ≤ journal.old.spare }
    requires settled { (progress_of journal.old.entries).phase ≡ settled }
    ensures entries { journal.new.entries ≡ journal.old.entries ++ Entry.Refused (progress_of journal.old.entries).owner request reason ∷ [] }
{
    let host = settled_owner(journal);
    journal.push(Entry::Refused {
        host,
        request,
        reason,
    });
}

/// Puts the entry that says that the session stays for want of memory.
fn resume(journal: &mut Journal, host: u32, request: Request)
    requires { 1 ≤ journal.old.spare }
    ensures { journal.new.entries ≡ journal.old.entries ++ Entry.Resumed host request ∷ [] }
{
    journal.push(Entry::Resumed { host, request });
}

/// A move by this pack: sealed, moved, and then adopted or, for want of memory, resumed.
fn go<E: Engine + Drop>(
    alloc: Global,
    journal: &mut Journal,
    engine: E,
    to: u32,
    packed: Packed,
    requests: (Request, Request),
) -> E
    requires spare { 3 ≤ journal.old.spare }
    requires settled { (progress_of journal.old.entries).phase ≡ settled }
    requires packed { IsPackOf E.meaning (progress_of journal.old.entries).served packed }
    requires stands { E.stands_for engine (progress_of journal.old.entries).served × (E.host_of engine ≡ (progress_of journal.old.entries).owner) }
    ensures { HasGone E.meaning journal.old.entries journal.new.entries to requests.0 requests.1 packed.certified
        (λ host. E.stands_for result (progress_of journal.old.entries).served × (E.host_of result ≡ host)) }
{
    let host = settled_owner(journal);
    let Packed { bytes, certified } = packed;
    let (request, again) = requests;
    journal.push(Entry::Sealed { host, request, to });
    journal.push(Entry::Moved { to });
    match E::unpack(alloc, bytes.as_slice(), to) {
        Ok((arrived, objects)) => {
            journal.push(Entry::Adopted {
                from: host,
                to,
                request: again,
                certified,
                objects,
            });
            arrived
        }
        Err(_) => {
            resume(journal, host, again);
            engine
        }
    }
}

/// Answers a request to move: it is adopted, refused for the first reason that holds, or, for want of memory, resumed.
pub fn attempt<E: Engine + Drop>(
    alloc: Global,
    journal: &mut Journal,
    engine: E,
    hosts: u32,
    dead: bool,
    request: Request,
) -> E
    requires spare { 3 ≤ journal.old.spare }
    requires settled { (progress_of journal.old.entries).phase ≡ settled }
    requires asked { is_move request.ask ≡ true }
    requires dead { dead ≡ (progress_of journal.old.entries).dead }
    requires stands { dead ≡ false → E.stands_for engine (progress_of journal.old.entries).served × (E.host_of engine ≡ (progress_of journal.old.entries).owner) }
    ensures ended { HasEnded E.meaning hosts journal.old.entries journal.new.entries request }
    ensures stands { dead ≡ false → E.stands_for result (progress_of journal.new.entries).served × (E.host_of result ≡ (progress_of journal.new.entries).owner) }
{
    match judge(alloc, &engine, &*journal, hosts, dead, &request) {
        Verdict::Refuse(reason) => {
            refuse(journal, request, reason);
            engine
        }
        Verdict::Stay => {
            resume(journal, settled_owner(&*journal), request);
            engine
        }
        Verdict::Go { again, to, packed } => {
            go(alloc, journal, engine, to, packed, (request, again))
        }
    }
}
