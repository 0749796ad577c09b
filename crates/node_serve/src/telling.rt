//! A link is told errors and entries, each by the frames of one unit. Once it met a fault it is told nothing more.

ghost use Rattle.std.specs.Prelude.{◌≡◌, ◌+◌, ◌≤◌, ◌<◌, true, length, map, take, is_ok, IfOk, OnErr, MatchOption};
ghost use Rattle.reply_frames.specs.Nodes.{frame_of};
ghost use Rattle.reply_frames.specs.Replies.{entry_frames, entry_length};
ghost use Rattle.node_run.specs.Unsent.{AreAlike, AreCounted, frames_in};
ghost use Rattle.node_serve.specs.Interleaving.{IsPutTo, AreFronts};
ghost use Rattle.node_serve.specs.Units.{error_units, entry_units, number_after, read_units, unit_of};
ghost use Rattle.node_serve.specs.Sent.{wire, TellsWhile, SendsOn};

use crate::sending::{SendFault, send_all};
use nb_links::Link;
use nb_outside::Feeds;
use node_run::{AdmissionDesk, NextEntry};
use plain_data::Items;
use reply_frames::{NodeError, frames_of, node_error_frame};
use session_core::{Engine, Entry};
use session_gate::Name;
use std::alloc::{AllocError, Global};
use std::sync::Wait;

/// Sends the bytes, unless the link met a fault before.
pub(crate) fn tell<L: Link>(link: &mut L, is_cut: &mut bool, bytes: &[u8]) -> Result<(), AllocError>
    ensures tells { TellsWhile (is_ok result) (wire (L.line link.old) (L.faults link.old) is_cut.old) (wire (L.line link.new) (L.faults link.new) is_cut.new) bytes.now }
{
    if *is_cut {
        return Ok(());
    }
    match send_all(link, bytes) {
        Ok(()) => Ok(()),
        Err(SendFault::Link) => {
            *is_cut = true;
            Ok(())
        }
        Err(SendFault::OutOfMemory) => Err(AllocError),
    }
}

/// Tells an error under this running number.
pub(crate) fn tell_error<L: Link>(
    alloc: Global,
    link: &mut L,
    is_cut: &mut bool,
    running: u64,
    error: &NodeError,
) -> Result<(), AllocError>
    ensures tells { TellsWhile (is_ok result) (wire (L.line link.old) (L.faults link.old) is_cut.old) (wire (L.line link.new) (L.faults link.new) is_cut.new) (frame_of running error.now) }
{
    match node_error_frame(alloc, running, error) {
        Ok(frame) => tell(link, is_cut, frame.as_slice()),
        Err(error) => Err(error),
    }
}

/// Tells the errors from that place on.
pub(crate) fn tell_errors<L: Link>(
    alloc: Global,
    link: &mut L,
    is_cut: &mut bool,
    errors: &[NodeError],
    told: usize,
) -> Result<(), AllocError>
    ensures sends { SendsOn true (is_ok result) (wire (L.line link.old) (L.faults link.old) is_cut.old) (wire (L.line link.new) (L.faults link.new) is_cut.new) (error_units 1 (take told errors.now)) (error_units 1 errors.now) }
{
    for at in told..errors.len() {
        let error = &errors[at];
        match tell_error(alloc, link, is_cut, at as u64 + 1, error) {
            Ok(()) => {}
            Err(error) => return Err(error),
        }
    }
    Ok(())
}

/// The frames of an entry that was read, and the number of the frame after them.
#[tactic(auto, unfolding(crate::specs::Units::unit_of, crate::specs::Units::number_after))]
fn frames_after(alloc: Global, next: NextEntry) -> Result<(Items<u8>, u64), AllocError>
    ensures bytes { IfOk result (λ told. told.0 ≡ unit_of next) }
    ensures next { IfOk result (λ told. told.1 ≡ number_after next) }
{
    let told = frames_of(alloc, next.kernel, &next.entry, next.first);
    drop(next);
    told
}

/// The frames of the next entry of the session at that index. None if none was there at a step of this call. After an error perhaps
/// one was read.
pub(crate) fn next_frames<E, Q, N, R>(
    alloc: Global,
    desk: &mut AdmissionDesk<'_, E, Q, N, R>,
    at: usize,
) -> Result<Option<Items<u8>>, AllocError>
where
    E: Engine + Drop,
    Q: Feeds,
    N: Name,
    R: Wait,
    requires at { at < length desk.old }
    ensures same { IfOk result (λ frames. MatchOption frames (desk.new ≡ desk.old) (λ bytes. AreAlike desk.old desk.new)) }
    ensures next { IfOk result (λ frames. MatchOption frames (desk.new ≡ desk.old)
        (λ bytes. AreCounted desk.old → IsPutTo (map read_units desk.old) bytes (map read_units desk.new) × AreCounted desk.new)) }
    ensures err { OnErr result (AreAlike desk.old desk.new × AreFronts (map read_units desk.old) (map read_units desk.new)) }
{
    let Some(next) = desk.read(at) else {
        return Ok(None);
    };
    match frames_after(alloc, next) {
        Ok((frames, number)) => {
            desk.set_next(at, number);
            Ok(Some(frames))
        }
        Err(error) => Err(error),
    }
}

/// Tells an entry of a kernel's journal, whose first frame has this running number. Gives the number after its frames.
fn tell_entry<L: Link>(
    alloc: Global,
    link: &mut L,
    is_cut: &mut bool,
    kernel: u128,
    entry: &Entry,
    running: u64,
) -> Result<u64, AllocError>
    ensures tells { TellsWhile (is_ok result) (wire (L.line link.old) (L.faults link.old) is_cut.old) (wire (L.line link.new) (L.faults link.new) is_cut.new) (entry_frames kernel entry.now running) }
    ensures next { IfOk result (λ next. next ≡ running + entry_length entry.now) }
{
    match frames_of(alloc, kernel, entry, running) {
        Ok((frames, next)) => match tell(link, is_cut, frames.as_slice()) {
            Ok(()) => Ok(next),
            Err(error) => Err(error),
        },
        Err(error) => Err(error),
    }
}

/// Tells the entries of a kernel's journal from that place on, the first of whose frames has this running number.
pub(crate) fn tell_rest<L: Link>(
    alloc: Global,
    link: &mut L,
    is_cut: &mut bool,
    kernel: u128,
    entries: &[Entry],
    place: usize,
    next: u64,
) -> Result<(), AllocError>
    requires place { place ≤ length entries.now }
    requires next { next ≡ 1 + frames_in (take place entries.now) }
    ensures sends { SendsOn true (is_ok result) (wire (L.line link.old) (L.faults link.old) is_cut.old) (wire (L.line link.new) (L.faults link.new) is_cut.new) (entry_units kernel 1 (take place entries.now)) (entry_units kernel 1 entries.now) }
{
    let mut running = next;
    for at in place..entries.len() {
        let entry = &entries[at];
        match tell_entry(alloc, link, is_cut, kernel, entry, running) {
            Ok(after) => running = after,
            Err(error) => return Err(error),
        }
    }
    Ok(())
}
