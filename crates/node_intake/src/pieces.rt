//! A source, read in pieces.

ghost use Rattle.std.specs.Prelude.{◌≡◌, ◌≢◌, ℕ, ◌<◌, ◌≤◌, List, [], ◌++◌, length, vec_len, Ok, Some, None, IfOk, OnOk, OnSome};
ghost use Rattle.nb_outside.specs.Counts.{HasRisen, HasRisenBy};
ghost use Rattle.nb_outside.specs.Streams.{Takes, IsAtEnd};
ghost use Rattle.jupyter_frames.specs.Framing.{IsBegun};
ghost use Rattle.node_intake.specs.Sessions.{HasHosts};
ghost use Rattle.node_intake.specs.Standing.{StandsFor};
ghost use Rattle.node_intake.specs.Taking.{TookSoFar, HasTaken, EndsSo, EndsOrGoesOn};

use crate::desk::Desk;
use crate::frames::{take_frames, taken_in};
use crate::node::Intake;
use crate::session::{Handed, IntakeEnd};
use jupyter_frames::Framer;
use nb_outside::{ReadEnd, Source};
use std::alloc::{AllocError, Global};
use std::thread::Threads;

/// How many bytes each read of a source asks for.
const READ_LENGTH: usize = 65_536;

/// Reads one piece and gives it to the framer. `None` if there may be more.
fn read_piece<S: Source>(
    alloc: Global,
    source: &mut S,
    piece: &mut [u8],
    framer: &mut Framer,
) -> Result<Option<IntakeEnd>, AllocError>
    requires { 0 < length piece.old }
    ensures taken { (taken : List ℕ) × Takes (S.left source.old) (S.left source.new) taken
        × OnOk result (framer.new ≡ record framer.old { bytes = framer.old.bytes ++ taken }) }
    ensures stays { IfOk result (λ end. OnSome end (framer.new ≡ framer.old)) }
    ensures end { result ≡ Ok (Some IntakeEnd.End) → IsAtEnd (S.left source.new) }
    ensures more { result ≡ Ok None → HasRisenBy 1 (S.reads source.old) (S.reads source.new) }
    ensures failed { result ≡ Ok (Some IntakeEnd.Failed) → HasRisen (S.faults source.old) (S.faults source.new) }
    ensures faults_stay { S.faults source.old ≤ S.faults source.new }
    ensures none_more { result ≢ Ok (Some IntakeEnd.TooMany) }
{
    match source.read(piece) {
        ReadEnd::Failed => Ok(Some(IntakeEnd::Failed)),
        ReadEnd::Bytes(0) => Ok(Some(IntakeEnd::End)),
        ReadEnd::Bytes(count) => match framer.feed(alloc, &piece[..count]) {
            Ok(()) => Ok(None),
            Err(error) => Err(error),
        },
    }
}

/// Reads one piece and takes in the frames that are whole with it. `None` if there may be more.
fn take_piece<S: Source, D: Desk, R: Threads + Sync>(
    rt: &R,
    alloc: Global,
    hosts: u32,
    source: &mut S,
    piece: &mut [u8],
    framer: &mut Framer,
    node: &mut Intake<D>,
) -> Result<Option<IntakeEnd>, AllocError>
    requires hosts { HasHosts D.is_host hosts }
    requires room { 0 < length piece.old }
    requires begun { IsBegun framer.old.bytes }
    ensures taken { (taken : List ℕ) × Takes (S.left source.old) (S.left source.new) taken
        × OnOk result ((bytes : List ℕ) → TookSoFar hosts bytes framer.old (StandsFor D.holds node.old) → TookSoFar hosts (bytes ++ taken) framer.new (StandsFor D.holds node.new)) }
    ensures ends { IfOk result (λ end. EndsOrGoesOn end (S.left source.new) framer.new.bytes) }
    ensures more { result ≡ Ok None → HasRisenBy 1 (S.reads source.old) (S.reads source.new) }
    ensures failed { result ≡ Ok (Some IntakeEnd.Failed) → HasRisen (S.faults source.old) (S.faults source.new) }
    ensures faults_stay { S.faults source.old ≤ S.faults source.new }
    ensures none_more { result ≢ Ok (Some IntakeEnd.TooMany) }
{
    match read_piece(alloc, source, piece, framer) {
        Ok(None) => match take_frames(rt, alloc, hosts, framer, node) {
            Ok(true) => Ok(None),
            Ok(false) => Ok(Some(IntakeEnd::End)),
            Err(error) => Err(error),
        },
        ended => ended,
    }
}

/// Takes in one piece after the other.
fn take_pieces<S: Source, D: Desk, R: Threads + Sync>(
    rt: &R,
    alloc: Global,
    hosts: u32,
    source: &mut S,
    piece: &mut [u8],
    framer: &mut Framer,
    node: &mut Intake<D>,
) -> Result<IntakeEnd, AllocError>
    requires hosts { HasHosts D.is_host hosts }
    requires room { 0 < length piece.old }
    requires begun { IsBegun framer.old.bytes }
    ensures taken { (taken : List ℕ) × Takes (S.left source.old) (S.left source.new) taken
        × OnOk result ((bytes : List ℕ) → TookSoFar hosts bytes framer.old (StandsFor D.holds node.old) → TookSoFar hosts (bytes ++ taken) framer.new (StandsFor D.holds node.new)) }
    ensures ends { IfOk result (λ end. EndsSo end (S.left source.new) framer.new.bytes) }
    ensures failed { result ≡ Ok IntakeEnd.Failed → HasRisen (S.faults source.old) (S.faults source.new) }
    ensures too_many { result ≡ Ok IntakeEnd.TooMany → HasRisenBy 4294967295 (S.reads source.old) (S.reads source.new) }
    ensures faults_stay { S.faults source.old ≤ S.faults source.new }
{
    for turn in 0..u32::MAX {
        match take_piece(rt, alloc, hosts, source, piece, framer, node) {
            Ok(None) => {}
            Ok(Some(end)) => return Ok(end),
            Err(error) => return Err(error),
        }
    }
    Ok(IntakeEnd::TooMany)
}

/// Room for what one read of a source gives.
pub fn read_room(alloc: Global) -> Result<Vec<u8>, AllocError>
    ensures { IfOk result (λ room. vec_len room ≡ 65536) }
{
    vec![in alloc; 0u8; READ_LENGTH]
}

/// Reads a source to its end, or to a length that no frame has, and takes in what it gives at this desk, where a session can be
/// opened on each of so many hosts. Each frame that is whole is taken in before the source is read again. A source that meets a
/// fault, or gives a byte at each of 4,294,967,295 reads, is read no further. Even after an error, what the source had is what was
/// taken of it, and then what it has left.
pub fn take_in_at<S: Source, D: Desk, R: Threads + Sync>(
    rt: &R,
    alloc: Global,
    source: &mut S,
    hosts: u32,
    desk: D,
) -> Result<(Handed<D>, IntakeEnd), AllocError>
    requires hosts { HasHosts D.is_host hosts }
    requires none { D.holds desk [] }
    ensures told { (bytes : List ℕ) × Takes (S.left source.old) (S.left source.new) bytes
        × IfOk result (λ r. (taken : HasTaken hosts bytes (λ node. D.holds r.0.desk node.sessions × (r.0.errors ≡ node.errors)) r.0.broken) × EndsSo r.1 (S.left source.new) taken.rest) }
    ensures failed { IfOk result (λ r. r.1 ≡ IntakeEnd.Failed → HasRisen (S.faults source.old) (S.faults source.new)) }
    ensures too_many { IfOk result (λ r. r.1 ≡ IntakeEnd.TooMany → HasRisenBy 4294967295 (S.reads source.old) (S.reads source.new)) }
    ensures faults_stay { S.faults source.old ≤ S.faults source.new }
{
    let Ok(mut piece) = read_room(alloc) else {
        return Err(AllocError);
    };
    let mut framer = Framer::new(alloc);
    let mut node = Intake::new(alloc, desk);
    match take_pieces(
        rt,
        alloc,
        hosts,
        source,
        piece.as_mut_slice(),
        &mut framer,
        &mut node,
    ) {
        Ok(end) => Ok((taken_in(&framer, node), end)),
        Err(error) => Err(error),
    }
}
