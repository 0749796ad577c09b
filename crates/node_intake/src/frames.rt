//! The frames that are held, taken in one after the other.

ghost use Rattle.std.specs.Prelude.{◌≡◌, ℕ, List, IfOk, OnOk, OnErr};
ghost use Rattle.node_intake.specs.Sessions.{HasHosts};
ghost use Rattle.node_intake.specs.Standing.{StandsFor, HasKept};
ghost use Rattle.node_intake.specs.Taking.{TookSoFar, TookFront, Stands, IsPlaceOf, IsCutOff};

use crate::desk::Desk;
use crate::node::Intake;
use crate::reading::{HALVINGS, read_bodies};
use crate::session::Handed;
use jupyter_frames::{Framer, Next};
use plain_data::Items;
use std::alloc::{AllocError, Global};
use std::thread::Threads;

/// Cuts off the whole frames that are held, and gives their bodies, and whether more may come: none may after a bad length.
fn cut_off(alloc: Global, framer: &mut Framer) -> Result<(Vec<Items<u8>>, bool), AllocError>
    ensures cut { IfOk result (λ cut. IsCutOff framer.old cut.0.items framer.new) }
    ensures stands { IfOk result (λ cut. Stands cut.1 framer.new.bytes) }
{
    let mut bodies = Vec::new(alloc);
    loop {
        match framer.next(alloc) {
            Next::Frame(body) => {
                bodies.push(body)?;
            }
            Next::NotYet => return Ok((bodies, true)),
            Next::Bad(_) => return Ok((bodies, false)),
            Next::OutOfMemory => return Err(AllocError),
        }
    }
}

/// Takes in the whole frames that are held, and gives whether more may come: none may after a bad length. If there are many, threads
/// read them. After an error perhaps some of them were taken in, the first.
pub fn take_frames<D: Desk, R: Threads + Sync>(
    rt: &R,
    alloc: Global,
    hosts: u32,
    framer: &mut Framer,
    node: &mut Intake<D>,
) -> Result<bool, AllocError>
    requires hosts { HasHosts D.is_host hosts }
    ensures took { OnOk result ((bytes : List ℕ) → TookSoFar hosts bytes framer.old (StandsFor D.holds node.old) → TookSoFar hosts bytes framer.new (StandsFor D.holds node.new)) }
    ensures stands { IfOk result (λ more. Stands more framer.new.bytes) }
    ensures err { OnErr result ((bytes : List ℕ) → TookSoFar hosts bytes framer.old (StandsFor D.holds node.old) → TookFront hosts bytes (StandsFor D.holds node.new)) }
    ensures kept { HasKept D.keeps node.old node.new }
{
    let (bodies, more) = cut_off(alloc, framer)?;
    let all = read_bodies(rt, alloc, bodies.as_slice(), HALVINGS)?;
    node.take_all(alloc, hosts, all)?;
    node.desk.notify();
    Ok(more)
}

/// Where the bytes that are held begin, if there are any.
fn broken_at(framer: &Framer) -> Option<u64>
    ensures { IsPlaceOf framer.now result }
{
    framer.held_at()
}

/// What was taken in, when no more comes.
pub fn taken_in<D: Desk>(framer: &Framer, node: Intake<D>) -> Handed<D>
    ensures desk { result.desk ≡ node.desk }
    ensures errors { result.errors ≡ node.errors.items }
    ensures broken { IsPlaceOf framer.now result.broken }
{
    let Intake { desk, errors } = node;
    Handed {
        desk,
        errors: Items::from_vec(errors),
        broken: broken_at(framer),
    }
}
