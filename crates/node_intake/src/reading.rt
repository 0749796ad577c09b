//! Frames that came together, read by several threads.

ghost use Rattle.std.specs.Prelude.{◌≡◌, ◌<◌, map, IfOk};
ghost use Rattle.std.specs.Thread.{IsSync};
ghost use Rattle.jupyter_messages.specs.Reading.{message_in};

use jupyter_messages::{Message, MessageFault, read_message};
use plain_data::Items;
use std::alloc::{AllocError, Global};
use std::thread::{Threads, join};

/// A frame's body as a message, or what is wrong with it.
pub type Read = Result<Message, MessageFault>;

/// Fewer frames than these are read by one thread: to make a thread costs about as much as to read ten.
const FEW: usize = 48;

/// How often many frames are halved: each half of a half goes to a thread of its own.
pub const HALVINGS: u32 = 2;

/// What is wrong with a body is part of what is read of it, unless memory ran out.
fn read_body(alloc: Global, body: &[u8]) -> Result<Read, AllocError>
    ensures { IfOk result (λ read. read ≡ message_in body.now) }
{
    match read_message(alloc, body) {
        Err(MessageFault::OutOfMemory) => Err(AllocError),
        read => Ok(read),
    }
}

/// Reads bodies one after the other.
fn read_in_turn(alloc: Global, bodies: &[Items<u8>]) -> Result<Vec<Read>, AllocError>
    ensures { IfOk result (λ all. all.items ≡ map message_in bodies.now) }
{
    let mut all = Vec::with_capacity(alloc, bodies.len())?;
    for body in bodies {
        let read = read_body(alloc, body.as_slice())?;
        all.push(read)?;
    }
    Ok(all)
}

/// Reads bodies. If there are many, each half is read by a thread of its own, so often halved again.
#[cycle(halves)]
pub fn read_bodies<R: Threads + Sync>(
    rt: &R,
    alloc: Global,
    bodies: &[Items<u8>],
    halvings: u32,
) -> Result<Vec<Read>, AllocError>
    ensures { IfOk result (λ all. all.items ≡ map message_in bodies.now) }
{
    if halvings == 0 || bodies.len() < FEW {
        return read_in_turn(alloc, bodies);
    }
    let (front, back) = bodies.split_at(bodies.len() / 2);
    let lower = || -> Result<Vec<Read>, AllocError>
        requires { IsSync R.row × (0 < halvings) }
        ensures { IfOk result (λ all. all.items ≡ map message_in front.entry.now) }
    { read_bodies(rt, alloc, front, halvings - 1) };
    let upper = || -> Result<Vec<Read>, AllocError>
        requires { IsSync R.row × (0 < halvings) }
        ensures { IfOk result (λ all. all.items ≡ map message_in back.entry.now) }
    { read_bodies(rt, alloc, back, halvings - 1) };
    let (first, second) = join(rt, lower, upper);
    let mut all = first?;
    let mut rest = second?;
    all.append(&mut rest)?;
    Ok(all)
}
