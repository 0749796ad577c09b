//! Streams in pieces, and frames that are written.

use anyhow::{Result, bail};
use json_members::{list_in, number_in, text_in, text_of};
use jupyter_frames::{FrameFault, Framer, Next, write_frame};
use serde_json::{Value, json};
use std::alloc::Global;

/// The most bytes of a frame's body that is read.
const MOST_BODY: usize = 1_048_576;

/// Takes the frames that are whole so far.
fn take_all(
    alloc: Global,
    framer: &mut Framer,
    most: usize,
    bodies: &mut Vec<Value>,
) -> Result<()> {
    for _ in 0..most {
        match framer.next(alloc) {
            Next::Frame(body) => {
                let digits = hex::encode(alloc, body.as_slice())?;
                bodies.push(json!(in alloc; digits.as_str())?)?;
            }
            Next::NotYet | Next::Bad(_) => return Ok(()),
            Next::OutOfMemory => bail!("memory ran out"),
        }
    }
    Ok(())
}

/// How the stream ends after the frames that were given.
fn end_of(alloc: Global, framer: &mut Framer) -> Result<Value> {
    match framer.next(alloc) {
        Next::Bad(FrameFault::BadLength(place, length)) => Ok(
            json!(in alloc; ["bad", place, length])?,
        ),
        _ => match framer.end() {
            Ok(()) => Ok(json!(in alloc; ["whole"])?),
            Err(FrameFault::Cut(place)) => Ok(json!(in alloc; ["cut", place])?),
            Err(FrameFault::BadLength(..)) => bail!("a length is bad at the end alone"),
        },
    }
}

/// The bodies of a stream in pieces, and how it ends.
pub fn given_of(alloc: Global, line: &Value) -> Result<Value> {
    let stream = hex::decode(alloc, text_in(line, "stream")?)?;
    let size = usize::try_from(number_in(line, "piece")?)?;
    let mut framer = Framer::new(alloc);
    let mut bodies = Vec::new(alloc);
    for piece in stream.chunks(size.max(1)) {
        framer.feed(alloc, piece)?;
        take_all(alloc, &mut framer, stream.len(), &mut bodies)?;
    }
    let end = end_of(alloc, &mut framer)?;
    Ok(json!(in alloc; [bodies, end])?)
}

/// The frames of these bodies.
pub fn written_of(alloc: Global, line: &Value) -> Result<Value> {
    let mut out = Vec::new(alloc);
    for item in list_in(line, "bodies")? {
        let body = hex::decode(alloc, text_of(item)?)?;
        if body.is_empty() || body.len() > MOST_BODY {
            bail!("no frame has such a body");
        }
        write_frame(body.as_slice(), &mut out)?;
    }
    let digits = hex::encode(alloc, out.as_slice())?;
    Ok(json!(in alloc; [digits.as_str()])?)
}
