//! Streams of frames for tests, and what commands answer and write for them if draws, reads or writes go as a test says.

use crate::pieces::PieceSource;
use crate::run::top;
use host_workers::OpenGate;
use nb_links::TcpDoor;
use nb_outside::{Drawn, MemFeeds, MemSink, MemSource, Source};
use std::alloc::{AllocError, Global};
use std::sync::Wait;
use std::thread::Threads;
use std::time::Clock;

/// What a frame asks.
#[derive(Drop)]
pub enum Asked {
    Open,
    /// A cell with this code, written as a JSON text.
    Cell(&'static str),
    /// A move to host 1: copies cost the first for each and the second for each byte, cells that run again the third and, for
    /// each step, the fourth.
    Move([u32; 4]),
}

/// Two kernels.
pub const KERNELS: [&str; 2] = [
    "11111111-1111-4111-8111-111111111111",
    "22222222-2222-4222-8222-222222222222",
];

/// Adds the frame of a message of this kind to a kernel. Its date and its texts are those of the protocol's example.
pub fn push_message(
    alloc: Global,
    out: &mut Vec<u8>,
    number: usize,
    kernel: &str,
    kind: &str,
    content: &str,
) -> Result<(), AllocError> {
    let body = format!(in alloc;
        "{{\"channel\":\"shell\",\"content\":{content},\"header\":{{\"date\":\"2024-01-02T03:04:05Z\",\"msg_id\":\"m{number}\",\"msg_type\":\"{kind}\",\"session\":\"f1\",\"username\":\"u\",\"version\":\"5.3\"}},\"kernel\":\"{kernel}\"}}"
    )?;
    let length = u32::try_from(body.len()).unwrap_or(0);
    out.extend_from_slice(&length.to_be_bytes())?;
    out.extend_from_slice(body.as_bytes())
}

fn kind_of(asked: &Asked) -> &'static str {
    match asked {
        Asked::Open => "kernel_open_request",
        Asked::Cell(_) => "execute_request",
        Asked::Move(_) => "migrate_request",
    }
}

fn content_of(alloc: Global, asked: &Asked) -> Result<String, AllocError> {
    match asked {
        Asked::Open => String::from_str(alloc, "{\"host\":0}"),
        Asked::Cell(code) => format!(in alloc; "{{\"code\":\"{code}\"}}"),
        Asked::Move([copy_base, per_byte, run_base, per_step]) => format!(in alloc;
            "{{\"to\":1,\"copy_base\":{copy_base},\"per_byte\":{per_byte},\"run_base\":{run_base},\"per_step\":{per_step}}}"
        ),
    }
}

/// The frames that ask this, one after the other.
pub fn frames_of(alloc: Global, asked: &[Asked]) -> Result<Vec<u8>, AllocError> {
    let mut out = Vec::new(alloc);
    for (before, one) in asked.iter().enumerate() {
        let content = content_of(alloc, one)?;
        let number = before.saturating_add(1);
        push_message(
            alloc,
            &mut out,
            number,
            KERNELS[0],
            kind_of(one),
            content.as_str(),
        )?;
    }
    Ok(out)
}

/// What a command answers and writes, if it reads from this source, a session's feed gives these draws and then fails, and the sink takes
/// at most so many bytes at a write and its writes with these numbers fail.
fn answered_by<R: AllocGlobal + Threads + Wait + Clock + Sync, S: Source>(
    rt: &R,
    words: &[&str],
    source: &mut S,
    draws: &[Drawn],
    most: usize,
    sink_fails: &[u64],
) -> Result<(u8, Vec<u8>), AllocError> {
    let alloc = rt.alloc();
    let mut all = Vec::new(alloc);
    for word in words {
        all.push(String::from_str(alloc, word)?)?;
    }
    let mut sink = MemSink::new(alloc, most, sink_fails.to_vec(alloc)?);
    let mut feeds = MemFeeds::new(draws.to_vec(alloc)?);
    let status = top(
        rt,
        all.as_slice(),
        source,
        &mut sink,
        &mut TcpDoor::new(None),
        &mut feeds,
        &OpenGate,
    );
    let written = sink.written().to_vec(alloc)?;
    Ok((status, written))
}

/// A source of these bytes, whose reads with these numbers fail.
fn source_of(alloc: Global, input: &[u8], fails: &[u64]) -> Result<MemSource, AllocError> {
    Ok(MemSource::new(input.to_vec(alloc)?, fails.to_vec(alloc)?))
}

/// What a command answers and writes for these bytes, if the calls of the source and of the sink with these numbers fail. It draws nothing.
pub fn answered<R: AllocGlobal + Threads + Wait + Clock + Sync>(
    rt: &R,
    words: &[&str],
    input: &[u8],
    source_fails: &[u64],
    sink_fails: &[u64],
) -> Result<(u8, Vec<u8>), AllocError> {
    let mut source = source_of(rt.alloc(), input, source_fails)?;
    answered_by(rt, words, &mut source, &[], 65_536, sink_fails)
}

/// The same if reads give at most so many bytes, and the one with this number fails.
pub fn answered_reading<R: AllocGlobal + Threads + Wait + Clock + Sync>(
    rt: &R,
    words: &[&str],
    input: &[u8],
    most: usize,
    fails: u64,
) -> Result<(u8, Vec<u8>), AllocError> {
    let mut source = PieceSource::new(rt.alloc(), input, most, fails)?;
    answered_by(rt, words, &mut source, &[], 65_536, &[])
}

/// The same if writes take at most so many bytes, and the one with this number fails.
pub fn answered_writing<R: AllocGlobal + Threads + Wait + Clock + Sync>(
    rt: &R,
    words: &[&str],
    input: &[u8],
    most: usize,
    fails: u64,
) -> Result<(u8, Vec<u8>), AllocError> {
    let mut source = source_of(rt.alloc(), input, &[])?;
    answered_by(rt, words, &mut source, &[], most, &[fails])
}

/// The same of a command whose session's feed gives these draws and then fails.
pub fn answered_drawing<R: AllocGlobal + Threads + Wait + Clock + Sync>(
    rt: &R,
    words: &[&str],
    input: &[u8],
    draws: &[Drawn],
) -> Result<(u8, Vec<u8>), AllocError> {
    let mut source = source_of(rt.alloc(), input, &[])?;
    answered_by(rt, words, &mut source, draws, 65_536, &[])
}

/// How often the text comes in the bytes.
pub fn count_of(bytes: &[u8], text: &str) -> usize {
    if text.is_empty() {
        return 0;
    }
    bytes
        .windows(text.len())
        .filter(|w| *w == text.as_bytes())
        .count()
}

/// What is wrong with what a command answers and writes, if a session's feed gives these draws: the status, if it isn't 0, and each
/// text that doesn't come in it this number of times.
pub fn wrong<R: AllocGlobal + Threads + Wait + Clock + Sync>(
    rt: &R,
    words: &[&str],
    input: &[u8],
    draws: &[Drawn],
    texts: &[(&str, usize)],
) -> Result<String, AllocError> {
    let alloc = rt.alloc();
    let (status, written) = answered_drawing(rt, words, input, draws)?;
    let mut all = String::new(alloc);
    if status != 0 {
        all.push_str(format!(in alloc; "status {status}\n")?.as_str())?;
    }
    for (text, times) in texts {
        let found = count_of(written.as_slice(), text);
        if found != *times {
            all.push_str(format!(in alloc; "{text} comes {found} times\n")?.as_str())?;
        }
    }
    Ok(all)
}
