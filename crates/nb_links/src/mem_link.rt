ghost use Rattle.std.specs.Prelude.{◌≡◌, ◌≤◌, ◌<◌, min, take, drop, ◌++◌, length, vec_len};

use crate::link::{Link, Polled, SendEnd};
use std::alloc::Global;

/// Copies as many bytes as fit to the front of `into`, and says how many.
fn fill(into: &mut [u8], from: &[u8]) -> usize
    ensures count { result ≡ min (length from.now) (length into.old) }
    ensures parted { from.now ≡ take result into.new ++ drop result from.now }
{
    let count = from.len().min(into.len());
    into[..count].copy_from_slice(&from[..count]);
    count
}

/// Which calls answer otherwise, by their numbers from 1.
#[derive(Debug, Drop)]
struct Calls {
    numbers: Vec<u64>,
    made: u64,
}

impl Calls {
    fn new(numbers: Vec<u64>) -> Calls {
        Calls { numbers, made: 0 }
    }

    /// Counts a call, and says whether it is one of them.
    fn next(&mut self) -> bool {
        self.made = self.made.saturating_add(1);
        self.numbers.contains(&self.made)
    }
}

/// A link over memory, which tells all. Each poll gives as many bytes as fit, and each send takes all.
#[derive(Debug, Drop)]
pub struct MemLink {
    bytes: Vec<u8>,
    at: usize,
    sent: Vec<u8>,
    polls_fail: Calls,
    sends_fail: Calls,
    faults: u64,
    ghost within: { at ≤ vec_len bytes },
}

impl MemLink {
    ghost use Rattle.nb_links.specs.Memory.{line_of, IsNewLink};

    /// A link that gives these bytes and then ends. Its polls and its sends with these numbers, each counted from 1, fail. Takes no
    /// memory.
    pub fn new(alloc: Global, bytes: Vec<u8>, polls_fail: Vec<u64>, sends_fail: Vec<u64>) -> MemLink
        ensures { IsNewLink bytes.items result }
    {
        MemLink {
            bytes,
            at: 0,
            sent: Vec::new(alloc),
            polls_fail: Calls::new(polls_fail),
            sends_fail: Calls::new(sends_fail),
            faults: 0,
        }
    }

    /// All that was sent.
    pub fn sent(&self) -> &[u8]
        ensures { result.now ≡ (line_of self.now).sent }
    {
        self.sent.as_slice()
    }
}

impl Link for MemLink {
    ghost use Rattle.nb_links.specs.Memory as memory;

    ghost faults = { λ link. link.faults };

    ghost line = { memory.told };

    fn poll(&mut self, into: &mut [u8], _patience: u32) -> Polled {
        if self.polls_fail.next() {
            self.faults = self.faults.saturating_add(1);
            return Polled::Failed;
        }
        if self.bytes.len() <= self.at {
            return Polled::End;
        }
        let count = fill(into, &self.bytes[self.at..]);
        self.at += count;
        Polled::Bytes(count)
    }

    fn send(&mut self, bytes: &[u8]) -> SendEnd {
        if self.sends_fail.next() {
            self.faults = self.faults.saturating_add(1);
            return SendEnd::Failed;
        }
        match self.sent.extend_from_slice(bytes) {
            Ok(()) => SendEnd::Wrote(bytes.len()),
            Err(_) => SendEnd::OutOfMemory,
        }
    }

    fn close(&mut self) {}
}
