ghost use Rattle.std.specs.Prelude.{◌≡◌, ◌<◌, ◌≤◌, [], Some, ◌++◌, take, drop, min, length, vec_len};

use crate::sink::{Sink, WriteEnd};
use crate::source::{ReadEnd, Source};
use std::alloc::Global;

/// Copies as many bytes as fit to the front of `into`, and says how many.
fn fill(into: &mut [u8], from: &[u8]) -> usize
    ensures count { result ≡ min (length from.now) (length into.old) }
    ensures parted { from.now ≡ take result into.new ++ drop result from.now }
{
    let count = from.len().min(into.len());
    into[..count].copy_from_slice(&from[..count]);
    count
}

/// Which calls are to fail, by their numbers from 1.
#[derive(Debug, Drop)]
struct Fails {
    numbers: Vec<u64>,
    calls: u64,
}

impl Fails {
    /// Counts a call, and says whether it is to fail.
    fn next(&mut self) -> bool {
        self.calls = self.calls.saturating_add(1);
        self.numbers.contains(&self.calls)
    }
}

/// A source over memory, which tells what it has left. Each read gives as many bytes as fit.
#[derive(Debug, Drop)]
pub struct MemSource {
    bytes: Vec<u8>,
    at: usize,
    fails: Fails,
    reads: u64,
    faults: u64,
    ghost within: { at ≤ vec_len bytes },
}

impl MemSource {
    ghost use Rattle.nb_outside.specs.Memory.{left, IsNewSource};

    /// A source of these bytes whose calls with the numbers in `fails`, counted from 1, fail. Takes no memory.
    pub fn new(bytes: Vec<u8>, fails: Vec<u64>) -> MemSource
        ensures left { left result ≡ Some bytes.items }
        ensures counts { IsNewSource result }
    {
        MemSource {
            bytes,
            at: 0,
            fails: Fails {
                numbers: fails,
                calls: 0,
            },
            reads: 0,
            faults: 0,
        }
    }
}

impl Source for MemSource {
    ghost use Rattle.nb_outside.specs.Memory as memory;

    ghost faults = { λ source. source.faults };

    ghost reads = { λ source. source.reads };

    ghost left = { memory.left };

    fn read(&mut self, into: &mut [u8]) -> ReadEnd {
        if self.fails.next() {
            self.faults = self.faults.saturating_add(1);
            return ReadEnd::Failed;
        }
        let count = fill(into, &self.bytes[self.at..]);
        self.at += count;
        if 0 < count {
            self.reads = self.reads.saturating_add(1);
        }
        ReadEnd::Bytes(count)
    }
}

/// A sink over memory, which tells what was written. Each write takes at most as many bytes as it was made for.
#[derive(Debug, Drop)]
pub struct MemSink {
    bytes: Vec<u8>,
    most: usize,
    fails: Fails,
    faults: u64,
    ghost takes: { 0 < most },
}

impl MemSink {
    ghost use Rattle.nb_outside.specs.Memory.{written, IsNewSink};

    /// An empty sink that takes at most `most` bytes at a write (0 is as 1), and whose calls with the numbers in
    /// `fails`, counted from 1, fail. Want of memory counts as a fault. Takes no memory.
    pub fn new(alloc: Global, most: usize, fails: Vec<u64>) -> MemSink
        ensures written { written result ≡ Some [] }
        ensures counts { IsNewSink result }
    {
        MemSink {
            bytes: Vec::new(alloc),
            most: most.max(1),
            fails: Fails {
                numbers: fails,
                calls: 0,
            },
            faults: 0,
        }
    }

    /// All that was written.
    pub fn written(&self) -> &[u8]
        ensures { Some result.now ≡ written self.now }
    {
        self.bytes.as_slice()
    }
}

impl Sink for MemSink {
    ghost use Rattle.nb_outside.specs.Memory as memory;

    ghost faults = { λ sink. sink.faults };

    ghost written = { memory.written };

    fn write(&mut self, bytes: &[u8]) -> WriteEnd {
        if self.fails.next() {
            self.faults = self.faults.saturating_add(1);
            return WriteEnd::Failed;
        }
        let count = bytes.len().min(self.most);
        match self.bytes.extend_from_slice(&bytes[..count]) {
            Ok(()) => WriteEnd::Wrote(count),
            Err(_) => {
                self.faults = self.faults.saturating_add(1);
                WriteEnd::Failed
            }
        }
    }
}
