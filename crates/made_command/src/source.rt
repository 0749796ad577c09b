ghost use Rattle.std.specs.Prelude.{◌≡◌, ◌≤◌, ◌<◌, ◌++◌, Some, drop, length, min, take};

use nb_outside::{ReadEnd, Source};
use plain_data::Items;

/// Copies as many bytes as fit to the front of `into`, and says how many.
fn fill(into: &mut [u8], from: &[u8]) -> usize
    ensures count { result ≡ min (length from.now) (length into.old) }
    ensures parted { from.now ≡ take result into.new ++ drop result from.now }
{
    let count = from.len().min(into.len());
    into[..count].copy_from_slice(&from[..count]);
    count
}

/// The bytes of a stream, as a source that never fails.
#[derive(Debug, Drop)]
pub struct MadeSource {
    bytes: Items<u8>,
    at: usize,
    reads: u64,
    ghost within: { at ≤ length bytes },
    ghost few: { reads ≤ at },
    ghost short: { length bytes < 4294967295 },
}

impl MadeSource {
    /// A source of these bytes. Takes no memory.
    pub fn new(bytes: Items<u8>) -> MadeSource
        requires { length bytes < 4294967295 }
        ensures left { drop result.at result.bytes ≡ bytes }
        ensures bytes { result.bytes ≡ bytes }
        ensures reads { result.reads ≡ 0 }
    {
        MadeSource {
            bytes,
            at: 0,
            reads: 0,
        }
    }
}

impl Source for MadeSource {
    ghost faults = { λ source. 0 };

    ghost reads = { λ source. source.reads };

    ghost left = { λ source. Some (drop source.at source.bytes) };

    fn read(&mut self, into: &mut [u8]) -> ReadEnd {
        let count = fill(into, &self.bytes.as_slice()[self.at..]);
        self.at += count;
        if 0 < count {
            self.reads = self.reads.saturating_add(1);
        }
        ReadEnd::Bytes(count)
    }
}
