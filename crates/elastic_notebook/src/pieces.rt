//! A source that gives a few bytes at each read, and whose reads fail as a test says.

use crate::waiting::fill;
use nb_outside::{ReadEnd, Source};
use std::alloc::{AllocError, Global};

/// A source of bytes in pieces. It tells nothing.
#[derive(Drop)]
pub struct PieceSource {
    /// The pieces that are left, the next one last.
    pieces: Vec<Vec<u8>>,
    /// The read that is to fail, counted from 1.
    fails: u64,
    calls: u64,
    reads: u64,
    faults: u64,
}

impl PieceSource {
    /// A source of these bytes that gives at most `most` of them at a read (0 is as 1), and whose read with this number, counted from 1,
    /// fails.
    pub fn new(
        alloc: Global,
        bytes: &[u8],
        most: usize,
        fails: u64,
    ) -> Result<PieceSource, AllocError> {
        let mut pieces = Vec::new(alloc);
        for piece in bytes.chunks(most.max(1)) {
            pieces.push(piece.to_vec(alloc)?)?;
        }
        pieces.reverse();
        Ok(PieceSource {
            pieces,
            fails,
            calls: 0,
            reads: 0,
            faults: 0,
        })
    }
}

impl Source for PieceSource {
    ghost use Rattle.std.specs.Prelude.{None};

    ghost faults = { λ source. source.faults };

    ghost reads = { λ source. source.reads };

    ghost left = { λ source. None };

    fn read(&mut self, into: &mut [u8]) -> ReadEnd {
        self.calls = self.calls.saturating_add(1);
        if self.calls == self.fails {
            self.faults = self.faults.saturating_add(1);
            return ReadEnd::Failed;
        }
        let Some(piece) = self.pieces.pop() else {
            return ReadEnd::Bytes(0);
        };
        let count = fill(into, piece.as_slice());
        if 0 < count {
            self.reads = self.reads.saturating_add(1);
        }
        ReadEnd::Bytes(count)
    }
}
