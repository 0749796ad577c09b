ghost use Rattle.std.specs.Prelude.{◌≡◌, ℕ, ◌≤◌, List, Option};
ghost use Rattle.nb_outside.specs.Counts.{HasRisen};
ghost use Rattle.nb_outside.specs.Streams.{Reads, counted_read};

/// What a read answers.
#[derive(Clone, Copy, Debug, PartialEq, Eq)]
pub enum ReadEnd {
    /// This many bytes are at the front of the piece now. 0 for a piece with room is the end of the input.
    Bytes(usize),
    /// The source met a fault. Nothing was taken.
    Failed,
}

/// Where bytes come from.
pub trait Source {
    // How many faults it has met.
    ghost faults: { Self → ℕ };

    // How many reads took a byte.
    ghost reads: { Self → ℕ };

    // The bytes that it has left, if it tells them.
    ghost left: { Self → Option (List ℕ) };

    /// Reads some bytes to the front of `into`.
    fn read(&mut self, into: &mut [u8]) -> ReadEnd
        ensures bytes { Reads (left self.old) (left self.new) result into.new }
        ensures counted { reads self.new ≡ counted_read result (reads self.old) }
        ensures faults_stay { faults self.old ≤ faults self.new }
        ensures failed { result ≡ ReadEnd.Failed → HasRisen (faults self.old) (faults self.new) };
}
