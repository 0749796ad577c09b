ghost use Rattle.std.specs.Prelude.{◌≡◌, ℕ, ◌≤◌, List, Option};
ghost use Rattle.nb_outside.specs.Counts.{HasRisen};
ghost use Rattle.nb_outside.specs.Streams.{Writes};

/// What a write answers.
#[derive(Clone, Copy, Debug, PartialEq, Eq)]
pub enum WriteEnd {
    /// This many bytes of the piece are written: at least one, if the piece isn't empty.
    Wrote(usize),
    /// The sink met a fault; taking nothing of a piece that isn't empty is one. Nothing was written.
    Failed,
}

/// Where bytes go.
pub trait Sink {
    // How many faults it has met.
    ghost faults: { Self → ℕ };

    // All that was written to it, if it tells.
    ghost written: { Self → Option (List ℕ) };

    /// Writes the first of the bytes.
    fn write(&mut self, bytes: &[u8]) -> WriteEnd
        ensures bytes { Writes (written self.old) (written self.new) result bytes.now }
        ensures faults_stay { faults self.old ≤ faults self.new }
        ensures failed { result ≡ WriteEnd.Failed → HasRisen (faults self.old) (faults self.new) };
}
