ghost use Rattle.std.specs.Prelude.{◌≡◌, ℕ, ◌<◌, ◌≤◌, length, Option};
ghost use Rattle.nb_outside.specs.Counts.{HasRisen};
ghost use Rattle.nb_links.specs.Lines.{Line, Polls, Sends};

/// What a poll answers.
#[derive(Clone, Copy, Debug, PartialEq, Eq)]
pub enum Polled {
    /// This many bytes, at least one, are at the front of the piece now.
    Bytes(usize),
    /// Nothing is ready yet. Nothing was taken. The same holds for each other answer.
    NotYet,
    /// The peer sends nothing any more.
    End,
    /// The link met a fault.
    Failed,
    /// Memory ran out.
    OutOfMemory,
}

/// What a send answers.
#[derive(Clone, Copy, Debug, PartialEq, Eq)]
pub enum SendEnd {
    /// This many bytes of the piece are sent: at least one, if the piece isn't empty.
    Wrote(usize),
    /// The link met a fault; taking nothing of a piece that isn't empty is one. Nothing was sent.
    Failed,
    /// Memory ran out. Nothing was sent.
    OutOfMemory,
}

/// A connection to a frontend.
pub trait Link: Drop {
    // How many faults it has met.
    ghost faults: { Self → ℕ };

    // What it gave, what it has left and what it was sent, if it tells them.
    ghost line: { Self → Option Line };

    /// Takes some bytes to the front of `into`. If nothing is ready it may wait for bytes, for about so many milliseconds at most.
    fn poll(&mut self, into: &mut [u8], patience: u32) -> Polled
        requires { 0 < length into.old }
        ensures bytes { Polls (line self.old) (line self.new) result into.new }
        ensures faults_stay { faults self.old ≤ faults self.new }
        ensures failed { result ≡ Polled.Failed → HasRisen (faults self.old) (faults self.new) };

    /// Sends the first of the bytes.
    fn send(&mut self, bytes: &[u8]) -> SendEnd
        ensures bytes { Sends (line self.old) (line self.new) result bytes.now }
        ensures faults_stay { faults self.old ≤ faults self.new }
        ensures failed { result ≡ SendEnd.Failed → HasRisen (faults self.old) (faults self.new) };

    /// Tells the peer that nothing more is sent, and that nothing more is read, as far as it can be told.
    fn close(&mut self)
        ensures line { line self.new ≡ line self.old }
        ensures faults { faults self.new ≡ faults self.old };
}
