ghost use Rattle.std.specs.Prelude.{◌≡◌, ℕ, ◌≤◌, Option};
ghost use Rattle.nb_outside.specs.Counts.{HasRisen};
ghost use Rattle.nb_links.specs.Doors.{Passed, IsOut, TakesBack};
ghost use Rattle.nb_links.specs.Opening.{Answers};

use crate::link::Link;
use std::sync::Wait;

/// What a door answers.
#[derive(Drop)]
pub enum DoorEnd<L: Link> {
    /// This link came.
    Came(L),
    /// The door met a fault. No link came.
    Failed,
}

/// Where links come from.
pub trait Door {
    /// The links that come here.
    type Link: Link;

    // How many faults it has met.
    ghost faults: { Self → ℕ };

    // How many links came and which were taken back, if it tells that.
    ghost passed: { Self → Option (Passed Self.Link) };

    /// The next link. It waits until one comes.
    fn next_link<R: Wait>(&mut self, rt: &R) -> DoorEnd<Self::Link>
        ensures came { Answers Self.Link.line Self.Link.faults (passed self.old) (passed self.new) result }
        ensures faults_stay { faults self.old ≤ faults self.new }
        ensures failed { result ≡ DoorEnd.Failed → HasRisen (faults self.old) (faults self.new) };

    /// Takes back a link that came. Takes no memory.
    fn close_link(&mut self, link: Self::Link)
        requires { IsOut (passed self.old) }
        ensures back { TakesBack (passed self.old) (passed self.new) link }
        ensures faults { faults self.new ≡ faults self.old };
}
