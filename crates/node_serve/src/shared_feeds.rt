ghost use Rattle.std.specs.Prelude.{None};

use nb_outside::{Drawn, Feed, Feeds};
use std::alloc::{AllocError, Global};
use std::sync::{Mutex, Wait};

/// A feed that tells nothing of what it gives.
#[derive(Debug, Drop)]
pub struct Untold<F: Feed> {
    feed: F,
}

impl<F: Feed> Feed for Untold<F> {
    ghost seen = { λ feed. record { made = None; left = None; faults = (F.seen feed.feed).faults } };

    fn draw(&mut self) -> Drawn {
        self.feed.draw()
    }
}

/// The feeds of sessions of several links, each of which is served in a thread of its own: feeds from behind a lock. It tells
/// nothing of what they give.
#[derive(Drop)]
pub struct SharedFeeds<'a, Q: Feeds, R: Wait> {
    feeds: &'a Mutex<Q>,
    rt: &'a R,
}

impl<'a, Q: Feeds, R: Wait> SharedFeeds<'a, Q, R> {
    /// The feeds behind this lock. Takes no memory.
    pub fn new(rt: &'a R, feeds: &'a Mutex<Q>) -> SharedFeeds<'a, Q, R> {
        SharedFeeds { feeds, rt }
    }
}

impl<'a, Q: Feeds, R: Wait> Feeds for SharedFeeds<'a, Q, R> {
    type Feed = Untold<Q::Feed>;

    ghost gives = { λ feeds kernel. None };

    /// Waits for the lock.
    fn open(&mut self, alloc: Global, kernel: u128) -> Result<Untold<Q::Feed>, AllocError> {
        let feed = self.feeds.lock(self.rt).open(alloc, kernel)?;
        Ok(Untold { feed })
    }
}

/// Feeds that are lent.
#[derive(Drop)]
pub struct LentFeeds<'a, Q: Feeds> {
    feeds: &'a mut Q,
}

impl<'a, Q: Feeds> LentFeeds<'a, Q> {
    /// These feeds, for as long as they are lent. Takes no memory.
    pub fn new(feeds: &'a mut Q) -> LentFeeds<'a, Q> {
        LentFeeds { feeds }
    }
}

impl<'a, Q: Feeds> Feeds for LentFeeds<'a, Q> {
    type Feed = Q::Feed;

    ghost gives = { λ feeds. Q.gives feeds.feeds.now };

    fn open(&mut self, alloc: Global, kernel: u128) -> Result<Q::Feed, AllocError> {
        self.feeds.open(alloc, kernel)
    }
}
