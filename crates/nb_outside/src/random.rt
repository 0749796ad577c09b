ghost use Rattle.std.specs.Prelude.{None};

use crate::feed::{Drawn, Feed, Feeds};
use std::alloc::{AllocError, Global};
use std::random::RandomSource;

/// A feed of random words, as from the runtime. It tells nothing of them.
#[derive(Debug, Drop)]
pub struct RandomFeed<S: RandomSource + Drop> {
    random: S,
    faults: u64,
}

impl<S: RandomSource + Drop> Feed for RandomFeed<S> {
    ghost seen = { λ feed. record { made = None; left = None; faults = feed.faults } };

    fn draw(&mut self) -> Drawn {
        let mut bytes = [0u8; 8];
        match self.random.fill_bytes(&mut bytes) {
            Ok(()) => Drawn::Word(u64::from_be_bytes(bytes)),
            Err(_) => {
                self.faults = self.faults.saturating_add(1);
                Drawn::Failed
            }
        }
    }
}

/// Feeds of random words from any source of random bytes, as the runtime: each session's feed draws from it.
#[derive(Debug, Drop)]
pub struct RandomFeeds<S: RandomSource + Copy> {
    random: S,
}

impl<S: RandomSource + Copy> RandomFeeds<S> {
    /// Feeds that draw from this source. Takes no memory.
    pub fn new(random: S) -> RandomFeeds<S> {
        RandomFeeds { random }
    }
}

impl<S: RandomSource + Copy> Feeds for RandomFeeds<S> {
    type Feed = RandomFeed<S>;

    ghost gives = { λ feeds kernel. None };

    fn open(&mut self, _alloc: Global, _kernel: u128) -> Result<RandomFeed<S>, AllocError> {
        Ok(RandomFeed {
            random: self.random,
            faults: 0,
        })
    }
}
