ghost use Rattle.std.specs.Prelude.{◌≡◌, ◌≤◌, [], Some, vec_len, IfOk};

use crate::feed::{Drawn, Feed, Feeds};
use std::alloc::{AllocError, Global};

/// A feed over memory, which tells what it was made with and what is left.
#[derive(Debug, Drop)]
pub struct MemFeed {
    answers: Vec<Drawn>,
    at: usize,
    faults: u64,
    ghost within: { at ≤ vec_len answers },
}

impl MemFeed {
    ghost use Rattle.nb_outside.specs.Memory.{seen_feed, IsNewFeed};

    /// A feed that gives these answers, in order, and then fails. The draws that are to fail are among them as `Failed`.
    /// Takes no memory.
    pub fn new(answers: Vec<Drawn>) -> MemFeed
        ensures { IsNewFeed answers.items (seen_feed result) }
    {
        MemFeed {
            answers,
            at: 0,
            faults: 0,
        }
    }
}

impl Feed for MemFeed {
    ghost use Rattle.nb_outside.specs.Memory.{seen_feed};

    ghost seen = { seen_feed };

    fn draw(&mut self) -> Drawn {
        let drawn = match self.answers.get(self.at) {
            Some(drawn) => *drawn,
            None => Drawn::Failed,
        };
        if self.at < self.answers.len() {
            self.at += 1;
        }
        if drawn == Drawn::Failed {
            self.faults = self.faults.saturating_add(1);
        }
        drawn
    }
}

/// Feeds over memory: each session's feed gives the same answers.
#[derive(Debug, Drop)]
pub struct MemFeeds {
    answers: Vec<Drawn>,
}

impl MemFeeds {
    ghost use Rattle.nb_outside.specs.Memory.{answers_of};

    /// Feeds that give these answers each. Takes no memory.
    pub fn new(answers: Vec<Drawn>) -> MemFeeds
        ensures { answers_of result ≡ answers.items }
    {
        MemFeeds { answers }
    }
}

impl Feeds for MemFeeds {
    ghost use Rattle.nb_outside.specs.Memory.{answers_of, given_by, seen_feed, IsNewFeed};
    ghost use Rattle.nb_outside.specs.Feeds.{HasAll};

    type Feed = MemFeed;

    ghost gives = { given_by };

    fn open(&mut self, alloc: Global, _kernel: u128) -> Result<MemFeed, AllocError>
        ensures all { IfOk result (λ feed. HasAll (seen_feed feed)) }
        ensures made { IfOk result (λ feed. (seen_feed feed).made ≡ given_by self.old _kernel) }
        ensures same { given_by self.new ≡ given_by self.old }
        ensures new { IfOk result (λ feed. IsNewFeed (answers_of self.old) (seen_feed feed)) }
        ensures answers { answers_of self.new ≡ answers_of self.old }
    {
        let answers = Vec::from_slice(alloc, self.answers.as_slice())?;
        Ok(MemFeed::new(answers))
    }
}

/// The feed that has nothing to give: each draw fails.
#[derive(Debug, Drop)]
pub struct NoFeed {
    faults: u64,
}

impl NoFeed {
    ghost use Rattle.nb_outside.specs.Memory.{seen_none, IsNewFeed};

    /// Takes no memory.
    pub fn new() -> NoFeed
        ensures { IsNewFeed [] (seen_none result) }
    {
        NoFeed { faults: 0 }
    }
}

impl Feed for NoFeed {
    ghost use Rattle.std.specs.Prelude.{◌≡◌};
    ghost use Rattle.nb_outside.specs.Memory.{seen_none};
    ghost use Rattle.nb_outside.specs.Feeds.{Gives};

    ghost seen = { seen_none };

    fn draw(&mut self) -> Drawn
        ensures gives { Gives (seen_none self.old) result (seen_none self.new) }
        ensures never { result ≡ Drawn.Failed }
    {
        self.faults = self.faults.saturating_add(1);
        Drawn::Failed
    }
}
