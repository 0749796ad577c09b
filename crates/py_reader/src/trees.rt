ghost use Rattle.std.specs.Prelude.{◌≡◌, ◌<◌, Ok, IfSome};
ghost use Rattle.py_reader.specs.Verdict.{verdict};
ghost use Rattle.py_reader.specs.Kept.{AreRead};

use plain_data::{Items, Text, TextMap};
use py_tree::Stmt;
use std::alloc::Global;

/// The most codes whose trees are kept.
const MOST_CODES: usize = 100;

/// The most bytes of such a code. So the codes that are kept have fewer bytes together than one code of the greatest length.
const MOST_BYTES: usize = 1_000;

/// The statements of codes that were read. If there are too many, all are dropped, and those that come after are kept.
#[derive(Drop)]
pub struct Trees {
    bodies: TextMap<Items<Stmt>>,
    /// How many codes there are.
    count: usize,
    ghost read: { AreRead bodies },
}

impl Trees {
    /// None yet. Takes no memory.
    pub fn new(alloc: Global) -> Trees {
        Trees {
            bodies: TextMap::new(alloc),
            count: 0,
        }
    }

    /// The statements of a code, if they are kept.
    pub fn look(&self, alloc: Global, code: &str) -> Option<&Items<Stmt>>
        ensures { IfSome result (λ body. verdict code.now ≡ Ok body.now) }
    {
        if self.count == 0 || code.len() > MOST_BYTES {
            return None;
        }
        match Text::new(alloc, code) {
            Ok(key) => self.bodies.look(&key),
            Err(_) => None,
        }
    }

    /// Drops all if there are too many.
    fn make_room(&mut self, alloc: Global)
        ensures { self.new.count < 100 }
    {
        if self.count >= MOST_CODES {
            self.bodies = TextMap::new(alloc);
            self.count = 0;
        }
    }

    /// Adds the statements of a code, if there is memory for them.
    fn add(&mut self, code: Text, body: Items<Stmt>)
        requires room { self.old.count < 100 }
        requires read { verdict code ≡ Ok body }
    {
        match self.bodies.bind(code, body) {
            Ok(()) => self.count += 1,
            Err(_) => {}
        }
    }

    /// Keeps the statements of a code, unless it is too long or there is no memory for it.
    pub fn keep(&mut self, alloc: Global, code: &str, body: Items<Stmt>)
        requires { verdict code.now ≡ Ok body }
    {
        if code.len() > MOST_BYTES {
            return;
        }
        let Ok(key) = Text::new(alloc, code) else {
            return;
        };
        self.make_room(alloc);
        self.add(key, body);
    }
}
