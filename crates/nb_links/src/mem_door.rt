ghost use Rattle.std.specs.Prelude.{◌≡◌, ◌≤◌, ◌+◌, vec_len, vec_capacity, IfOk};

use crate::door::{Door, DoorEnd};
use crate::mem_link::MemLink;
use std::alloc::{AllocError, Global};
use std::sync::Wait;

/// What a link gives, and which of its polls and sends fail, by their numbers from 1.
#[derive(Debug, Drop)]
pub struct Script {
    pub bytes: Vec<u8>,
    pub polls_fail: Vec<u64>,
    pub sends_fail: Vec<u64>,
}

/// A door over memory, at which links come, one for each script, and which then fails at each call. It tells all.
#[derive(Debug, Drop)]
pub struct MemDoor {
    alloc: Global,
    /// The scripts of those that are to come, the next one last.
    coming: Vec<Script>,
    came: usize,
    back: Vec<MemLink>,
    faults: u64,
    ghost room: { came + vec_len coming ≤ vec_capacity back },
    ghost few: { vec_len back ≤ came },
}

impl MemDoor {
    ghost use Rattle.nb_links.specs.Memory.{back_at, IsNewDoor};

    /// A door at which a link comes for each script, the last one first. It takes the room for all that come back.
    pub fn new(alloc: Global, scripts: Vec<Script>) -> Result<MemDoor, AllocError>
        ensures { IfOk result IsNewDoor }
    {
        let mut back = Vec::new(alloc);
        back.reserve(scripts.len())?;
        Ok(MemDoor {
            alloc,
            coming: scripts,
            came: 0,
            back,
            faults: 0,
        })
    }

    /// The links that were taken back, in order.
    pub fn back(&self) -> &[MemLink]
        ensures { result.now ≡ back_at self.now }
    {
        self.back.as_slice()
    }
}

impl Door for MemDoor {
    ghost use Rattle.nb_links.specs.Memory as memory;

    type Link = MemLink;

    ghost faults = { λ door. door.faults };

    ghost passed = { memory.passed };

    fn next_link<R: Wait>(&mut self, _rt: &R) -> DoorEnd<MemLink> {
        match self.coming.pop() {
            Some(script) => {
                let Script {
                    bytes,
                    polls_fail,
                    sends_fail,
                } = script;
                self.came += 1;
                DoorEnd::Came(MemLink::new(self.alloc, bytes, polls_fail, sends_fail))
            }
            None => {
                self.faults = self.faults.saturating_add(1);
                DoorEnd::Failed
            }
        }
    }

    fn close_link(&mut self, link: MemLink) {
        self.back.push_reserved(link);
    }
}
