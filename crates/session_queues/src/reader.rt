ghost use Rattle.std.specs.Prelude.{◌≡◌, [], ◌∷◌, ◌++◌, MatchOption};

use crate::shared::SharedQueues;
use ruled_queue::Seat;
use session_core::Entry;
use std::marker::Model;
use std::sync::Wait;

/// The one reader of a session's entries.
#[derive(Drop)]
pub struct Reader {
    pub(crate) out: Seat<Entry>,
    /// How many entries it took. The count is right as long as it is below 2^32.
    pub(crate) taken: u32,
}

impl Model for Reader {
    ghost use Rattle.std.specs.Prelude.{◌≡◌, None, length};
    ghost use Rattle.session_queues.specs.Passes.{Counts};
    ghost use Rattle.session_queues.specs.Ends.{OnOut, takes};

    ghost Value = { OnOut };

    ghost view = { λ r. record { out_queue = record { web = r.out.web; heap = r.out.heap }; entries = r.out.me.view.client.popped } };

    ghost invariant = { λ r. (r.out.me.hand ≡ None) × (r.out.me.spare ≡ None) × (r.out.me.view.client ≡ takes r.out.me.view.client.popped)
        × Counts r.taken (length r.out.me.view.client.popped) };
}

impl Reader {
    /// Takes the next entry. None if none was there at a step of this call. Takes no memory.
    pub fn read<R: Wait>(&mut self, rt: &R, shared: &SharedQueues) -> Option<Entry>
        requires { self.old.out_queue ≡ shared.now.out }
        ensures { MatchOption result (self.new ≡ self.old) (λ entry. self.new ≡ record self.old { entries = self.old.entries ++ entry ∷ [] }) }
    {
        match ruled_queue::pop(rt, &shared.out, &mut self.out) {
            None => None,
            Some(entry) => {
                self.taken = self.taken.wrapping_add(1);
                Some(entry)
            }
        }
    }
}
