ghost use Rattle.std.specs.Prelude.{◌≡◌, ◌<◌, [], false, MatchResult};
ghost use Rattle.nb_outside.specs.Feeds.{HasAll};
ghost use Rattle.session_queues.specs.declared.items.MainItem.{MainItem};
ghost use Rattle.session_queues.specs.Ends.{first_pass, nothing_on};
ghost use Rattle.session_gate.specs.Facts.{IsResident};
ghost use Rattle.session_gate.specs.Custodies.{IsNew};

use crate::resident::Resident;
use nb_outside::Feed;
use session_core::{Channel, Engine, Header, Journal};
use session_queues::{Opened, Pass, Queues, Reader};
use std::alloc::Global;
use std::sync::Wait;

impl<E: Engine + Drop, F: Feed> Resident<E, F> {
    /// Opens a session, and gives its owner, the first pass and the one reader. The queues come back for want of memory alone.
    pub fn open<R: Wait>(
        rt: &R,
        alloc: Global,
        queues: Queues,
        number: u32,
        kernel: u128,
        hosts: u32,
        engine: E,
        feed: F,
        host: u32,
        request: Header,
        channel: Channel,
    ) -> Result<(Resident<E, F>, Pass, Reader), Queues>
        requires host { host < hosts }
        requires engine { E.stands_for engine [] × (E.host_of engine ≡ host) }
        requires feed { HasAll (F.seen feed) }
        ensures { MatchResult result
            (λ made. IsNew engine feed queues number kernel hosts host request channel made.0 × (made.1 ≡ first_pass queues (MainItem.Opening kernel host request channel)) × (made.2 ≡ nothing_on queues))
            (λ back. back ≡ queues) }
    {
        let Ok(copy) = request.copy(alloc) else {
            return Err(queues);
        };
        let Ok(journal) = Journal::opened(alloc, host, copy, channel) else {
            return Err(queues);
        };
        match queues.open(rt, kernel, host, request, channel) {
            Ok(opened) => Ok(begin(opened, journal, number, kernel, hosts, engine, feed)),
            Err(queues) => Err(queues),
        }
    }
}

/// The owner of a session, with the first pass and the one reader.
fn begin<E: Engine, F: Feed>(
    opened: Opened,
    journal: Journal,
    number: u32,
    kernel: u128,
    hosts: u32,
    engine: E,
    feed: F,
) -> (Resident<E, F>, Pass, Reader)
    requires new { IsResident E.meaning (E.stands_for engine) (E.host_of engine) (F.seen feed) hosts false 0 kernel journal.entries opened.ends opened.outlet }
    ensures resident { result.0 ≡ record { engine = engine; feed = feed; entries = journal.entries; spare = journal.spare; ends = opened.ends; out = opened.outlet; number = number; kernel = kernel; hosts = hosts } }
    ensures pass { result.1 ≡ opened.pass }
    ensures reader { result.2 ≡ opened.reader }
{
    let Opened {
        ends,
        outlet,
        pass,
        reader,
    } = opened;
    let resident = Resident {
        engine,
        feed,
        journal,
        ends,
        outlet,
        number,
        kernel,
        hosts,
        dead: false,
        count: 0,
    };
    (resident, pass, reader)
}
