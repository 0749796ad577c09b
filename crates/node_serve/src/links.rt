//! The links that come at a door are served, each in a thread of its own.

ghost use Rattle.std.specs.Prelude.{◌≡◌, ◌≤◌, ◌⊎◌, true};
ghost use Rattle.nb_outside.specs.Counts.{HasRisen};
ghost use Rattle.node_serve.specs.Doors as spec;

use crate::serve::serve_link;
use crate::shared_feeds::{LentFeeds, SharedFeeds};
use command_words::status;
use host_workers::Gate;
use nb_links::{Door, DoorEnd, Link};
use nb_outside::Feeds;
use session_core::Engine;
use std::alloc::Global;
use std::sync::{Mutex, Wait};
use std::thread::{Threads, join_mut};
use std::time::Clock;

/// How many hosts each link has.
const HOSTS: u32 = 3;

/// How many workers each host of a link has.
const WORKERS: u32 = 2;

/// Serves a link. Whether memory sufficed.
fn is_served<E, L, Q, G, R>(rt: &R, alloc: Global, link: &mut L, feeds: &Mutex<Q>, gate: &G) -> bool
where
    E: Engine + Drop + Send,
    L: Link,
    Q: Feeds + Send,
    Q::Feed: Send,
    G: Gate + Sync,
    R: Threads + Wait + Clock + Sync,
    ensures served { result ≡ true → spec.IsServed E.meaning (L.line link.old) (L.faults link.old) (L.line link.new) (L.faults link.new) }
{
    let mut shared = SharedFeeds::new(rt, feeds);
    match serve_link::<E, L, SharedFeeds<'_, Q, R>, G, R>(
        rt,
        alloc,
        HOSTS,
        WORKERS,
        link,
        &mut shared,
        gate,
    ) {
        Ok(report) => {
            drop(report);
            true
        }
        Err(_) => false,
    }
}

/// Serves a link, and tells its peer that nothing more is sent. Whether memory sufficed.
fn serve_one<E, L, Q, G, R>(rt: &R, alloc: Global, link: &mut L, feeds: &Mutex<Q>, gate: &G) -> bool
where
    E: Engine + Drop + Send,
    L: Link,
    Q: Feeds + Send,
    Q::Feed: Send,
    G: Gate + Sync,
    R: Threads + Wait + Clock + Sync,
    ensures served { result ≡ true → spec.IsServed E.meaning (L.line link.old) (L.faults link.old) (L.line link.new) (L.faults link.new) }
{
    let served = is_served::<E, L, Q, G, R>(rt, alloc, link, feeds, gate);
    link.close();
    served
}

/// Serves a link while so many further ones come at the door, which are served and given back to it. Whether memory sufficed for
/// the link, and how serving the others ended.
#[cycle(serving)]
fn serve_beside<E, D, Q, G, R>(
    rt: &R,
    alloc: Global,
    left: u32,
    link: &mut D::Link,
    door: &mut D,
    feeds: &Mutex<Q>,
    gate: &G,
) -> (bool, u8)
where
    E: Engine + Drop + Send,
    D: Door,
    D::Link: Send,
    Q: Feeds + Send,
    Q::Feed: Send,
    G: Gate + Sync,
    R: Threads + Wait + Clock + Sync,
    ensures served { result.0 ≡ true → spec.IsServed E.meaning (D.Link.line link.old) (D.Link.faults link.old) (D.Link.line link.new) (D.Link.faults link.new) }
    ensures links { spec.LinksServed E.meaning D.Link.line D.Link.faults left result.1 (D.passed door.old) (D.passed door.new) }
    ensures fault { result.1 ≡ 11 → HasRisen (D.faults door.old) (D.faults door.new) }
    ensures statuses { (result.1 ≡ 0) ⊎ ((result.1 ≡ 5) ⊎ (result.1 ≡ 11)) }
    ensures faults_stay { D.faults door.old ≤ D.faults door.new }
{
    join_mut(
        rt,
        &mut || -> bool
            ensures served { result ≡ true → spec.IsServed E.meaning (D.Link.line link.entry.now) (D.Link.faults link.entry.now) (D.Link.line link.exit.now) (D.Link.faults link.exit.now) }
        { serve_one::<E, D::Link, Q, G, R>(rt, alloc, link, feeds, gate) },
        &mut || -> u8
            ensures links { spec.LinksServed E.meaning D.Link.line D.Link.faults left result (D.passed door.entry.now) (D.passed door.exit.now) }
            ensures fault { result ≡ 11 → HasRisen (D.faults door.entry.now) (D.faults door.exit.now) }
            ensures statuses { (result ≡ 0) ⊎ ((result ≡ 5) ⊎ (result ≡ 11)) }
            ensures faults_stay { D.faults door.entry.now ≤ D.faults door.exit.now }
        { serve_next::<E, D, Q, G, R>(rt, alloc, left, door, feeds, gate) },
    )
}

/// Serves so many links that come at the door, and gives each back to it.
#[cycle(serving)]
fn serve_next<E, D, Q, G, R>(
    rt: &R,
    alloc: Global,
    links: u32,
    door: &mut D,
    feeds: &Mutex<Q>,
    gate: &G,
) -> u8
where
    E: Engine + Drop + Send,
    D: Door,
    D::Link: Send,
    Q: Feeds + Send,
    Q::Feed: Send,
    G: Gate + Sync,
    R: Threads + Wait + Clock + Sync,
    ensures links { spec.LinksServed E.meaning D.Link.line D.Link.faults links result (D.passed door.old) (D.passed door.new) }
    ensures fault { result ≡ 11 → HasRisen (D.faults door.old) (D.faults door.new) }
    ensures statuses { (result ≡ 0) ⊎ ((result ≡ 5) ⊎ (result ≡ 11)) }
    ensures faults_stay { D.faults door.old ≤ D.faults door.new }
{
    if links == 0 {
        return status::DONE;
    }
    let DoorEnd::Came(link) = door.next_link(rt) else {
        return status::DOOR_FAULT;
    };
    let mut link = link;
    let (is_served, others) = serve_beside::<E, D, Q, G, R>(
        rt,
        alloc,
        links - 1,
        &mut link,
        door,
        feeds,
        gate,
    );
    door.close_link(link);
    if is_served {
        others
    } else {
        status::OUT_OF_MEMORY
    }
}

/// Serves so many links that come at the door, each in a thread of its own as far as threads can be made, and gives each back to the
/// door once all are served. Each link has 3 hosts with 2 workers each. All draw from the same feeds, which are behind a lock.
///
/// Returns status 0 if all came and were served, 11 after a fault of the door, and 5 if memory ran out for a link. Links that came
/// before the fault are served all the same.
pub fn serve_links<E, D, Q, G, R>(
    rt: &R,
    alloc: Global,
    links: u32,
    door: &mut D,
    feeds: &mut Q,
    gate: &G,
) -> u8
where
    E: Engine + Drop + Send,
    D: Door,
    D::Link: Send,
    Q: Feeds + Send,
    Q::Feed: Send,
    G: Gate + Sync,
    R: Threads + Wait + Clock + Sync,
    ensures links { spec.LinksServed E.meaning D.Link.line D.Link.faults links result (D.passed door.old) (D.passed door.new) }
    ensures fault { result ≡ 11 → HasRisen (D.faults door.old) (D.faults door.new) }
    ensures statuses { (result ≡ 0) ⊎ ((result ≡ 5) ⊎ (result ≡ 11)) }
{
    let lent = Mutex::new(LentFeeds::new(feeds));
    serve_next::<E, D, LentFeeds<'_, Q>, G, R>(rt, alloc, links, door, &lent, gate)
}
