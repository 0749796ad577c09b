ghost use Rattle.std.specs.Prelude.{◌≡◌, ◌<◌, ◌≤◌, ◌+◌, ℕ, Some, slice_get, length, IfOk};
ghost use Rattle.host_workers.specs.Tables.{AreNumbered, IsTable};

use crate::bell::Bell;
use crossbeam_queue::ArrayQueue;
use nb_outside::Feed;
use session_core::Engine;
use session_gate::{Name, SessionCell};
use session_queues::Queues;
use std::alloc::{AllocError, Global};
use std::marker::Model;
use std::sync::Wait;
use std::sync::atomic::{AtomicBool, AtomicU64, Ordering};

/// How many sessions a run has.
const SESSIONS: usize = 256;

/// The run queue of a host: the sessions that wait for a worker, and what idle workers sleep on.
#[derive(Drop)]
struct RunQueue {
    ready: ArrayQueue<u32, Global>,
    bell: Bell,
    /// Whether no worker works for the host.
    is_abandoned: AtomicBool,
    /// Whether the feeder put a session there and didn't ring since.
    has_more: AtomicBool,
}

/// The sessions of a run, and the run queue of each host. Feeder and workers share it.
pub struct Hosts<E: Engine, F: Feed, N: Name> {
    cells: Vec<SessionCell<E, F, N>>,
    /// How many wakes of each session aren't worked off. With none a session is in no run queue and in no worker's hands.
    wakes: Vec<AtomicU64>,
    run_queues: Vec<RunQueue>,
    /// Whether the feeder has closed.
    closed: AtomicBool,
    /// How many sessions have wakes.
    busy: AtomicU64,
}

impl<E: Engine, F: Feed, N: Name> Model for Hosts<E, F, N> {
    ghost use Rattle.std.specs.Prelude.{ℕ, List, ◌≡◌, vec_len};
    ghost use Rattle.session_queues.specs.declared.shared.SharedQueues.{SharedQueues};
    ghost use Rattle.host_workers.specs.Tables.{IsTable};

    ghost Value = { List (SharedQueues × ℕ) };

    ghost view = { λ h. h.cells.items };

    ghost invariant = { λ h. IsTable h.cells.items };
}

impl<E: Engine + Drop, F: Feed, N: Name> Hosts<E, F, N> {
    /// The sessions with these queues, none of which is open yet, and the empty run queues of so many hosts.
    pub fn new(alloc: Global, hosts: u32, queues: &[Queues]) -> Result<Hosts<E, F, N>, AllocError>
        requires queues { (N.queues ≡ queues.now) × (length queues.now ≡ 256) }
        requires hosts { N.hosts ≡ hosts }
    {
        let wakes = no_wakes(alloc)?;
        let run_queues = empty_queues(alloc, hosts)?;
        let cells = new_cells(alloc, queues)?;
        Ok(Hosts {
            cells,
            wakes,
            run_queues,
            closed: AtomicBool::new(false),
            busy: AtomicU64::new(0),
        })
    }

    /// The cell of this session.
    pub fn cell(&self, session: u32) -> &SessionCell<E, F, N>
        requires { session < 256 }
        ensures { (slice_get N.queues session ≡ Some result.now.0) × (result.now.1 ≡ session) }
    {
        let cell = &self.cells[session as usize];
        cell.is_listed();
        cell
    }

    /// Says that one more request waits for this session, which is on this host. Workers that sleep aren't woken before
    /// `ring_hosts`: to wake one costs more than a short cell.
    pub fn wake<R: Wait>(&self, rt: &R, host: u32, session: u32) {
        let Some(wakes) = self.wakes.get(session as usize) else {
            return;
        };
        if wakes.fetch_add(1, Ordering::SeqCst) == 0 {
            self.busy.fetch_add(1, Ordering::SeqCst);
            if let Some(queue) = self.put(rt, host, session) {
                queue.has_more.store(true, Ordering::SeqCst);
            }
        }
    }

    /// Wakes the workers of each host that has more to do since the last time.
    pub fn ring_hosts<R: Wait>(&self, rt: &R) {
        for queue in &self.run_queues {
            if queue.has_more.swap(false, Ordering::SeqCst) {
                queue.bell.ring(rt);
            }
        }
    }

    /// Puts a session on the run queue of a host, and gives the queue. If there is no such host, no worker there, or no room, the
    /// session is left, as any session is that is in none.
    fn put<R: Wait>(&self, rt: &R, host: u32, session: u32) -> Option<&RunQueue> {
        let Some(queue) = self.run_queues.get(host as usize) else {
            self.rest(rt, session);
            return None;
        };
        if queue.ready.push(rt, session).is_err() {
            self.rest(rt, session);
            return None;
        }
        if queue.is_abandoned.load(Ordering::SeqCst) {
            self.rest_all(rt, queue);
            return None;
        }
        Some(queue)
    }

    /// Puts a session on the run queue of another host, and wakes its workers.
    pub(crate) fn push<R: Wait>(&self, rt: &R, host: u32, session: u32) {
        if let Some(queue) = self.put(rt, host, session) {
            queue.bell.ring(rt);
        }
    }

    /// Puts a session back on the run queue of its host. The worker that does so looks there next, so no other is woken.
    pub(crate) fn put_back<R: Wait>(&self, rt: &R, host: u32, session: u32) {
        let _ = self.put(rt, host, session);
    }

    /// Says that no worker works for a host. A session that waits for one there, now or later, is left, as any session is that is in
    /// no run queue.
    pub fn abandon<R: Wait>(&self, rt: &R, host: u32) {
        if let Some(queue) = self.run_queues.get(host as usize) {
            queue.is_abandoned.store(true, Ordering::SeqCst);
            self.rest_all(rt, queue);
        }
    }

    /// Leaves the sessions that are on a run queue.
    fn rest_all<R: Wait>(&self, rt: &R, queue: &RunQueue) {
        for _ in rt.forever() {
            let Some(session) = queue.ready.pop(rt) else {
                return;
            };
            self.rest(rt, session);
        }
    }

    /// The next session for a worker of this host. None once the feeder has closed and no session has wakes.
    pub(crate) fn next<R: Wait>(&self, rt: &R, host: u32) -> Option<u32> {
        let queue = self.run_queues.get(host as usize)?;
        for _ in rt.forever() {
            let rings = queue.bell.rings(rt);
            if let Some(session) = queue.ready.pop(rt) {
                return Some(session);
            }
            if self.is_done() {
                return None;
            }
            queue.bell.wait_past(rt, rings);
        }
        unreachable!()
    }

    /// How many wakes of a session aren't worked off.
    pub(crate) fn waiting(&self, session: u32) -> u64 {
        match self.wakes.get(session as usize) {
            Some(wakes) => wakes.load(Ordering::SeqCst),
            None => 0,
        }
    }

    /// Says that so many wakes of a session are worked off. Whether more are left.
    pub(crate) fn worked_off<R: Wait>(&self, rt: &R, session: u32, count: u64) -> bool {
        let Some(wakes) = self.wakes.get(session as usize) else {
            return false;
        };
        if wakes.fetch_sub(count, Ordering::SeqCst) != count {
            return true;
        }
        self.one_rests(rt);
        false
    }

    /// Forgets the wakes of a session.
    fn rest<R: Wait>(&self, rt: &R, session: u32) {
        if let Some(wakes) = self.wakes.get(session as usize) {
            wakes.store(0, Ordering::SeqCst);
            self.one_rests(rt);
        }
    }

    /// One session has no more wakes.
    fn one_rests<R: Wait>(&self, rt: &R) {
        self.busy.fetch_sub(1, Ordering::SeqCst);
        if self.is_done() {
            self.ring_all(rt);
        }
    }

    /// Whether the feeder has closed and no session has wakes.
    fn is_done(&self) -> bool {
        self.closed.load(Ordering::SeqCst) && self.busy.load(Ordering::SeqCst) == 0
    }

    /// Says that the feeder has closed: no session is woken any more.
    pub fn close<R: Wait>(&self, rt: &R) {
        self.closed.store(true, Ordering::SeqCst);
        self.ring_all(rt);
    }

    /// Wakes all workers.
    fn ring_all<R: Wait>(&self, rt: &R) {
        for queue in &self.run_queues {
            queue.bell.ring(rt);
        }
    }

    /// The cells, in order.
    pub fn into_cells(self) -> Vec<SessionCell<E, F, N>>
        ensures cells { result.items ≡ self }
        ensures table { IsTable result.items }
    {
        let Hosts {
            cells,
            wakes: _,
            run_queues: _,
            closed: _,
            busy: _,
        } = self;
        cells
    }
}

/// A count for each session.
fn no_wakes(alloc: Global) -> Result<Vec<AtomicU64>, AllocError> {
    let mut wakes = Vec::new(alloc);
    for _ in 0..SESSIONS {
        wakes.push(AtomicU64::new(0))?;
    }
    Ok(wakes)
}

/// A run queue for each host. A session is in at most one, once.
fn empty_queues(alloc: Global, hosts: u32) -> Result<Vec<RunQueue>, AllocError> {
    let mut queues = Vec::new(alloc);
    for _ in 0..hosts {
        let ready = ArrayQueue::new(alloc, SESSIONS)?;
        let bell = Bell::new();
        queues.push(RunQueue {
            ready,
            bell,
            is_abandoned: AtomicBool::new(false),
            has_more: AtomicBool::new(false),
        })?;
    }
    Ok(queues)
}

/// The cells of sessions that aren't open yet, numbered from 0.
fn new_cells<E: Engine + Drop, F: Feed, N: Name>(
    alloc: Global,
    queues: &[Queues],
) -> Result<Vec<SessionCell<E, F, N>>, AllocError>
    requires { (N.queues ≡ queues.now) × (length queues.now ≡ 256) }
    ensures { IfOk result (λ cells. IsTable cells.items) }
{
    let mut cells = Vec::new(alloc);
    for number in 0..256u32 {
        cells = with_cell(cells, &queues[number as usize], number)?;
    }
    Ok(cells)
}

/// The cells with one more, which has the next number.
fn with_cell<E: Engine + Drop, F: Feed, N: Name>(
    cells: Vec<SessionCell<E, F, N>>,
    queues: &Queues,
    number: u32,
) -> Result<Vec<SessionCell<E, F, N>>, AllocError>
    requires numbered { AreNumbered 0 cells.items }
    requires next { length cells.items ≡ number }
    requires listed { slice_get N.queues number ≡ Some queues.now }
    ensures numbered { IfOk result (λ more. AreNumbered 0 more.items) }
    ensures next { IfOk result (λ more. length more.items ≡ number + 1) }
{
    let mut cells = cells;
    if cells.reserve(1).is_err() {
        discard(cells);
        return Err(AllocError);
    }
    match SessionCell::new(queues, number) {
        Ok(cell) => {
            cells.push_reserved(cell);
            Ok(cells)
        }
        Err(_) => {
            discard(cells);
            Err(AllocError)
        }
    }
}

/// Lets cells go, with whoever is there.
pub(crate) fn discard<E: Engine + Drop, F: Feed, N: Name>(cells: Vec<SessionCell<E, F, N>>) {
    let mut cells = cells;
    while let Some(cell) = cells.pop() {
        cell.discard();
    }
    cells.destroy_empty();
}
