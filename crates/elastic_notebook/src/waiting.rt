//! Gates, feeds and sources that wait for one another. A wait is counted in turns, and one that lasts too long is noted.

ghost use Rattle.std.specs.Prelude.{◌≡◌, ◌≤◌, ◌<◌, ℕ, None, length};
ghost use Rattle.nb_outside.specs.Counts.{HasRisen};

use crate::test_streams::count_of;
use host_workers::Gate;
use nb_links::{Door, DoorEnd, Link, Polled, SendEnd};
use nb_outside::{Drawn, Feed, Feeds, ReadEnd, Source};
use std::alloc::{AllocError, Global};
use std::sync::Wait;
use std::sync::atomic::{AtomicBool, AtomicU64, Ordering};
use std::thread;

/// The most turns of a wait.
const MOST_TURNS: u32 = 50_000_000;

/// A count for each of two sessions.
#[derive(Drop)]
pub struct Counts {
    first: AtomicU64,
    second: AtomicU64,
}

impl Counts {
    fn new() -> Counts {
        Counts {
            first: AtomicU64::new(0),
            second: AtomicU64::new(0),
        }
    }

    /// The count of the first session or of the second.
    fn of(&self, is_first: bool) -> &AtomicU64 {
        if is_first { &self.first } else { &self.second }
    }

    fn add(&self, is_first: bool) {
        self.of(is_first).fetch_add(1, Ordering::SeqCst);
    }

    /// Whether something was counted of the first session, and of the second if there are two.
    fn have_all(&self, are_two: bool) -> bool {
        let first = self.first.load(Ordering::SeqCst);
        let second = self.second.load(Ordering::SeqCst);
        1 <= first && (!are_two || 1 <= second)
    }
}

/// What has happened in a run of one or two sessions.
#[derive(Drop)]
pub struct Seen {
    crossed: Counts,
    passed: Counts,
    drawn: Counts,
    reads: AtomicU64,
    /// Whether a wait lasted too long.
    failed: AtomicBool,
}

impl Seen {
    pub fn new() -> Seen {
        Seen {
            crossed: Counts::new(),
            passed: Counts::new(),
            drawn: Counts::new(),
            reads: AtomicU64::new(0),
            failed: AtomicBool::new(false),
        }
    }

    /// Waits until the count is at least so much.
    fn wait(&self, count: &AtomicU64, least: u64) {
        for _ in 0..MOST_TURNS {
            if least <= count.load(Ordering::SeqCst) {
                return;
            }
            thread::yield_now();
        }
        self.failed.store(true, Ordering::SeqCst);
    }

    /// Whether no wait lasted too long, and each session was crossed and passed.
    pub fn is_well(&self, are_two: bool) -> bool {
        let failed = self.failed.load(Ordering::SeqCst);
        !failed && self.crossed.have_all(are_two) && self.passed.have_all(are_two)
    }
}

/// A gate that counts.
#[derive(Drop)]
pub struct CountingGate<'a>(pub &'a Seen);

impl<'a> Gate for CountingGate<'a> {
    fn cross(&self, _host: u32, session: u32) {
        self.0.crossed.add(session == 0);
    }

    fn passed(&self, _host: u32, session: u32) {
        self.0.passed.add(session == 0);
    }
}

/// A gate that holds its first crossing until a crossing of the other session has passed.
#[derive(Drop)]
pub struct HoldingGate<'a> {
    pub seen: &'a Seen,
    pub was_crossed: AtomicBool,
}

impl<'a> Gate for HoldingGate<'a> {
    fn cross(&self, _host: u32, session: u32) {
        self.seen.crossed.add(session == 0);
        if !self.was_crossed.swap(true, Ordering::SeqCst) {
            self.seen.wait(self.seen.passed.of(session != 0), 1);
        }
    }

    fn passed(&self, _host: u32, session: u32) {
        self.seen.passed.add(session == 0);
    }
}

/// What a draw waits for.
#[derive(Clone, Copy)]
pub enum DrawsAfter {
    /// The other session's draw has begun.
    OtherDraw,
    /// The source was read so often.
    Reads(u64),
}

/// Feeds whose draws wait.
#[derive(Drop)]
pub struct WaitingFeeds<'a> {
    pub seen: &'a Seen,
    /// Whether a feed was opened.
    pub has_opened: bool,
    pub after: DrawsAfter,
}

#[derive(Drop)]
pub struct WaitingFeed<'a> {
    seen: &'a Seen,
    is_first: bool,
    after: DrawsAfter,
}

impl<'a> Feed for WaitingFeed<'a> {
    ghost use Rattle.std.specs.Prelude.{None};

    ghost seen = { λ feed. record { made = None; left = None; faults = 0 } };

    fn draw(&mut self) -> Drawn {
        self.seen.drawn.add(self.is_first);
        match self.after {
            DrawsAfter::OtherDraw => self.seen.wait(self.seen.drawn.of(!self.is_first), 1),
            DrawsAfter::Reads(reads) => self.seen.wait(&self.seen.reads, reads),
        }
        Drawn::Word(7)
    }
}

impl<'a> Feeds for WaitingFeeds<'a> {
    ghost use Rattle.std.specs.Prelude.{None};

    type Feed = WaitingFeed<'a>;

    ghost gives = { λ feeds kernel. None };

    fn open(&mut self, _alloc: Global, _kernel: u128) -> Result<WaitingFeed<'a>, AllocError> {
        let is_first = !self.has_opened;
        self.has_opened = true;
        Ok(WaitingFeed {
            seen: self.seen,
            is_first,
            after: self.after,
        })
    }
}

/// What the read after the first cell's frame waits for.
#[derive(Clone, Copy)]
pub enum ReadsAfter {
    Nothing,
    FirstDraw,
    FirstPassing,
}

/// Copies as many bytes as fit to the front of `into`, and says how many.
pub fn fill(into: &mut [u8], from: &[u8]) -> usize
    ensures { result ≤ length into.old }
{
    let count = from.len().min(into.len());
    into[..count].copy_from_slice(&from[..count]);
    count
}

/// A source that gives one frame at each read: an opening, and then the frames of cells.
#[derive(Drop)]
pub struct FrameSource<'a> {
    seen: &'a Seen,
    frames: Vec<Vec<u8>>,
    after: ReadsAfter,
    at: usize,
    reads: u64,
}

impl<'a> FrameSource<'a> {
    /// A source of these frames.
    pub fn new(seen: &'a Seen, frames: Vec<Vec<u8>>, after: ReadsAfter) -> FrameSource<'a> {
        FrameSource {
            seen,
            frames,
            after,
            at: 0,
            reads: 0,
        }
    }

    /// Waits for what the read after the first cell's frame waits for.
    fn wait(&self) {
        match self.after {
            ReadsAfter::Nothing => {}
            ReadsAfter::FirstDraw => self.seen.wait(self.seen.drawn.of(true), 1),
            ReadsAfter::FirstPassing => self.seen.wait(self.seen.passed.of(true), 1),
        }
    }
}

impl<'a> Source for FrameSource<'a> {
    ghost use Rattle.std.specs.Prelude.{None};

    ghost faults = { λ source. 0 };

    ghost reads = { λ source. source.reads };

    ghost left = { λ source. None };

    fn read(&mut self, into: &mut [u8]) -> ReadEnd {
        self.seen.reads.fetch_add(1, Ordering::SeqCst);
        if self.at == 2 {
            self.wait();
        }
        let Some(frame) = self.frames.get(self.at) else {
            return ReadEnd::Bytes(0);
        };
        let count = fill(into, frame.as_slice());
        self.at = self.at.saturating_add(1);
        if 0 < count {
            self.reads = self.reads.saturating_add(1);
        }
        ReadEnd::Bytes(count)
    }
}

/// A link whose peer sends its last frames only once a text was sent to it so often. It tells nothing.
#[derive(Drop)]
pub struct WaitingLink {
    first: Option<Vec<u8>>,
    text: &'static str,
    times: usize,
    last: Option<Vec<u8>>,
    sent: Vec<u8>,
    turns: u32,
    /// Whether memory ran out, or a wait lasted too long, or a piece had no room for what there is.
    failed: bool,
    faults: u64,
}

impl WaitingLink {
    pub fn new(
        alloc: Global,
        first: Vec<u8>,
        text: &'static str,
        times: usize,
        last: Vec<u8>,
    ) -> WaitingLink {
        WaitingLink {
            first: Some(first),
            text,
            times,
            last: Some(last),
            sent: Vec::new(alloc),
            turns: 0,
            failed: false,
            faults: 0,
        }
    }

    /// Counts a fault.
    fn fail(&mut self)
        ensures stays { self.old.faults ≤ self.new.faults }
        ensures risen { HasRisen self.old.faults self.new.faults }
    {
        self.failed = true;
        self.faults = self.faults.saturating_add(1);
    }

    /// Gives what the peer sends now.
    fn give(&mut self, bytes: Vec<u8>, into: &mut [u8]) -> Polled
        requires { 0 < length into.old }
        ensures given { (n : ℕ) → result ≡ Polled.Bytes n → (0 < n) × (n ≤ length into.old) }
        ensures stays { self.old.faults ≤ self.new.faults }
        ensures failed { result ≡ Polled.Failed → HasRisen self.old.faults self.new.faults }
    {
        let count = bytes.len();
        if count == 0 || into.len() < count {
            self.fail();
            return Polled::Failed;
        }
        into[..count].copy_from_slice(bytes.as_slice());
        Polled::Bytes(count)
    }
}

impl Link for WaitingLink {
    ghost faults = { λ link. link.faults };

    ghost line = { λ _. None };

    fn poll(&mut self, into: &mut [u8], _patience: u32) -> Polled {
        if let Some(bytes) = self.first.take() {
            return self.give(bytes, into);
        }
        if self.last.is_none() {
            return Polled::End;
        }
        if count_of(self.sent.as_slice(), self.text) < self.times && self.turns < MOST_TURNS {
            self.turns += 1;
            thread::yield_now();
            return Polled::NotYet;
        }
        if self.turns == MOST_TURNS {
            self.failed = true;
        }
        match self.last.take() {
            Some(bytes) => self.give(bytes, into),
            None => Polled::End,
        }
    }

    fn send(&mut self, bytes: &[u8]) -> SendEnd {
        match self.sent.extend_from_slice(bytes) {
            Ok(()) => SendEnd::Wrote(bytes.len()),
            Err(_) => SendEnd::OutOfMemory,
        }
    }

    fn close(&mut self) {}
}

/// A door at which one link comes.
#[derive(Drop)]
pub struct WaitingDoor {
    coming: Option<WaitingLink>,
    back: Option<WaitingLink>,
    faults: u64,
}

impl WaitingDoor {
    pub fn new(link: WaitingLink) -> WaitingDoor {
        WaitingDoor {
            coming: Some(link),
            back: None,
            faults: 0,
        }
    }

    /// Whether the link was given back, and no wait lasted too long.
    pub fn is_well(&self) -> bool {
        match &self.back {
            Some(link) => !link.failed,
            None => false,
        }
    }
}

impl Door for WaitingDoor {
    type Link = WaitingLink;

    ghost faults = { λ door. door.faults };

    ghost passed = { λ _. None };

    fn next_link<R: Wait>(&mut self, _rt: &R) -> DoorEnd<WaitingLink> {
        match self.coming.take() {
            Some(link) => DoorEnd::Came(link),
            None => {
                self.faults = self.faults.saturating_add(1);
                DoorEnd::Failed
            }
        }
    }

    fn close_link(&mut self, link: WaitingLink) {
        self.back = Some(link);
    }
}
