ghost use Rattle.std.specs.Prelude.{◌≡◌, ◌≢◌, ◌+◌, ◌≤◌, ◌<◌, ◌↔◌, [], ◌++◌, length, take, drop, IsTrue, IfOk, OnOk, OnErr, MatchOption, MatchResult};
ghost use Rattle.jupyter_frames.specs.Framing.{frame, length_of, IsBegun};
ghost use Rattle.jupyter_frames.specs.Answers.{Gives, IsCut};

use byteorder::{BigEndian, ByteOrder};
use plain_data::Items;
use std::alloc::{AllocError, Global};
use std::error::Error;
use std::fmt;
use std::marker::Model;

/// What is wrong with a stream. A place is that of the first byte of a frame's length, counted from the stream's first byte.
/// Places aren't counted past 2^64 - 1.
#[derive(Clone, Copy, Debug, PartialEq, Eq)]
pub enum FrameFault {
    /// At that place the stream has this length, which is 0 or above 1,048,576.
    BadLength(u64, u32),
    /// The stream ends in a frame that began at that place.
    Cut(u64),
}

impl fmt::Display for FrameFault {
    fn fmt<W: fmt::Write>(&self, f: &mut fmt::Formatter<W>) -> fmt::Result {
        match self {
            FrameFault::BadLength(place, length) => {
                write!(f, "a frame of {length} bytes begins at byte {place}")
            }
            FrameFault::Cut(place) => write!(f, "the frame that begins at byte {place} is cut off"),
        }
    }
}

impl Error for FrameFault {}

/// What comes next on a stream.
#[derive(Debug, Drop)]
pub enum Next {
    /// The body of the next frame.
    Frame(Items<u8>),
    /// All whole frames so far were given.
    NotYet,
    /// They were given, and a bad length comes after them. Each later `next` answers the same.
    Bad(FrameFault),
    /// Memory ran out; nothing is changed.
    OutOfMemory,
}

/// A stream that comes in pieces.
#[derive(Debug, Drop)]
pub struct Framer {
    bytes: Vec<u8>,
    /// Where the bytes that weren't given yet begin.
    at: usize,
    place: u64,
}

impl Model for Framer {
    ghost use Rattle.std.specs.Prelude.{◌≤◌, drop, vec_len};
    ghost use Rattle.jupyter_frames.specs.Framing.{Held};

    ghost Value = { Held };

    ghost view = { λ f. record { place = f.place; bytes = drop f.at f.bytes.items } };

    ghost invariant = { λ f. f.at ≤ vec_len f.bytes };
}

/// The length that the bytes begin with.
fn length_said(bytes: &[u8]) -> u32
    requires { 4 ≤ length bytes.now }
    ensures { result ≡ length_of bytes.now }
{
    BigEndian::read_u32(bytes)
}

/// The body of the frame at the front, which has this length.
fn body_of(alloc: Global, bytes: &[u8], n: u32) -> Result<Items<u8>, AllocError>
    requires n { n ≡ length_of bytes.now }
    requires whole { 4 + n ≤ length bytes.now }
    ensures { IfOk result (λ body. (length body ≡ n) × (frame body ++ drop (4 + n) bytes.now ≡ bytes.now)) }
{
    Items::from_slice(alloc, &bytes[4..4 + n as usize])
}

/// The most bytes of a frame's body.
const MOST: u32 = 1_048_576;

/// Whether bytes are less than a whole frame: not even a length, or fewer bytes than it says.
fn is_begun(bytes: &[u8]) -> bool
    ensures { IsTrue result ↔ IsBegun bytes.now }
{
    if bytes.len() < 4 {
        return true;
    }
    let length = length_said(bytes);
    0 < length && length <= MOST && bytes.len() - 4 < length as usize
}

impl Framer {
    /// A stream of which nothing has come. Takes no memory.
    pub fn new(alloc: Global) -> Framer
        ensures { result ≡ record { place = 0; bytes = [] } }
    {
        Framer {
            bytes: Vec::new(alloc),
            at: 0,
            place: 0,
        }
    }

    /// Takes the next piece of the stream. After an error nothing is changed.
    pub fn feed(&mut self, alloc: Global, piece: &[u8]) -> Result<(), AllocError>
        ensures ok { OnOk result (self.new.bytes ≡ self.old.bytes ++ piece.now) }
        ensures err { OnErr result (self.new.bytes ≡ self.old.bytes) }
        ensures place { self.new.place ≡ self.old.place }
    {
        if self.at == 0 {
            return self.bytes.extend_from_slice(piece);
        }
        // The bytes that were given are dropped.
        let mut bytes = Vec::from_slice(alloc, &self.bytes[self.at..])?;
        bytes.extend_from_slice(piece)?;
        self.bytes = bytes;
        self.at = 0;
        Ok(())
    }

    /// Gives the next whole frame.
    pub fn next(&mut self, alloc: Global) -> Next
        ensures { Gives self.old result self.new }
    {
        let held = &self.bytes[self.at..];
        if held.len() < 4 {
            return Next::NotYet;
        }
        let length = length_said(held);
        if length == 0 || MOST < length {
            return Next::Bad(FrameFault::BadLength(self.place, length));
        }
        let end = 4 + length as usize;
        if held.len() < end {
            return Next::NotYet;
        }
        match body_of(alloc, held, length) {
            Ok(body) => {
                self.at += end;
                self.place = self.place.saturating_add(end as u64);
                Next::Frame(body)
            }
            Err(_) => Next::OutOfMemory,
        }
    }

    /// The place of the first byte that is held, if one is: it was fed, and is in no frame that was given.
    pub fn held_at(&self) -> Option<u64>
        ensures { MatchOption result (self.now.bytes ≡ []) (λ place. (self.now.bytes ≢ []) × (place ≡ self.now.place)) }
    {
        if self.at < self.bytes.len() {
            Some(self.place)
        } else {
            None
        }
    }

    /// Whether the stream may end here: `Cut` exactly if bytes of a begun frame are held. Whole frames that weren't given yet, and a
    /// bad length, are no such bytes.
    pub fn end(&self) -> Result<(), FrameFault>
        ensures { IsCut self.now result }
    {
        match self.held_at() {
            Some(place) if is_begun(&self.bytes[self.at..]) => Err(FrameFault::Cut(place)),
            _ => Ok(()),
        }
    }
}
