//! The frames of journals, made by several threads.

ghost use Rattle.std.specs.Prelude.{◌≡◌, ◌+◌, ◌<◌, ◌≤◌, length, IfOk, IfSome};
ghost use Rattle.std.specs.List.{flat_map, sum_by};
ghost use Rattle.std.specs.Thread.{IsSync};
ghost use Rattle.reply_frames.specs.Replies.{entry_length};
ghost use Rattle.node_run.specs.Frames.{journal_frames, parts_together, IsBatch};

use plain_data::Items;
use reply_frames::{frame_count, frames_of};
use session_core::{Ask, Entry, Reply};
use std::alloc::{AllocError, Global};
use std::thread::{Threads, join};

/// The frames of fewer entries than these are made by one thread: to make a thread costs about as much as to tell five.
pub const FEW: usize = 48;

/// How often many entries are halved: each half of a half goes to a thread of its own.
const HALVINGS: u32 = 2;

/// About how many bytes the frames of the entries have that are told at once.
const MOST_BYTES: usize = 2_097_152;

/// About how many bytes the frames of an entry have besides its longest texts.
const ROUND: usize = 2_048;

/// About how many bytes the frames of an entry have.
fn bytes_of(entry: &Entry) -> usize {
    match entry {
        Entry::Ran {
            request,
            reply: Reply::Executed { printed, shown, .. },
            ..
        } => {
            let code = match &request.ask {
                Ask::Execute { code, .. } => code.len(),
                _ => 0,
            };
            let text = match shown {
                Some(text) => text.len(),
                None => 0,
            };
            code.saturating_add(printed.len())
                .saturating_add(text)
                .saturating_add(ROUND)
        }
        _ => ROUND,
    }
}

/// How many of the first entries are told at once.
pub fn batch_len(entries: &[Entry]) -> usize
    requires { 0 < length entries.now }
    ensures { (0 < result) × (result ≤ length entries.now) }
{
    let mut bytes = 0usize;
    for (at, entry) in entries.iter().enumerate() {
        bytes = bytes.saturating_add(bytes_of(entry));
        if MOST_BYTES <= bytes {
            return at + 1;
        }
    }
    entries.len()
}

/// The running number after the frames of these entries, if it is below 2^64.
fn number_after(first: u64, entries: &[Entry]) -> Option<u64>
    ensures { IfSome result (λ next. next ≡ first + sum_by entry_length entries.now) }
{
    let mut next = first;
    for entry in entries {
        next = next.checked_add(frame_count(entry))?;
    }
    Some(next)
}

/// The frames of these entries of a kernel's journal, with running numbers from this one on.
fn render_in_turn(
    alloc: Global,
    kernel: u128,
    first: u64,
    entries: &[Entry],
) -> Result<Items<u8>, AllocError>
    ensures { IfOk result (λ bytes. bytes ≡ journal_frames kernel first entries.now) }
{
    let mut bytes = Items::new(alloc);
    let mut running = first;
    for entry in entries {
        let told = frames_of(alloc, kernel, entry, running)?;
        bytes.extend_from_slice(told.0.as_slice())?;
        running = told.1;
    }
    Ok(bytes)
}

/// One part.
fn one_part(
    alloc: Global,
    kernel: u128,
    first: u64,
    entries: &[Entry],
) -> Result<Vec<Items<u8>>, AllocError>
    ensures { IfOk result (λ parts. parts_together parts.items ≡ journal_frames kernel first entries.now) }
{
    let bytes = render_in_turn(alloc, kernel, first, entries)?;
    let mut parts = Vec::new(alloc);
    parts.push(bytes)?;
    Ok(parts)
}

/// The frames of these entries of a kernel's journal, with running numbers from this one on, in parts. If there are many, each half
/// is made by a thread of its own, so often halved again. Also `Err` if a number would pass 2^64 - 1.
#[cycle(halves)]
fn render<R: Threads + Sync>(
    rt: &R,
    alloc: Global,
    kernel: u128,
    first: u64,
    entries: &[Entry],
    halvings: u32,
) -> Result<Vec<Items<u8>>, AllocError>
    ensures { IfOk result (λ parts. parts_together parts.items ≡ journal_frames kernel first entries.now) }
{
    if halvings == 0 || entries.len() < FEW {
        return one_part(alloc, kernel, first, entries);
    }
    let (front, back) = entries.split_at(entries.len() / 2);
    let Some(middle) = number_after(first, front) else {
        return Err(AllocError);
    };
    let lower = || -> Result<Vec<Items<u8>>, AllocError>
        requires { IsSync R.row × (0 < halvings) }
        ensures { IfOk result (λ parts. parts_together parts.items ≡ journal_frames kernel first front.entry.now) }
    { render(rt, alloc, kernel, first, front, halvings - 1) };
    let upper = || -> Result<Vec<Items<u8>>, AllocError>
        requires { IsSync R.row × (0 < halvings) }
        ensures { IfOk result (λ parts. parts_together parts.items ≡ journal_frames kernel middle back.entry.now) }
    { render(rt, alloc, kernel, middle, back, halvings - 1) };
    let (made, more) = join(rt, lower, upper);
    let mut parts = made?;
    let mut rest = more?;
    parts.append(&mut rest)?;
    Ok(parts)
}

/// The frames of a batch of entries, in parts.
#[derive(Drop)]
pub struct Made {
    pub parts: Vec<Items<u8>>,
    /// The running number after theirs.
    pub next: u64,
}

/// The frames of these entries of a kernel's journal, with running numbers from this one on, made by threads. None if memory doesn't
/// suffice for all at once, or the next number isn't below 2^64.
pub fn make_batch<R: Threads + Sync>(
    rt: &R,
    alloc: Global,
    kernel: u128,
    first: u64,
    entries: &[Entry],
) -> Option<Made>
    ensures { IfSome result (IsBatch kernel first entries.now) }
{
    let next = number_after(first, entries)?;
    match render(rt, alloc, kernel, first, entries, HALVINGS) {
        Ok(parts) => Some(Made { parts, next }),
        Err(_) => None,
    }
}
