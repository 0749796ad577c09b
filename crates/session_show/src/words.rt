//! What a journal says, in words.

use plain_data::Text;
use session_core::{Entry, MoveRefusal, Reply};
use std::alloc::{AllocError, Global};

/// The count that a reply has, if it is that of a cell.
fn count_in(reply: &Reply) -> u32 {
    match reply {
        Reply::Executed { count, .. } => *count,
        _ => 0,
    }
}

/// What an entry says, by one word and its numbers: the hosts, and the count of a reply, a death or a dead session.
fn word(alloc: Global, entry: &Entry) -> Result<String, AllocError> {
    match entry {
        Entry::Opened { host, .. } => format!(in alloc; "opened:{host}"),
        Entry::Ran { host, reply, .. } => format!(in alloc; "ran:{host}:{}", count_in(reply)),
        Entry::Died { host, count, .. } => format!(in alloc; "died:{host}:{count}"),
        Entry::Dead { host, count, .. } => format!(in alloc; "dead:{host}:{count}"),
        Entry::Sealed { host, to, .. } => format!(in alloc; "sealed:{host}:{to}"),
        Entry::Moved { to } => format!(in alloc; "moved:{to}"),
        Entry::Adopted { from, to, .. } => format!(in alloc; "adopted:{from}:{to}"),
        Entry::Refused { host, reason, .. } => format!(in alloc; "{}:{host}", reason_word(reason)),
        Entry::Resumed { host, .. } => format!(in alloc; "resumed:{host}"),
    }
}

/// Why a move was refused.
fn reason_word(reason: &MoveRefusal) -> &'static str {
    match reason {
        MoveRefusal::Stuck { .. } => "stuck",
        MoveRefusal::SameHost => "same-host",
        MoveRefusal::UnknownHost(_) => "unknown-host",
        MoveRefusal::BadWeights(_) => "bad-weights",
        MoveRefusal::DeadKernel => "dead-kernel",
    }
}

/// What a copy of the entry says.
fn copied_word(alloc: Global, entry: &Entry) -> Result<String, AllocError> {
    let copy = entry.copy(alloc)?;
    let said = word(alloc, &copy);
    drop(copy);
    said
}

/// One word for each entry, with a space after it; each entry is copied first.
pub fn words_of(alloc: Global, entries: &[Entry]) -> Result<Text, AllocError> {
    let mut words = Text::new(alloc, "")?;
    for entry in entries {
        let said = copied_word(alloc, entry)?;
        words.push_str(said.as_str())?;
        words.push_str(" ")?;
    }
    Ok(words)
}
