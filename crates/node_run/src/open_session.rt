use session_core::Entry;
use session_queues::{Pass, Reader};

/// A session that is open, as the feeder has it.
#[derive(Drop)]
pub struct OpenSession {
    pub kernel: u128,
    /// The host on which it was opened.
    pub host: u32,
    /// How many requests were admitted.
    pub requests: usize,
    pub pass: Pass,
    /// What reads the session's entries as they come. None if nothing is read before the run has ended.
    pub reader: Option<Reader>,
    /// The running number of the next frame that tells an entry.
    pub next: u64,
}

/// An entry that was read.
#[derive(Drop)]
pub struct NextEntry {
    pub kernel: u128,
    /// The running number of its first frame.
    pub first: u64,
    pub entry: Entry,
}
