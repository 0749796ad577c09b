ghost use Rattle.std.specs.Prelude.{◌≡◌, ◌+◌, ◌≤◌, [], ◌∷◌, ◌++◌, IfOk, ℕ};
ghost use Rattle.session_core.specs.Legal.{Progress, after, owner_after};
ghost use Rattle.session_core.specs.Answering.{is_away};

use crate::entry::Entry;
use crate::request::{Channel, Header};
use std::alloc::{AllocError, Global};
use std::marker::Model;

/// What a session did, in order, with room for more entries.
#[derive(Debug, Drop)]
pub struct Journal {
    entries: Vec<Entry>,
    /// The host that owns the session, or owned it last.
    host: u32,
    /// Whether the session is packed or on its way.
    away: bool,
}

impl Model for Journal {
    ghost use Rattle.std.specs.Prelude.{◌≡◌, ◌-◌, vec_len, vec_capacity};
    ghost use Rattle.session_core.specs.Journals.{Recorded};
    ghost use Rattle.session_core.specs.Legal.{progress_of};
    ghost use Rattle.session_core.specs.Answering.{is_away};

    ghost Value = { Recorded };

    ghost view = { λ j. record { entries = j.entries.items; spare = vec_capacity j.entries - vec_len j.entries } };

    ghost invariant = { λ j. (j.host ≡ (progress_of j.entries.items).owner) × (j.away ≡ is_away (progress_of j.entries.items).phase) };
}

impl Journal {
    /// The journal of a session that is opened on this host.
    pub fn opened(
        alloc: Global,
        host: u32,
        request: Header,
        channel: Channel,
    ) -> Result<Journal, AllocError>
        ensures { IfOk result (λ journal. journal.entries ≡ Entry.Opened host request channel ∷ []) }
    {
        let mut entries = Vec::new(alloc);
        entries.push(Entry::Opened {
            host,
            request,
            channel,
        })?;
        Ok(Journal {
            entries,
            host,
            away: false,
        })
    }

    /// Makes room for `more` further entries. There is never room for fewer than before, and the entries are as before.
    pub fn reserve(&mut self, more: u32) -> Result<(), AllocError>
        ensures entries { self.new.entries ≡ self.old.entries }
        ensures kept { self.old.spare ≤ self.new.spare }
        ensures spare { IfOk result (λ _. more ≤ self.new.spare) }
    {
        self.entries.reserve(more as usize)
    }

    /// Puts an entry at the end. There has to be room for it. Takes no memory.
    pub fn push(&mut self, entry: Entry)
        requires { 1 ≤ self.old.spare }
        ensures entries { self.new.entries ≡ self.old.entries ++ entry ∷ [] }
        ensures spare { self.old.spare ≡ self.new.spare + 1 }
    {
        self.host = host_after(self.host, &entry);
        self.away = is_away_after(self.away, &entry);
        self.entries.push_reserved(entry);
    }

    /// The host that owns the session; none while it is packed or on its way.
    pub fn owner(&self) -> Option<u32>
        ensures { result ≡ owner_after self.now.entries }
    {
        if self.away { None } else { Some(self.host) }
    }

    /// The entries, in order.
    pub fn entries(&self) -> &[Entry]
        ensures { result.now ≡ self.now.entries }
    {
        self.entries.as_slice()
    }
}

/// The host that owns the session after an entry, or owned it last.
fn host_after(host: u32, entry: &Entry) -> u32
    ensures { (p : Progress) → p.owner ≡ host → result ≡ (after p entry.now).owner }
{
    match entry {
        Entry::Opened { host, .. } => *host,
        Entry::Adopted { to, .. } => *to,
        _ => host,
    }
}

/// Whether the session is packed or on its way after an entry.
#[tactic(auto, using(crate::proofs::Progressing::away_moved))]
fn is_away_after(away: bool, entry: &Entry) -> bool
    ensures { (p : Progress) → is_away p.phase ≡ away → result ≡ is_away (after p entry.now).phase }
{
    match entry {
        Entry::Sealed { .. } => true,
        Entry::Opened { .. } | Entry::Adopted { .. } | Entry::Resumed { .. } => false,
        _ => away,
    }
}
