//! What is counted of journals.

ghost use Rattle.std.specs.Prelude.{◌≡◌, IfOk, string_bytes};
ghost use Rattle.node_run.specs.Journals.{journals_of};
ghost use Rattle.made_command.specs.Counting as spec;

use notebook_engine::Notebook;
use session_core::{Alone, Entry, Reply};
use std::alloc::{AllocError, Global};

/// What is counted. A count at 2^64 - 1 doesn't change any more.
#[derive(Clone, Copy, Debug, PartialEq, Eq)]
pub struct Counts {
    /// How many cells ran.
    pub cells: u64,
    /// How many of them ended with an error.
    pub errors: u64,
    /// How many moves were made.
    pub moves: u64,
    /// How many bytes the cells printed.
    pub printed: u64,
}

impl Counts {
    /// Nothing is counted yet.
    fn none() -> Counts
        ensures { result ≡ spec.capped spec.nothing }
    {
        Counts {
            cells: 0,
            errors: 0,
            moves: 0,
            printed: 0,
        }
    }

    /// These and those together.
    fn and(self, other: Counts) -> Counts
        ensures { result ≡ spec.capped (spec.both self other) }
    {
        Counts {
            cells: self.cells.saturating_add(other.cells),
            errors: self.errors.saturating_add(other.errors),
            moves: self.moves.saturating_add(other.moves),
            printed: self.printed.saturating_add(other.printed),
        }
    }
}

/// What is counted of a reply.
fn counts_of_reply(reply: &Reply) -> Counts
    ensures { result ≡ spec.counts_of_reply reply.now }
{
    match reply {
        Reply::Executed { printed, error, .. } => Counts {
            cells: 1,
            errors: u64::from(error.is_some()),
            moves: 0,
            printed: printed.len() as u64,
        },
        _ => Counts::none(),
    }
}

/// What is counted of an entry.
fn counts_of_entry(entry: &Entry) -> Counts
    ensures { result ≡ spec.counts_of_entry entry.now }
{
    match entry {
        Entry::Ran { reply, .. } => counts_of_reply(reply),
        Entry::Adopted { .. } => Counts {
            cells: 0,
            errors: 0,
            moves: 1,
            printed: 0,
        },
        _ => Counts::none(),
    }
}

/// What is counted of a journal.
fn counts_of_journal(entries: &[Entry]) -> Counts
    ensures { result ≡ spec.capped (spec.counts_of_journal entries.now) }
{
    let mut counts = Counts::none();
    for entry in entries {
        counts = counts.and(counts_of_entry(entry));
    }
    counts
}

/// What is counted of the journals of these sessions.
pub fn counts_of(runs: &[(u128, Alone<Notebook>)]) -> Counts
    ensures { result ≡ spec.capped (spec.counts_of (journals_of runs.now)) }
{
    let mut counts = Counts::none();
    for run in runs {
        counts = counts.and(counts_of_journal(run.1.entries()));
    }
    counts
}

/// The line that tells them.
#[tactic(auto, unfolding(crate::specs::Counting::line))]
pub fn line_of(alloc: Global, counts: &Counts) -> Result<String, AllocError>
    ensures { IfOk result (λ text. string_bytes text ≡ spec.line counts.now) }
{
    let Counts {
        cells,
        errors,
        moves,
        printed,
    } = *counts;
    format!(in alloc; "cells {cells} errors {errors} moves {moves} printed {printed}\n")
}
