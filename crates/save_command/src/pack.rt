//! The pack of the session that was opened first, or why it has none.

ghost use Rattle.std.specs.Prelude.{◌≡◌, ◌≢◌, [], Err, MatchBool, IfOk};
ghost use Rattle.std.specs.Bool.{OnTrue, OnFalse};
ghost use Rattle.session_core.specs.declared.engine.PackFault.TheVariants as pack_fault;
ghost use Rattle.node_run.specs.Journals.{journals_of};
ghost use Rattle.save_command.specs.Saving.{IsDeathOfMemory, DiedOfMemory, CantBeSaved, SavesSession, SavesFirst};

use graph_model::Weights;
use notebook_engine::Notebook;
use session_core::{Alone, DiedCause, Entry, PackFault, Packed};
use std::alloc::Global;
use std::error::Error;
use std::fmt;

/// Why there is no checkpoint.
#[derive(Clone, Copy, Debug, PartialEq, Eq)]
pub enum SaveFault {
    /// Memory ran out, now or while the session was served.
    OutOfMemory,
    /// There is no session, or it is dead for another cause, or it can't be packed under these weights.
    CantBeSaved,
}

impl fmt::Display for SaveFault {
    fn fmt<W: fmt::Write>(&self, f: &mut fmt::Formatter<W>) -> fmt::Result {
        match self {
            SaveFault::OutOfMemory => write!(f, "out of memory"),
            SaveFault::CantBeSaved => write!(f, "the session can't be saved"),
        }
    }
}

impl Error for SaveFault {}

/// Whether a session died for want of memory at this entry.
fn is_death_of_memory(entry: &Entry) -> bool
    ensures { MatchBool result (IsDeathOfMemory entry.now) (¬ IsDeathOfMemory entry.now) }
{
    match entry {
        Entry::Died { cause, .. } => matches!(cause, DiedCause::OutOfMemory),
        _ => false,
    }
}

/// Whether a session with these entries died for want of memory.
fn died_of_memory(entries: &[Entry]) -> bool
    ensures died { OnTrue result (DiedOfMemory entries.now) }
    ensures other { OnFalse result (¬ DiedOfMemory entries.now) }
{
    for entry in entries {
        if is_death_of_memory(entry) {
            return true;
        }
    }
    false
}

/// Why a session with these entries has no checkpoint, if it is dead.
fn fault_of_death(entries: &[Entry]) -> SaveFault
    ensures memory { result ≡ SaveFault.OutOfMemory → DiedOfMemory entries.now }
    ensures cant { result ≡ SaveFault.CantBeSaved → ¬ DiedOfMemory entries.now }
{
    if died_of_memory(entries) {
        SaveFault::OutOfMemory
    } else {
        SaveFault::CantBeSaved
    }
}

/// Why a session has no checkpoint, if it is alive and isn't packed for this reason.
fn fault_of_pack(fault: &PackFault) -> SaveFault
    ensures { result ≡ SaveFault.CantBeSaved → fault.now ≢ pack_fault.OutOfMemory }
{
    match fault {
        PackFault::OutOfMemory => SaveFault::OutOfMemory,
        PackFault::BadWeights(_) => SaveFault::CantBeSaved,
        PackFault::Stuck { .. } => SaveFault::CantBeSaved,
    }
}

/// What a session is packed as under these weights.
fn packed(alloc: Global, session: &Alone<Notebook>, weights: &Weights) -> Result<Packed, SaveFault>
    ensures ok { IfOk result (λ packed. SavesSession weights.now session.now.entries 0 packed.bytes) }
    ensures cant { result ≡ Err SaveFault.CantBeSaved → CantBeSaved weights.now session.now.entries }
{
    let Some(tried) = session.pack(alloc, weights) else {
        return Err(fault_of_death(session.entries()));
    };
    match tried {
        Ok(packed) => Ok(packed),
        Err(fault) => Err(fault_of_pack(&fault)),
    }
}

/// What the first of these sessions is packed as under these weights.
pub fn first_packed(
    alloc: Global,
    runs: &[(u128, Alone<Notebook>)],
    weights: &Weights,
) -> Result<Packed, SaveFault>
    ensures ok { IfOk result (λ packed. SavesFirst weights.now (journals_of runs.now) 0 packed.bytes) }
    ensures cant { result ≡ Err SaveFault.CantBeSaved → SavesFirst weights.now (journals_of runs.now) 6 [] }
{
    match runs {
        [first, ..] => packed(alloc, &first.1, weights),
        [] => Err(SaveFault::CantBeSaved),
    }
}
