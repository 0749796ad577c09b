ghost use Rattle.std.specs.Prelude.{◌≡◌, ◌≢◌, ℕ, ◌<◌, ◌≤◌, List, ◌++◌, length, Some, None, OnOk, OnErr};
ghost use Rattle.nb_outside.specs.Counts.{HasRisen, HasRisenBy};
ghost use Rattle.nb_outside.specs.Streams.{Takes, IsAtEnd};
ghost use Rattle.elastic_notebook.specs.Reading.{MayGoOn, KeepsAll};

use nb_outside::{ReadEnd, Source};
use node_intake::read_room;
use std::alloc::Global;

/// How reading a source to its end ended.
#[derive(Clone, Copy, Debug, PartialEq, Eq)]
pub enum ReadingEnd {
    /// At the end of the input.
    End,
    /// The source met a fault.
    Failed,
    /// After 4,294,967,295 reads that each took a byte.
    TooMany,
    /// Memory ran out.
    OutOfMemory,
}

/// Reads one piece and adds it to the bytes. `None` if there may be more.
fn read_piece<S: Source>(
    source: &mut S,
    piece: &mut [u8],
    bytes: &mut Vec<u8>,
) -> Option<ReadingEnd>
    requires { 0 < length piece.old }
    ensures taken { (taken : List ℕ) × Takes (S.left source.old) (S.left source.new) taken
        × (MayGoOn result → (bytes.new.items ≡ bytes.old.items ++ taken)) }
    ensures end { result ≡ Some ReadingEnd.End → IsAtEnd (S.left source.new) }
    ensures more { result ≡ None → HasRisenBy 1 (S.reads source.old) (S.reads source.new) }
    ensures failed { result ≡ Some ReadingEnd.Failed → HasRisen (S.faults source.old) (S.faults source.new) }
    ensures faults_stay { S.faults source.old ≤ S.faults source.new }
    ensures none_more { result ≢ Some ReadingEnd.TooMany }
{
    match source.read(piece) {
        ReadEnd::Failed => Some(ReadingEnd::Failed),
        ReadEnd::Bytes(0) => Some(ReadingEnd::End),
        ReadEnd::Bytes(count) => match bytes.extend_from_slice(&piece[..count]) {
            Ok(()) => None,
            Err(_) => Some(ReadingEnd::OutOfMemory),
        },
    }
}

/// Reads a source to its end, and adds what it gives to the bytes.
pub fn read_all<S: Source>(alloc: Global, source: &mut S, bytes: &mut Vec<u8>) -> ReadingEnd
    ensures taken { (taken : List ℕ) × Takes (S.left source.old) (S.left source.new) taken
        × (KeepsAll result → (bytes.new.items ≡ bytes.old.items ++ taken)) }
    ensures end { result ≡ ReadingEnd.End → IsAtEnd (S.left source.new) }
    ensures failed { result ≡ ReadingEnd.Failed → HasRisen (S.faults source.old) (S.faults source.new) }
    ensures too_many { result ≡ ReadingEnd.TooMany → HasRisenBy 4294967295 (S.reads source.old) (S.reads source.new) }
    ensures faults_stay { S.faults source.old ≤ S.faults source.new }
{
    let Ok(mut piece) = read_room(alloc) else {
        return ReadingEnd::OutOfMemory;
    };
    for turn in 0..u32::MAX {
        match read_piece(source, piece.as_mut_slice(), bytes) {
            Some(end) => return end,
            None => {}
        }
    }
    ReadingEnd::TooMany
}
