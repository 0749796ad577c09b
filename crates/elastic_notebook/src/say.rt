ghost use Rattle.std.specs.Prelude.{◌≡◌, IfOk};
ghost use Rattle.nb_outside.specs.Counts.{HasRisen, HasRisenBy};
ghost use Rattle.elastic_notebook.specs.Saying.{IsAsked, IsAnswered, Says, SaysTold};

use crate::streams::{ReadingEnd, read_all};
use checkpoint_commands::{Said, planned, restored};
use command_words::status;
use graph_model::Weights;
use nb_outside::{Sink, Source};
use node_run::write_all;
use std::alloc::{AllocError, Global};

/// What is asked of a checkpoint.
#[derive(Clone, Copy, Debug, PartialEq, Eq)]
pub enum Question {
    /// A least-cost plan of its graph, under these weights.
    Plan(Weights),
    /// Its state.
    Restore,
}

/// What is said of the bytes of a checkpoint.
fn said_of(alloc: Global, question: &Question, bytes: &[u8]) -> Result<Said, AllocError>
    requires { IsAsked question.now }
    ensures { IfOk result (λ said. Says question.now bytes.now said.status said.text) }
{
    match question {
        Question::Plan(weights) => planned(alloc, bytes, weights),
        Question::Restore => restored(alloc, bytes),
    }
}

/// Reads the source to its end, and writes what is said of its bytes.
pub fn say<S: Source, K: Sink>(
    alloc: Global,
    source: &mut S,
    sink: &mut K,
    question: &Question,
) -> u8
    requires { IsAsked question.now }
    ensures answered { IsAnswered result }
    ensures said { SaysTold question.now result (S.left source.old) (S.left source.new) (K.written sink.old) (K.written sink.new) }
    ensures source_fault { result ≡ 3 → HasRisen (S.faults source.old) (S.faults source.new) }
    ensures sink_fault { result ≡ 4 → HasRisen (K.faults sink.old) (K.faults sink.new) }
    ensures reads { result ≡ 10 → HasRisenBy 4294967295 (S.reads source.old) (S.reads source.new) }
{
    let mut bytes = Vec::new(alloc);
    match read_all(alloc, source, &mut bytes) {
        ReadingEnd::End => {}
        ReadingEnd::Failed => return status::SOURCE_FAULT,
        ReadingEnd::TooMany => return status::TOO_MANY_READS,
        ReadingEnd::OutOfMemory => return status::OUT_OF_MEMORY,
    }
    let Ok(said) = said_of(alloc, question, bytes.as_slice()) else {
        return status::OUT_OF_MEMORY;
    };
    match write_all(sink, said.text.as_str().as_bytes()) {
        Ok(()) => said.status,
        Err(_) => status::SINK_FAULT,
    }
}
