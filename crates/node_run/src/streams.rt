ghost use Rattle.std.specs.Prelude.{◌≤◌, OnOk, OnErr};
ghost use Rattle.nb_outside.specs.Counts.{HasRisen};
ghost use Rattle.nb_outside.specs.Streams.{Adds};
ghost use Rattle.node_run.specs.Frames.{AddsFront};

use nb_outside::{Sink, WriteEnd};
use std::error::Error;
use std::fmt;

/// The sink met a fault.
#[derive(Clone, Copy, Debug, PartialEq, Eq)]
pub struct SinkFault;

impl fmt::Display for SinkFault {
    fn fmt<W: fmt::Write>(&self, f: &mut fmt::Formatter<W>) -> fmt::Result {
        write!(f, "the sink met a fault")
    }
}

impl Error for SinkFault {}

/// Writes all the bytes. After an error a prefix of them is written.
pub fn write_all<K: Sink>(sink: &mut K, bytes: &[u8]) -> Result<(), SinkFault>
    ensures ok { OnOk result (Adds (K.written sink.old) (K.written sink.new) bytes.now) }
    ensures err { OnErr result (AddsFront (K.written sink.old) (K.written sink.new) bytes.now) }
    ensures fault { OnErr result (HasRisen (K.faults sink.old) (K.faults sink.new)) }
    ensures faults_stay { K.faults sink.old ≤ K.faults sink.new }
{
    let mut rest = bytes;
    while !rest.is_empty() {
        match sink.write(rest) {
            WriteEnd::Wrote(count) => {
                let (_, more) = rest.split_at(count);
                rest = more;
            }
            WriteEnd::Failed => return Err(SinkFault),
        }
    }
    Ok(())
}
