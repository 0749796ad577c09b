//! Bytes that are sent whole.

ghost use Rattle.std.specs.Prelude.{◌≡◌, ◌≤◌, Err, OnOk, OnErr};
ghost use Rattle.nb_outside.specs.Counts.{HasRisen};
ghost use Rattle.nb_links.specs.Lines.{Adds};
ghost use Rattle.node_serve.specs.Sent.{AddsFront};

use nb_links::{Link, SendEnd};
use std::error::Error;
use std::fmt;

/// Why bytes weren't sent.
#[derive(Clone, Copy, Debug, PartialEq, Eq)]
pub enum SendFault {
    /// The link met a fault.
    Link,
    /// Memory ran out.
    OutOfMemory,
}

impl fmt::Display for SendFault {
    fn fmt<W: fmt::Write>(&self, f: &mut fmt::Formatter<W>) -> fmt::Result {
        match self {
            SendFault::Link => write!(f, "the link met a fault"),
            SendFault::OutOfMemory => write!(f, "out of memory"),
        }
    }
}

impl Error for SendFault {}

/// Sends all the bytes. After an error a prefix of them is sent.
pub fn send_all<L: Link>(link: &mut L, bytes: &[u8]) -> Result<(), SendFault>
    ensures ok { OnOk result (Adds (L.line link.old) (L.line link.new) bytes.now) }
    ensures err { OnErr result (AddsFront (L.line link.old) (L.line link.new) bytes.now) }
    ensures fault { result ≡ Err SendFault.Link → HasRisen (L.faults link.old) (L.faults link.new) }
    ensures faults_stay { L.faults link.old ≤ L.faults link.new }
{
    let mut rest = bytes;
    while !rest.is_empty() {
        match link.send(rest) {
            SendEnd::Wrote(count) => {
                let (_, more) = rest.split_at(count);
                rest = more;
            }
            SendEnd::Failed => return Err(SendFault::Link),
            SendEnd::OutOfMemory => return Err(SendFault::OutOfMemory),
        }
    }
    Ok(())
}
