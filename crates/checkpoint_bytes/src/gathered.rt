ghost use Rattle.std.specs.Prelude.{◌≡◌, []};

use nb_outside::{Sink, WriteEnd};
use plain_data::Items;
use std::alloc::Global;

/// A sink that keeps what is written to it in memory. Want of memory is a fault.
#[derive(Debug, Drop)]
pub(crate) struct Gathered {
    pub(crate) bytes: Items<u8>,
    faults: u64,
}

impl Gathered {
    /// An empty one. Takes no memory.
    pub(crate) fn new(alloc: Global) -> Gathered
        ensures { result.bytes ≡ [] }
    {
        Gathered {
            bytes: Items::new(alloc),
            faults: 0,
        }
    }
}

impl Sink for Gathered {
    ghost use Rattle.std.specs.Prelude.{Some};

    ghost faults = { λ sink. sink.faults };

    ghost written = { λ sink. Some sink.bytes };

    fn write(&mut self, bytes: &[u8]) -> WriteEnd {
        match self.bytes.extend_from_slice(bytes) {
            Ok(()) => WriteEnd::Wrote(bytes.len()),
            Err(_) => {
                self.faults = self.faults.saturating_add(1);
                WriteEnd::Failed
            }
        }
    }
}
