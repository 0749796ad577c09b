ghost use Rattle.std.specs.Prelude.{◌≡◌, []};
ghost use Rattle.restore_run.specs.Usable.{IsUsableSession};
ghost use Rattle.notebook_engine.specs.Holding.{HoldsCells};

use history_graph::History;
use py_kernel::Kernel;
use std::alloc::Global;

/// A session: the kernel on which its cells run, and their history.
#[derive(Drop)]
pub struct Session {
    pub kernel: Kernel,
    pub history: History,
}

impl Session {
    /// One that ran no cell, on this host. Takes no memory.
    pub(crate) fn new(alloc: Global, host: u32) -> Session
        ensures holds { HoldsCells result [] }
        ensures usable { IsUsableSession result.kernel.state result.history }
        ensures host { result.kernel.host ≡ host }
    {
        Session {
            kernel: Kernel::new(alloc, host),
            history: History::new(alloc),
        }
    }
}
