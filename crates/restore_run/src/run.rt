ghost use Rattle.std.specs.Prelude.{◌≡◌, ◌≢◌, ◌≤◌, All, IfOk, IfErr};
ghost use Rattle.reader_laws.specs.Valid.{IsValidState};
ghost use Rattle.graph_model.specs.Faults.{IsGraph};
ghost use Rattle.checkpoint_bytes.specs.Sessions.{IsWithinBounds};
ghost use Rattle.checkpoint_reader.specs.Numbered.{IsEmptyIfAbsent};
ghost use Rattle.replay_laws.specs.Tidied.{IsTidied};
ghost use Rattle.restore_run.specs.Restoring.{IsRestoredOn, IsRestoreFault, IsFinished, IsEndFault};
ghost use Rattle.restore_run.specs.Usable.{IsUsableSession};

use crate::fault::RestoreFault;
use crate::restored::Restored;
use crate::walk::walk;
use checkpoint_reader::{Checkpoint, CheckpointFault, read_checkpoint};
use graph_model::Graph;
use history_graph::History;
use linked_parts::parts_of;
use part_loader::tidied;
use py_heap::State;
use py_kernel::Kernel;
use state_judge::{Disagreement, judge};
use std::alloc::{AllocError, Global};

/// The state in which a walk ended, with the session's count and meter, and only with the objects that names reach.
fn finished(alloc: Global, mut last: State, count: u32, meter: u32) -> Result<State, AllocError>
    requires valid { IsValidState last }
    requires meter { meter ≤ 16777216 }
    ensures tidied { IfOk result (IsTidied (record last { count = count; meter = meter })) }
    ensures valid { IfOk result IsValidState }
{
    last.set_count(count);
    last.set_meter(meter);
    tidied(alloc, &last)
}

/// The session with this state and this graph, if they agree. It may go on.
fn restored(alloc: Global, state: State, host: u32, graph: Graph) -> Result<Restored, RestoreFault>
    requires valid { IsValidState state }
    requires graph { IsGraph graph }
    requires cells { All IsWithinBounds graph.cells }
    requires absent { All IsEmptyIfAbsent graph.versions }
    ensures ok { IfOk result (IsFinished state host graph) }
    ensures usable { IfOk result (λ session. IsUsableSession session.kernel.state session.history) }
    ensures fault { IfErr result (IsEndFault graph state) }
{
    let parts = parts_of(alloc, &state)?;
    match judge(alloc, &graph, &state, &parts) {
        Ok(()) => {}
        Err(Disagreement::OutOfMemory) => return Err(RestoreFault::OutOfMemory),
        Err(Disagreement::Unlike(v)) => return Err(RestoreFault::Unlike(v)),
        Err(Disagreement::Loose(name)) => return Err(RestoreFault::Loose(name)),
    }
    let objects = state.len();
    Ok(Restored {
        kernel: Kernel::of(state, host),
        history: History::of(graph, parts),
        objects,
    })
}

/// Restores a session from the bytes of a checkpoint, on a host: the cells that its plan runs again are run, and what it copies is
/// loaded. The answer is a state that has all that the checkpoint's graph says, or the first fault. Whatever the bytes are, and whether
/// or not there are cells for which it stands, the session may go on: its state is valid, its parts are the state's, its graph has no
/// fault, the versions that hold are the parts, with their handles and sizes, and each cell is within its bounds.
///
/// Nothing of what cells print is kept. Memory beside the state: until the walk ends the checkpoint's parts that it hasn't come to, and
/// the trees of at most 100 codes of at most 1,000 bytes each, which aren't read again if they come again; and then the state once
/// more while its objects are numbered.
pub fn restore(alloc: Global, bytes: &[u8], host: u32) -> Result<Restored, RestoreFault>
    ensures restored { IfOk result (IsRestoredOn bytes.now host) }
    ensures usable { IfOk result (λ session. IsUsableSession session.kernel.state session.history) }
    ensures fault { IfErr result (λ f. f ≢ RestoreFault.OutOfMemory → IsRestoreFault bytes.now f) }
{
    let read = match read_checkpoint(alloc, bytes) {
        Ok(read) => read,
        Err(CheckpointFault::OutOfMemory) => return Err(RestoreFault::OutOfMemory),
        Err(fault) => return Err(RestoreFault::Checkpoint(fault)),
    };
    let Checkpoint {
        count,
        meter,
        graph,
        plan,
        parts,
    } = read;
    let last = walk(alloc, &graph, &plan, parts, host)?;
    let state = finished(alloc, last, count, meter)?;
    restored(alloc, state, host, graph)
}
