ghost use Rattle.std.specs.Prelude.{◌≡◌, IfOk};
ghost use Rattle.checkpoint_commands.specs.Told as spec;
ghost use Rattle.checkpoint_commands.specs.Told.{IsToldOf};

use crate::Said;
use crate::restore_lines::{restore_line, state_lines};
use command_words::status;
use restore_run::{RestoreFault, restore};
use std::alloc::{AllocError, Global};

/// The status of a fault.
fn status_of(fault: &RestoreFault) -> u8
    ensures { result ≡ spec.status_of fault.now }
{
    match fault {
        RestoreFault::OutOfMemory => status::OUT_OF_MEMORY,
        RestoreFault::Checkpoint(_) => status::NO_CHECKPOINT,
        RestoreFault::DrewAgain(_) => status::DREW_AGAIN,
        RestoreFault::Unlike(_) | RestoreFault::Loose(_) => status::UNLIKE,
    }
}

/// Restores the bytes of a checkpoint on host 0, and says a line for each name with a value, and the count and meter. The status is 0; or
/// 7, if the bytes are no checkpoint; 8, if a cell that is run again calls `draw()`; 9, if what comes out isn't what the checkpoint says.
pub fn restored(alloc: Global, bytes: &[u8]) -> Result<Said, AllocError>
    ensures { IfOk result (λ said. IsToldOf bytes.now said.status said.text) }
{
    match restore(alloc, bytes, 0) {
        Ok(restored) => {
            let text = state_lines(alloc, restored.kernel.state())?;
            Ok(Said {
                status: status::DONE,
                text,
            })
        }
        Err(RestoreFault::OutOfMemory) => Err(AllocError),
        Err(fault) => {
            let status = status_of(&fault);
            let text = restore_line(alloc, fault)?;
            Ok(Said { status, text })
        }
    }
}
