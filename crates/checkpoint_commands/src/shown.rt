ghost use Rattle.std.specs.Prelude.{◌≡◌, IfOk};
ghost use Rattle.checkpoint_commands.specs.Told as spec;

use plain_data::Text;
use py_heap::State;
use py_machine::Fault;
use py_show::{Limited, put_repr};
use py_value::Value;
use std::alloc::{AllocError, Global};

/// The levels that are left for a value at the first level.
const LEVELS: u32 = 800;

/// What a value shows (its `repr`), from no steps on, with the value itself at level 1. If showing it raises an error, the error's name;
/// if the text is longer than 16,777,216 bytes, `MemoryError`.
pub(crate) fn shown_text(alloc: Global, state: &State, value: &Value) -> Result<Text, AllocError>
    ensures { IfOk result (λ text. text ≡ spec.shown_text state.now value.now) }
{
    let mut steps = 0;
    let mut out = Limited::new(alloc)?;
    match put_repr(alloc, LEVELS, state, &mut steps, value, &mut out) {
        Ok(()) => match out.into_text() {
            Some(text) => Ok(text),
            None => Text::new(alloc, "MemoryError"),
        },
        Err(Fault::Raised(error)) => Text::new(alloc, error.get().kind.name()),
        Err(Fault::DrawFailed) => Text::new(alloc, "OSError"),
        Err(Fault::OutOfMemory) => Err(AllocError),
    }
}
