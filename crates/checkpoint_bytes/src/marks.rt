ghost use Rattle.std.specs.Prelude.{IfOk};
ghost use Rattle.checkpoint_bytes.specs.Marks.{AreMarksOf};

use plain_data::Items;
use std::alloc::{AllocError, Global};

/// For each number below a length, whether it is in the list. Takes time linear in both.
pub(crate) fn marks_of(
    alloc: Global,
    numbers: &[u32],
    len: usize,
) -> Result<Items<bool>, AllocError>
    ensures { IfOk result (λ marks. AreMarksOf numbers.now len marks) }
{
    let mut marks = Items::from_vec(vec![in alloc; false; len]?);
    for number in numbers {
        let at = *number as usize;
        if at < marks.len() {
            marks.set(at, true);
        }
    }
    Ok(marks)
}
