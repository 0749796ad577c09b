ghost use Rattle.std.specs.Prelude.{◌≡◌, ◌<◌, ◌≤◌, length, IfOk, IfSome};
ghost use Rattle.std.specs.Option.{option_copied};
ghost use Rattle.py_ops.specs.Signs.{number_of};
ghost use Rattle.py_meaning.specs.Items as spec;

use plain_data::Items;
use py_ops::Signed;
use py_value::Value;
use std::alloc::AllocError;

/// The position of an index among `count` items, if it is there: below 0 it counts from the end.
pub fn position_in(count: usize, index: Signed) -> Option<usize>
    ensures value { result ≡ spec.position_in count (number_of index) }
    ensures within { IfSome result (λ position. position < count) }
{
    match index {
        Signed::Natural(n) => {
            if n < count as u128 {
                Some(n as usize)
            } else {
                None
            }
        }
        Signed::Negative(n) => {
            if n < count as u128 {
                Some(count - 1 - n as usize)
            } else {
                None
            }
        }
    }
}

/// The position from 0 to `count` that is nearest to an index: below 0 it counts from the end.
pub fn clipped(count: usize, index: Signed) -> usize
    ensures value { result ≡ spec.clipped count (number_of index) }
    ensures within { result ≤ count }
{
    match index {
        Signed::Natural(n) => n.min(count as u128) as usize,
        Signed::Negative(n) => {
            if n < count as u128 {
                count - 1 - n as usize
            } else {
                0
            }
        }
    }
}

/// The item at an index, if it is there.
pub fn item_at(items: &Items<Value>, index: Signed) -> Option<&Value>
    ensures { option_copied result ≡ spec.item_at items.now (spec.position_in (length items.now) (number_of index)) }
{
    match position_in(items.len(), index) {
        Some(position) => items.get(position),
        None => None,
    }
}

/// A position as changes name it. One past 32 bits is want of memory: the meter lets no list get that long.
pub fn short_position(position: usize) -> Result<u32, AllocError>
    ensures { IfOk result (λ short. short ≡ position) }
{
    if position > u32::MAX as usize {
        return Err(AllocError);
    }
    Ok(position as u32)
}
