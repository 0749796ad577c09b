ghost use Rattle.std.specs.Prelude.{◌≡◌, ◌<◌, length, IfOk};
ghost use Rattle.py_heap.specs.Dicts.{value_under};
ghost use Rattle.py_heap.specs.Objects.{items_at, pairs_at};
ghost use Rattle.py_ops.specs.Positions as spec;

use py_heap::Object;
use py_machine::Machine;
use py_value::Value;
use std::alloc::AllocError;

/// A copy of the item at an index of the list or the tuple at an address.
pub(crate) fn item_of(machine: &Machine, at: u32, position: usize) -> Result<Value, AllocError>
    requires { position < length (items_at machine.now.state.heap at) }
    ensures { IfOk result (λ item. item ≡ spec.item_of machine.now.state.heap at position) }
{
    match machine.object_at(at) {
        Some(Object::List(items) | Object::Tuple(items)) => match items.get(position) {
            Some(item) => item.copy(),
            None => unreachable!(),
        },
        _ => unreachable!(),
    }
}

/// Copies of the value at an index of one dict, and of the value under the same key of another, if the key is there.
pub(crate) fn values_of(
    machine: &Machine,
    a: u32,
    b: u32,
    position: usize,
) -> Result<(Value, Option<Value>), AllocError>
    requires { position < length (pairs_at machine.now.state.heap a) }
    ensures value { IfOk result (λ both. both.0 ≡ (spec.pair_of machine.now.state.heap a position).1) }
    ensures other { IfOk result (λ both. both.1 ≡ value_under (pairs_at machine.now.state.heap b) (spec.pair_of machine.now.state.heap a position).0) }
{
    match machine.object_at(a) {
        Some(Object::Dict(pairs)) => {
            let (key, value) = pairs.pair_at(position);
            let value = value.copy()?;
            match machine.object_at(b) {
                Some(Object::Dict(others)) => match others.get(key) {
                    Some(other) => Ok((value, Some(other.copy()?))),
                    None => Ok((value, None)),
                },
                _ => Ok((value, None)),
            }
        }
        _ => unreachable!(),
    }
}
