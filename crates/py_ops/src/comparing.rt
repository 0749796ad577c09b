ghost use Rattle.std.specs.Prelude.{◌≡◌};
ghost use Rattle.py_machine.specs.Runs.{Still};
ghost use Rattle.py_meaning.specs.Acts.{run};
ghost use Rattle.py_meaning.specs.Compared as spec;

use crate::contained::is_in;
use crate::equal::values_equal;
use crate::order::values_ordered;
use py_machine::{Fault, Machine};
use py_tree::Op;
use py_value::Value;
use std::alloc::Global;

fn unequal(
    alloc: Global,
    left: u32,
    machine: &mut Machine,
    value: &Value,
    other: &Value,
) -> Result<bool, Fault>
    ensures runs { Still (run (spec.compared left Op.NotEqual value.now other.now)) machine.old result machine.new }
    ensures drawn { machine.new.drawn ≡ machine.old.drawn }
{
    let same = values_equal(alloc, left, machine, value, other)?;
    Ok(!same)
}

fn is_not_in(
    alloc: Global,
    left: u32,
    machine: &mut Machine,
    value: &Value,
    container: &Value,
) -> Result<bool, Fault>
    ensures runs { Still (run (spec.compared left Op.NotIn value.now container.now)) machine.old result machine.new }
    ensures drawn { machine.new.drawn ≡ machine.old.drawn }
{
    let found = is_in(alloc, left, machine, value, container)?;
    Ok(!found)
}

/// Whether a comparison of two values holds: `op` is one of the eight from `Equal` to `NotIn`. Pairs inside lists and dicts
/// have `left` levels left, and a RecursionError comes if there is none; each pair takes a step. A TypeError comes if the
/// values have no order, or if nothing can be in the second. (Python reference: comparisons.)
#[inline(always)]
pub fn compare(
    alloc: Global,
    left: u32,
    machine: &mut Machine,
    op: Op,
    value: &Value,
    other: &Value,
) -> Result<bool, Fault>
    ensures runs { Still (run (spec.compared left op value.now other.now)) machine.old result machine.new }
    ensures drawn { machine.new.drawn ≡ machine.old.drawn }
{
    match op {
        Op::Equal => values_equal(alloc, left, machine, value, other),
        Op::NotEqual => unequal(alloc, left, machine, value, other),
        Op::In => is_in(alloc, left, machine, value, other),
        Op::NotIn => is_not_in(alloc, left, machine, value, other),
        Op::Less
        | Op::AtMost
        | Op::More
        | Op::AtLeast
        | Op::Plus
        | Op::Minus
        | Op::Times
        | Op::Floor
        | Op::Mod => values_ordered(alloc, left, machine, op, value, other),
    }
}
