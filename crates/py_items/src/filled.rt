ghost use Rattle.std.specs.Prelude.{◌≡◌, []};
ghost use Rattle.py_machine.specs.Runs.{Still};
ghost use Rattle.py_meaning.specs.Acts.{run};
ghost use Rattle.py_meaning.specs.Meaning as spec;

use crate::stored::put;
use plain_data::Items;
use py_machine::{Fault, Machine};
use py_ops::keyed;
use py_value::{Key, Value};
use std::alloc::Global;

/// The pairs of a display, each with its first value as a key, or the TypeError of the first that is no key. (Python reference:
/// dictionary displays.)
pub fn keys_from(
    alloc: Global,
    machine: &Machine,
    pairs: &[(Value, Value)],
) -> Result<Items<(Key, Value)>, Fault>
    ensures { Still (run (spec.keys_from [] pairs.now)) machine.now result machine.now }
{
    let mut all = Items::new(alloc);
    for pair in pairs {
        let key = keyed(alloc, machine, &pair.0)?;
        all.push((key, pair.1.copy()?))?;
    }
    Ok(all)
}

/// Puts pairs into the dict at an address, in their order, and gives the dict. (Python reference: dictionary displays.)
pub fn fill(
    alloc: Global,
    machine: &mut Machine,
    address: u32,
    pairs: &[(Key, Value)],
) -> Result<Value, Fault>
    ensures runs { Still (run (spec.filled address pairs.now)) machine.old result machine.new }
    ensures drawn { machine.new.drawn ≡ machine.old.drawn }
{
    for pair in pairs {
        put(alloc, machine, address, pair.0.copy()?, pair.1.copy()?)?;
    }
    Ok(Value::Ref(address))
}
