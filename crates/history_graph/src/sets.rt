ghost use Rattle.std.specs.Prelude.{◌≡◌, ◌↔◌, IsTrue, OnOk};
ghost use Rattle.py_machine.specs.Marked.{has_member};
ghost use Rattle.history_graph.specs.Sets.{HasOneOf, IsWith, IsWithThose};

use plain_data::{Text, TextMap};
use std::alloc::{AllocError, Global};

/// Whether the name is in the set.
pub fn is_in(names: &TextMap<()>, name: &Text) -> bool
    ensures { result ≡ has_member names.now name.now }
{
    names.look(name).is_some()
}

/// Whether one of the names is in the set.
pub(crate) fn has_one_of(set: &TextMap<()>, names: &[Text]) -> bool
    ensures { IsTrue result ↔ HasOneOf set.now names.now }
{
    for name in names {
        if is_in(set, name) {
            return true;
        }
    }
    false
}

/// Puts the names into the set. After an error some of them may be there.
pub fn add_names(alloc: Global, set: &mut TextMap<()>, names: &[Text]) -> Result<(), AllocError>
    ensures { OnOk result (IsWith set.old names.now set.new) }
{
    for name in names {
        set.bind(name.copy(alloc)?, ())?;
    }
    Ok(())
}

/// Puts those of the names into the set that are in another.
pub(crate) fn add_those(
    alloc: Global,
    set: &mut TextMap<()>,
    names: &[Text],
    those: &TextMap<()>,
) -> Result<(), AllocError>
    ensures { OnOk result (IsWithThose set.old names.now those.now set.new) }
{
    for name in names {
        if is_in(those, name) {
            set.bind(name.copy(alloc)?, ())?;
        }
    }
    Ok(())
}
