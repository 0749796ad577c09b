ghost use Rattle.std.specs.Prelude.{◌≡◌, length, IfOk};

use crate::lists::number_at;
use crate::network::Network;
use flow_model::Arc;
use std::alloc::{AllocError, Global};

/// How often the arcs are walked for levels.
const WALKS: u32 = 8;

/// Lifts nodes above those from which their arcs come, from the last arc to the first, and says whether it lifted any.
fn lift(arcs: &[Arc], level: &mut Vec<u32>) -> bool
    ensures { length level.new.items ≡ length level.old.items }
{
    let mut lifted = false;
    for arc in arcs.iter().rev() {
        let least = number_at(level, arc.from).saturating_add(1);
        if let Some(position) = level.get_mut(arc.to as usize) {
            if *position < least {
                *position = least;
                lifted = true;
            }
        }
    }
    lifted
}

/// Levels by which each arc goes up, if a few walks over the arcs find them. Else some arcs may go down.
pub fn rising_levels(alloc: Global, net: &Network) -> Result<Vec<u32>, AllocError>
    ensures { IfOk result (λ level. length level.items ≡ net.now.nodes) }
{
    let mut level = vec![in alloc; 2u32; net.nodes() as usize]?;
    level[0] = 1;
    level[1] = u32::MAX;
    'walks: for _ in 0..WALKS {
        if !lift(net.arcs(), &mut level) {
            break;
        }
    }
    Ok(level)
}
