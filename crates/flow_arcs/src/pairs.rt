ghost use Rattle.std.specs.Prelude.{◌≡◌, ◌<◌, ◌≤◌, ◌+◌, ◌^◌, length, slice_index, IfOk};
ghost use Rattle.flow_model.specs.Flows.{IsLegal};
ghost use Rattle.flow_arcs.specs.Pairs.{partner, pushed, carried, IsPaired};

use crate::network::Network;
use std::alloc::{AllocError, Global};

/// The other directed arc of the same arc: 2i and 2i + 1 are partners.
pub fn partner(arc: u32) -> u32
    requires { partner arc < 2 ^ 32 }
    ensures value { result ≡ partner arc }
    ensures back { partner result ≡ arc }
{
    if arc % 2 == 0 { arc + 1 } else { arc - 1 }
}

/// Sends the amount along a directed arc: from then on it may carry that much less, and its partner that much more.
pub fn push(rest: &mut Vec<u64>, arc: u32, amount: u64)
    requires arc { arc < length rest.old.items }
    requires back { partner arc < length rest.old.items }
    requires few { length rest.old.items ≤ 2 ^ 32 }
    requires fits { amount ≤ slice_index rest.old.items arc }
    requires sum { slice_index rest.old.items arc + slice_index rest.old.items (partner arc) < 2 ^ 64 }
    ensures { rest.new.items ≡ pushed rest.old.items arc amount }
{
    let back = partner(arc) as usize;
    rest[arc as usize] -= amount;
    rest[back] += amount;
}

/// How much more each directed arc may carry when nothing flows.
pub fn idle_rests(alloc: Global, net: &Network) -> Result<Vec<u64>, AllocError>
    ensures paired { IfOk result (λ rest. IsPaired net.now.arcs rest.items) }
    ensures legal { IfOk result (λ rest. IsLegal net.now (carried rest.items)) }
{
    let arcs = net.arcs();
    let mut rest = Vec::new(alloc);
    for arc in arcs {
        rest.push(arc.capacity)?;
        rest.push(0)?;
    }
    Ok(rest)
}

/// What each arc carries: what the second of its directed arcs may carry back.
pub fn carried_flow(alloc: Global, net: &Network, rest: &[u64]) -> Result<Vec<u64>, AllocError>
    requires { IsPaired net.now.arcs rest.now }
    ensures { IfOk result (λ on. on.items ≡ carried rest.now) }
{
    let mut on = Vec::new(alloc);
    for i in 0..net.arcs().len() {
        on.push(rest[2 * i + 1])?;
    }
    Ok(on)
}
