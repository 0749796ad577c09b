ghost use Rattle.std.specs.Prelude.{◌≡◌, ◌<◌, ◌^◌, length};
ghost use Rattle.flow_model.specs.Flows.{given, taken, value};

use crate::lists::number_at;
use crate::network::Network;
use plain_data::Items;

/// One number for each arc: what it carries.
#[derive(Debug, Drop)]
pub struct ArcFlow {
    pub on: Items<u64>,
}

/// A set of nodes: for each node whether it is in.
#[derive(Debug, Drop)]
pub struct Cut {
    pub inside: Items<bool>,
}

impl ArcFlow {
    /// What leaves the source. Takes no memory.
    pub fn value(&self, net: &Network) -> u128
        requires { length self.now.on ≡ length net.now.arcs }
        ensures { result ≡ value net.now self.now.on }
    {
        sums_at(net, self.on.as_slice(), 0).given
    }
}

/// What a node's arcs carry together.
#[derive(Clone, Copy)]
pub struct Sums {
    /// What those that leave it carry.
    pub given: u128,
    /// What those that enter it carry.
    pub taken: u128,
}

/// What a node's arcs carry together. Takes no memory.
pub fn sums_at(net: &Network, on: &[u64], node: u32) -> Sums
    requires { length on.now ≡ length net.now.arcs }
    ensures given { result.given ≡ given net.now.arcs on.now node }
    ensures taken { result.taken ≡ taken net.now.arcs on.now node }
{
    let arcs = net.arcs();
    prove!(on.len() == arcs.len());
    let lists = net.lists();
    let mut given = 0u128;
    let mut taken = 0u128;
    let mut position = number_at(&lists.first, node);
    'arcs: while position > 0 {
        let arc = position as usize - 1;
        let amount = u128::from(on[arc / 2]);
        if arc % 2 == 0 {
            given += amount;
        } else {
            taken += amount;
        }
        position = lists.next[arc];
    }
    Sums { given, taken }
}
