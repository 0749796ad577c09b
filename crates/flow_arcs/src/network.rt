ghost use Rattle.std.specs.Prelude.{◌≡◌, ◌≢◌, ◌<◌, ◌≤◌, ◌^◌, [], ◌∷◌, ◌++◌, length, IfOk, OnOk, OnErr};
ghost use Rattle.flow_model.specs.Flows.{Net, IsNet};
ghost use Rattle.flow_arcs.specs.Pairs.{tails};
ghost use Rattle.flow_arcs.specs.Lists.{IsLists};

use crate::lists::Lists;
use flow_model::Arc;
use plain_data::Items;
use std::alloc::{AllocError, Global};
use std::marker::Model;

/// The number of the source.
pub const SOURCE: u32 = 0;

/// The number of the sink.
pub const SINK: u32 = 1;

/// One more than the most arcs that a network has: each has two directed arcs, whose numbers fit 32 bits.
const MOST_ARCS: usize = 1 << 31;

/// A network: at least two nodes, numbered from 0 (the source) and 1 (the sink), and arcs numbered from 0 in the order
/// in which they were added. No arc enters the source, and none leaves the sink.
#[derive(Debug, Drop)]
pub struct Network {
    nodes: u32,
    arcs: Items<Arc>,
    lists: Lists,
}

impl Model for Network {
    ghost use Rattle.flow_model.specs.Flows.{Net};
    ghost use Rattle.flow_arcs.specs.Lists.{IsListed};

    ghost Value = { Net };

    ghost view = { λ s. record { nodes = s.nodes; arcs = s.arcs } };

    ghost invariant = { λ s. IsListed (record { nodes = s.nodes; arcs = s.arcs }) s.lists.first.items s.lists.next.items };
}

impl Network {
    /// A network with these nodes and no arcs. Takes no memory.
    pub fn new(alloc: Global, nodes: u32) -> Network
        requires { 2 ≤ nodes }
        ensures { result ≡ record { nodes = nodes; arcs = [] } }
    {
        Network {
            nodes,
            arcs: Items::new(alloc),
            lists: Lists::new(alloc),
        }
    }

    /// Adds an arc, and gives its number: how many there were before. After an error, which also comes if there would
    /// be 2^31 arcs, nothing has changed.
    pub fn add(&mut self, from: u32, to: u32, capacity: u64) -> Result<u32, AllocError>
        requires from_within { from < self.old.nodes }
        requires to_within { to < self.old.nodes }
        requires leaves { from ≢ 1 }
        requires enters { to ≢ 0 }
        ensures number { IfOk result (λ number. number ≡ length self.old.arcs) }
        ensures added { OnOk result (self.new ≡ record self.old
            { arcs = self.old.arcs ++ (record { from = from; to = to; capacity = capacity }) ∷ [] }) }
        ensures err { OnErr result (self.new ≡ self.old) }
    {
        let number = self.arcs.len();
        if number + 1 >= MOST_ARCS {
            return Err(AllocError);
        }
        self.lists.make_room(from.max(to))?;
        self.arcs.push(Arc { from, to, capacity })?;
        self.lists.add(from);
        self.lists.add(to);
        Ok(number as u32)
    }

    /// How many nodes there are.
    pub fn nodes(&self) -> u32
        ensures value { result ≡ self.now.nodes }
        ensures net { IsNet self.now }
    {
        self.nodes
    }

    /// The arcs, in the order of their numbers.
    pub fn arcs(&self) -> &[Arc]
        ensures value { result.now ≡ self.now.arcs }
        ensures net { IsNet self.now }
        ensures few { length self.now.arcs < 2 ^ 32 }
        ensures pairs { length self.now.arcs < 2 ^ 31 }
    {
        self.arcs.as_slice()
    }

    /// The directed arcs of each node: 2i goes along arc i, and 2i + 1 back.
    pub fn lists(&self) -> &Lists
        ensures { IsLists (tails self.now.arcs) result.now.first.items result.now.next.items }
    {
        &self.lists
    }
}
