ghost use Rattle.std.specs.Prelude.{◌≡◌, ◌<◌, ◌^◌, ℕ, length, slice_index, IfOk, OnOk};
ghost use Rattle.flow_model.specs.Flows.{IsNet};
ghost use Rattle.flow_arcs.specs.Pairs.{heads, tails, IsPaired};
ghost use Rattle.flow_arcs.specs.Lists.{AreListsOf};
ghost use Rattle.flow_arcs.specs.Ways.{IsLinks};

use crate::network::Network;
use crate::pairs::partner;
use flow_model::Arc;
use std::alloc::{AllocError, Global};

/// For each directed arc the node that it enters, and of each node a linked list of the directed arcs that leave it, from
/// the latest to the first. An entry is one more than an arc's number, or 0 if the list ends.
#[derive(Drop)]
pub struct Links {
    pub to: Vec<u32>,
    pub first: Vec<u32>,
    pub next: Vec<u32>,
}

/// The node that each directed arc enters.
fn heads_of(alloc: Global, arcs: &[Arc]) -> Result<Vec<u32>, AllocError>
    ensures { IfOk result (λ to. to.items ≡ heads arcs.now) }
{
    let mut to = Vec::new(alloc);
    for arc in arcs {
        to.push(arc.to)?;
        to.push(arc.from)?;
    }
    Ok(to)
}

impl Links {
    /// The directed arcs, which are in no list yet.
    #[tactic(auto, using(crate::proofs::Partners::length_heads))]
    pub fn new(alloc: Global, net: &Network) -> Result<Links, AllocError>
        ensures net { IsNet net.now }
        ensures few { length (heads net.now.arcs) < 2 ^ 32 }
        ensures ends { IfOk result (λ links. links.to.items ≡ heads net.now.arcs) }
    {
        let arcs = net.arcs();
        Ok(Links {
            to: heads_of(alloc, arcs)?,
            first: Vec::new(alloc),
            next: Vec::new(alloc),
        })
    }

    /// Lists the directed arcs that may carry more.
    pub fn relink(&mut self, alloc: Global, net: &Network, rest: &[u64]) -> Result<(), AllocError>
        requires few { length (heads net.now.arcs) < 2 ^ 32 }
        requires net { IsNet net.now }
        requires ends { self.old.to.items ≡ heads net.now.arcs }
        requires paired { IsPaired net.now.arcs rest.now }
        ensures links { OnOk result (IsLinks net.now self.new.to.items self.new.first.items self.new.next.items) }
        ensures lists { OnOk result (AreListsOf (λ e. 0 < slice_index rest.now e) (tails net.now.arcs) self.new.first.items self.new.next.items) }
    {
        let mut first = vec![in alloc; 0u32; net.nodes() as usize]?;
        let mut next = Vec::new(alloc);
        for (arc, room) in rest.iter().enumerate() {
            let node = self.to[partner(arc as u32) as usize] as usize;
            next.push(first[node])?;
            if *room > 0 {
                first[node] = arc as u32 + 1;
            }
        }
        self.first = first;
        self.next = next;
        Ok(())
    }
}
