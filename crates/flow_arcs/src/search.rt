ghost use Rattle.std.specs.Prelude.{◌≡◌, ℕ, ◌+◌, ◌<◌, ◌^◌, List, length, IfOk, OnOk, slice_index};
ghost use Rattle.flow_model.specs.Flows.{IsNet, IsLegal, value};
ghost use Rattle.flow_arcs.specs.Lists.{AreListsOf};
ghost use Rattle.flow_arcs.specs.Pairs.{heads, tails, carried, IsPaired};
ghost use Rattle.flow_arcs.specs.Searches.{IsSearch, Grows, IsShut, IsDone, IsClosed};
ghost use Rattle.flow_arcs.specs.Ways.{IsLinks};

use crate::links::Links;
use crate::network::{Network, SINK, SOURCE};
use crate::pairs::{partner, push};
use std::alloc::{AllocError, Global};

/// What a search from the source has reached.
#[derive(Drop)]
pub struct Search {
    /// The level of each node: 1 for the source, one more with each arc, and 0 for a node that isn't reached.
    pub level: Vec<u32>,
    /// The directed arc by which each node was reached.
    pub by: Vec<u32>,
    /// The reached nodes, in the order in which they were.
    pub order: Vec<u32>,
}

impl Search {
    /// The search that has reached the source alone, whatever the arcs may carry.
    fn new(alloc: Global, net: &Network) -> Result<Search, AllocError>
        ensures { IfOk result (λ it. (rest : List ℕ) → IsSearch net.now rest it.level.items it.by.items it.order.items) }
    {
        let nodes = net.nodes() as usize;
        let mut level = vec![in alloc; 0u32; nodes]?;
        let by = vec![in alloc; 0u32; nodes]?;
        let mut order = Vec::new(alloc);
        order.push(SOURCE)?;
        level[SOURCE as usize] = 1;
        Ok(Search { level, by, order })
    }

    /// Reaches the node that an arc from a reached node enters, if the arc may carry more and the node wasn't reached before.
    fn look_along(
        &mut self,
        net: &Network,
        links: &Links,
        rest: &[u64],
        node: u32,
        arc: u32,
    ) -> Result<(), AllocError>
        requires net { IsNet net.now }
        requires links { IsLinks net.now links.now.to.items links.now.first.items links.now.next.items }
        requires paired { IsPaired net.now.arcs rest.now }
        requires search { IsSearch net.now rest.now self.old.level.items self.old.by.items self.old.order.items }
        requires reached { 0 < slice_index self.old.level.items node }
        requires arc { arc < length (heads net.now.arcs) }
        requires leaves { slice_index (tails net.now.arcs) arc ≡ node }
        ensures search { OnOk result (IsSearch net.now rest.now self.new.level.items self.new.by.items self.new.order.items) }
        ensures grows { OnOk result (Grows self.old.level.items self.new.level.items self.old.order.items self.new.order.items) }
        ensures shut { OnOk result (IsShut net.now.arcs rest.now self.new.level.items arc) }
    {
        let head = links.to[arc as usize];
        if rest[arc as usize] > 0 && self.level[head as usize] == 0 {
            let level = self.level[node as usize] + 1;
            self.order.push(head)?;
            self.level[head as usize] = level;
            self.by[head as usize] = arc;
        }
        Ok(())
    }

    /// Looks along each arc in the list of a reached node.
    fn spread(
        &mut self,
        net: &Network,
        links: &Links,
        rest: &[u64],
        node: u32,
    ) -> Result<(), AllocError>
        requires net { IsNet net.now }
        requires links { IsLinks net.now links.now.to.items links.now.first.items links.now.next.items }
        requires lists { AreListsOf (λ e. 0 < slice_index rest.now e) (tails net.now.arcs) links.now.first.items links.now.next.items }
        requires paired { IsPaired net.now.arcs rest.now }
        requires search { IsSearch net.now rest.now self.old.level.items self.old.by.items self.old.order.items }
        requires reached { 0 < slice_index self.old.level.items node }
        ensures search { OnOk result (IsSearch net.now rest.now self.new.level.items self.new.by.items self.new.order.items) }
        ensures grows { OnOk result (Grows self.old.level.items self.new.level.items self.old.order.items self.new.order.items) }
        ensures done { OnOk result (IsDone net.now.arcs rest.now self.new.level.items node) }
    {
        let mut position = links.first[node as usize];
        'arcs: while position > 0 {
            let arc = position - 1;
            self.look_along(net, links, rest, node, arc)?;
            position = links.next[arc as usize];
        }
        Ok(())
    }

    /// Sends one along the arcs by which the sink was reached.
    pub fn push_one(&self, net: &Network, links: &Links, rest: &mut Vec<u64>)
        requires few { length (heads net.now.arcs) < 2 ^ 32 }
        requires net { IsNet net.now }
        requires links { IsLinks net.now links.now.to.items links.now.first.items links.now.next.items }
        requires paired { IsPaired net.now.arcs rest.old.items }
        requires legal { IsLegal net.now (carried rest.old.items) }
        requires search { IsSearch net.now rest.old.items self.now.level.items self.now.by.items self.now.order.items }
        requires reached { 0 < slice_index self.now.level.items 1 }
        ensures paired { IsPaired net.now.arcs rest.new.items }
        ensures legal { IsLegal net.now (carried rest.new.items) }
        ensures raised { value net.now (carried rest.new.items) ≡ value net.now (carried rest.old.items) + 1 }
    {
        let mut node = SINK;
        'arcs: while node != SOURCE {
            let arc = self.by[node as usize];
            push(rest, arc, 1);
            node = links.to[partner(arc) as usize];
        }
    }
}

/// Searches from the source along the arcs that may carry more, level by level, until the sink is reached or nothing is left.
pub fn search_levels(
    alloc: Global,
    net: &Network,
    links: &Links,
    rest: &[u64],
) -> Result<Search, AllocError>
    requires net { IsNet net.now }
    requires links { IsLinks net.now links.now.to.items links.now.first.items links.now.next.items }
    requires lists { AreListsOf (λ e. 0 < slice_index rest.now e) (tails net.now.arcs) links.now.first.items links.now.next.items }
    requires paired { IsPaired net.now.arcs rest.now }
    ensures search { IfOk result (λ it. IsSearch net.now rest.now it.level.items it.by.items it.order.items) }
    ensures closed { IfOk result (λ it. slice_index it.level.items 1 ≡ 0 → IsClosed net.now.arcs rest.now it.level.items) }
{
    let mut search = Search::new(alloc, net)?;
    let mut done = 0usize;
    'nodes: while done < search.order.len() && search.level[SINK as usize] == 0 {
        let node = search.order[done];
        search.spread(net, links, rest, node)?;
        done += 1;
    }
    Ok(search)
}
