ghost use Rattle.std.specs.Prelude.{◌≡◌, ◌≢◌, ◌<◌, ◌≤◌, ◌+◌, ◌^◌, ◌↔◌, [], ◌∷◌, ◌⊎◌, length, slice_index, slice_set, false, OnOk, IfOk, IsTrue};
ghost use Rattle.flow_model.specs.Flows.{IsNet, IsLegal, value};
ghost use Rattle.flow_arcs.specs.Pairs.{heads, tails, partner, pushed, carried, IsPaired};
ghost use Rattle.flow_arcs.specs.Searches.{IsSearch};
ghost use Rattle.flow_arcs.specs.Ways.{IsLinks, IsSending, IsCarried};

use crate::levels::rising_levels;
use crate::links::Links;
use crate::network::{Network, SINK, SOURCE};
use crate::pairs::{idle_rests, push};
use crate::search::Search;
use plain_data::Stack;
use std::alloc::{AllocError, Global};

/// The level of a node from which nothing more reaches the sink.
const SHUT: u32 = 0;

/// A node on the way from the source: by which directed arc it was reached, how much it may still send on, and how much
/// it sent.
#[derive(Clone, Copy)]
pub struct Stop {
    pub node: u32,
    pub arc: u32,
    pub need: u64,
    pub got: u64,
}

/// The source, which may send on as much as a number tells.
const AT_SOURCE: Stop = Stop {
    node: SOURCE,
    arc: 0,
    need: u64::MAX,
    got: 0,
};

/// Sends flow from the source to the sink, along arcs that go up the levels of the nodes.
#[derive(Drop)]
pub struct Sender {
    /// How much more each directed arc may carry.
    pub rest: Vec<u64>,
    /// The level of each node.
    pub level: Vec<u32>,
    /// For each node the arc of its list whose turn it is: one more than the arc's number, or 0 after the last.
    pub turn: Vec<u32>,
    /// The node that it has reached.
    pub last: Stop,
    /// The stops before it, back to the source.
    pub before: Stack<Stop>,
}

/// Shuts the node of a stop that could have sent more.
fn shut(level: &mut Vec<u32>, stop: &Stop)
    requires { stop.now.node < length level.old.items }
    ensures { (level.new.items ≡ level.old.items) ⊎ (level.new.items ≡ slice_set level.old.items stop.now.node 0) }
{
    if stop.need > 0 {
        level[stop.node as usize] = SHUT;
    }
}

impl Sender {
    /// A sender at the source, where nothing flows yet, over levels by which the arcs go up.
    pub fn new(alloc: Global, net: &Network) -> Result<Sender, AllocError>
        ensures paired { IfOk result (λ it. IsPaired net.now.arcs it.rest.items) }
        ensures levels { IfOk result (λ it. length it.level.items ≡ net.now.nodes) }
        ensures legal { IfOk result (λ it. IsLegal net.now (carried it.rest.items)) }
    {
        Ok(Sender {
            rest: idle_rests(alloc, net)?,
            level: rising_levels(alloc, net)?,
            turn: Vec::new(alloc),
            last: AT_SOURCE,
            before: Stack::new(alloc),
        })
    }

    /// Sends an amount along an arc from the last stop to the sink.
    fn deliver(&mut self, net: &Network, arc: u32, amount: u64)
        requires few { length (heads net.now.arcs) < 2 ^ 32 }
        requires sending { IsSending net.now self.old.rest.items self.old.level.items self.old.turn.items self.old.last self.old.before }
        requires arc { arc < length (heads net.now.arcs) }
        requires leaves { slice_index (tails net.now.arcs) arc ≡ self.old.last.node }
        requires enters { slice_index (heads net.now.arcs) arc ≡ 1 }
        requires fits { amount ≤ slice_index self.old.rest.items arc }
        requires asked { amount ≤ self.old.last.need }
        ensures sending { IsSending net.now self.new.rest.items self.new.level.items self.new.turn.items self.new.last self.new.before }
        ensures carried { IsCarried net.now.arcs self.old.rest.items self.new.rest.items (self.old.last ∷ self.old.before) (self.new.last ∷ self.new.before) }
    {
        push(&mut self.rest, arc, amount);
        self.last.need -= amount;
        self.last.got += amount;
    }

    /// Goes along an arc from the last stop to a node of a higher level, which may send the amount on.
    fn climb(&mut self, net: &Network, arc: u32, node: u32, amount: u64) -> Result<(), AllocError>
        requires sending { IsSending net.now self.old.rest.items self.old.level.items self.old.turn.items self.old.last self.old.before }
        requires arc { arc < length (heads net.now.arcs) }
        requires leaves { slice_index (tails net.now.arcs) arc ≡ self.old.last.node }
        requires enters { slice_index (heads net.now.arcs) arc ≡ node }
        requires higher { slice_index self.old.level.items self.old.last.node < slice_index self.old.level.items node }
        requires fits { amount ≤ slice_index self.old.rest.items arc }
        requires asked { amount ≤ self.old.last.need }
        ensures sending { OnOk result (IsSending net.now self.new.rest.items self.new.level.items self.new.turn.items self.new.last self.new.before) }
        ensures carried { OnOk result (IsCarried net.now.arcs self.old.rest.items self.new.rest.items (self.old.last ∷ self.old.before) (self.new.last ∷ self.new.before)) }
    {
        self.before.push(self.last)?;
        self.last = Stop {
            node,
            arc,
            need: amount,
            got: 0,
        };
        Ok(())
    }

    /// Goes back to the stop before; what the last stop sent on goes along the arc to it. A node that could have sent more is
    /// shut. Nothing is done at the source: then the answer is false.
    fn leave(&mut self, net: &Network) -> bool
        requires few { length (heads net.now.arcs) < 2 ^ 32 }
        requires net { IsNet net.now }
        requires sending { IsSending net.now self.old.rest.items self.old.level.items self.old.turn.items self.old.last self.old.before }
        ensures sending { IsSending net.now self.new.rest.items self.new.level.items self.new.turn.items self.new.last self.new.before }
        ensures carried { IsCarried net.now.arcs self.old.rest.items self.new.rest.items (self.old.last ∷ self.old.before) (self.new.last ∷ self.new.before) }
        ensures ends { result ≡ false → self.new.before ≡ [] }
        ensures shorter { IsTrue result → length self.new.before < length self.old.before }
    {
        match self.before.pop() {
            Some(stop) => {
                shut(&mut self.level, &self.last);
                let got = self.last.got;
                push(&mut self.rest, self.last.arc, got);
                self.last = Stop {
                    node: stop.node,
                    arc: stop.arc,
                    need: stop.need - got,
                    got: stop.got + got,
                };
                true
            }
            None => false,
        }
    }

    /// Lets the last stop's node go on to the next arc of its list.
    fn go_on(&mut self, net: &Network, links: &Links, arc: u32)
        requires net { IsNet net.now }
        requires links { IsLinks net.now links.now.to.items links.now.first.items links.now.next.items }
        requires sending { IsSending net.now self.old.rest.items self.old.level.items self.old.turn.items self.old.last self.old.before }
        requires arc { arc < length (heads net.now.arcs) }
        requires leaves { slice_index (tails net.now.arcs) arc ≡ self.old.last.node }
        ensures sending { IsSending net.now self.new.rest.items self.new.level.items self.new.turn.items self.new.last self.new.before }
        ensures carried { IsCarried net.now.arcs self.old.rest.items self.new.rest.items (self.old.last ∷ self.old.before) (self.new.last ∷ self.new.before) }
    {
        self.turn[self.last.node as usize] = links.next[arc as usize];
    }

    /// Sends what it may along the arc whose turn it is.
    fn try_arc(&mut self, net: &Network, links: &Links, arc: u32) -> Result<(), AllocError>
        requires few { length (heads net.now.arcs) < 2 ^ 32 }
        requires net { IsNet net.now }
        requires links { IsLinks net.now links.now.to.items links.now.first.items links.now.next.items }
        requires sending { IsSending net.now self.old.rest.items self.old.level.items self.old.turn.items self.old.last self.old.before }
        requires arc { arc < length (heads net.now.arcs) }
        requires leaves { slice_index (tails net.now.arcs) arc ≡ self.old.last.node }
        ensures sending { OnOk result (IsSending net.now self.new.rest.items self.new.level.items self.new.turn.items self.new.last self.new.before) }
        ensures carried { OnOk result (IsCarried net.now.arcs self.old.rest.items self.new.rest.items (self.old.last ∷ self.old.before) (self.new.last ∷ self.new.before)) }
    {
        let node = links.to[arc as usize];
        if self.level[node as usize] <= self.level[self.last.node as usize] {
            self.go_on(net, links, arc);
            return Ok(());
        }
        let room = self.rest[arc as usize].min(self.last.need);
        if room == 0 {
            self.go_on(net, links, arc);
        } else if node == SINK {
            self.deliver(net, arc, room);
        } else {
            self.climb(net, arc, node, room)?;
        }
        Ok(())
    }

    /// One step: along the arc whose turn it is, or back to the stop before.
    fn step(&mut self, net: &Network, links: &Links) -> Result<(), AllocError>
        requires few { length (heads net.now.arcs) < 2 ^ 32 }
        requires net { IsNet net.now }
        requires links { IsLinks net.now links.now.to.items links.now.first.items links.now.next.items }
        requires sending { IsSending net.now self.old.rest.items self.old.level.items self.old.turn.items self.old.last self.old.before }
        ensures sending { OnOk result (IsSending net.now self.new.rest.items self.new.level.items self.new.turn.items self.new.last self.new.before) }
        ensures carried { OnOk result (IsCarried net.now.arcs self.old.rest.items self.new.rest.items (self.old.last ∷ self.old.before) (self.new.last ∷ self.new.before)) }
    {
        let position = self.turn[self.last.node as usize];
        if position == 0 || self.last.need == 0 {
            self.leave(net);
            return Ok(());
        }
        self.try_arc(net, links, position - 1)
    }

    /// Begins at the source, with each node at the first arc of its list.
    fn begin(&mut self, alloc: Global, links: &Links) -> Result<(), AllocError>
        ensures rest { OnOk result (self.new.rest.items ≡ self.old.rest.items) }
        ensures level { OnOk result (self.new.level.items ≡ self.old.level.items) }
        ensures turn { OnOk result (self.new.turn.items ≡ links.now.first.items) }
        ensures last { OnOk result (self.new.last ≡ record { node = 0; arc = 0; need = 18446744073709551615; got = 0 }) }
        ensures before { OnOk result (self.new.before ≡ []) }
    {
        self.turn = Vec::from_slice(alloc, &links.first)?;
        self.before = Stack::new(alloc);
        self.last = AT_SOURCE;
        Ok(())
    }

    /// Whether it is back at the source.
    fn is_back(&self) -> bool
        ensures { IsTrue result ↔ (self.now.before ≡ []) }
    {
        self.before.top().is_none()
    }

    /// Sends what it may along an arc of the source.
    fn send_along(&mut self, net: &Network, links: &Links, arc: u32) -> Result<(), AllocError>
        requires few { length (heads net.now.arcs) < 2 ^ 32 }
        requires net { IsNet net.now }
        requires links { IsLinks net.now links.now.to.items links.now.first.items links.now.next.items }
        requires sending { IsSending net.now self.old.rest.items self.old.level.items self.old.turn.items self.old.last self.old.before }
        requires arc { arc < length (heads net.now.arcs) }
        requires leaves { slice_index (tails net.now.arcs) arc ≡ self.old.last.node }
        ensures sending { OnOk result (IsSending net.now self.new.rest.items self.new.level.items self.new.turn.items self.new.last self.new.before) }
        ensures carried { OnOk result (IsCarried net.now.arcs self.old.rest.items self.new.rest.items (self.old.last ∷ self.old.before) (self.new.last ∷ self.new.before)) }
        ensures back { OnOk result (self.new.before ≡ []) }
    {
        self.try_arc(net, links, arc)?;
        'steps: for _ in 0..u64::MAX {
            if self.is_back() {
                break;
            }
            self.step(net, links)?;
        }
        'back: while self.leave(net) {}
        Ok(())
    }

    /// Sends flow from the source along arcs that go up, until none is left that may carry more: by one arc of the source
    /// after the other, as they were added. Nodes from which nothing more reaches the sink are shut.
    pub fn send(&mut self, alloc: Global, net: &Network, links: &Links) -> Result<(), AllocError>
        requires few { length (heads net.now.arcs) < 2 ^ 32 }
        requires net { IsNet net.now }
        requires links { IsLinks net.now links.now.to.items links.now.first.items links.now.next.items }
        requires paired { IsPaired net.now.arcs self.old.rest.items }
        requires levels { length self.old.level.items ≡ net.now.nodes }
        requires legal { IsLegal net.now (carried self.old.rest.items) }
        ensures paired { OnOk result (IsPaired net.now.arcs self.new.rest.items) }
        ensures legal { OnOk result (IsLegal net.now (carried self.new.rest.items)) }
        ensures value { OnOk result (value net.now (carried self.old.rest.items) ≤ value net.now (carried self.new.rest.items)) }
    {
        self.begin(alloc, links)?;
        for (i, arc) in net.arcs().iter().enumerate() {
            if arc.from == SOURCE {
                self.send_along(net, links, 2 * i as u32)?;
            }
        }
        Ok(())
    }

    /// A round: sends one along the arcs by which a search reached the sink, and then what it may up the levels of that search.
    pub fn send_round(
        &mut self,
        alloc: Global,
        net: &Network,
        links: &Links,
        search: Search,
    ) -> Result<(), AllocError>
        requires few { length (heads net.now.arcs) < 2 ^ 32 }
        requires net { IsNet net.now }
        requires links { IsLinks net.now links.now.to.items links.now.first.items links.now.next.items }
        requires paired { IsPaired net.now.arcs self.old.rest.items }
        requires legal { IsLegal net.now (carried self.old.rest.items) }
        requires search { IsSearch net.now self.old.rest.items search.level.items search.by.items search.order.items }
        requires reached { 0 < slice_index search.level.items 1 }
        ensures paired { OnOk result (IsPaired net.now.arcs self.new.rest.items) }
        ensures legal { OnOk result (IsLegal net.now (carried self.new.rest.items)) }
        ensures raised { OnOk result (value net.now (carried self.old.rest.items) < value net.now (carried self.new.rest.items)) }
    {
        search.push_one(net, links, &mut self.rest);
        let Search {
            level,
            by: _by,
            order: _order,
        } = search;
        self.level = level;
        self.send(alloc, net, links)
    }
}
