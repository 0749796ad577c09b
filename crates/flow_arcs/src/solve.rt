ghost use Rattle.std.specs.Prelude.{◌≡◌, IfOk, length, map, nat_lt, slice_index};
ghost use Rattle.flow_model.specs.Flows.{IsNet, IsLegal, IsGreatest, IsCut, value, cut_capacity};
ghost use Rattle.flow_arcs.specs.Pairs.{carried, IsPaired};
ghost use Rattle.flow_arcs.specs.Searches.{IsSearch, IsClosed};
ghost use Rattle.flow_arcs.specs.Sides.{side};

use crate::flow::{ArcFlow, Cut};
use crate::links::Links;
use crate::network::{Network, SINK};
use crate::pairs::carried_flow;
use crate::search::{Search, search_levels};
use crate::send::Sender;
use plain_data::Items;
use std::alloc::{AllocError, Global};

/// A greatest flow.
pub fn max_flow(alloc: Global, net: &Network) -> Result<ArcFlow, AllocError>
    ensures legal { IfOk result (λ flow. IsLegal net.now flow.on) }
    ensures greatest { IfOk result (λ flow. IsGreatest net.now flow.on) }
{
    let (flow, _) = max_flow_with_cut(alloc, net)?;
    Ok(flow)
}

/// A greatest flow, and a cut of that capacity, which says of each node whether it is in.
pub fn max_flow_with_cut(alloc: Global, net: &Network) -> Result<(ArcFlow, Cut), AllocError>
    ensures legal { IfOk result (λ both. IsLegal net.now both.0.on) }
    ensures cut { IfOk result (λ both. IsCut (side both.1.inside)) }
    ensures nodes { IfOk result (λ both. length both.1.inside ≡ net.now.nodes) }
    ensures greatest { IfOk result (λ both. IsGreatest net.now both.0.on) }
    ensures least { IfOk result (λ both. cut_capacity (side both.1.inside) net.now.arcs ≡ value net.now both.0.on) }
{
    let mut links = Links::new(alloc, net)?;
    let mut sender = Sender::new(alloc, net)?;
    links.relink(alloc, net, &sender.rest)?;
    sender.send(alloc, net, &links)?;
    'rounds: loop {
        links.relink(alloc, net, &sender.rest)?;
        let search = search_levels(alloc, net, &links, &sender.rest)?;
        if search.level[SINK as usize] == 0 {
            return flow_and_cut(alloc, net, &sender.rest, &search);
        }
        sender.send_round(alloc, net, &links, search)?;
    }
}

/// The flow and the cut that a search shows which hasn't reached the sink.
fn flow_and_cut(
    alloc: Global,
    net: &Network,
    rest: &[u64],
    search: &Search,
) -> Result<(ArcFlow, Cut), AllocError>
    requires net { IsNet net.now }
    requires paired { IsPaired net.now.arcs rest.now }
    requires legal { IsLegal net.now (carried rest.now) }
    requires search { IsSearch net.now rest.now search.now.level.items search.now.by.items search.now.order.items }
    requires unreached { slice_index search.now.level.items 1 ≡ 0 }
    requires closed { IsClosed net.now.arcs rest.now search.now.level.items }
    ensures legal { IfOk result (λ both. IsLegal net.now both.0.on) }
    ensures cut { IfOk result (λ both. IsCut (side both.1.inside)) }
    ensures nodes { IfOk result (λ both. length both.1.inside ≡ net.now.nodes) }
    ensures greatest { IfOk result (λ both. IsGreatest net.now both.0.on) }
    ensures least { IfOk result (λ both. cut_capacity (side both.1.inside) net.now.arcs ≡ value net.now both.0.on) }
{
    let on = carried_flow(alloc, net, rest)?;
    let inside = reached_nodes(alloc, &search.level)?;
    let flow = ArcFlow {
        on: Items::from_vec(on),
    };
    let cut = Cut {
        inside: Items::from_vec(inside),
    };
    Ok((flow, cut))
}

/// For each node whether it was reached.
fn reached_nodes(alloc: Global, level: &[u32]) -> Result<Vec<bool>, AllocError>
    ensures { IfOk result (λ inside. inside.items ≡ map (λ mark. nat_lt 0 mark) level.now) }
{
    level.iter().map(|mark| *mark > 0).collect(alloc)
}
