//! The entries of moves, from the members of a line.
//!
//! By `entry`: `sealed` and `moved` have to; `adopted` has from, to, copied, rerun, cost, arcs (lists of two nodes and the
//! flow; a node is a list of `s`, `v`, `c` or `t` and its number) and objects; `refused` has host and reason, which is `stuck`
//! (version, cell, names), `same host`, `unknown host` (to), `dead`, `sum` or a weight; `resumed` has nothing more.

use crate::entries::request_in;
use anyhow::{Result, bail};
use graph_model::{Certified, FlowArc, Node, Plan};
use json_members::{
    item_at, list_in, number_in, number_of, small_in, small_of, smalls_of, text_in, text_of,
    texts_of,
};
use plain_data::Items;
use plan_model::{Weight, WeightFault};
use serde_json::Value;
use session_core::{Entry, MoveRefusal};
use std::alloc::Global;

fn sealed(alloc: Global, line: &Value) -> Result<Entry> {
    Ok(Entry::Sealed {
        host: 0,
        request: request_in(alloc, line)?,
        to: small_in(line, "to")?,
    })
}

fn node_of(value: &Value) -> Result<Node> {
    let number = small_of(item_at(value, 1)?)?;
    match text_of(item_at(value, 0)?)? {
        "s" => Ok(Node::Source),
        "v" => Ok(Node::Version(number)),
        "c" => Ok(Node::Cell(number)),
        "t" => Ok(Node::Sink),
        other => bail!("no node is called {other}"),
    }
}

fn arc_of(value: &Value) -> Result<FlowArc> {
    let from = node_of(item_at(value, 0)?)?;
    let to = node_of(item_at(value, 1)?)?;
    let flow = number_of(item_at(value, 2)?)?;
    Ok(FlowArc { from, to, flow })
}

fn arcs_in(alloc: Global, line: &Value) -> Result<Items<FlowArc>> {
    let mut arcs = Vec::new(alloc);
    for item in list_in(line, "arcs")? {
        arcs.push(arc_of(item)?)?;
    }
    Ok(Items::from_vec(arcs))
}

fn certified(alloc: Global, line: &Value) -> Result<Certified> {
    Ok(Certified {
        plan: Plan {
            copied: smalls_of(alloc, list_in(line, "copied")?)?,
            rerun: smalls_of(alloc, list_in(line, "rerun")?)?,
        },
        cost: number_in(line, "cost")?,
        arcs: arcs_in(alloc, line)?,
    })
}

fn adopted(alloc: Global, line: &Value) -> Result<Entry> {
    Ok(Entry::Adopted {
        from: small_in(line, "from")?,
        to: small_in(line, "to")?,
        request: request_in(alloc, line)?,
        certified: certified(alloc, line)?,
        objects: small_in(line, "objects")?,
    })
}

fn weights_of(name: &str) -> Result<WeightFault> {
    match name {
        "copy_base" => Ok(WeightFault::Over(Weight::CopyBase)),
        "per_byte" => Ok(WeightFault::Over(Weight::PerByte)),
        "run_base" => Ok(WeightFault::Over(Weight::RunBase)),
        "per_step" => Ok(WeightFault::Over(Weight::PerStep)),
        "sum" => Ok(WeightFault::TooMuch(9_223_372_036_854_775_808)),
        other => bail!("no reason is called {other}"),
    }
}

fn stuck(alloc: Global, line: &Value) -> Result<MoveRefusal> {
    Ok(MoveRefusal::Stuck {
        version: small_in(line, "version")?,
        cell: small_in(line, "cell")?,
        names: texts_of(alloc, list_in(line, "names")?)?,
    })
}

fn reason_of(alloc: Global, line: &Value) -> Result<MoveRefusal> {
    match text_in(line, "reason")? {
        "stuck" => stuck(alloc, line),
        "same host" => Ok(MoveRefusal::SameHost),
        "unknown host" => Ok(MoveRefusal::UnknownHost(number_in(line, "to")?)),
        "dead" => Ok(MoveRefusal::DeadKernel),
        name => Ok(MoveRefusal::BadWeights(weights_of(name)?)),
    }
}

fn refused(alloc: Global, line: &Value) -> Result<Entry> {
    Ok(Entry::Refused {
        host: small_in(line, "host")?,
        request: request_in(alloc, line)?,
        reason: reason_of(alloc, line)?,
    })
}

fn resumed(alloc: Global, line: &Value) -> Result<Entry> {
    Ok(Entry::Resumed {
        host: 0,
        request: request_in(alloc, line)?,
    })
}

/// The entry of this kind that a line tells.
pub fn move_of(alloc: Global, kind: &str, line: &Value) -> Result<Entry> {
    match kind {
        "sealed" => sealed(alloc, line),
        "moved" => Ok(Entry::Moved {
            to: small_in(line, "to")?,
        }),
        "adopted" => adopted(alloc, line),
        "refused" => refused(alloc, line),
        "resumed" => resumed(alloc, line),
        other => bail!("no entry is called {other}"),
    }
}
