//! Plans graphs: in cases that standard input gives, or of n cells of some shape, to be measured.
//!
//! If there are arguments, they are the shape (session, chain, star, comb, bipartite, layered, random, handles or dense), n, or
//! else 100, and one of the words `cost`, `graph` and `times`, or else `cost`. What a plan of that graph costs is printed, or
//! the graph, or how long each step takes. The graph is made by a rule, so it is checked before it is planned.
//!
//! Without arguments each line of standard input is a JSON object, and for each a line is printed.
//!
//! - `nodes`, a number, and `arcs`, a list of arcs, each a list of its two nodes and its capacity: the value of a greatest flow
//!   and the capacity of a least cut; or, if `on` has what each arc carries, the value of that flow, or its fault. The plainest
//!   solver (`plain`) has to find the same greatest value.
//! - `ask`, a word, with `cells` (each with `steps`, `drew`, `reads`, `missing`) and `versions` (each with `names`, `writer`,
//!   `replaced`, `absent`, `handle`, `size`), where what is left out is 0, false or empty. `check`: whether that is a graph, or
//!   else its fault; that is said also if anything below is asked of what is no graph. `need`: the cells that the version
//!   `version` needs. `weigh`: whether the four `weights` are admitted, or else their fault, of any cells and versions, and of
//!   these each `times` times. `network`: how many nodes the plan network has, and its arcs. `plan`: a plan of least cost, with
//!   its cost and the arcs that show it. `least`: what such a plan costs, or what is stuck. `judge`: what the plan that copies
//!   `copied` and runs `rerun` again costs, or where it isn't feasible; with `on`, what each arc of the plan network carries,
//!   whether the plan is best.
//! - `shape` and `count`: what a plan of the graph of that shape costs, as above.
#![tactic(auto)]

use anyhow::Result;
use cases::answer_lines;
use graph_model::{CellRecord, Graph, Version};
use std::env;
use std::rt::Env;
use steps::{MOST, Times, cost_line, made, timed};

mod cases;
mod flows;
mod given;
mod plain;
mod plans;
mod session;
mod shape;
mod steps;
mod words;

/// How often the steps are timed.
const ROUNDS: u32 = 3;

/// What the command line asks for.
#[derive(Drop)]
struct Wanted {
    shape: String,
    count: u32,
    shown: String,
}

/// What the command line asks for, with a default for each word that isn't given; none if there are no words.
fn words_given(rt: &(impl Env + AllocGlobal)) -> Result<Option<Wanted>> {
    let alloc = rt.alloc();
    let mut words = env::args(rt)?;
    let _program = words.next();
    let Some(shape) = words.next() else {
        return Ok(None);
    };
    let count = match words.next() {
        Some(word) => word.as_str().parse::<u32>()?.min(MOST),
        None => 100,
    };
    let shown = match words.next() {
        Some(word) => word,
        None => String::from_str(alloc, "cost")?,
    };
    Ok(Some(Wanted {
        shape,
        count,
        shown,
    }))
}

/// A line of a cell: its steps, and the versions that it read.
fn cell_line(rt: &impl AllocGlobal, cell: &CellRecord) -> Result<String> {
    let alloc = rt.alloc();
    let mut line = format!(in alloc; "cell {}", cell.steps)?;
    for v in cell.reads.as_slice() {
        let read = format!(in alloc; " {v}")?;
        line.push_str(read.as_str())?;
    }
    Ok(line)
}

/// A line of a version: its writer, what replaced it, its size, and 1 if it holds a handle.
fn version_line(rt: &impl AllocGlobal, version: &Version) -> Result<String> {
    let alloc = rt.alloc();
    Ok(format!(in alloc;
        "version {} {} {} {}",
        version.writer,
        version.replaced,
        version.size,
        u8::from(version.handle)
    )?)
}

fn print_graph(rt: &HostRuntime, graph: &Graph) -> Result<()> {
    for cell in graph.cells.as_slice() {
        let line = cell_line(rt, cell)?;
        println!(rt; "{}", line.as_str())?;
    }
    for version in graph.versions.as_slice() {
        let line = version_line(rt, version)?;
        println!(rt; "{}", line.as_str())?;
    }
    Ok(())
}

/// A line of what each step took.
fn print_times(rt: &HostRuntime, times: &Times) -> Result<()> {
    println!(rt;
        "check {} plan {} flow {} check_plan {}",
        times.check, times.plan, times.flow, times.judge
    )?;
    Ok(())
}

/// Prints what the words ask for.
fn measure(rt: &HostRuntime, wanted: &Wanted) -> Result<()> {
    let alloc = rt.alloc();
    let shape = wanted.shape.as_str();
    match wanted.shown.as_str() {
        "graph" => print_graph(rt, &made(alloc, shape, wanted.count)?),
        "times" => {
            let graph = made(alloc, shape, wanted.count)?;
            for _ in 0..ROUNDS {
                let times = timed(rt, &graph)?;
                print_times(rt, &times)?;
            }
            Ok(())
        }
        _ => {
            let line = cost_line(alloc, shape, wanted.count)?;
            println!(rt; "{line}")?;
            Ok(())
        }
    }
}

fn main(rt: HostRuntime) -> Result<()> {
    match words_given(&rt)? {
        Some(wanted) => measure(&rt, &wanted),
        None => answer_lines(&rt),
    }
}
