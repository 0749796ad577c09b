//! Shows the history graphs of sessions, for tables of cases and for people.
//!
//! Each line of standard input is a JSON array of the codes of a session's cells. They run one after the other; the session
//! draws 7, 8 and 9, and then its draws fail. For each session its graph is printed: a line for each cell and a line for each
//! version, as
//!
//!     cell 3: meter 0, steps 6, reads 2, misses print
//!     version 2: x, by 2, replaced by 4, absent
//!     version 3: y, by 3, size 27
//!
//! and an empty line. A line may also be an object with `cells`, such an array, and more, if there is more to say:
//!
//! - `weights`, an array of what a copy costs, each of its bytes, a run and each of its steps. Then the graph is followed by the
//!   lines of a plan of least cost and the session's checkpoint under that plan:
//!
//!       cost 2 flow 2
//!       copy v2 y
//!       run c1
//!       arc s v1 2
//!       checkpoint 454e434b0001..
//!
//!   or `stuck v2 c1`, if version 2 can neither be copied nor made again, since cell 1 drew.
//! - `draws`, an array of the words that the session draws in place of 7, 8 and 9.
//! - `checkpoint`, the bytes of a checkpoint in hexadecimal digits, under whatever plan. The session is restored from them, on
//!   host 0, and the cells run in it as its next ones; `cells` may be left out if there are none. All that is printed is as for a
//!   session that never moved, with its cells before these. If the bytes are restored to no session, the reason is printed alone:
//!
//!       not restored: cell 1 draws again
//!
//! A line may also be an object with `read`, the bytes of a checkpoint in hexadecimal digits. Then one line says what they are read as,
//! or the first byte, version or cell by which they are no checkpoint:
//!
//!     ok count 1 meter 0 cells 1 versions 1 copied 1
//!     bad checkpoint at 69
#![tactic(auto)]

mod given;
mod plans;
mod reading;
mod words;

use anyhow::{Result, bail};
use given::{bytes_of, feed_of, weights_of};
use nb_outside::MemFeed;
use notebook_engine::Notebook;
use plain_data::Text;
use plans::put_checkpoint;
use reading::read_text;
use restore_run::{RestoreFault, restore};
use serde_json::Value;
use session_core::{Ask, Engine, RunFault};
use std::alloc::Global;
use std::io::{BufRead, BufReader};
use words::graph_text;

/// Runs a code in a notebook, as a request does that stores its history. What it answers is dropped.
fn run_cell(alloc: Global, notebook: &mut Notebook, feed: &mut MemFeed, code: &str) -> Result<()> {
    let ask = Ask::Execute {
        code: Text::new(alloc, code)?,
        silent: false,
        store: true,
    };
    match notebook.run(alloc, &ask, feed) {
        Ok(_done) => Ok(()),
        Err(RunFault::OutOfMemory) => bail!("out of memory"),
        Err(fault) => {
            drop(fault);
            bail!("the session is full")
        }
    }
}

/// Runs these cells in a notebook, if there are any.
fn run_cells(
    alloc: Global,
    notebook: &mut Notebook,
    feed: &mut MemFeed,
    cells: Option<&Value>,
) -> Result<()> {
    let Some(cells) = cells else {
        return Ok(());
    };
    let Some(cells) = cells.as_array() else {
        bail!("the cells are no array of codes")
    };
    for code in cells.as_slice() {
        let Some(code) = code.as_str() else {
            bail!("a code is no text")
        };
        run_cell(alloc, notebook, feed, code)?;
    }
    Ok(())
}

/// What is shown of a notebook once the cells of a line ran in it.
fn shown_after(
    alloc: Global,
    mut notebook: Notebook,
    mut feed: MemFeed,
    cells: Option<&Value>,
    weights: Option<&Value>,
) -> Result<Text> {
    run_cells(alloc, &mut notebook, &mut feed, cells)?;
    let mut text = graph_text(alloc, notebook.graph())?;
    if let Some(weights) = weights {
        let weights = weights_of(weights)?;
        put_checkpoint(alloc, &mut text, &notebook, &weights)?;
    }
    Ok(text)
}

/// What is shown of a line.
fn shown(alloc: Global, line: &Value) -> Result<Text> {
    if let Some(digits) = line.get("read") {
        return read_text(alloc, digits);
    }
    let feed = feed_of(alloc, line)?;
    let cells = line.get("cells");
    let weights = line.get("weights");
    let Some(checkpoint) = line.get("checkpoint") else {
        let cells = cells.unwrap_or(line);
        return shown_after(
            alloc,
            Notebook::opened(alloc, 0),
            feed,
            Some(cells),
            weights,
        );
    };
    let bytes = bytes_of(alloc, checkpoint)?;
    match restore(alloc, bytes.as_slice(), 0) {
        Ok(restored) => shown_after(alloc, Notebook::of(alloc, restored), feed, cells, weights),
        Err(RestoreFault::OutOfMemory) => bail!("out of memory"),
        Err(fault) => Ok(Text::from_string(format!(in alloc; "not restored: {fault}\n")?)),
    }
}

fn main(rt: HostRuntime) -> Result<()> {
    let alloc = rt.alloc();
    let input = BufReader::new(alloc, rt.stdin())?;
    for line in input.lines(alloc) {
        let line = line?;
        let given = Value::from_str(alloc, line.as_str())?;
        let text = shown(alloc, &given)?;
        println!(rt; "{}", text.as_str())?;
    }
    Ok(())
}
