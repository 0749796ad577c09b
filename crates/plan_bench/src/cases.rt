//! Lines of cases, and what is said of each.

use crate::flows::flow_answer;
use crate::plans::graph_answer;
use crate::steps::cost_line;
use anyhow::{Result, bail};
use json_members::{small_in, text_in};
use serde_json::Value;
use std::alloc::Global;
use std::io::{BufRead, BufReader};

/// What a graph of that shape costs.
fn shape_answer(alloc: Global, line: &Value) -> Result<String> {
    cost_line(alloc, text_in(line, "shape")?, small_in(line, "count")?)
}

/// What is printed for one line.
fn answer(alloc: Global, line: &str) -> Result<String> {
    let asked = Value::from_str(alloc, line)?;
    if asked.get("nodes").is_some() {
        return flow_answer(alloc, &asked);
    }
    if asked.get("ask").is_some() {
        return graph_answer(alloc, &asked);
    }
    if asked.get("shape").is_some() {
        return shape_answer(alloc, &asked);
    }
    bail!("nothing is asked")
}

/// Reads lines to the end of standard input, and prints one for each.
pub(crate) fn answer_lines(rt: &HostRuntime) -> Result<()> {
    let alloc = rt.alloc();
    let input = BufReader::new(alloc, rt.stdin())?;
    let mut number = 0u64;
    for line in input.lines(alloc) {
        let line = line?;
        number = number.saturating_add(1);
        match answer(alloc, line.as_str()) {
            Ok(text) => println!(rt; "{text}")?,
            Err(error) => bail!("line {number}: {error}"),
        }
    }
    Ok(())
}
