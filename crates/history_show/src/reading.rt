//! What bytes are read as.

use crate::given::bytes_of;
use anyhow::{Result, bail};
use checkpoint_commands::fault_line;
use checkpoint_reader::{Checkpoint, CheckpointFault, read_checkpoint};
use plain_data::Text;
use serde_json::Value;
use std::alloc::Global;

fn line_of(alloc: Global, read: &Checkpoint) -> Result<Text> {
    let line = format!(in alloc;
        "ok count {} meter {} cells {} versions {} copied {}\n",
        read.count,
        read.meter,
        read.graph.cells.len(),
        read.graph.versions.len(),
        read.plan.copied.len()
    )?;
    Ok(Text::from_string(line))
}

/// What the bytes of a checkpoint, in hexadecimal digits, are read as, in a line.
pub fn read_text(alloc: Global, digits: &Value) -> Result<Text> {
    let bytes = bytes_of(alloc, digits)?;
    match read_checkpoint(alloc, bytes.as_slice()) {
        Ok(read) => line_of(alloc, &read),
        Err(CheckpointFault::OutOfMemory) => bail!("out of memory"),
        Err(fault) => Ok(fault_line(alloc, fault)?),
    }
}
