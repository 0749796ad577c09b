//! A plan of least cost for a session, in words, and the session's bytes under it.

use crate::words::put;
use anyhow::{Result, bail};
use checkpoint_commands::plan_lines;
use graph_model::Weights;
use hex::encode;
use notebook_engine::Notebook;
use plain_data::Text;
use session_core::{Engine, PackFault};
use std::alloc::Global;

/// Adds the lines of a plan by these weights and of the session's bytes under it, or of what can't be planned.
pub fn put_checkpoint(
    alloc: Global,
    text: &mut Text,
    notebook: &Notebook,
    weights: &Weights,
) -> Result<()> {
    match notebook.pack(alloc, weights) {
        Ok(packed) => {
            let lines = plan_lines(alloc, notebook.graph(), &packed.certified)?;
            text.push_str(lines.as_str())?;
            let digits = encode(alloc, packed.bytes.as_slice())?;
            text.push_str("checkpoint ")?;
            text.push_str(digits.as_str())?;
            text.push_str("\n")?;
        }
        Err(
            PackFault::Stuck {
                version,
                cell,
                names: _names,
            },
        ) => {
            put(alloc, text, "stuck v", version)?;
            put(alloc, text, " c", cell)?;
            text.push_str("\n")?;
        }
        Err(PackFault::BadWeights(_fault)) => bail!("too much weight"),
        Err(PackFault::OutOfMemory) => bail!("out of memory"),
    }
    Ok(())
}
