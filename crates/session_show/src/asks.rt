//! What is asked of a session, in words.

use anyhow::{Result, bail};
use graph_model::Weights;
use plain_data::Text;
use session_core::Ask;
use std::alloc::Global;

fn number_of(text: &str) -> Result<u64> {
    match u64::from_str_radix(text, 10) {
        Ok(number) => Ok(number),
        Err(_) => bail!("{text} is no number"),
    }
}

fn move_of(words: &str) -> Result<Ask> {
    let Some((host, weight)) = words.split_once(":") else {
        bail!("a move has a host and a weight")
    };
    Ok(Ask::Migrate {
        to: number_of(host)?,
        weights: Weights {
            copy_base: 0,
            per_byte: 0,
            run_base: number_of(weight)?,
            per_step: 0,
        },
    })
}

/// What a word asks.
pub fn ask_of(alloc: Global, word: &str) -> Result<Ask> {
    match word {
        "info" => Ok(Ask::Info),
        "complete" => Ok(Ask::Complete {
            code: Text::new(alloc, "1")?,
        }),
        "restart" => Ok(Ask::Shutdown { restart: true }),
        "end" => Ok(Ask::Shutdown { restart: false }),
        _ => match word.strip_prefix("move:") {
            Some(words) => move_of(words),
            None => bail!("nothing is asked by {word}"),
        },
    }
}
