//! What a line gives: weights, words to draw, and bytes.

use anyhow::{Result, bail};
use graph_model::Weights;
use hex::decode;
use nb_outside::{Drawn, MemFeed};
use serde_json::Value;
use std::alloc::Global;

/// The weight with that number.
fn weight(weights: &Value, number: usize) -> Result<u64> {
    let Some(weight) = weights
        .as_array()
        .and_then(|all| all.as_slice().get(number))
    else {
        bail!("there are fewer than four weights")
    };
    match weight.as_u64() {
        Some(weight) => Ok(weight),
        None => bail!("a weight is no number"),
    }
}

pub fn weights_of(weights: &Value) -> Result<Weights> {
    Ok(Weights {
        copy_base: weight(weights, 0)?,
        per_byte: weight(weights, 1)?,
        run_base: weight(weights, 2)?,
        per_step: weight(weights, 3)?,
    })
}

/// These words.
fn words_of(alloc: Global, draws: &Value) -> Result<Vec<Drawn>> {
    let Some(given) = draws.as_array() else {
        bail!("the draws are no array of words")
    };
    let mut words = Vec::new(alloc);
    for word in given.as_slice() {
        let Some(word) = word.as_u64() else {
            bail!("a draw is no word")
        };
        words.push(Drawn::Word(word))?;
    }
    Ok(words)
}

/// What the session of a line draws from: its `draws`, or else 7, 8 and 9.
pub fn feed_of(alloc: Global, line: &Value) -> Result<MemFeed> {
    let words = match line.get("draws") {
        Some(draws) => words_of(alloc, draws)?,
        None => vec![in alloc; Drawn::Word(7), Drawn::Word(8), Drawn::Word(9)]?,
    };
    Ok(MemFeed::new(words))
}

/// The bytes that a text of hexadecimal digits spells.
pub fn bytes_of(alloc: Global, checkpoint: &Value) -> Result<Vec<u8>> {
    let Some(digits) = checkpoint.as_str() else {
        bail!("the checkpoint is no text")
    };
    match decode(alloc, digits.as_bytes()) {
        Ok(bytes) => Ok(bytes),
        Err(_) => bail!("the checkpoint is no text of hexadecimal digits"),
    }
}
