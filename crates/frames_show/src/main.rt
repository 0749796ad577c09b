//! Shows what is written and read as frames, for tables of cases.
//!
//! Each line of standard input is a JSON object. One of its members tells what is asked. For each, one line of JSON is printed.
//! Bytes are written as hexadecimal digits.
//!
//! - `entry`, the kind of an entry of a journal, with the members that `entries` lists: the running number after its frames, and
//!   the frames, numbered from `first` on;
//! - `error`, the name of a node's error, with the members that `errors` lists: its frame;
//! - `message`, a text: what is read of it as a message, or what its fault says;
//! - `stream`, bytes, and `piece`, a number: the bodies of the frames that are given for the bytes in pieces of that size, and
//!   how the stream ends;
//! - `bodies`, a list of bytes: their frames.
#![tactic(auto)]

mod entries;
mod errors;
mod members;
mod messages;
mod moves;
mod streams;

use anyhow::{Result, bail};
use entries::entry_of;
use errors::error_of;
use json_members::{number_in, text_in};
use members::message_in;
use messages::read_of;
use reply_frames::{frames_of, node_error_frame};
use serde_json::{Value, json};
use session_core::Entry;
use std::alloc::{AllocError, Global};
use std::io::{BufRead, BufReader};
use streams::{given_of, written_of};

/// The frames of an entry, from this number on, and the number after them.
fn told(alloc: Global, kernel: u128, entry: Entry, first: u64) -> Result<Value, AllocError> {
    let said = frames_of(alloc, kernel, &entry, first);
    drop(entry);
    let (frames, next) = said?;
    let digits = hex::encode(alloc, frames.as_slice())?;
    json!(in alloc; [next, digits.as_str()])
}

fn entry_told(alloc: Global, line: &Value) -> Result<Value> {
    let kernel = message_in(alloc, line, "request")?.kernel;
    let first = number_in(line, "first")?;
    let entry = entry_of(alloc, line)?;
    Ok(told(alloc, kernel, entry, first)?)
}

fn error_told(alloc: Global, line: &Value) -> Result<Value> {
    let running = number_in(line, "running")?;
    let error = error_of(alloc, line)?;
    let said = node_error_frame(alloc, running, &error);
    drop(error);
    let frame = said?;
    let digits = hex::encode(alloc, frame.as_slice())?;
    Ok(json!(in alloc; [digits.as_str()])?)
}

/// What is printed for one line.
fn answer(alloc: Global, line: &Value) -> Result<Value> {
    if line.get("entry").is_some() {
        return entry_told(alloc, line);
    }
    if line.get("error").is_some() {
        return error_told(alloc, line);
    }
    if line.get("message").is_some() {
        return read_of(alloc, text_in(line, "message")?);
    }
    if line.get("stream").is_some() {
        return given_of(alloc, line);
    }
    if line.get("bodies").is_some() {
        return written_of(alloc, line);
    }
    bail!("a line asks nothing")
}

fn main(rt: HostRuntime) -> Result<()> {
    let alloc = rt.alloc();
    let input = BufReader::new(alloc, rt.stdin())?;
    for line in input.lines(alloc) {
        let line = line?;
        let asked = Value::from_str(alloc, line.as_str())?;
        let told = answer(alloc, &asked)?;
        println!(rt; "{}", told.to_string(alloc)?)?;
    }
    Ok(())
}
