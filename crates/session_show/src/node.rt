//! A session of a node: what is asked of it comes as frames of a stream, and workers of each host serve it.

use crate::asks::ask_of;
use crate::counter::Counter;
use crate::words::words_of;
use anyhow::{Result, bail};
use host_workers::OpenGate;
use nb_outside::{Drawn, MemFeeds, MemSource};
use node_run::run_sessions;
use plain_data::Text;
use session_core::Ask;
use std::alloc::{AllocError, Global};
use std::sync::Wait;
use std::thread::Threads;

/// Adds the frame of a message of this kind.
fn push_message(
    alloc: Global,
    out: &mut Vec<u8>,
    kind: &str,
    content: &str,
) -> Result<(), AllocError> {
    let body = format!(in alloc;
        "{{\"content\":{content},\"header\":{{\"msg_id\":\"m\",\"msg_type\":\"{kind}\",\"session\":\"s\"}},\"kernel\":\"11111111-1111-4111-8111-111111111111\"}}"
    )?;
    let length = u32::try_from(body.len()).unwrap_or(0);
    out.extend_from_slice(&length.to_be_bytes())?;
    out.extend_from_slice(body.as_bytes())
}

/// Adds the frame of a message that asks this.
fn push_ask(alloc: Global, out: &mut Vec<u8>, ask: &Ask) -> Result<(), AllocError> {
    match ask {
        Ask::Shutdown { restart } => {
            let content = format!(in alloc; "{{\"restart\":{restart}}}")?;
            push_message(alloc, out, "shutdown_request", content.as_str())
        }
        Ask::Migrate { to, weights } => {
            let content = format!(in alloc;
                "{{\"to\":{to},\"copy_base\":{},\"per_byte\":{},\"run_base\":{},\"per_step\":{}}}",
                weights.copy_base, weights.per_byte, weights.run_base, weights.per_step
            )?;
            push_message(alloc, out, "migrate_request", content.as_str())
        }
        Ask::Complete { .. } => {
            push_message(alloc, out, "is_complete_request", "{\"code\":\"1\"}")
        }
        _ => push_message(alloc, out, "kernel_info_request", "{}"),
    }
}

/// A stream that opens a session and asks all this of it.
fn stream_of(alloc: Global, asked: &str) -> Result<Vec<u8>> {
    let mut out = Vec::new(alloc);
    push_message(alloc, &mut out, "kernel_open_request", "{\"host\":0}")?;
    for word in asked.split(" ") {
        let ask = ask_of(alloc, word)?;
        push_ask(alloc, &mut out, &ask)?;
    }
    Ok(out)
}

/// What the journal says of a session on host 0 of 3, each with a worker, that was asked all this.
pub fn told<R: AllocGlobal + Threads + Wait + Sync>(rt: &R, asked: &str) -> Result<Text> {
    let alloc = rt.alloc();
    let mut source = MemSource::new(stream_of(alloc, asked)?, Vec::new(alloc));
    let mut feeds = MemFeeds::new(vec![in alloc; Drawn::Word(7), Drawn::Word(8)]?);
    let ran = run_sessions::<Counter, MemSource, MemFeeds, OpenGate, R>(
        rt,
        alloc,
        3,
        1,
        &mut source,
        &mut feeds,
        &OpenGate,
    )?;
    match ran.runs.as_slice() {
        [(_, session)] => Ok(words_of(alloc, session.entries())?),
        _ => bail!("there isn't one session"),
    }
}
