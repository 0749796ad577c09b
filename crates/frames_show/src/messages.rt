//! What is read of a message, or what its fault says.

use anyhow::{Result, bail};
use jupyter_messages::{Ask, Channel, Header, Message, MessageKind, read_message};
use serde_json::{Value, json};
use session_core::Request;
use std::alloc::{AllocError, Global};

fn header_shown(alloc: Global, header: &Header) -> Result<Value, AllocError> {
    json!(in alloc; [
        header.msg_id.as_str(),
        header.session.as_str(),
        header.msg_type.as_str(),
        header.username.as_str(),
        header.date.as_str(),
        header.version.as_str()
    ])
}

fn channel_shown(channel: Channel) -> &'static str {
    match channel {
        Channel::Shell => "shell",
        Channel::Control => "control",
    }
}

fn ask_shown(alloc: Global, ask: &Ask) -> Result<Value, AllocError> {
    match ask {
        Ask::Execute {
            code,
            silent,
            store,
        } => json!(in alloc; ["execute", code.as_str(), *silent, *store]),
        Ask::Info => json!(in alloc; ["info"]),
        Ask::Complete { code } => json!(in alloc; ["complete", code.as_str()]),
        Ask::Shutdown { restart } => json!(in alloc; ["shutdown", *restart]),
        Ask::Migrate { to, weights } => json!(in alloc; [
            "migrate",
            *to,
            weights.copy_base,
            weights.per_byte,
            weights.run_base,
            weights.per_step
        ]),
    }
}

/// The list in which the request waits.
fn list_of(request: &Request) -> &'static str {
    if request.is_control() {
        "control"
    } else {
        "main"
    }
}

fn request_shown(alloc: Global, kernel: u128, request: &Request) -> Result<Value, AllocError> {
    let header = header_shown(alloc, &request.header)?;
    let asked = ask_shown(alloc, &request.ask)?;
    let number = format!(in alloc; "{kernel}")?;
    json!(in alloc; [
        header,
        channel_shown(request.channel),
        number.as_str(),
        asked,
        list_of(request)
    ])
}

fn opening_shown(
    alloc: Global,
    kernel: u128,
    header: &Header,
    channel: Channel,
    host: u64,
) -> Result<Value, AllocError> {
    let header = header_shown(alloc, header)?;
    let number = format!(in alloc; "{kernel}")?;
    json!(in alloc; [
        header,
        channel_shown(channel),
        number.as_str(),
        ["open", host]
    ])
}

/// The texts of the header, the channel, the kernel as a number, what is asked, and of a session the list in which that waits.
fn message_shown(alloc: Global, message: Message) -> Result<Value, AllocError> {
    let Message {
        header,
        channel,
        kernel,
        kind,
    } = message;
    match kind {
        MessageKind::Open { host } => {
            let shown = opening_shown(alloc, kernel, &header, channel, host);
            drop(header);
            shown
        }
        MessageKind::Ask(ask) => {
            let request = Request {
                header,
                channel,
                frontend: 0,
                ask,
            };
            let shown = request_shown(alloc, kernel, &request);
            drop(request);
            shown
        }
    }
}

/// What is read of a text as a message, or what its fault says.
pub fn read_of(alloc: Global, text: &str) -> Result<Value> {
    match read_message(alloc, text.as_bytes()) {
        Ok(message) => Ok(message_shown(alloc, message)?),
        Err(fault) => {
            if !fault.is_told() {
                bail!("memory ran out");
            }
            let said = format!(in alloc; "{fault}")?;
            Ok(json!(in alloc; [said.as_str()])?)
        }
    }
}
