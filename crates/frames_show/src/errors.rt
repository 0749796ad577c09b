//! Errors of a node: `error` is the name, `detail` what it names, `running` its number; `request` is the message that it is
//! about, if one was read.

use crate::members::{copy_in, message_in};
use anyhow::{Result, bail};
use json_members::{number_in, text_in};
use jupyter_messages::Message;
use reply_frames::{About, NodeError, NodeErrorKind};
use serde_json::Value;
use std::alloc::Global;

fn kind_of(alloc: Global, line: &Value) -> Result<NodeErrorKind> {
    match text_in(line, "error")? {
        "NotJson" => Ok(NodeErrorKind::NotJson),
        "BadRecord" => Ok(NodeErrorKind::BadRecord(copy_in(alloc, line, "detail")?)),
        "UnknownKernel" => Ok(NodeErrorKind::UnknownKernel),
        "OpenedTwice" => Ok(NodeErrorKind::OpenedTwice),
        "UnknownHost" => Ok(NodeErrorKind::UnknownHost(number_in(line, "detail")?)),
        "UnknownType" => Ok(NodeErrorKind::UnknownType(copy_in(alloc, line, "detail")?)),
        "TooManySessions" => Ok(NodeErrorKind::TooManySessions),
        "TooManyRequests" => Ok(NodeErrorKind::TooManyRequests),
        "BadFrame" => Ok(NodeErrorKind::BadFrame(number_in(line, "detail")?)),
        other => bail!("no error is called {other}"),
    }
}

fn about_in(alloc: Global, line: &Value) -> Result<Option<About>> {
    if line.get("request").is_none() {
        return Ok(None);
    }
    let Message { kernel, header, .. } = message_in(alloc, line, "request")?;
    Ok(Some(About { kernel, header }))
}

/// The error that a line tells.
pub fn error_of(alloc: Global, line: &Value) -> Result<NodeError> {
    Ok(NodeError {
        kind: kind_of(alloc, line)?,
        about: about_in(alloc, line)?,
    })
}
