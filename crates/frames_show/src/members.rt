//! The message that a member of a line is.

use anyhow::Result;
use json_members::{member, text_in};
use jupyter_messages::{Message, read_message};
use plain_data::Text;
use serde_json::Value;
use std::alloc::Global;

/// A copy of the text that a member is.
pub fn copy_in(alloc: Global, line: &Value, name: &str) -> Result<Text> {
    Ok(Text::new(alloc, text_in(line, name)?)?)
}

/// The message that a member is.
pub fn message_in(alloc: Global, line: &Value, name: &str) -> Result<Message> {
    let text = member(line, name)?.to_string(alloc)?;
    Ok(read_message(alloc, text.as_str().as_bytes())?)
}
