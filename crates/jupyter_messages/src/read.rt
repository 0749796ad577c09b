ghost use Rattle.std.specs.Prelude.{◌≡◌};
ghost use Rattle.serde_json.specs.View.{view};
ghost use Rattle.jupyter_messages.specs.Outcomes.{Gives, GivesAs};
ghost use Rattle.jupyter_messages.specs.Reading as spec;

use crate::content::kind_of;
use crate::fault::MessageFault;
use crate::member::{long_text, optional_text, required_object, required_text, wrong_kind};
use crate::message::Message;
use plain_data::Text;
use serde_json::Value;
use session_core::{Channel, Header};
use std::alloc::Global;
use uuid::Uuid;

/// The types of requests.
#[derive(Clone, Copy, Debug, PartialEq, Eq)]
pub enum RequestType {
    Open,
    Execute,
    Info,
    Complete,
    Shutdown,
    Migrate,
}

#[tactic(auto, unfolding(crate::specs::Reading::header_of))]
fn header_of(alloc: Global, object: &Value) -> Result<Header, MessageFault>
    ensures { Gives result (spec.header_of (view object.now)) }
{
    let msg_id = required_text(alloc, "msg_id", object)?;
    let session = required_text(alloc, "session", object)?;
    let msg_type = required_text(alloc, "msg_type", object)?;
    let username = optional_text(alloc, "username", object)?;
    let date = optional_text(alloc, "date", object)?;
    let version = optional_text(alloc, "version", object)?;
    Ok(Header {
        msg_id,
        username,
        session,
        date,
        msg_type,
        version,
    })
}

#[tactic(auto, unfolding(crate::specs::Reading::channel_named))]
fn channel_named(alloc: Global, text: &str) -> Result<Channel, MessageFault>
    ensures { Gives result (spec.channel_named text.now) }
{
    if text == "shell" {
        Ok(Channel::Shell)
    } else if text == "control" {
        Ok(Channel::Control)
    } else {
        wrong_kind(alloc, "channel")
    }
}

/// An absent channel is shell.
#[tactic(auto, unfolding(crate::specs::Reading::channel_of, crate::specs::Reading::text_of, crate::specs::Reading::of_kind))]
fn channel_of(alloc: Global, message: &Value) -> Result<Channel, MessageFault>
    ensures { Gives result (spec.channel_of (view message.now)) }
{
    match message.get("channel") {
        None => Ok(Channel::Shell),
        Some(value) => match value.as_str() {
            Some(text) => channel_named(alloc, text),
            None => wrong_kind(alloc, "channel"),
        },
    }
}

#[tactic(auto, unfolding(crate::specs::Reading::kernel_named))]
fn kernel_named(text: &str) -> Result<u128, MessageFault>
    ensures { Gives result (spec.kernel_named text.now) }
{
    match Uuid::parse_str(text) {
        Ok(uuid) => Ok(uuid.as_u128()),
        Err(_) => Err(MessageFault::BadUuid),
    }
}

#[tactic(auto, unfolding(crate::specs::Reading::kernel_of))]
fn kernel_of(alloc: Global, message: &Value) -> Result<u128, MessageFault>
    ensures { Gives result (spec.kernel_of (view message.now)) }
{
    let text = long_text(alloc, "kernel", message)?;
    kernel_named(text)
}

#[tactic(auto, unfolding(crate::specs::Reading::type_named))]
fn type_named(alloc: Global, name: &str) -> Result<RequestType, MessageFault>
    ensures { Gives result (spec.type_named name.now) }
{
    if name == "kernel_open_request" {
        Ok(RequestType::Open)
    } else if name == "execute_request" {
        Ok(RequestType::Execute)
    } else if name == "kernel_info_request" {
        Ok(RequestType::Info)
    } else if name == "is_complete_request" {
        Ok(RequestType::Complete)
    } else if name == "shutdown_request" {
        Ok(RequestType::Shutdown)
    } else if name == "migrate_request" {
        Ok(RequestType::Migrate)
    } else {
        Err(MessageFault::UnknownType(Text::new(alloc, name)?))
    }
}

/// Whether requests of the type come on shell alone.
fn is_on_shell_alone(kind: RequestType) -> bool
    ensures { result ≡ spec.is_on_shell_alone kind }
{
    matches!(kind, RequestType::Execute | RequestType::Complete)
}

/// The channel, if it is one of the type's.
#[tactic(auto, unfolding(crate::specs::Reading::channel_for))]
fn channel_for(alloc: Global, kind: RequestType, channel: Channel) -> Result<Channel, MessageFault>
    ensures { Gives result (spec.channel_for kind channel) }
{
    if is_on_shell_alone(kind) && is_control(channel) {
        wrong_kind(alloc, "channel")
    } else {
        Ok(channel)
    }
}

fn is_control(channel: Channel) -> bool
    ensures { result ≡ spec.is_control_channel channel }
{
    match channel {
        Channel::Shell => false,
        Channel::Control => true,
    }
}

/// The value, if it is an object.
#[tactic(auto, unfolding(crate::specs::Reading::whole_of))]
fn whole_of(alloc: Global, value: &Value) -> Result<&Value, MessageFault>
    ensures { GivesAs (λ v. view v.now) result (spec.whole_of (view value.now)) }
{
    if value.as_object().is_some() {
        Ok(value)
    } else {
        wrong_kind(alloc, "message")
    }
}

#[tactic(auto, unfolding(crate::specs::Reading::message_of))]
fn message_of(alloc: Global, value: &Value) -> Result<Message, MessageFault>
    ensures { Gives result (spec.message_of (view value.now)) }
{
    let message = whole_of(alloc, value)?;
    let head = required_object(alloc, "header", message)?;
    let header = header_of(alloc, head)?;
    let channel = channel_of(alloc, message)?;
    let kernel = kernel_of(alloc, message)?;
    let kind = type_named(alloc, header.msg_type.as_str())?;
    let channel = channel_for(alloc, kind, channel)?;
    let content = required_object(alloc, "content", message)?;
    let kind = kind_of(alloc, kind, content)?;
    Ok(Message {
        header,
        channel,
        kernel,
        kind,
    })
}

/// Reads one message. A fault is that of the first check that fails; `OutOfMemory` says nothing about the bytes.
pub fn read_message(alloc: Global, bytes: &[u8]) -> Result<Message, MessageFault>
    ensures { Gives result (spec.message_in bytes.now) }
{
    match Value::from_slice(alloc, bytes) {
        Ok(value) => message_of(alloc, &value),
        Err(error) => {
            if error.is_memory() {
                Err(MessageFault::OutOfMemory)
            } else {
                Err(MessageFault::NotJson)
            }
        }
    }
}
