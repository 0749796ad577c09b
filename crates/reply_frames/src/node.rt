//! The errors of the node itself, which belong to no session.

ghost use Rattle.std.specs.Prelude.{◌≡◌, ◌∷◌, ◌++◌, [], codes, decimal, option_map, string_bytes, IfOk};
ghost use Rattle.serde_json.specs.View.{view};
ghost use Rattle.serde_json.specs.Written.{compact_text};
ghost use Rattle.serde_json.specs.Data.{string};
ghost use Rattle.reply_frames.specs.Messages.{json, whole};
ghost use Rattle.reply_frames.specs.Pieces.{parent_json};
ghost use Rattle.reply_frames.specs.Nodes as spec;

use crate::envelope::{Pieces, Sender, after_type, before_id};
use crate::message::kernel_name;
use crate::outbox::push_frame;
use jupyter_messages::Header;
use plain_data::{Items, Text};
use serde_json::{Value, json};
use std::alloc::{AllocError, Global};

/// What is wrong with what the node was sent. Messages number these kinds from 1 to 9, in this order.
#[derive(Debug, Drop)]
pub enum NodeErrorKind {
    /// A frame's body is no JSON.
    NotJson,
    /// A member of a message isn't there, or is of the wrong kind. It is `kernel`, too, if that is no UUID.
    BadRecord(Text),
    /// No session was opened for the kernel.
    UnknownKernel,
    /// A session was opened for the kernel before.
    OpenedTwice,
    /// There is no such host.
    UnknownHost(u64),
    /// No request has this type.
    UnknownType(Text),
    /// 256 sessions are open.
    TooManySessions,
    /// The session had 65,536 requests.
    TooManyRequests,
    /// The stream goes on at this place, but no whole frame begins there.
    BadFrame(u64),
}

/// The message that an error is about.
#[derive(Debug, Drop)]
pub struct About {
    pub kernel: u128,
    pub header: Header,
}

/// An error of the node; about a message, if one was read.
#[derive(Debug, Drop)]
pub struct NodeError {
    pub kind: NodeErrorKind,
    pub about: Option<About>,
}

/// The name of an error's kind.
fn name_of(kind: &NodeErrorKind) -> &'static str
    ensures { result.now ≡ spec.name_of kind.now }
{
    match kind {
        NodeErrorKind::NotJson => "NotJson",
        NodeErrorKind::BadRecord(_) => "BadRecord",
        NodeErrorKind::UnknownKernel => "UnknownKernel",
        NodeErrorKind::OpenedTwice => "OpenedTwice",
        NodeErrorKind::UnknownHost(_) => "UnknownHost",
        NodeErrorKind::UnknownType(_) => "UnknownType",
        NodeErrorKind::TooManySessions => "TooManySessions",
        NodeErrorKind::TooManyRequests => "TooManyRequests",
        NodeErrorKind::BadFrame(_) => "BadFrame",
    }
}

/// The number of an error's kind.
fn number_of(kind: &NodeErrorKind) -> u64
    ensures { result ≡ spec.number_of kind.now }
{
    match kind {
        NodeErrorKind::NotJson => 1,
        NodeErrorKind::BadRecord(_) => 2,
        NodeErrorKind::UnknownKernel => 3,
        NodeErrorKind::OpenedTwice => 4,
        NodeErrorKind::UnknownHost(_) => 5,
        NodeErrorKind::UnknownType(_) => 6,
        NodeErrorKind::TooManySessions => 7,
        NodeErrorKind::TooManyRequests => 8,
        NodeErrorKind::BadFrame(_) => 9,
    }
}

/// A number in decimal.
fn digits(alloc: Global, number: u64) -> Result<Text, AllocError>
    ensures { IfOk result (λ text. text ≡ decimal number) }
{
    Ok(Text::from_string(format!(in alloc; "{number}")?))
}

/// What an error names: a member, a type, a host or a place; empty if it names nothing.
fn detail_of(alloc: Global, kind: &NodeErrorKind) -> Result<Text, AllocError>
    ensures { IfOk result (λ text. text ≡ spec.detail_of kind.now) }
{
    match kind {
        NodeErrorKind::BadRecord(name) | NodeErrorKind::UnknownType(name) => name.copy(alloc),
        NodeErrorKind::UnknownHost(number) | NodeErrorKind::BadFrame(number) => digits(
            alloc, *number,
        ),
        _ => Text::new(alloc, ""),
    }
}

fn content_of(alloc: Global, detail: &str, name: &str, number: u64) -> Result<Value, AllocError>
    ensures { IfOk result (λ v. view v ≡ json ((codes "detail", string detail.now) ∷ (codes "name", string name.now) ∷ (codes "number", whole number) ∷ [])) }
{
    json!(in alloc; {"detail": detail, "name": name, "number": number})
}

/// The id of the node's message with this running number.
fn node_id(alloc: Global, running: u64) -> Result<Text, AllocError>
    ensures { IfOk result (λ id. id ≡ codes "node_" ++ decimal running) }
{
    Ok(Text::from_string(format!(in alloc; "node_{running}")?))
}

/// The header of the message that an error is about.
fn parent_of(about: &Option<About>) -> Option<&Header>
    ensures { parent_json (option_map (λ header. header.now) result) ≡ spec.parent_of about.now }
{
    about.as_ref().map(|about| &about.header)
}

/// The kernel of the message that an error is about, or an empty text.
fn kernel_of(alloc: Global, about: &Option<About>) -> Result<Text, AllocError>
    ensures { IfOk result (λ text. text ≡ spec.kernel_of about.now) }
{
    match about {
        Some(about) => Ok(Text::from_string(kernel_name(alloc, about.kernel)?)),
        None => Text::new(alloc, ""),
    }
}

/// The date of the message that an error is about, or an empty text.
fn date_of(about: &Option<About>) -> &str
    ensures { result.now ≡ spec.date_of about.now }
{
    match about {
        Some(about) => about.header.date.as_str(),
        None => "",
    }
}

/// The content of an error's message, as JSON.
#[tactic(auto, unfolding(crate::specs::Nodes::content))]
fn content_text(alloc: Global, kind: &NodeErrorKind) -> Result<String, AllocError>
    ensures { IfOk result (λ text. string_bytes text ≡ compact_text (spec.content kind.now)) }
{
    let detail = detail_of(alloc, kind)?;
    let content = content_of(alloc, detail.as_str(), name_of(kind), number_of(kind))?;
    content.to_string(alloc)
}

/// The message of an error, as JSON.
fn message_text(alloc: Global, running: u64, error: &NodeError) -> Result<Text, AllocError>
    ensures { IfOk result (λ text. text ≡ compact_text (spec.message running error.now)) }
{
    let content = content_text(alloc, &error.kind)?;
    let before_id = before_id(alloc, date_of(&error.about))?;
    let msg_id = node_id(alloc, running)?;
    let kernel = kernel_of(alloc, &error.about)?;
    let sender = Sender {
        session: "node",
        username: "node",
        kernel: kernel.as_str(),
    };
    let after_type = after_type(alloc, sender, parent_of(&error.about))?;
    let pieces = Pieces {
        channel: "control",
        content: content.as_str(),
        before_id: before_id.as_str(),
        msg_id: msg_id.as_str(),
        msg_type: "node_error",
        after_type: after_type.as_str(),
    };
    pieces.joined(alloc)
}

/// The frame of an error, under this running number of the node's. Also `Err` if the body would have 2^32 bytes or more.
pub fn node_error_frame(
    alloc: Global,
    running: u64,
    error: &NodeError,
) -> Result<Items<u8>, AllocError>
    ensures { IfOk result (λ bytes. bytes ≡ spec.frame_of running error.now) }
{
    let text = message_text(alloc, running, error)?;
    let mut bytes = Items::new(alloc);
    push_frame(&mut bytes, text.as_str())?;
    Ok(bytes)
}
