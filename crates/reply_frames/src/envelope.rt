//! The JSON of a message. (Jupyter messaging protocol 5.3: general message format.)
//!
//! Round its content a message has some thirty names and texts, most of them the same in each. They are put together here piece
//! by piece; the content, and a text in which something has to be escaped, are written by `serde_json`.

ghost use Rattle.std.specs.Prelude.{ℕ, List, ◌≡◌, ◌++◌, [], codes, option_map, IfOk, OnOk, string_bytes};
ghost use Rattle.std.specs.List.{list_all};
ghost use Rattle.json.specs.Print.{quoted};
ghost use Rattle.serde_json.specs.Data.{Data};
ghost use Rattle.serde_json.specs.Written.{compact_text};
ghost use Rattle.reply_frames.specs.Frames.{header_json, envelope};
ghost use Rattle.reply_frames.specs.Pieces as spec;

use jupyter_messages::Header;
use plain_data::Text;
use serde_json::Value;
use std::alloc::{AllocError, Global};

/// Who says a message.
#[derive(Clone, Copy)]
pub struct Sender<'a> {
    pub session: &'a str,
    pub username: &'a str,
    /// The kernel whose message it is, or an empty text.
    pub kernel: &'a str,
}

/// The pieces of a message, in their order.
#[derive(Clone, Copy)]
pub struct Pieces<'a> {
    pub channel: &'a str,
    /// The content as JSON.
    pub content: &'a str,
    /// What comes between the content and the id.
    pub before_id: &'a str,
    pub msg_id: &'a str,
    pub msg_type: &'a str,
    /// What comes after the type.
    pub after_type: &'a str,
}

/// The first room for what is round a content. It has room in it unless a request has long texts.
const ROOM: usize = 512;

/// A text with room.
fn text_with_room(alloc: Global, room: usize) -> Result<Text, AllocError>
    ensures { IfOk result (λ text. text ≡ []) }
{
    Ok(Text::from_string(String::with_capacity(alloc, room)?))
}

/// Whether JSON has this byte of a text as it is.
fn is_plain(byte: u8) -> bool
    ensures { result ≡ spec.is_plain byte }
{
    byte >= b' ' && byte != b'"' && byte != b'\\'
}

fn are_plain(bytes: &[u8]) -> bool
    ensures { result ≡ list_all spec.is_plain bytes.now }
{
    bytes.iter().all(|byte| is_plain(*byte))
}

/// A text in quotes.
fn quoted_text(alloc: Global, text: &str) -> Result<String, AllocError>
    ensures { IfOk result (λ s. string_bytes s ≡ quoted text.now) }
{
    let value = Value::try_from_str(alloc, text)?;
    value.to_string(alloc)
}

/// Adds a text in quotes, after what comes before it.
pub fn push_text(alloc: Global, out: &mut Text, before: &str, text: &str) -> Result<(), AllocError>
    ensures { OnOk result (out.new ≡ out.old ++ (before.now ++ quoted text.now)) }
{
    out.push_str(before)?;
    if are_plain(text.as_bytes()) {
        out.push_str("\"")?;
        out.push_str(text)?;
        return out.push_str("\"");
    }
    let quoted = quoted_text(alloc, text)?;
    out.push_str(quoted.as_str())
}

/// Adds a header as an object.
fn push_header(alloc: Global, out: &mut Text, header: &Header) -> Result<(), AllocError>
    ensures { OnOk result (out.new ≡ out.old ++ compact_text (header_json header.now)) }
{
    push_text(alloc, out, "{\"date\":", header.date.as_str())?;
    push_text(alloc, out, ",\"msg_id\":", header.msg_id.as_str())?;
    push_text(alloc, out, ",\"msg_type\":", header.msg_type.as_str())?;
    push_text(alloc, out, ",\"session\":", header.session.as_str())?;
    push_text(alloc, out, ",\"username\":", header.username.as_str())?;
    push_text(alloc, out, ",\"version\":", header.version.as_str())?;
    out.push_str("}")
}

/// Adds the header of the message that is answered, or an empty object.
fn push_parent(alloc: Global, out: &mut Text, parent: Option<&Header>) -> Result<(), AllocError>
    ensures { OnOk result (out.new ≡ out.old ++ compact_text (spec.parent_json (option_map (λ header. header.now) parent.entry))) }
{
    match parent {
        Some(header) => push_header(alloc, out, header),
        None => out.push_str("{}"),
    }
}

/// What comes between the content of a message and its id, if it has this date.
pub fn before_id(alloc: Global, date: &str) -> Result<Text, AllocError>
    ensures { IfOk result (λ text. text ≡ spec.before_id date.now) }
{
    let mut text = text_with_room(alloc, 0)?;
    push_text(alloc, &mut text, ",\"header\":{\"date\":", date)?;
    text.push_str(",\"msg_id\":")?;
    Ok(text)
}

/// What comes after the type of a message that this sender says, in answer to the message with this header, if there is one.
pub fn after_type(
    alloc: Global,
    sender: Sender<'_>,
    parent: Option<&Header>,
) -> Result<Text, AllocError>
    ensures { IfOk result (λ text. text ≡ spec.after_type sender.entry.session.now sender.entry.username.now sender.entry.kernel.now (spec.parent_json (option_map (λ header. header.now) parent.entry))) }
{
    let mut text = text_with_room(alloc, ROOM)?;
    push_text(alloc, &mut text, ",\"session\":", sender.session)?;
    push_text(alloc, &mut text, ",\"username\":", sender.username)?;
    text.push_str(",\"version\":\"5.3\"}")?;
    push_text(alloc, &mut text, ",\"kernel\":", sender.kernel)?;
    text.push_str(",\"metadata\":{},\"parent_header\":")?;
    push_parent(alloc, &mut text, parent)?;
    text.push_str("}")?;
    Ok(text)
}

impl Pieces<'_> {
    /// The message as JSON.
    pub fn joined(&self, alloc: Global) -> Result<Text, AllocError>
        ensures { IfOk result (λ text. (content : Data) (date session username kernel : List ℕ) (parent : Data) → self.now.content.now ≡ compact_text content
            → self.now.before_id.now ≡ spec.before_id date → self.now.after_type.now ≡ spec.after_type session username kernel parent
            → text ≡ compact_text (envelope self.now.channel.now content
            (record { msg_id = self.now.msg_id.now; username = username; session = session; date = date; msg_type = self.now.msg_type.now; version = codes "5.3" }) kernel parent)) }
    {
        let room = self.content.len().saturating_add(ROOM);
        let mut text = text_with_room(alloc, room)?;
        push_text(alloc, &mut text, "{\"channel\":", self.channel)?;
        text.push_str(",\"content\":")?;
        text.push_str(self.content)?;
        push_text(alloc, &mut text, self.before_id, self.msg_id)?;
        push_text(alloc, &mut text, ",\"msg_type\":", self.msg_type)?;
        text.push_str(self.after_type)?;
        Ok(text)
    }
}
