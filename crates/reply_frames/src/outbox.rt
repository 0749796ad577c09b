ghost use Rattle.std.specs.Prelude.{◌≡◌, ◌+◌, ◌++◌, [], false, IfOk, OnOk};
ghost use Rattle.serde_json.specs.Data.{Data};
ghost use Rattle.serde_json.specs.Written.{has_float, compact_text};
ghost use Rattle.serde_json.specs.View.{view};
ghost use Rattle.reply_frames.specs.Frames as spec;
ghost use Rattle.reply_frames.specs.Pieces as pieces;

use crate::envelope::{Pieces, Sender, after_type, before_id};
use crate::message::message_id;
use jupyter_messages::Header;
use plain_data::{Items, Text};
use serde_json::Value;
use std::alloc::{AllocError, Global};
use std::marker::Model;

/// Frames that are said one after the other, all in answer to one request. What their messages have alike is written once.
/// Contracts see the kernel, the request, the running number of the next message, and the frames so far.
#[derive(Drop)]
pub struct Outbox<'a> {
    request: &'a Header,
    /// The kernel in its hyphenated lower-case text.
    kernel: Text,
    /// What comes between the content of a message and its id.
    before_id: Text,
    /// What comes after the type of a message.
    after_type: Text,
    /// The running number of the next message.
    running: u64,
    /// The frames so far.
    bytes: Items<u8>,
}

impl<'a> Model for Outbox<'a> {
    ghost use Rattle.std.specs.Prelude.{◌≡◌, codes};
    ghost use Rattle.reply_frames.specs.Frames.{Outgoing, header_json};
    ghost use Rattle.reply_frames.specs.Pieces as pieces;

    ghost Value = { Outgoing };

    ghost view = { λ o. record { kernel = o.kernel; request = o.request.now; running = o.running; bytes = o.bytes } };

    ghost invariant = { λ o. (o.before_id ≡ pieces.before_id o.request.now.date) × (o.after_type ≡ pieces.after_type o.kernel (codes "kernel") o.kernel (header_json o.request.now)) };
}

/// The first room for the frames of an answer. Most have room in it, and it grows for others.
const FRAMES_ROOM: usize = 4_096;

/// Adds a frame: the length of the body, as four bytes with the high byte first, and the body. Also `Err` if the body
/// has 2^32 bytes or more.
#[tactic(auto, unfolding(crate::specs::Frames::frame))]
pub fn push_frame(bytes: &mut Items<u8>, body: &str) -> Result<(), AllocError>
    ensures { OnOk result (bytes.new ≡ bytes.old ++ spec.frame body.now) }
{
    if body.len() > 0xffff_ffff {
        return Err(AllocError);
    }
    let length = (body.len() as u32).to_be_bytes();
    bytes.extend_from_slice(&length)?;
    bytes.extend_from_slice(body.as_bytes())
}

/// One more, if it fits.
fn next_number(running: u64) -> Result<u64, AllocError>
    ensures { IfOk result (λ next. next ≡ running + 1) }
{
    if running < u64::MAX {
        Ok(running + 1)
    } else {
        Err(AllocError)
    }
}

impl<'a> Outbox<'a> {
    /// Nothing said yet in answer to the request. The first message has this number.
    pub fn new(
        alloc: Global,
        kernel: &str,
        request: &'a Header,
        first: u64,
    ) -> Result<Outbox<'a>, AllocError>
        ensures { IfOk result (λ outbox. outbox ≡ spec.empty kernel.now request.now first) }
    {
        let sender = Sender {
            session: kernel,
            username: "kernel",
            kernel,
        };
        Ok(Outbox {
            request,
            kernel: Text::new(alloc, kernel)?,
            before_id: before_id(alloc, request.date.as_str())?,
            after_type: after_type(alloc, sender, Some(request))?,
            running: first,
            bytes: Items::from_vec(Vec::with_capacity(alloc, FRAMES_ROOM)?),
        })
    }

    /// The text of the next message, with this JSON as its content.
    fn joined(
        &self,
        alloc: Global,
        channel: &str,
        kind: &str,
        content: &str,
    ) -> Result<Text, AllocError>
        ensures { IfOk result (λ text. (said : Data) → content.now ≡ compact_text said
            → text ≡ compact_text (spec.message self.now.kernel self.now.request self.now.running (record { channel = channel.now; kind = kind.now; content = said }))) }
    {
        let msg_id = message_id(alloc, self.kernel.as_str(), self.running)?;
        let pieces = Pieces {
            channel,
            content,
            before_id: self.before_id.as_str(),
            msg_id: msg_id.as_str(),
            msg_type: kind,
            after_type: self.after_type.as_str(),
        };
        pieces.joined(alloc)
    }

    /// Adds a message that answers the request, with this JSON as its content. Also `Err` if a number or a length doesn't fit.
    pub fn say_json(
        &mut self,
        alloc: Global,
        channel: &str,
        kind: &str,
        content: &str,
    ) -> Result<(), AllocError>
        ensures { OnOk result ((said : Data) → content.now ≡ compact_text said
            → self.new ≡ spec.say (record { channel = channel.now; kind = kind.now; content = said }) self.old) }
    {
        let text = self.joined(alloc, channel, kind, content)?;
        let next = next_number(self.running)?;
        push_frame(&mut self.bytes, text.as_str())?;
        self.running = next;
        Ok(())
    }

    /// Adds a message that answers the request. Also `Err` if a number or a length doesn't fit.
    pub fn say(
        &mut self,
        alloc: Global,
        channel: &str,
        kind: &str,
        content: &Value,
    ) -> Result<(), AllocError>
        requires { has_float (view content.now) ≡ false }
        ensures { OnOk result (self.new ≡ spec.say (record { channel = channel.now; kind = kind.now; content = view content.now }) self.old) }
    {
        let content = content.to_string(alloc)?;
        self.say_json(alloc, channel, kind, content.as_str())
    }

    /// The frames so far, and the next running number.
    pub fn into_frames(self) -> (Items<u8>, u64)
        ensures bytes { result.0 ≡ self.entry.bytes }
        ensures next { result.1 ≡ self.entry.running }
    {
        (self.bytes, self.running)
    }
}
