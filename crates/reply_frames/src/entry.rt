ghost use Rattle.std.specs.Prelude.{◌≡◌, OnOk};
ghost use Rattle.reply_frames.specs.Messages as said;
ghost use Rattle.reply_frames.specs.Frames as spec;

use crate::content::{error_content, input_content, result_content, status_json, stream_content};
use crate::outbox::Outbox;
use jupyter_messages::Channel;
use plain_data::{Text, cut_at};
use session_core::Failure;
use std::alloc::{AllocError, Global};

/// The most bytes of a piece of printed text.
pub const MOST_PIECE: usize = 65_536;

/// The state of the session: `busy` or `idle`.
pub fn say_status(outbox: &mut Outbox<'_>, alloc: Global, state: &str) -> Result<(), AllocError>
    ensures { OnOk result (outbox.new ≡ spec.say (said.status state.now) outbox.old) }
{
    let content = status_json(alloc, state)?;
    outbox.say_json(alloc, "iopub", "status", content.as_str())
}

/// The name of a channel in a message.
pub fn channel_name(channel: Channel) -> &'static str
    ensures { result.now ≡ said.channel_name channel }
{
    match channel {
        Channel::Shell => "shell",
        Channel::Control => "control",
    }
}

/// The code of a cell, within 262,144 bytes.
pub fn say_input(
    outbox: &mut Outbox<'_>,
    alloc: Global,
    code: &str,
    count: u32,
) -> Result<(), AllocError>
    ensures { OnOk result (outbox.new ≡ spec.say (said.input code.now count) outbox.old) }
{
    let content = input_content(alloc, code, count)?;
    outbox.say(alloc, "iopub", "execute_input", &content)
}

fn say_stream(outbox: &mut Outbox<'_>, alloc: Global, piece: &str) -> Result<(), AllocError>
    ensures { OnOk result (outbox.new ≡ spec.say (said.stream piece.now) outbox.old) }
{
    let content = stream_content(alloc, piece)?;
    outbox.say(alloc, "iopub", "stream", &content)
}

/// The printed text, in pieces of at most 65,536 bytes.
#[tactic(auto, unfolding(plain_data::specs::Cuts::pieces))]
pub fn say_streams(outbox: &mut Outbox<'_>, alloc: Global, printed: &str) -> Result<(), AllocError>
    ensures { OnOk result (outbox.new ≡ spec.say_all (said.streams printed.now) outbox.old) }
{
    let mut rest = printed;
    for turn in 0..printed.len() {
        if rest.is_empty() {
            break;
        }
        let (piece, more) = cut_at(rest, MOST_PIECE);
        say_stream(outbox, alloc, piece)?;
        rest = more;
    }
    Ok(())
}

fn say_text(
    outbox: &mut Outbox<'_>,
    alloc: Global,
    count: u32,
    text: &Text,
) -> Result<(), AllocError>
    ensures { OnOk result (outbox.new ≡ spec.say (said.result count text.now) outbox.old) }
{
    let content = result_content(alloc, count, text)?;
    outbox.say(alloc, "iopub", "execute_result", &content)
}

/// The result of a cell, if it has one.
pub fn say_result(
    outbox: &mut Outbox<'_>,
    alloc: Global,
    count: u32,
    shown: &Option<Text>,
) -> Result<(), AllocError>
    ensures { OnOk result (outbox.new ≡ spec.say_all (said.results count shown.now) outbox.old) }
{
    match shown {
        Some(text) => say_text(outbox, alloc, count, text),
        None => Ok(()),
    }
}

/// The error of a cell, if it has one.
pub fn say_error(
    outbox: &mut Outbox<'_>,
    alloc: Global,
    error: &Option<Failure>,
) -> Result<(), AllocError>
    ensures { OnOk result (outbox.new ≡ spec.say_all (said.errors error.now) outbox.old) }
{
    match error {
        Some(failure) => {
            let content = error_content(alloc, failure)?;
            outbox.say(alloc, "iopub", "error", &content)
        }
        None => Ok(()),
    }
}
