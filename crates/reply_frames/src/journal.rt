//! The frames that tell an entry of a journal.

ghost use Rattle.std.specs.Prelude.{◌≡◌, ◌+◌, false, codes, option_map, IfOk, OnOk};
ghost use Rattle.serde_json.specs.View.{view};
ghost use Rattle.serde_json.specs.Written.{has_float};
ghost use Rattle.reply_frames.specs.Frames as frames;
ghost use Rattle.reply_frames.specs.Messages as said;
ghost use Rattle.reply_frames.specs.Replies as spec;

use crate::content::reply_content;
use crate::entry::{channel_name, say_error, say_input, say_result, say_status, say_streams};
use crate::lists::{Listing, arcs_of, say_lists, steps_of};
use crate::message::kernel_name;
use crate::outbox::Outbox;
use crate::replies::{
    completion_content, dead_failure, died_failure, failed_reply, host_content, info_content,
    moved_content, refused_content, reply_kind, resumed_content, shutdown_content,
};
use graph_model::Certified;
use plain_data::{Items, Text};
use serde_json::Value;
use session_core::{Ask, Channel, Completion, Entry, Failure, Header, MoveRefusal, Reply, Request};
use std::alloc::{AllocError, Global};

/// A reply, on the channel of its request.
fn say_replied(
    outbox: &mut Outbox<'_>,
    alloc: Global,
    request: &Request,
    kind: &str,
    content: &Value,
) -> Result<(), AllocError>
    requires { has_float (view content.now) ≡ false }
    ensures { OnOk result (outbox.new ≡ frames.say (spec.replied request.now kind.now (view content.now)) outbox.old) }
{
    let channel = channel_name(request.channel);
    outbox.say(alloc, channel, kind, content)
}

/// The error of a cell, or its result if it has one.
#[tactic(auto, unfolding(crate::specs::Replies::outcome))]
fn say_outcome(
    outbox: &mut Outbox<'_>,
    alloc: Global,
    count: u32,
    shown: &Option<Text>,
    failure: &Option<Failure>,
) -> Result<(), AllocError>
    ensures { OnOk result (outbox.new ≡ frames.say_all (spec.outcome count shown.now failure.now) outbox.old) }
{
    match failure {
        Some(_) => say_error(outbox, alloc, failure),
        None => say_result(outbox, alloc, count, shown),
    }
}

#[tactic(auto, unfolding(crate::specs::Replies::cell_reply))]
fn say_cell_reply(
    outbox: &mut Outbox<'_>,
    alloc: Global,
    request: &Request,
    count: u32,
    failure: &Option<Failure>,
) -> Result<(), AllocError>
    ensures { OnOk result (outbox.new ≡ frames.say (spec.cell_reply request.now count failure.now) outbox.old) }
{
    let content = reply_content(alloc, count, failure)?;
    say_replied(outbox, alloc, request, "execute_reply", &content)
}

fn code_of(ask: &Ask) -> &str
    ensures { result.now ≡ spec.code_of ask.now }
{
    match ask {
        Ask::Execute { code, .. } | Ask::Complete { code } => code.as_str(),
        _ => "",
    }
}

/// A cell that isn't silent.
#[tactic(auto, unfolding(crate::specs::Replies::cell_said), using(crate::proofs::Saying::say_both))]
fn say_cell(
    outbox: &mut Outbox<'_>,
    alloc: Global,
    request: &Request,
    count: u32,
    printed: &Text,
    shown: &Option<Text>,
    failure: &Option<Failure>,
) -> Result<(), AllocError>
    ensures { OnOk result (outbox.new ≡ frames.say_all (spec.cell_said false request.now count printed.now shown.now failure.now) outbox.old) }
{
    say_input(outbox, alloc, code_of(&request.ask), count)?;
    say_streams(outbox, alloc, printed.as_str())?;
    say_outcome(outbox, alloc, count, shown, failure)?;
    say_cell_reply(outbox, alloc, request, count, failure)
}

#[tactic(auto, unfolding(crate::specs::Replies::info_content, crate::specs::Replies::language_content))]
fn say_info(outbox: &mut Outbox<'_>, alloc: Global, request: &Request) -> Result<(), AllocError>
    ensures { OnOk result (outbox.new ≡ frames.say (spec.replied request.now (codes "kernel_info_reply") spec.info_content) outbox.old) }
{
    let content = info_content(alloc)?;
    say_replied(outbox, alloc, request, "kernel_info_reply", &content)
}

#[tactic(auto, using(crate::proofs::Floats::completion_no_float))]
fn say_completion(
    outbox: &mut Outbox<'_>,
    alloc: Global,
    request: &Request,
    completion: Completion,
) -> Result<(), AllocError>
    ensures { OnOk result (outbox.new ≡ frames.say (spec.replied request.now (codes "is_complete_reply") (spec.completion_content completion)) outbox.old) }
{
    let content = completion_content(alloc, completion)?;
    say_replied(outbox, alloc, request, "is_complete_reply", &content)
}

#[tactic(auto, using(crate::proofs::Floats::shutdown_no_float))]
fn say_shutdown(
    outbox: &mut Outbox<'_>,
    alloc: Global,
    request: &Request,
    restart: bool,
) -> Result<(), AllocError>
    ensures { OnOk result (outbox.new ≡ frames.say (spec.replied request.now (codes "shutdown_reply") (spec.shutdown_content restart)) outbox.old) }
{
    let content = shutdown_content(alloc, restart)?;
    say_replied(outbox, alloc, request, "shutdown_reply", &content)
}

/// What a session that is alive answers.
#[tactic(auto, unfolding(crate::specs::Replies::ran_said, crate::specs::Replies::cell_said))]
fn say_ran(
    outbox: &mut Outbox<'_>,
    alloc: Global,
    request: &Request,
    reply: &Reply,
) -> Result<(), AllocError>
    ensures { OnOk result (outbox.new ≡ frames.say_all (spec.ran_said request.now reply.now) outbox.old) }
{
    match reply {
        Reply::Executed {
            count,
            silent,
            printed,
            shown,
            error,
        } => {
            if *silent {
                say_cell_reply(outbox, alloc, request, *count, error)
            } else {
                say_cell(outbox, alloc, request, *count, printed, shown, error)
            }
        }
        Reply::Info => say_info(outbox, alloc, request),
        Reply::Complete(completion) => say_completion(outbox, alloc, request, *completion),
        Reply::Shut { restart } => say_shutdown(outbox, alloc, request, *restart),
    }
}

/// What a session that died or was dead answers.
#[tactic(auto, unfolding(crate::specs::Replies::failed_said, crate::specs::Replies::failed_reply, crate::specs::Replies::failed_content))]
fn say_failed(
    outbox: &mut Outbox<'_>,
    alloc: Global,
    request: &Request,
    count: u32,
    failure: Failure,
) -> Result<(), AllocError>
    ensures { OnOk result (outbox.new ≡ frames.say_all (spec.failed_said request.now count failure) outbox.old) }
{
    let content = failed_reply(alloc, count, &request.ask, failure)?;
    say_replied(outbox, alloc, request, reply_kind(&request.ask), &content)
}

/// The plan, the flow that shows that no plan costs less, and the reply.
#[tactic(auto, unfolding(crate::specs::Replies::adopted_said, crate::specs::Replies::moved_content), using(crate::proofs::Saying::say_both))]
fn say_adopted(
    outbox: &mut Outbox<'_>,
    alloc: Global,
    request: &Request,
    hosts: (u32, u32),
    certified: &Certified,
    objects: u32,
) -> Result<(), AllocError>
    ensures { OnOk result (outbox.new ≡ frames.say_all (spec.adopted_said request.now hosts.0 hosts.1 certified.now objects) outbox.old) }
{
    let steps = steps_of(alloc, &certified.plan)?;
    say_lists(outbox, alloc, Listing::Plan, steps)?;
    let arcs = arcs_of(alloc, certified.arcs.as_slice())?;
    say_lists(outbox, alloc, Listing::Flow, arcs)?;
    let content = moved_content(alloc, hosts.0, hosts.1, certified, objects)?;
    say_replied(outbox, alloc, request, "migrate_reply", &content)
}

#[tactic(auto, using(crate::proofs::Floats::refused_no_float))]
fn say_refused(
    outbox: &mut Outbox<'_>,
    alloc: Global,
    request: &Request,
    owner: u32,
    reason: &MoveRefusal,
) -> Result<(), AllocError>
    ensures { OnOk result (outbox.new ≡ frames.say (spec.move_reply request.now (spec.refused_content owner reason.now)) outbox.old) }
{
    let content = refused_content(alloc, owner, reason)?;
    say_replied(outbox, alloc, request, "migrate_reply", &content)
}

#[tactic(auto, unfolding(crate::specs::Replies::resumed_content, crate::specs::Replies::stayed_content))]
fn say_resumed(outbox: &mut Outbox<'_>, alloc: Global, request: &Request) -> Result<(), AllocError>
    ensures { OnOk result (outbox.new ≡ frames.say (spec.move_reply request.now spec.resumed_content) outbox.old) }
{
    let content = resumed_content(alloc)?;
    say_replied(outbox, alloc, request, "migrate_reply", &content)
}

#[tactic(auto, unfolding(crate::specs::Replies::open_content))]
fn say_open(
    outbox: &mut Outbox<'_>,
    alloc: Global,
    channel: Channel,
    host: u32,
) -> Result<(), AllocError>
    ensures { OnOk result (outbox.new ≡ frames.say (spec.on_channel channel (codes "kernel_open_reply") (spec.open_content host)) outbox.old) }
{
    let content = host_content(alloc, host)?;
    outbox.say(alloc, channel_name(channel), "kernel_open_reply", &content)
}

/// The header of the request that an entry answers.
#[tactic(auto, unfolding(crate::specs::Replies::answer_of))]
fn answered(entry: &Entry) -> Option<&Header>
    ensures { spec.IsAnswered (spec.answer_of entry.now) (option_map (λ header. header.now) result) }
{
    match entry {
        Entry::Opened { request, .. } => Some(request),
        Entry::Sealed { .. } | Entry::Moved { .. } => None,
        Entry::Ran { request, .. }
        | Entry::Died { request, .. }
        | Entry::Dead { request, .. }
        | Entry::Adopted { request, .. }
        | Entry::Refused { request, .. }
        | Entry::Resumed { request, .. } => Some(&request.header),
    }
}

/// What an entry says between busy and idle.
#[tactic(auto, unfolding(crate::specs::Replies::answer_of, crate::specs::Replies::failed_said))]
fn say_middle(outbox: &mut Outbox<'_>, alloc: Global, entry: &Entry) -> Result<(), AllocError>
    ensures { OnOk result (outbox.new ≡ spec.say_middle (spec.answer_of entry.now) outbox.old) }
{
    match entry {
        Entry::Opened { host, channel, .. } => say_open(outbox, alloc, *channel, *host),
        Entry::Ran { request, reply, .. } => say_ran(outbox, alloc, request, reply),
        Entry::Died {
            request,
            count,
            cause,
            ..
        } => {
            let failure = died_failure(alloc, cause)?;
            say_failed(outbox, alloc, request, *count, failure)
        }
        Entry::Dead { request, count, .. } => {
            let failure = dead_failure(alloc)?;
            say_failed(outbox, alloc, request, *count, failure)
        }
        Entry::Sealed { .. } | Entry::Moved { .. } => Ok(()),
        Entry::Adopted {
            from,
            to,
            request,
            certified,
            objects,
        } => say_adopted(outbox, alloc, request, (*from, *to), certified, *objects),
        Entry::Refused {
            host,
            request,
            reason,
        } => say_refused(outbox, alloc, request, *host, reason),
        Entry::Resumed { request, .. } => say_resumed(outbox, alloc, request),
    }
}

/// All that an entry says that answers a request: busy, its answer, idle.
fn say_entry(outbox: &mut Outbox<'_>, alloc: Global, entry: &Entry) -> Result<(), AllocError>
    ensures { OnOk result (outbox.new ≡ frames.say said.idle (spec.say_middle (spec.answer_of entry.now) (frames.say said.busy outbox.old))) }
{
    say_status(outbox, alloc, "busy")?;
    say_middle(outbox, alloc, entry)?;
    say_status(outbox, alloc, "idle")
}

/// The frames of an entry of this kernel's journal, with running numbers from the first on, and the next number; none if it
/// answers no request. Also `Err` if a body would have 2^32 bytes or more, or a number would pass 2^64 - 1.
pub fn frames_of(
    alloc: Global,
    kernel: u128,
    entry: &Entry,
    first: u64,
) -> Result<(Items<u8>, u64), AllocError>
    ensures bytes { IfOk result (λ told. told.0 ≡ spec.entry_frames kernel entry.now first) }
    ensures next { IfOk result (λ told. told.1 ≡ first + spec.entry_length entry.now) }
{
    let Some(request) = answered(entry) else {
        return Ok((Items::new(alloc), first));
    };
    let kernel = kernel_name(alloc, kernel)?;
    let mut outbox = Outbox::new(alloc, kernel.as_str(), request, first)?;
    say_entry(&mut outbox, alloc, entry)?;
    Ok(outbox.into_frames())
}
