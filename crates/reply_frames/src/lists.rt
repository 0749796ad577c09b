//! Long lists in messages: the steps of a plan and the arcs of a flow, at most 4,096 in each message.

ghost use Rattle.std.specs.Prelude.{◌≡◌, ◌++◌, [], false, IfOk, OnOk, map, take, drop, decimal};
ghost use Rattle.serde_json.specs.Data.{string, array, item, no_items};
ghost use Rattle.reply_frames.specs.Messages.{whole};
ghost use Rattle.serde_json.specs.View.{view, items_view};
ghost use Rattle.serde_json.specs.Written.{items_have_float};
ghost use Rattle.reply_frames.specs.Replies as spec;
ghost use Rattle.reply_frames.specs.Frames as frames;

use crate::outbox::Outbox;
use graph_model::{FlowArc, Node, Plan};
use plain_data::Text;
use serde_json::{Value, json};
use std::alloc::{AllocError, Global};
use std::mem;

/// The most items of a message.
pub const MOST_ITEMS: usize = 4096;

/// Which list a message has.
#[derive(Clone, Copy)]
pub enum Listing {
    Plan,
    Flow,
}

/// A copied version or a cell that runs again.
#[tactic(auto, unfolding(crate::specs::Replies::step))]
fn step_item(alloc: Global, word: &str, number: u32) -> Result<Value, AllocError>
    ensures { IfOk result (λ v. view v ≡ spec.step word.now number) }
{
    json!(in alloc; [word, u64::from(number)])
}

/// Adds the steps with these numbers.
fn push_steps(
    items: &mut Vec<Value>,
    alloc: Global,
    word: &str,
    numbers: &[u32],
) -> Result<(), AllocError>
    ensures { OnOk result (map view items.new.items ≡ map view items.old.items ++ map (spec.step word.now) numbers.now) }
{
    for number in numbers {
        let item = step_item(alloc, word, *number)?;
        items.push(item)?;
    }
    Ok(())
}

/// The steps of a plan: copies, then reruns.
#[tactic(auto, unfolding(crate::specs::Replies::steps))]
pub fn steps_of(alloc: Global, plan: &Plan) -> Result<Vec<Value>, AllocError>
    ensures { IfOk result (λ items. map view items.items ≡ spec.steps plan.now) }
{
    let mut items = Vec::new(alloc);
    push_steps(&mut items, alloc, "copy", plan.copied.as_slice())?;
    push_steps(&mut items, alloc, "run", plan.rerun.as_slice())?;
    Ok(items)
}

/// A letter and a number.
fn numbered(alloc: Global, letter: &str, number: u32) -> Result<Text, AllocError>
    ensures { IfOk result (λ text. text ≡ letter.now ++ decimal number) }
{
    Ok(Text::from_string(format!(in alloc; "{letter}{number}")?))
}

fn node_name(alloc: Global, node: Node) -> Result<Text, AllocError>
    ensures { IfOk result (λ name. name ≡ spec.node_name node) }
{
    match node {
        Node::Source => Text::new(alloc, "s"),
        Node::Version(version) => numbered(alloc, "v", version),
        Node::Cell(cell) => numbered(alloc, "c", cell),
        Node::Sink => Text::new(alloc, "t"),
    }
}

fn arc_members(alloc: Global, from: &str, to: &str, flow: u64) -> Result<Value, AllocError>
    ensures { IfOk result (λ v. view v ≡ array (item (string from.now) (item (string to.now) (item (whole flow) no_items)))) }
{
    json!(in alloc; [from, to, flow])
}

#[tactic(auto, unfolding(crate::specs::Replies::arc_said))]
fn arc_item(alloc: Global, arc: &FlowArc) -> Result<Value, AllocError>
    ensures { IfOk result (λ v. view v ≡ spec.arc_said arc.now) }
{
    let from = node_name(alloc, arc.from)?;
    let to = node_name(alloc, arc.to)?;
    arc_members(alloc, from.as_str(), to.as_str(), arc.flow)
}

/// The arcs of a flow.
pub fn arcs_of(alloc: Global, arcs: &[FlowArc]) -> Result<Vec<Value>, AllocError>
    ensures { IfOk result (λ items. map view items.items ≡ map spec.arc_said arcs.now) }
{
    let mut items = Vec::new(alloc);
    for arc in arcs {
        items.push(arc_item(alloc, arc)?)?;
    }
    Ok(items)
}

#[tactic(auto, unfolding(crate::specs::Replies::listed))]
fn list_content(alloc: Global, which: Listing, chunk: Vec<Value>) -> Result<Value, AllocError>
    ensures { IfOk result (λ v. view v ≡ (spec.listed which (map view chunk.items)).content) }
{
    match which {
        Listing::Plan => json!(in alloc; {"items": chunk}),
        Listing::Flow => json!(in alloc; {"arcs": chunk}),
    }
}

#[tactic(auto, unfolding(crate::specs::Replies::listed))]
fn list_kind(which: Listing) -> &'static str
    ensures { result.now ≡ (spec.listed which []).kind }
{
    match which {
        Listing::Plan => "migrate_plan",
        Listing::Flow => "migrate_flow",
    }
}

/// One message with these items.
#[tactic(auto, unfolding(crate::specs::Replies::listed))]
fn say_list(
    outbox: &mut Outbox<'_>,
    alloc: Global,
    which: Listing,
    chunk: Vec<Value>,
) -> Result<(), AllocError>
    requires { items_have_float (items_view chunk.items) ≡ false }
    ensures { OnOk result (outbox.new ≡ frames.say (spec.listed which (map view chunk.items)) outbox.old) }
{
    let content = list_content(alloc, which, chunk)?;
    outbox.say(alloc, "iopub", list_kind(which), &content)
}

/// Takes the first items off, as many as a message has at most.
fn take_chunk(items: &mut Vec<Value>) -> Result<Vec<Value>, AllocError>
    ensures { IfOk result (λ chunk. (chunk.items ≡ take 4096 items.old.items) × (items.new.items ≡ drop 4096 items.old.items)) }
{
    let most = MOST_ITEMS.min(items.len());
    let more = items.split_off(most)?;
    Ok(mem::replace(items, more))
}

/// All these items, in messages of at most 4,096.
#[tactic(auto, unfolding(crate::specs::Replies::chunks, crate::specs::Replies::lists))]
pub fn say_lists(
    outbox: &mut Outbox<'_>,
    alloc: Global,
    which: Listing,
    items: Vec<Value>,
) -> Result<(), AllocError>
    requires { items_have_float (items_view items.items) ≡ false }
    ensures { OnOk result (outbox.new ≡ frames.say_all (spec.lists which (map view items.items)) outbox.old) }
{
    let mut rest = items;
    let count = rest.len();
    for turn in 0..count {
        if rest.is_empty() {
            break;
        }
        let chunk = take_chunk(&mut rest)?;
        say_list(outbox, alloc, which, chunk)?;
    }
    Ok(())
}
