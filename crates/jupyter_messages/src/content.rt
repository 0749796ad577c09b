//! What each type of message asks.

ghost use Rattle.serde_json.specs.View.{view};
ghost use Rattle.jupyter_messages.specs.Outcomes.{Gives};
ghost use Rattle.jupyter_messages.specs.Reading as spec;

use crate::fault::MessageFault;
use crate::member::{long_text, optional_bool, optional_object, required_number};
use crate::message::MessageKind;
use crate::read::RequestType;
use graph_model::Weights;
use plain_data::Text;
use serde_json::Value;
use session_core::Ask;
use std::alloc::Global;

#[tactic(auto, unfolding(crate::specs::Reading::open_of))]
fn open_of(alloc: Global, content: &Value) -> Result<MessageKind, MessageFault>
    ensures { Gives result (spec.open_of (view content.now)) }
{
    let host = required_number(alloc, "host", content)?;
    Ok(MessageKind::Open { host })
}

/// A cell; a silent one is never stored.
#[tactic(auto, unfolding(crate::specs::Reading::execute_of))]
fn execute_of(alloc: Global, content: &Value) -> Result<MessageKind, MessageFault>
    ensures { Gives result (spec.execute_of (view content.now)) }
{
    let code = long_text(alloc, "code", content)?;
    let silent = optional_bool(alloc, "silent", false, content)?;
    let store = optional_bool(alloc, "store_history", !silent, content)?;
    let _expressions = optional_object(alloc, "user_expressions", content)?;
    let _stdin = optional_bool(alloc, "allow_stdin", true, content)?;
    let _stop = optional_bool(alloc, "stop_on_error", true, content)?;
    Ok(MessageKind::Ask(Ask::Execute {
        code: Text::new(alloc, code)?,
        silent,
        store: !silent && store,
    }))
}

#[tactic(auto, unfolding(crate::specs::Reading::complete_of))]
fn complete_of(alloc: Global, content: &Value) -> Result<MessageKind, MessageFault>
    ensures { Gives result (spec.complete_of (view content.now)) }
{
    let code = long_text(alloc, "code", content)?;
    Ok(MessageKind::Ask(Ask::Complete {
        code: Text::new(alloc, code)?,
    }))
}

#[tactic(auto, unfolding(crate::specs::Reading::shutdown_of))]
fn shutdown_of(alloc: Global, content: &Value) -> Result<MessageKind, MessageFault>
    ensures { Gives result (spec.shutdown_of (view content.now)) }
{
    let restart = optional_bool(alloc, "restart", false, content)?;
    Ok(MessageKind::Ask(Ask::Shutdown { restart }))
}

#[tactic(auto, unfolding(crate::specs::Reading::migrate_of))]
fn migrate_of(alloc: Global, content: &Value) -> Result<MessageKind, MessageFault>
    ensures { Gives result (spec.migrate_of (view content.now)) }
{
    let to = required_number(alloc, "to", content)?;
    let copy_base = required_number(alloc, "copy_base", content)?;
    let per_byte = required_number(alloc, "per_byte", content)?;
    let run_base = required_number(alloc, "run_base", content)?;
    let per_step = required_number(alloc, "per_step", content)?;
    Ok(MessageKind::Ask(Ask::Migrate {
        to,
        weights: Weights {
            copy_base,
            per_byte,
            run_base,
            per_step,
        },
    }))
}

/// What a message of this type asks.
pub fn kind_of(
    alloc: Global,
    kind: RequestType,
    content: &Value,
) -> Result<MessageKind, MessageFault>
    ensures { Gives result (spec.kind_of kind (view content.now)) }
{
    match kind {
        RequestType::Open => open_of(alloc, content),
        RequestType::Execute => execute_of(alloc, content),
        RequestType::Info => Ok(MessageKind::Ask(Ask::Info)),
        RequestType::Complete => complete_of(alloc, content),
        RequestType::Shutdown => shutdown_of(alloc, content),
        RequestType::Migrate => migrate_of(alloc, content),
    }
}
