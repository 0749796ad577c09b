//! The contents of the replies to entries of a journal.

ghost use Rattle.std.specs.Prelude.{◌≡◌, ◌∷◌, ◌++◌, [], codes, length, map, take, IfOk, decimal};
ghost use Rattle.std.specs.List.{repeat};
ghost use Rattle.serde_json.specs.View.{view, items_view};
ghost use Rattle.serde_json.specs.Data.{array, boolean, string};
ghost use Rattle.reply_frames.specs.Messages as said;
ghost use Rattle.reply_frames.specs.Messages.{json, whole};
ghost use Rattle.reply_frames.specs.Replies as spec;

use crate::content::{failed_content, reply_content};
use graph_model::Certified;
use plain_data::Text;
use plan_model::{Weight, WeightFault};
use serde_json::{Value, json};
use session_core::{Ask, Completion, DiedCause, Failure, MoveRefusal};
use std::alloc::{AllocError, Global};

/// The most names of a version in a reply.
const MOST_NAMES: usize = 1000;

/// The reply to an opening on this host.
#[tactic(auto, unfolding(crate::specs::Replies::open_content))]
pub fn host_content(alloc: Global, host: u32) -> Result<Value, AllocError>
    ensures { IfOk result (λ v. view v ≡ spec.open_content host) }
{
    json!(in alloc; {"host": u64::from(host), "status": "ok"})
}

/// What tells about the kernel. (Jupyter messaging 5.3, `kernel_info_reply`.)
#[tactic(auto, unfolding(crate::specs::Replies::info_content, crate::specs::Replies::language_content))]
pub fn info_content(alloc: Global) -> Result<Value, AllocError>
    ensures { IfOk result (λ v. view v ≡ spec.info_content) }
{
    json!(in alloc; {
        "banner": "elastic_notebook",
        "help_links": [],
        "implementation": "elastic_notebook",
        "implementation_version": "1",
        "language_info": {
            "file_extension": ".py",
            "mimetype": "text/x-python",
            "name": "python",
            "version": "3"
        },
        "protocol_version": "5.3",
        "status": "ok"
    })
}

fn status_alone(alloc: Global, status: &str) -> Result<Value, AllocError>
    ensures { IfOk result (λ v. view v ≡ json ((codes "status", string status.now) ∷ [])) }
{
    json!(in alloc; {"status": status})
}

fn incomplete(alloc: Global, indent: &str) -> Result<Value, AllocError>
    ensures { IfOk result (λ v. view v ≡ json ((codes "indent", string indent.now) ∷ (codes "status", string (codes "incomplete")) ∷ [])) }
{
    json!(in alloc; {"indent": indent, "status": "incomplete"})
}

/// The reply that says whether a code is a whole cell. If it may go on, it has the spaces of its next line.
#[tactic(auto, unfolding(crate::specs::Replies::completion_content))]
pub fn completion_content(alloc: Global, completion: Completion) -> Result<Value, AllocError>
    ensures { IfOk result (λ v. view v ≡ spec.completion_content completion) }
{
    match completion {
        Completion::Complete => status_alone(alloc, "complete"),
        Completion::Incomplete(indent) => {
            let spaces = " ".repeat(alloc, indent as usize)?;
            incomplete(alloc, spaces.as_str())
        }
        Completion::Invalid => status_alone(alloc, "invalid"),
    }
}

/// The reply to a shutdown.
#[tactic(auto, unfolding(crate::specs::Replies::shutdown_content))]
pub fn shutdown_content(alloc: Global, restart: bool) -> Result<Value, AllocError>
    ensures { IfOk result (λ v. view v ≡ spec.shutdown_content restart) }
{
    json!(in alloc; {"restart": restart, "status": "ok"})
}

/// The reply of a session that died at the request, or was dead before.
#[tactic(auto, unfolding(crate::specs::Replies::failed_reply))]
pub fn failed_reply(
    alloc: Global,
    count: u32,
    ask: &Ask,
    failure: Failure,
) -> Result<Value, AllocError>
    ensures { IfOk result (λ v. view v ≡ spec.failed_reply count ask.now failure) }
{
    match ask {
        Ask::Execute { .. } => reply_content(alloc, count, &Some(failure)),
        _ => failed_content(alloc, &failure),
    }
}

/// The type of the reply to this ask.
pub fn reply_kind(ask: &Ask) -> &'static str
    ensures { result.now ≡ spec.reply_kind ask.now }
{
    match ask {
        Ask::Execute { .. } => "execute_reply",
        Ask::Info => "kernel_info_reply",
        Ask::Complete { .. } => "is_complete_reply",
        Ask::Shutdown { .. } => "shutdown_reply",
        Ask::Migrate { .. } => "migrate_reply",
    }
}

fn failure_of(alloc: Global, name: &str, text: &str) -> Result<Failure, AllocError>
    ensures { IfOk result (λ failure. failure ≡ record { name = name.now; text = text.now }) }
{
    Ok(Failure {
        name: Text::new(alloc, name)?,
        text: Text::new(alloc, text)?,
    })
}

/// The error of a session that died.
#[tactic(auto, unfolding(crate::specs::Replies::died_failure))]
pub fn died_failure(alloc: Global, cause: &DiedCause) -> Result<Failure, AllocError>
    ensures { IfOk result (λ failure. failure ≡ spec.died_failure cause.now) }
{
    match cause {
        DiedCause::OutOfMemory => failure_of(alloc, "KernelDied", "out of memory"),
        DiedCause::TooMany { .. } => failure_of(alloc, "KernelDied", "session full"),
    }
}

/// The error of a session that is dead.
#[tactic(auto, unfolding(crate::specs::Replies::dead_failure))]
pub fn dead_failure(alloc: Global) -> Result<Failure, AllocError>
    ensures { IfOk result (λ failure. failure ≡ spec.dead_failure) }
{
    failure_of(alloc, "DeadKernel", "kernel is dead")
}

/// The reply to a move that was made.
#[tactic(auto, unfolding(crate::specs::Replies::moved_content))]
pub fn moved_content(
    alloc: Global,
    from: u32,
    to: u32,
    certified: &Certified,
    objects: u32,
) -> Result<Value, AllocError>
    ensures { IfOk result (λ v. view v ≡ spec.moved_content from to certified.now objects) }
{
    let copied = certified.plan.copied.as_slice().len();
    let rerun = certified.plan.rerun.as_slice().len();
    json!(in alloc; {
        "copied": copied,
        "cost": certified.cost,
        "flow": certified.cost,
        "from": u64::from(from),
        "objects": u64::from(objects),
        "rerun": rerun,
        "status": "ok",
        "to": u64::from(to)
    })
}

#[tactic(auto, unfolding(crate::specs::Replies::stayed_content))]
fn stayed_content(alloc: Global, name: &str, text: &str) -> Result<Value, AllocError>
    ensures { IfOk result (λ v. view v ≡ spec.stayed_content name.now text.now) }
{
    json!(in alloc; {"ename": name, "evalue": text, "status": "error"})
}

fn items_of(alloc: Global, names: &[Text]) -> Result<Vec<Value>, AllocError>
    ensures { IfOk result (λ items. map view items.items ≡ map string names.now) }
{
    let mut items = Vec::new(alloc);
    for name in names {
        let item = Value::try_from_str(alloc, name.as_str())?;
        items.push(item)?;
    }
    Ok(items)
}

/// The first 1,000 of these names.
fn names_said(alloc: Global, names: &[Text]) -> Result<Vec<Value>, AllocError>
    ensures { IfOk result (λ items. map view items.items ≡ map string (take 1000 names.now)) }
{
    let most = MOST_NAMES.min(names.len());
    let (front, _) = names.split_at(most);
    items_of(alloc, front)
}

fn stuck_members(
    alloc: Global,
    version: u32,
    cell: u32,
    names: Vec<Value>,
    size: usize,
) -> Result<Value, AllocError>
    ensures { IfOk result (λ v. view v ≡ json ((codes "cell", whole cell) ∷ (codes "ename", string (codes "Stuck"))
        ∷ (codes "evalue", string (codes "neither copied nor recomputed")) ∷ (codes "names", array (items_view names.items))
        ∷ (codes "size", whole size) ∷ (codes "status", string (codes "error")) ∷ (codes "version", whole version) ∷ [])) }
{
    json!(in alloc; {
        "cell": u64::from(cell),
        "ename": "Stuck",
        "evalue": "neither copied nor recomputed",
        "names": names,
        "size": size,
        "status": "error",
        "version": u64::from(version)
    })
}

#[tactic(auto, unfolding(crate::specs::Replies::stuck_content))]
fn stuck_content(
    alloc: Global,
    version: u32,
    cell: u32,
    names: &[Text],
) -> Result<Value, AllocError>
    ensures { IfOk result (λ v. view v ≡ spec.stuck_content version cell names.now) }
{
    let said = names_said(alloc, names)?;
    stuck_members(alloc, version, cell, said, names.len())
}

fn host_text(alloc: Global, host: u64) -> Result<Text, AllocError>
    ensures { IfOk result (λ text. text ≡ codes "host " ++ decimal host) }
{
    Ok(Text::from_string(format!(in alloc; "host {host}")?))
}

fn weight_text(fault: WeightFault) -> &'static str
    ensures { result.now ≡ spec.weight_text fault }
{
    match fault {
        WeightFault::Over(Weight::CopyBase) => "copy_base",
        WeightFault::Over(Weight::PerByte) => "per_byte",
        WeightFault::Over(Weight::RunBase) => "run_base",
        WeightFault::Over(Weight::PerStep) => "per_step",
        WeightFault::TooMuch(_) => "sum",
    }
}

/// The reply to a move that is refused.
#[tactic(auto, unfolding(crate::specs::Replies::refused_content))]
pub fn refused_content(alloc: Global, owner: u32, reason: &MoveRefusal) -> Result<Value, AllocError>
    ensures { IfOk result (λ v. view v ≡ spec.refused_content owner reason.now) }
{
    match reason {
        MoveRefusal::Stuck {
            version,
            cell,
            names,
        } => stuck_content(alloc, *version, *cell, names.as_slice()),
        MoveRefusal::SameHost => {
            let text = host_text(alloc, u64::from(owner))?;
            stayed_content(alloc, "SameHost", text.as_str())
        }
        MoveRefusal::UnknownHost(host) => {
            let text = host_text(alloc, *host)?;
            stayed_content(alloc, "UnknownHost", text.as_str())
        }
        MoveRefusal::BadWeights(fault) => stayed_content(alloc, "BadWeights", weight_text(*fault)),
        MoveRefusal::DeadKernel => stayed_content(alloc, "DeadKernel", "kernel is dead"),
    }
}

/// The reply to a move for which memory ran out.
#[tactic(auto, unfolding(crate::specs::Replies::resumed_content))]
pub fn resumed_content(alloc: Global) -> Result<Value, AllocError>
    ensures { IfOk result (λ v. view v ≡ spec.resumed_content) }
{
    stayed_content(alloc, "Resumed", "out of memory")
}
