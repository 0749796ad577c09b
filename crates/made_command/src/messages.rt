//! The messages of the stream, each as JSON.

ghost use Rattle.std.specs.Prelude.{◌≡◌, ◌∷◌, [], codes, IfOk, string_bytes};
ghost use Rattle.serde_json.specs.Data.{string};
ghost use Rattle.serde_json.specs.View.{view};
ghost use Rattle.serde_json.specs.Written.{compact_text};
ghost use Rattle.reply_frames.specs.Frames.{header_json};
ghost use Rattle.reply_frames.specs.Messages.{json, whole};
ghost use Rattle.made_command.specs.Made as spec;

use serde_json::{Value, json};
use std::alloc::{AllocError, Global};

/// What the first cell defines.
const FIRST_CODE: &str =
    "def add(d, k, v):\n    if k in d:\n        d[k].append(v)\n    else:\n        d[k] = [v]\nd = {}\ntotal = 0";

/// The kernel to which all goes.
const KERNEL: &str = "00000000-0000-4000-8000-000000000001";

/// The frontend of the odd cells, of the opening and of the moves.
const ODD: &str = "f1";

/// The frontend of the even cells.
const EVEN: &str = "f2";

/// The code of a cell after the first.
#[tactic(auto, unfolding(crate::specs::Made::later_code))]
fn later_code(alloc: Global, cell: u32) -> Result<String, AllocError>
    ensures { IfOk result (λ text. string_bytes text ≡ spec.later_code cell) }
{
    let turn = cell % 4;
    if turn == 0 {
        let key = cell % 7;
        format!(in alloc; "add(d, \"k{key}\", {cell})")
    } else if turn == 1 {
        String::from_str(alloc, "total += len(d)")
    } else if turn == 2 {
        String::from_str(alloc, "for k in d:\n    total += len(d[k])")
    } else {
        String::from_str(alloc, "print(total)")
    }
}

/// The code of the first cell.
#[tactic(auto, unfolding(crate::specs::Made::first_code))]
fn first_code(alloc: Global) -> Result<String, AllocError>
    ensures { IfOk result (λ text. string_bytes text ≡ spec.first_code) }
{
    String::from_str(alloc, FIRST_CODE)
}

/// The code of a cell.
fn code_of(alloc: Global, cell: u32) -> Result<String, AllocError>
    ensures { IfOk result (λ text. string_bytes text ≡ spec.code_of cell) }
{
    if cell == 1 {
        return first_code(alloc);
    }
    later_code(alloc, cell)
}

/// Who asks for a cell.
fn session_of(cell: u32) -> &'static str
    ensures { result.now ≡ spec.session_of cell }
{
    if cell % 2 == 1 { ODD } else { EVEN }
}

/// A header with this session, id and type.
fn header(alloc: Global, session: &str, id: &str, kind: &str) -> Result<Value, AllocError>
    ensures { IfOk result (λ v. view v ≡ header_json (record { msg_id = id.now; username = codes "made"; session = session.now; date = []; msg_type = kind.now; version = codes "5.3" })) }
{
    json!(in alloc; {
        "date": "",
        "msg_id": id,
        "msg_type": kind,
        "session": session,
        "username": "made",
        "version": "5.3"
    })
}

/// A message to the kernel.
#[tactic(auto, unfolding(crate::specs::Made::message))]
fn message(
    alloc: Global,
    session: &str,
    id: &str,
    kind: &str,
    content: Value,
) -> Result<Value, AllocError>
    ensures { IfOk result (λ v. view v ≡ spec.message session.now id.now kind.now (view content)) }
{
    let header = header(alloc, session, id, kind)?;
    json!(in alloc; {"channel": "shell", "content": content, "header": header, "kernel": KERNEL})
}

/// The message that opens the session.
#[tactic(auto, unfolding(crate::specs::Made::opening))]
fn opening(alloc: Global) -> Result<Value, AllocError>
    ensures { IfOk result (λ v. view v ≡ spec.opening) }
{
    let content = json!(in alloc; {"host": 0u64})?;
    message(alloc, ODD, "o", "kernel_open_request", content)
}

/// The content of a cell.
fn cell_content(alloc: Global, cell: u32) -> Result<Value, AllocError>
    ensures { IfOk result (λ v. view v ≡ json ((codes "code", string (spec.code_of cell)) ∷ [])) }
{
    let code = code_of(alloc, cell)?;
    json!(in alloc; {"code": code.as_str()})
}

/// The message that asks for a cell.
#[tactic(auto, unfolding(crate::specs::Made::cell))]
fn cell(alloc: Global, cell: u32) -> Result<Value, AllocError>
    ensures { IfOk result (λ v. view v ≡ spec.cell cell) }
{
    let content = cell_content(alloc, cell)?;
    let id = format!(in alloc; "c{cell}")?;
    message(
        alloc,
        session_of(cell),
        id.as_str(),
        "execute_request",
        content,
    )
}

/// The content of a move: all costs are 1.
fn move_content(alloc: Global, host: u32) -> Result<Value, AllocError>
    ensures { IfOk result (λ v. view v ≡ json ((codes "copy_base", whole 1) ∷ (codes "per_byte", whole 1) ∷ (codes "per_step", whole 1) ∷ (codes "run_base", whole 1) ∷ (codes "to", whole host) ∷ [])) }
{
    json!(in alloc; {
        "copy_base": 1u64,
        "per_byte": 1u64,
        "per_step": 1u64,
        "run_base": 1u64,
        "to": u64::from(host)
    })
}

/// The message that asks for the move after a cell.
#[tactic(auto, unfolding(crate::specs::Made::moving))]
fn move_after(alloc: Global, cell: u32) -> Result<Value, AllocError>
    ensures { IfOk result (λ v. view v ≡ spec.moving cell) }
{
    let content = move_content(alloc, cell / 4 % 3)?;
    let id = format!(in alloc; "m{cell}")?;
    message(alloc, ODD, id.as_str(), "migrate_request", content)
}

/// The text of the message that opens the session.
pub fn opening_text(alloc: Global) -> Result<String, AllocError>
    ensures { IfOk result (λ text. string_bytes text ≡ compact_text spec.opening) }
{
    let message = opening(alloc)?;
    message.to_string(alloc)
}

/// The text of the message that asks for a cell.
pub fn cell_text(alloc: Global, number: u32) -> Result<String, AllocError>
    ensures { IfOk result (λ text. string_bytes text ≡ compact_text (spec.cell number)) }
{
    let message = cell(alloc, number)?;
    message.to_string(alloc)
}

/// The text of the message that asks for the move after a cell.
pub fn move_text(alloc: Global, number: u32) -> Result<String, AllocError>
    ensures { IfOk result (λ text. string_bytes text ≡ compact_text (spec.moving number)) }
{
    let message = move_after(alloc, number)?;
    message.to_string(alloc)
}
