ghost use Rattle.std.specs.Prelude.{◌≡◌, ◌∷◌, ◌++◌, [], codes, IfOk};
ghost use Rattle.serde_json.specs.View.{view};
ghost use Rattle.serde_json.specs.Written.{compact_text};
ghost use Rattle.serde_json.specs.Data.{array, item, no_items, string};
ghost use Rattle.reply_frames.specs.Messages as said;
ghost use Rattle.reply_frames.specs.Messages.{json, whole};
ghost use Rattle.reply_frames.specs.Replies as replies;

use crate::envelope::push_text;
use plain_data::{Text, cut_at};
use serde_json::{Value, json};
use session_core::Failure;
use std::alloc::{AllocError, Global};

/// The most bytes of a cell's code that are said.
const MOST_CODE: usize = 262_144;

/// The most bytes of a result's text that are said.
const MOST_RESULT: usize = 65_536;

/// The most bytes of an error's text that are said.
const MOST_ERROR: usize = 4096;

/// The content that tells a session's state, as JSON.
pub fn status_json(alloc: Global, state: &str) -> Result<Text, AllocError>
    ensures { IfOk result (λ text. text ≡ compact_text (json ((codes "execution_state", string state.now) ∷ []))) }
{
    let mut text = Text::new(alloc, "")?;
    push_text(alloc, &mut text, "{\"execution_state\":", state)?;
    text.push_str("}")?;
    Ok(text)
}

fn input_members(alloc: Global, code: &str, count: u32) -> Result<Value, AllocError>
    ensures { IfOk result (λ v. view v ≡ json ((codes "code", string code.now) ∷ (codes "execution_count", whole count) ∷ [])) }
{
    json!(in alloc; {"code": code, "execution_count": u64::from(count)})
}

/// The content that tells a cell's code, within 262,144 bytes, and its count.
pub fn input_content(alloc: Global, code: &str, count: u32) -> Result<Value, AllocError>
    ensures { IfOk result (λ v. view v ≡ (said.input code.now count).content) }
{
    let (code, _) = cut_at(code, MOST_CODE);
    input_members(alloc, code, count)
}

/// The content that tells a piece of printed text.
pub fn stream_content(alloc: Global, piece: &str) -> Result<Value, AllocError>
    ensures { IfOk result (λ v. view v ≡ json ((codes "name", string (codes "stdout")) ∷ (codes "text", string piece.now) ∷ [])) }
{
    json!(in alloc; {"name": "stdout", "text": piece})
}

/// A beginning with three dots after it.
fn with_dots(alloc: Global, front: &str) -> Result<Text, AllocError>
    ensures { IfOk result (λ short. short ≡ front.now ++ codes "...") }
{
    Ok(Text::from_string(format!(in alloc; "{front}...")?))
}

/// The text of a result, or its beginning within 65,536 bytes and three dots.
#[tactic(auto, unfolding(crate::specs::Messages::shortened))]
fn shortened(alloc: Global, text: &str) -> Result<Text, AllocError>
    ensures { IfOk result (λ short. short ≡ said.shortened text.now) }
{
    if text.len() <= MOST_RESULT {
        return Text::new(alloc, text);
    }
    let (front, _) = cut_at(text, MOST_RESULT);
    with_dots(alloc, front)
}

fn result_members(alloc: Global, count: u32, text: &str) -> Result<Value, AllocError>
    ensures { IfOk result (λ v. view v ≡ json ((codes "data", json ((codes "text/plain", string text.now) ∷ []))
        ∷ (codes "execution_count", whole count) ∷ (codes "metadata", json []) ∷ [])) }
{
    json!(in alloc; {
        "data": {"text/plain": text},
        "execution_count": u64::from(count),
        "metadata": {}
    })
}

/// The content that tells a cell's result, shortened if it has more than 65,536 bytes.
pub fn result_content(alloc: Global, count: u32, text: &Text) -> Result<Value, AllocError>
    ensures { IfOk result (λ v. view v ≡ (said.result count text.now).content) }
{
    let short = shortened(alloc, text.as_str())?;
    result_members(alloc, count, short.as_str())
}

/// The one line of an error.
fn error_line(alloc: Global, name: &str, text: &str) -> Result<Text, AllocError>
    ensures { IfOk result (λ line. line ≡ (name.now ++ codes ": ") ++ text.now) }
{
    Ok(Text::from_string(format!(in alloc; "{name}: {text}")?))
}

fn error_members(alloc: Global, name: &str, text: &str, line: &str) -> Result<Value, AllocError>
    ensures { IfOk result (λ v. view v ≡ json ((codes "ename", string name.now) ∷ (codes "evalue", string text.now)
        ∷ (codes "traceback", array (item (string line.now) no_items)) ∷ [])) }
{
    json!(in alloc; {"ename": name, "evalue": text, "traceback": [line]})
}

fn failed_members(
    alloc: Global,
    count: u32,
    name: &str,
    text: &str,
    line: &str,
) -> Result<Value, AllocError>
    ensures { IfOk result (λ v. view v ≡ json ((codes "ename", string name.now) ∷ (codes "evalue", string text.now)
        ∷ (codes "execution_count", whole count) ∷ (codes "status", string (codes "error"))
        ∷ (codes "traceback", array (item (string line.now) no_items)) ∷ [])) }
{
    json!(in alloc; {
        "ename": name,
        "evalue": text,
        "execution_count": u64::from(count),
        "status": "error",
        "traceback": [line]
    })
}

fn stopped_members(alloc: Global, name: &str, text: &str, line: &str) -> Result<Value, AllocError>
    ensures { IfOk result (λ v. view v ≡ json ((codes "ename", string name.now) ∷ (codes "evalue", string text.now)
        ∷ (codes "status", string (codes "error")) ∷ (codes "traceback", array (item (string line.now) no_items)) ∷ [])) }
{
    json!(in alloc; {"ename": name, "evalue": text, "status": "error", "traceback": [line]})
}

/// The content of the reply to a request other than a cell that failed so.
#[tactic(auto, unfolding(crate::specs::Replies::failed_content))]
pub fn failed_content(alloc: Global, failure: &Failure) -> Result<Value, AllocError>
    ensures { IfOk result (λ v. view v ≡ replies.failed_content failure.now) }
{
    let (text, _) = cut_at(failure.text.as_str(), MOST_ERROR);
    let line = error_line(alloc, failure.name.as_str(), text)?;
    stopped_members(alloc, failure.name.as_str(), text, line.as_str())
}

fn ok_members(alloc: Global, count: u32) -> Result<Value, AllocError>
    ensures { IfOk result (λ v. view v ≡ json ((codes "execution_count", whole count) ∷ (codes "status", string (codes "ok"))
        ∷ (codes "user_expressions", json []) ∷ [])) }
{
    json!(in alloc; {"execution_count": u64::from(count), "status": "ok", "user_expressions": {}})
}

/// The content that tells an error, its text within 4,096 bytes.
pub fn error_content(alloc: Global, failure: &Failure) -> Result<Value, AllocError>
    ensures { IfOk result (λ v. view v ≡ (said.error failure.now).content) }
{
    let (text, _) = cut_at(failure.text.as_str(), MOST_ERROR);
    let line = error_line(alloc, failure.name.as_str(), text)?;
    error_members(alloc, failure.name.as_str(), text, line.as_str())
}

/// The content of the reply to a cell with this count: its error, its text within 4,096 bytes, or that it has none.
pub fn reply_content(
    alloc: Global,
    count: u32,
    error: &Option<Failure>,
) -> Result<Value, AllocError>
    ensures { IfOk result (λ v. view v ≡ said.reply_content count error.now) }
{
    let Some(failure) = error else {
        return ok_members(alloc, count);
    };
    let (text, _) = cut_at(failure.text.as_str(), MOST_ERROR);
    let line = error_line(alloc, failure.name.as_str(), text)?;
    failed_members(alloc, count, failure.name.as_str(), text, line.as_str())
}
