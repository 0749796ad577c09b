//! Members of a JSON object, each with its fault.

ghost use Rattle.std.specs.Prelude.{◌≡◌, Err};
ghost use Rattle.serde_json.specs.View.{view};
ghost use Rattle.jupyter_messages.specs.Outcomes.{Gives, GivesAs};
ghost use Rattle.jupyter_messages.specs.Reading as spec;

use crate::fault::MessageFault;
use plain_data::Text;
use serde_json::Value;
use std::alloc::Global;

/// The most bytes of a header's text.
const MOST_TEXT: usize = 256;

/// The fault that a member isn't there.
pub fn no_field<T: Drop>(alloc: Global, name: &str) -> Result<T, MessageFault>
    ensures { Gives result (Err (MessageFault.NoField name.now)) }
{
    Err(MessageFault::NoField(Text::new(alloc, name)?))
}

/// The fault that a member is of another kind, length, range or value.
pub fn wrong_kind<T: Drop>(alloc: Global, name: &str) -> Result<T, MessageFault>
    ensures { Gives result (Err (MessageFault.WrongKind name.now)) }
{
    Err(MessageFault::WrongKind(Text::new(alloc, name)?))
}

/// A text of at most 256 bytes.
#[tactic(auto, unfolding(crate::specs::Reading::short_text, crate::specs::Reading::text_of, crate::specs::Reading::of_kind))]
fn short_text(alloc: Global, name: &str, value: &Value) -> Result<Text, MessageFault>
    ensures { Gives result (spec.short_text name.now (view value.now)) }
{
    match value.as_str() {
        Some(text) if text.len() <= MOST_TEXT => Ok(Text::new(alloc, text)?),
        _ => wrong_kind(alloc, name),
    }
}

/// A text of at most 256 bytes that has to be there.
#[tactic(auto, unfolding(crate::specs::Reading::required_text, crate::specs::Reading::member))]
pub fn required_text(alloc: Global, name: &str, object: &Value) -> Result<Text, MessageFault>
    ensures { Gives result (spec.required_text name.now (view object.now)) }
{
    match object.get(name) {
        Some(value) => short_text(alloc, name, value),
        None => no_field(alloc, name),
    }
}

/// A text of at most 256 bytes that may be absent, and is empty then.
#[tactic(auto, unfolding(crate::specs::Reading::optional_text))]
pub fn optional_text(alloc: Global, name: &str, object: &Value) -> Result<Text, MessageFault>
    ensures { Gives result (spec.optional_text name.now (view object.now)) }
{
    match object.get(name) {
        Some(value) => short_text(alloc, name, value),
        None => Ok(Text::new(alloc, "")?),
    }
}

/// A truth value that may be absent, and is `absent` then.
#[tactic(auto, unfolding(crate::specs::Reading::optional_bool, crate::specs::Reading::of_kind))]
pub fn optional_bool(
    alloc: Global,
    name: &str,
    absent: bool,
    object: &Value,
) -> Result<bool, MessageFault>
    ensures { Gives result (spec.optional_bool name.now absent (view object.now)) }
{
    match object.get(name) {
        Some(value) => match value.as_bool() {
            Some(truth) => Ok(truth),
            None => wrong_kind(alloc, name),
        },
        None => Ok(absent),
    }
}

/// An object that may be absent.
#[tactic(auto, unfolding(crate::specs::Reading::optional_object))]
pub fn optional_object(alloc: Global, name: &str, object: &Value) -> Result<bool, MessageFault>
    ensures { Gives result (spec.optional_object name.now (view object.now)) }
{
    match object.get(name) {
        Some(value) if value.as_object().is_none() => wrong_kind(alloc, name),
        _ => Ok(true),
    }
}

/// A whole number from 0 to 2^64 - 1 that has to be there.
#[tactic(auto, unfolding(crate::specs::Reading::required_number, crate::specs::Reading::member, crate::specs::Reading::of_kind, crate::specs::Reading::whole_number))]
pub fn required_number(alloc: Global, name: &str, object: &Value) -> Result<u64, MessageFault>
    ensures { Gives result (spec.required_number name.now (view object.now)) }
{
    match object.get(name) {
        Some(value) => match value.as_u64() {
            Some(number) => Ok(number),
            None => wrong_kind(alloc, name),
        },
        None => no_field(alloc, name),
    }
}

/// An object that has to be there.
#[tactic(auto, unfolding(crate::specs::Reading::required_object, crate::specs::Reading::member))]
pub fn required_object<'a>(
    alloc: Global,
    name: &str,
    object: &'a Value,
) -> Result<&'a Value, MessageFault>
    ensures { GivesAs (λ v. view v.now) result (spec.required_object name.now (view object.now)) }
{
    match object.get(name) {
        Some(value) if value.as_object().is_some() => Ok(value),
        Some(_) => wrong_kind(alloc, name),
        None => no_field(alloc, name),
    }
}

/// A text of any length that has to be there.
#[tactic(auto, unfolding(crate::specs::Reading::required_long_text, crate::specs::Reading::text_of, crate::specs::Reading::member, crate::specs::Reading::of_kind))]
pub fn long_text<'a>(alloc: Global, name: &str, object: &'a Value) -> Result<&'a str, MessageFault>
    ensures { GivesAs (λ text. text.now) result (spec.required_long_text name.now (view object.now)) }
{
    match object.get(name) {
        Some(value) => match value.as_str() {
            Some(text) => Ok(text),
            None => wrong_kind(alloc, name),
        },
        None => no_field(alloc, name),
    }
}
