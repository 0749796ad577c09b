//! Members of an object.

ghost use Rattle.std.specs.Result.{result_ok};
ghost use Rattle.std.specs.Prelude.{◌≡◌, Some, true, IsTrue, ◌↔◌, option_map};
ghost use Rattle.serde_json.specs.Find.{get, as_array, as_bool, as_str};
ghost use Rattle.serde_json.specs.Data.{no_items};
ghost use Rattle.serde_json.specs.View.{items_view, view};
ghost use Rattle.json_members.specs.Members.{member_as, member_or, small, whole};

use crate::items::{number_of, small_of, text_of};
use anyhow::{Result, bail};
use serde_json::Value;

/// The member with this name, which has to be there. The same holds for each function whose name ends in `_in`.
pub fn member<'a>(line: &'a Value, name: &str) -> Result<&'a Value>
    ensures { option_map (λ value. view value.now) (result_ok result) ≡ get name.now (view line.now) }
{
    match line.get(name) {
        Some(value) => Ok(value),
        None => bail!("there is no member {name}"),
    }
}

/// The text that a member is.
pub fn text_in<'a>(line: &'a Value, name: &str) -> Result<&'a str>
    ensures { option_map (λ text. text.now) (result_ok result) ≡ member_as as_str name.now (view line.now) }
{
    text_of(member(line, name)?)
}

/// The number from 0 to 2^64 - 1 that a member is.
pub fn number_in(line: &Value, name: &str) -> Result<u64>
    ensures { result_ok result ≡ member_as whole name.now (view line.now) }
{
    number_of(member(line, name)?)
}

/// The number below 2^32 that a member is.
pub fn small_in(line: &Value, name: &str) -> Result<u32>
    ensures { result_ok result ≡ member_as small name.now (view line.now) }
{
    small_of(member(line, name)?)
}

/// The number below 2^32 that a member is, or 0 if it isn't there.
pub fn small_or_0(line: &Value, name: &str) -> Result<u32>
    ensures { result_ok result ≡ member_or 0 small name.now (view line.now) }
{
    match line.get(name) {
        Some(value) => small_of(value),
        None => Ok(0),
    }
}

/// The truth value that a member is.
pub fn truth_in(line: &Value, name: &str) -> Result<bool>
    ensures { result_ok result ≡ member_as as_bool name.now (view line.now) }
{
    match member(line, name)?.as_bool() {
        Some(truth) => Ok(truth),
        None => bail!("the member {name} is no truth value"),
    }
}

/// Whether a member is there and is true.
pub fn is_set(line: &Value, name: &str) -> bool
    ensures { IsTrue result ↔ (member_as as_bool name.now (view line.now) ≡ Some true) }
{
    match line.get(name) {
        Some(value) => value.as_bool() == Some(true),
        None => false,
    }
}

/// The items of the list that a member is.
pub fn list_in<'a>(line: &'a Value, name: &str) -> Result<&'a [Value]>
    ensures { option_map (λ items. items_view items.now) (result_ok result) ≡ member_as as_array name.now (view line.now) }
{
    match member(line, name)?.as_array() {
        Some(items) => Ok(items.as_slice()),
        None => bail!("the member {name} is no list"),
    }
}

/// The items of the list that a member is, or none if it isn't there.
pub fn list_or_none<'a>(line: &'a Value, name: &str) -> Result<&'a [Value]>
    ensures { option_map (λ items. items_view items.now) (result_ok result) ≡ member_or no_items as_array name.now (view line.now) }
{
    let Some(value) = line.get(name) else {
        return Ok(&[]);
    };
    match value.as_array() {
        Some(items) => Ok(items.as_slice()),
        None => bail!("the member {name} is no list"),
    }
}
