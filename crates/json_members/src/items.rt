//! Items of a list.

ghost use Rattle.std.specs.Result.{result_ok};
ghost use Rattle.std.specs.Prelude.{◌≡◌, Some, map, IfOk, option_map};
ghost use Rattle.serde_json.specs.Find.{as_str, at};
ghost use Rattle.serde_json.specs.View.{view};
ghost use Rattle.json_members.specs.Members.{narrow, small, whole};

use anyhow::{Result, bail};
use plain_data::{Items, Text};
use serde_json::Value;
use std::alloc::Global;

fn narrow(number: u64) -> Result<u32>
    ensures { result_ok result ≡ narrow number }
{
    match u32::try_from(number) {
        Ok(number) => Ok(number),
        Err(_) => bail!("a number is too large"),
    }
}

/// The number that a value is, from 0 to 2^64 - 1.
pub fn number_of(value: &Value) -> Result<u64>
    ensures { result_ok result ≡ whole (view value.now) }
{
    match value.as_u64() {
        Some(number) => Ok(number),
        None => bail!("a value is no number"),
    }
}

/// The number below 2^32 that a value is.
pub fn small_of(value: &Value) -> Result<u32>
    ensures { result_ok result ≡ small (view value.now) }
{
    narrow(number_of(value)?)
}

/// The text that a value is.
pub fn text_of(value: &Value) -> Result<&str>
    ensures { option_map (λ text. text.now) (result_ok result) ≡ as_str (view value.now) }
{
    match value.as_str() {
        Some(text) => Ok(text),
        None => bail!("a value is no text"),
    }
}

/// The item at that place of a list, counted from 0.
pub fn item_at(list: &Value, place: usize) -> Result<&Value>
    ensures { option_map (λ item. view item.now) (result_ok result) ≡ at place (view list.now) }
{
    match list.get(place) {
        Some(item) => Ok(item),
        None => bail!("a list is too short"),
    }
}

/// The numbers that the items are.
pub fn numbers_of(alloc: Global, items: &[Value]) -> Result<Items<u64>>
    ensures { IfOk result (λ numbers. map Some numbers ≡ map (λ item. whole (view item)) items.now) }
{
    let mut numbers = Items::new(alloc);
    for item in items {
        numbers.push(number_of(item)?)?;
    }
    Ok(numbers)
}

/// The numbers below 2^32 that the items are.
pub fn smalls_of(alloc: Global, items: &[Value]) -> Result<Items<u32>>
    ensures { IfOk result (λ numbers. map Some numbers ≡ map (λ item. small (view item)) items.now) }
{
    let mut numbers = Items::new(alloc);
    for item in items {
        numbers.push(small_of(item)?)?;
    }
    Ok(numbers)
}

/// Copies of the texts that the items are.
pub fn texts_of(alloc: Global, items: &[Value]) -> Result<Items<Text>>
    ensures { IfOk result (λ texts. map Some texts ≡ map (λ item. as_str (view item)) items.now) }
{
    let mut texts = Items::new(alloc);
    for item in items {
        texts.push(Text::new(alloc, text_of(item)?)?)?;
    }
    Ok(texts)
}
