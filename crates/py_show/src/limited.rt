ghost use Rattle.std.specs.Prelude.{◌≡◌, ◌++◌, ◌≤◌, [], Some, None, length, is_none, IfOk, IfSome, OnOk};
ghost use Rattle.py_show.specs.Limits as spec;

use plain_data::Text;
use std::alloc::{AllocError, Global};
use std::marker::Model;
use std::mem;

/// The most bytes of an output: `METER_LIMIT`.
const MAX_BYTES: usize = 16_777_216;

/// An output, which contracts see as its text, or as nothing if that is longer than `METER_LIMIT` bytes. Such a text
/// isn't kept, nor is any piece of it.
#[derive(Drop)]
pub struct Limited {
    text: Option<Text>,
}

impl Model for Limited {
    ghost use Rattle.std.specs.Prelude.{ℕ, List, Option, ◌≤◌, length, IfSome};
    ghost use Rattle.std.specs.Coded.{coded_ℕ, coded_list, coded_option};

    ghost Value = { Option (List ℕ) };

    ghost coded = { coded_option (coded_list coded_ℕ) };

    ghost view = { λ out. out.text };

    ghost invariant = { λ out. IfSome out.text (λ text. length text ≤ 16777216) };
}

/// A text with more after it, unless that is too long.
fn grown(text: Text, more: &str) -> Result<Option<Text>, AllocError>
    ensures { IfOk result (λ grown. grown ≡ spec.limited (text ++ more.now)) }
{
    let held = text.len();
    if held > MAX_BYTES || more.len() > MAX_BYTES - held {
        return Ok(None);
    }
    let mut text = text;
    text.push_str(more)?;
    Ok(Some(text))
}

/// An output with more after it.
fn longer(text: Option<Text>, more: &str) -> Result<Option<Text>, AllocError>
    ensures { IfOk result (λ longer. longer ≡ spec.pushed text more.now) }
{
    match text {
        Some(text) => grown(text, more),
        None => Ok(None),
    }
}

impl Limited {
    /// The empty output.
    pub fn new(alloc: Global) -> Result<Limited, AllocError>
        ensures { IfOk result (λ out. out ≡ Some []) }
    {
        Ok(Limited {
            text: Some(Text::new(alloc, "")?),
        })
    }

    /// Whether the text is longer than `METER_LIMIT` bytes, so that it isn't kept.
    pub fn is_long(&self) -> bool
        ensures { result ≡ is_none self.now }
    {
        self.text.is_none()
    }

    /// How many bytes more can be kept.
    pub(crate) fn room(&self) -> usize
        ensures value { result ≡ spec.room self.now }
        ensures limit { result ≤ 16777216 }
    {
        match &self.text {
            Some(text) => MAX_BYTES - text.len(),
            None => 0,
        }
    }

    /// Lets go of a text that has become too long.
    pub(crate) fn lose(&mut self)
        ensures { self.new ≡ None }
    {
        self.text = None;
    }

    /// Puts a text at the end. After an error the output means nothing.
    pub fn push_str(&mut self, more: &str) -> Result<(), AllocError>
        ensures { OnOk result (self.new ≡ spec.pushed self.old more.now) }
    {
        let text = mem::replace(&mut self.text, None);
        self.text = longer(text, more)?;
        Ok(())
    }

    /// The text, unless it is too long.
    pub fn into_text(self) -> Option<Text>
        ensures value { result ≡ self }
        ensures limit { IfSome result (λ text. length text ≤ 16777216) }
    {
        let Limited { text } = self;
        text
    }
}
