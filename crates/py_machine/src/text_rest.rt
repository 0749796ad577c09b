ghost use Rattle.std.specs.Prelude.{◌≡◌, IfOk};
ghost use Rattle.std.specs.Str.{IsCharBoundary};
ghost use Rattle.py_machine.specs.Rests as spec;

use plain_data::SharedText;
use std::alloc::{AllocError, Global};
use std::marker::Model;

/// What is left of a text, from one of its characters on; contracts see it as that text. It shares the whole text and
/// copies no bytes.
#[derive(Drop)]
pub struct TextRest {
    text: SharedText,
    /// A byte offset.
    place: usize,
}

impl Model for TextRest {
    ghost use Rattle.std.specs.Prelude.{ℕ, List, drop};
    ghost use Rattle.std.specs.Str.{IsCharBoundary};
    ghost use Rattle.std.specs.Coded.{coded_ℕ, coded_list};

    ghost Value = { List ℕ };

    ghost coded = { coded_list coded_ℕ };

    ghost view = { λ r. drop r.place r.text };

    ghost invariant = { λ r. IsCharBoundary r.text r.place };
}

/// A text may be cut at its start.
fn begins(text: &str)
    ensures { IsCharBoundary text.now 0 }
{}

impl TextRest {
    /// The whole of a text.
    pub fn new(text: SharedText) -> TextRest
        ensures { result ≡ text }
    {
        begins(text.as_str());
        TextRest { text, place: 0 }
    }

    /// What is left.
    fn as_str(&self) -> &str
        ensures { result.now ≡ self.now }
    {
        &self.text.as_str()[self.place..]
    }

    /// Its first character, and what is left after it; `None` if nothing is left. Takes no walk over the text.
    pub fn cut_first(self, alloc: Global) -> Result<Option<(SharedText, TextRest)>, AllocError>
        ensures { IfOk result (λ cut. cut ≡ spec.first_cut self) }
    {
        let rest = self.as_str();
        let Some(first) = rest.chars().next() else {
            return Ok(None);
        };
        let width = first.len_utf8();
        let character = SharedText::from_str(alloc, &rest[..width])?;
        let left = rest.len() - width;
        let place = self.text.len() - left;
        let TextRest { text, place: _ } = self;
        Ok(Some((character, TextRest { text, place })))
    }
}
