ghost use Rattle.std.specs.Prelude.{◌≡◌, ◌<◌, ◌≤◌, ◌↔◌, [], length, slice_get, Some, IsTrue, IfOk, OnOk, OnErr};
ghost use Rattle.part_bytes.specs.Tables.{number_of, with_text};

use indexmap::IndexSet;
use std::alloc::{AllocError, Global};
use std::marker::Model;

/// Texts, each once, in the order in which they came first. Contracts see the list of them.
///
/// It has no text of its own, only where each is, so the texts outlive it.
#[derive(Drop)]
pub struct TextTable<'a> {
    texts: IndexSet<&'a str>,
}

impl<'a> Model for TextTable<'a> {
    ghost use Rattle.std.specs.Prelude.{ℕ, ◌<◌, ◌^◌, List, map, length};
    ghost use Rattle.std.specs.Coded.{coded_ℕ, coded_list};

    ghost Value = { List (List ℕ) };

    ghost coded = { coded_list (coded_list coded_ℕ) };

    ghost view = { λ t. map (λ text. text.now) t.texts.keys };

    ghost invariant = { λ t. length t.texts.keys < 2 ^ 32 };
}

impl<'a> TextTable<'a> {
    /// No texts. Takes no memory.
    pub fn new(alloc: Global) -> TextTable<'a>
        ensures { result ≡ [] }
    {
        TextTable {
            texts: IndexSet::new(alloc),
        }
    }

    /// How many texts there are.
    pub fn len(&self) -> u32
        ensures { result ≡ length self.now }
    {
        self.texts.len() as u32
    }

    /// Whether there are none.
    pub fn is_empty(&self) -> bool
        ensures { IsTrue result ↔ (self.now ≡ []) }
    {
        self.texts.is_empty()
    }

    /// The text with that number.
    pub fn text(&self, n: u32) -> &str
        requires { n < length self.now }
        ensures { slice_get self.now n ≡ Some result.now }
    {
        match self.texts.get_index(n as usize) {
            Some(text) => *text,
            None => unreachable!(),
        }
    }

    /// How many texts come before a text: its number. All do if it isn't there.
    pub fn place(&self, text: &str) -> u32
        ensures value { result ≡ number_of self.now text.now }
        ensures within { result ≤ length self.now }
    {
        match self.texts.get_index_of(text) {
            Some(place) => place as u32,
            None => self.len(),
        }
    }

    /// The number of a text, which is put at the end if it is new. If there were 2^32 texts then, it is want of memory. After an error nothing
    /// is changed.
    pub fn number(&mut self, text: &'a str) -> Result<u32, AllocError>
        ensures number { IfOk result (λ n. n ≡ number_of self.old text.now) }
        ensures ok { OnOk result (self.new ≡ with_text self.old text.now) }
        ensures err { OnErr result (self.new ≡ self.old) }
    {
        let place = self.place(text);
        if place < self.len() {
            return Ok(place);
        }
        if place == u32::MAX {
            return Err(AllocError);
        }
        self.texts.insert(text)?;
        Ok(place)
    }
}
