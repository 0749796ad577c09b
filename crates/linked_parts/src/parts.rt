ghost use Rattle.std.specs.Prelude.{ℕ, ◌≡◌, ◌<◌, ◌↔◌, List, length, IsTrue, Contains, IfSome, None};
ghost use Rattle.linked_parts.specs.Parts.{HasNameAt};

use plain_data::{Items, Text};

/// Names that are linked, and what they reach.
#[derive(Debug, Drop)]
pub struct Part {
    /// The names, ascending.
    pub names: Items<Text>,
    /// The addresses of the objects that they reach, ascending.
    pub objects: Items<u32>,
    /// Whether one of the objects is a handle.
    pub handle: bool,
}

/// The parts of a state, ascending by their least names.
#[derive(Debug, Drop)]
pub struct Parts {
    pub list: Items<Part>,
}

impl Parts {
    /// The number of the part that has this name, counted from 0. Takes no memory. Goes over the names of all parts, one after
    /// the other.
    pub fn find(&self, name: &Text) -> Option<usize>
        ensures found { IfSome result (λ n. HasNameAt self.now n name.now) }
        ensures first { IfSome result (λ n. (m : ℕ) → m < n → ¬ HasNameAt self.now m name.now) }
        ensures none { (result ≡ None) ↔ ((n : ℕ) → ¬ HasNameAt self.now n name.now) }
    {
        for index in 0..self.list.len() {
            if has_name(self.names_at(index), name) {
                return Some(index);
            }
        }
        None
    }

    /// The names of the part with that number.
    fn names_at(&self, index: usize) -> &[Text]
        requires { index < length self.now.list }
        ensures { (x : List ℕ) → HasNameAt self.now index x ↔ Contains result.now x }
    {
        let part = &self.list.as_slice()[index];
        part.names.as_slice()
    }
}

/// Whether the texts are equal.
fn is_same(x: &Text, y: &Text) -> bool
    ensures { IsTrue result ↔ (x.now ≡ y.now) }
{
    x == y
}

/// Whether the name is among the names.
fn has_name(names: &[Text], name: &Text) -> bool
    ensures { IsTrue result ↔ Contains names.now name.now }
{
    for other in names {
        if is_same(other, name) {
            return true;
        }
    }
    false
}
