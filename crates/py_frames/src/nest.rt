//! What is open, one in another.
ghost use Rattle.std.specs.Prelude.{◌≡◌, List, [], ◌∷◌, length, MatchOption, OnOk};
ghost use Rattle.std.specs.Option.{option_copied};
ghost use Rattle.py_frames.specs.Ends.{outermost};

use std::alloc::{AllocError, Global};
use std::marker::Model;

/// What is open, the innermost first. The outermost can be looked at too.
#[derive(Drop)]
pub struct Nest<T> {
    outermost_first: Vec<T>,
}

impl<T> Model for Nest<T> {
    ghost use Rattle.std.specs.Prelude.{List, reverse};
    ghost use Rattle.std.specs.Coded.{coded_list};

    ghost Value = { List T };

    ghost coded = { coded_list T.code };

    ghost view = { λ it. reverse it.outermost_first.items };
}

impl<T> Nest<T> {
    /// Nothing is open. Takes no memory.
    pub fn none(alloc: Global) -> Nest<T>
        ensures { result ≡ [] }
    {
        Nest {
            outermost_first: Vec::new(alloc),
        }
    }

    /// Takes the innermost out.
    pub fn pop(&mut self) -> Option<T>
        ensures { MatchOption result ((self.old ≡ []) × (self.new ≡ [])) (λ top. self.old ≡ top ∷ self.new) }
    {
        self.outermost_first.pop()
    }

    /// The innermost.
    pub fn top(&self) -> Option<&T>
        ensures { MatchOption result (self.now ≡ []) (λ top. (rest : List T) × (self.now ≡ top.now ∷ rest)) }
    {
        self.outermost_first.last()
    }

    /// How many there are.
    pub fn len(&self) -> usize
        ensures { result ≡ length self.now }
    {
        self.outermost_first.len()
    }

    /// The outermost.
    #[tactic(auto, using(crate::proofs::Nested::first_outermost))]
    pub fn outermost(&self) -> Option<&T>
        ensures { option_copied result ≡ outermost self.now }
    {
        self.outermost_first.first()
    }
}

impl<T: Drop> Nest<T> {
    /// One more, inside these.
    pub fn push(&mut self, item: T) -> Result<(), AllocError>
        ensures { OnOk result (self.new ≡ item ∷ self.old) }
    {
        self.outermost_first.push(item)?;
        Ok(())
    }
}
