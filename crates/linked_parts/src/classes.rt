ghost use Rattle.std.specs.Prelude.{ℕ, ◌≡◌, ◌<◌, ◌≤◌, length, slice_index, slice_set, IfOk};
ghost use Rattle.linked_parts.specs.Labels.{IsForest, Joined, IsShortened, Joins};

use plain_data::Items;
use std::alloc::{AllocError, Global};

/// Numbers in classes. Each number has a parent in its class, which is no greater. The root of a class, its least number, is
/// its own parent.
#[derive(Drop)]
pub(crate) struct Classes {
    pub(crate) parents: Items<usize>,
}

impl Classes {
    /// The numbers below that count, each by itself.
    pub(crate) fn new(alloc: Global, count: usize) -> Result<Classes, AllocError>
        ensures size { IfOk result (λ classes. length classes.parents ≡ count) }
        ensures alone { IfOk result (λ classes. (k : ℕ) → k < count → slice_index classes.parents k ≡ k) }
    {
        let mut parents = Items::new(alloc);
        for number in 0..count {
            parents.push(number)?;
        }
        Ok(Classes { parents })
    }

    /// Puts a number under the parent of its parent, and gives that.
    fn shorten(&mut self, number: usize) -> usize
        requires forest { IsForest self.old.parents }
        requires within { number < length self.old.parents }
        ensures value { result ≡ slice_index self.old.parents (slice_index self.old.parents number) }
        ensures parents { self.new.parents ≡ slice_set self.old.parents number result }
    {
        let parent = self.parents.as_slice()[number];
        let next = self.parents.as_slice()[parent];
        self.parents.set(number, next);
        next
    }

    /// The root of a number's class. The way to it becomes half as long.
    fn root(&mut self, number: usize) -> usize
        requires forest { IsForest self.old.parents }
        requires within { number < length self.old.parents }
        ensures classes { IsShortened self.old.parents self.new.parents }
        ensures root { slice_index self.new.parents result ≡ result }
        ensures joined { Joined self.old.parents number result }
    {
        let mut at = number;
        while self.parents.as_slice()[at] < at {
            at = self.shorten(at);
        }
        at
    }

    /// Makes the classes of two numbers one.
    pub(crate) fn join(&mut self, a: usize, b: usize)
        requires forest { IsForest self.old.parents }
        requires a { a < length self.old.parents }
        requires b { b < length self.old.parents }
        ensures { Joins self.old.parents a b self.new.parents }
    {
        let first = self.root(a);
        let second = self.root(b);
        if first < second {
            self.parents.set(second, first);
            return;
        }
        self.parents.set(first, second);
    }

    /// Puts each number under the root of its class.
    pub(crate) fn flatten(&mut self)
        requires { IsForest self.old.parents }
        ensures classes { IsShortened self.old.parents self.new.parents }
        ensures flat { (k : ℕ) → k < length self.old.parents → slice_index self.new.parents (slice_index self.new.parents k) ≡ slice_index self.new.parents k }
    {
        for number in 0..self.parents.len() {
            self.shorten(number);
        }
    }
}
