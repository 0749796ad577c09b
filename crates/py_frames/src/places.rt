//! For each depth of a part, the first place that deep.
ghost use Rattle.std.specs.Prelude.{◌≡◌, ◌≤◌, [], ◌∷◌, length, reverse, drop, OnOk};
ghost use Rattle.py_frames.specs.Forced.{reach, greatest};
ghost use Rattle.py_frames.specs.Values.{beside};

use std::alloc::{AllocError, Global};
use std::marker::Model;

/// Places, that of the least depth first. They are kept in the other order, so that one more depth around them is a push.
#[derive(Drop)]
pub struct Places {
    deepest_first: Vec<usize>,
}

impl Model for Places {
    ghost use Rattle.std.specs.Prelude.{ℕ, List, reverse};
    ghost use Rattle.std.specs.Coded.{coded_list, coded_ℕ};

    ghost Value = { List ℕ };

    ghost coded = { coded_list coded_ℕ };

    ghost view = { λ it. reverse it.deepest_first.items };
}

/// Takes the shorter into the longer: at each depth the earlier place. It looks at as many places as the shorter has.
fn raise(long: &mut [usize], short: &[usize])
    requires { length short.now ≤ length long.old }
    ensures longer { reverse long.new ≡ beside (reverse long.old) (reverse short.now) }
    ensures shorter { reverse long.new ≡ beside (reverse short.now) (reverse long.old) }
{
    let gap = long.len() - short.len();
    for index in 0..short.len() {
        if long[gap + index] < short[index] {
            long[gap + index] = short[index];
        }
    }
}

/// The greatest of them, and 0 of none.
fn greatest(places: &[usize]) -> usize
    ensures { result ≡ greatest places.now }
{
    let mut most = 0;
    for place in places {
        most = most.max(*place);
    }
    most
}

impl Places {
    /// No depths. Takes no memory.
    pub fn none(alloc: Global) -> Places
        ensures { result ≡ [] }
    {
        Places {
            deepest_first: Vec::new(alloc),
        }
    }

    /// How many depths there are.
    pub fn len(&self) -> usize
        ensures { result ≡ length self.now }
    {
        self.deepest_first.len()
    }

    /// One more depth, around these.
    pub fn put(&mut self, from: usize) -> Result<(), AllocError>
        ensures ok { OnOk result (self.new ≡ from ∷ self.old) }
    {
        self.deepest_first.push(from)?;
        Ok(())
    }

    /// The first place that deep or deeper, and 0 if there is none.
    #[tactic(auto, using(crate::proofs::Reached::reach_reversed))]
    pub fn reach(&self, depth: usize) -> usize
        ensures { result ≡ reach self.now depth }
    {
        let upto = self.deepest_first.len().saturating_sub(depth);
        greatest(&self.deepest_first[..upto])
    }

    /// With those of another part. Takes no memory.
    pub fn beside(self, right: Places) -> Places
        ensures { result ≡ beside self right }
    {
        let Places {
            deepest_first: mut one,
        } = self;
        let Places {
            deepest_first: mut other,
        } = right;
        if other.len() <= one.len() {
            raise(&mut one, &other);
            Places { deepest_first: one }
        } else {
            raise(&mut other, &one);
            Places {
                deepest_first: other,
            }
        }
    }

    /// Without the least depth.
    pub fn below(self) -> Places
        ensures { result ≡ drop 1 self }
    {
        let Places { mut deepest_first } = self;
        deepest_first.pop();
        Places { deepest_first }
    }
}
