use crate::slots::Slots;
use plain_data::Items;
use py_value::{Key, Value};

/// What a local of a function is.
#[derive(Debug, Drop)]
pub enum FrameSlot {
    /// Not bound by now.
    Empty,
    Held(Value),
}

/// The locals of a call.
#[derive(Drop)]
pub struct Frame {
    pub slots: Slots,
}

/// Where a statement leads.
#[derive(Debug, Drop)]
pub enum Flow {
    /// To the next statement.
    Next,
    /// Out of the loop.
    Break,
    /// To the loop's next turn.
    Continue,
    /// Out of the function, with this value.
    Return(Value),
}

/// A change of an object.
#[derive(Drop)]
pub enum Change {
    /// A list gets this value at its end.
    Push(Value),
    /// A list gets these values after its end.
    Extend(Items<Value>),
    /// A list gets this value at an index from 0 to its length; the items from there on move up.
    Insert { at: u32, item: Value },
    /// A list has this value at an index.
    Set { at: u32, item: Value },
    /// A list loses the item at an index; those after it move down.
    Remove { at: u32 },
    /// A dict has this value under a key. A key that is there keeps its position and its spelling.
    Put { key: Key, value: Value },
    /// A dict loses the pair with a key.
    Drop(Key),
    /// A list loses all its items, or a dict all its pairs.
    Clear,
    /// A handle is used once more.
    Use,
}
