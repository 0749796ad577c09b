ghost use Rattle.std.specs.Prelude.{◌≡◌, []};
ghost use Rattle.py_heap.specs.Sequences as spec;

use crate::dict::Dict;
use crate::function::Function;
use plain_data::{Items, SharedText};
use py_value::Value;
use std::alloc::Global;
use std::marker::Model;

/// What a value may refer to.
#[derive(Drop)]
pub enum Object {
    List(Items<Value>),
    /// A list of values that never changes.
    Tuple(Items<Value>),
    Dict(Dict),
    Function(Function),
    /// A thing on the session's host that doesn't move, by its name, with how many times it was used.
    Handle { name: SharedText, uses: u64 },
}

/// Which kind of sequence of values an object is.
#[derive(Clone, Copy, Debug, PartialEq, Eq)]
pub enum SequenceKind {
    List,
    Tuple,
}

impl Object {
    /// The list or the tuple of these values.
    pub fn sequence(kind: SequenceKind, items: Items<Value>) -> Object
        ensures { result ≡ spec.sequence kind items }
    {
        match kind {
            SequenceKind::List => Object::List(items),
            SequenceKind::Tuple => Object::Tuple(items),
        }
    }
}

/// The objects by their addresses, which contracts see as the list of them.
#[derive(Drop)]
pub struct Heap {
    pub(crate) objects: Vec<Object>,
}

impl Model for Heap {
    ghost use Rattle.std.specs.Prelude.{List};
    ghost use Rattle.std.specs.Coded.{coded_list};
    ghost use Rattle.py_heap.specs.declared.heap.Object.{Object};
    ghost use Rattle.py_heap.specs.contracts.heap.Object as object;

    ghost Value = { List Object };

    ghost coded = { coded_list object.the_row.coded };

    ghost view = { λ heap. heap.objects.items };
}

impl Heap {
    /// No objects. Takes no memory.
    pub fn new(alloc: Global) -> Heap
        ensures { result ≡ [] }
    {
        Heap {
            objects: Vec::new(alloc),
        }
    }
}
