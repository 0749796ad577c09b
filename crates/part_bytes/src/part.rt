use plain_data::{Items, Text};
use py_heap::Object;
use py_value::Value;

/// A part by itself. A reference is the number of an object here, and not an address.
#[derive(Drop)]
pub struct PartValue {
    /// The names, ascending by their bytes.
    pub names: Items<Text>,
    /// The value of each name. A name without a value is the only name.
    pub values: Items<Option<Value>>,
    /// The objects, in the order in which the names reach them first.
    pub objects: Items<Object>,
}
