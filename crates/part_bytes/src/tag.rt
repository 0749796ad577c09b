//! The byte that says what is next in the text of a part.

/// `None`.
pub const NOTHING: u8 = 0;
/// `False`.
pub const FALSE: u8 = 1;
/// `True`.
pub const TRUE: u8 = 2;
/// A number, in sixteen bytes.
pub const NUMBER: u8 = 3;
/// A text, after its length.
pub const TEXT: u8 = 4;
/// A reference: the number of an object.
pub const REFERENCE: u8 = 5;
/// A built-in function, by its byte.
pub const BUILTIN: u8 = 6;
/// A name that has no value.
pub const ABSENT: u8 = 7;
/// A list: how many items, and each.
pub const LIST: u8 = 16;
/// A dict: how many pairs, and each.
pub const DICT: u8 = 17;
/// A function, as its source.
pub const FUNCTION: u8 = 18;
/// A tuple: how many items, and each.
pub const TUPLE: u8 = 19;
