use crate::table::TextTable;

/// How texts are written.
#[derive(Clone, Copy)]
pub enum Spelling<'t, 'a> {
    /// Each in its place, after its length.
    InPlace,
    /// Each by its number in a table.
    Numbered(&'t TextTable<'a>),
}
