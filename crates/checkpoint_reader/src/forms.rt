use plain_data::{Items, SharedText};

/// How the texts of a part are read.
#[derive(Drop)]
pub enum Texts {
    /// In version 1: each in its place, after its length.
    InPlace,
    /// In version 2: each by its number in this table.
    Numbered(Items<SharedText>),
}
