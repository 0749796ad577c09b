use crate::forms::Texts;
use graph_model::{CellRecord, Version};
use part_bytes::PartValue;
use plain_data::{Items, SharedText};

/// The texts that were read so far of a table.
#[derive(Drop)]
pub struct Listed {
    pub texts: Items<SharedText>,
    /// The place of each.
    pub places: Items<usize>,
}

/// How texts are read, and the places of the texts of the table.
#[derive(Drop)]
pub struct Table {
    pub texts: Texts,
    pub places: Items<usize>,
}

/// The cells that were read.
#[derive(Drop)]
pub struct Cells {
    pub records: Items<CellRecord>,
    /// The numbers of those that the plan runs again.
    pub rerun: Items<u32>,
    /// How many texts of the table they refer to.
    pub known: usize,
}

/// The versions that were read.
#[derive(Drop)]
pub struct Versions {
    pub records: Items<Version>,
    /// The numbers of those that the plan copies.
    pub copied: Items<u32>,
    /// The parts of these.
    pub parts: Items<PartValue>,
    /// The first of these that isn't as its part, or that can't be copied.
    pub unlike: Option<u32>,
    /// How many texts of the table they and the cells refer to.
    pub known: usize,
}

/// What was read of a checkpoint.
#[derive(Drop)]
pub struct Fields {
    pub count: u32,
    pub meter: u32,
    pub cells: Cells,
    pub versions: Versions,
}
