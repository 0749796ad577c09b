use graph_model::{Graph, Plan};
use part_bytes::PartValue;
use plain_data::Items;

/// A session as a checkpoint holds it.
#[derive(Drop)]
pub struct Checkpoint {
    pub count: u32,
    pub meter: u32,
    pub graph: Graph,
    pub plan: Plan,
    /// The parts of the versions that the plan copies, in their order.
    pub parts: Items<PartValue>,
}
