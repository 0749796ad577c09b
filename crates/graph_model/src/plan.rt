use plain_data::Items;

/// What copying and running again cost. Each number is at most 1,000,000 if it is admitted.
#[derive(Clone, Copy, Debug, PartialEq, Eq)]
pub struct Weights {
    pub copy_base: u64,
    pub per_byte: u64,
    pub run_base: u64,
    pub per_step: u64,
}

/// Which active versions are copied, and which cells run again; both ascending.
#[derive(Debug, Drop)]
pub struct Plan {
    pub copied: Items<u32>,
    pub rerun: Items<u32>,
}

/// A node of the plan network.
#[derive(Clone, Copy, Debug, PartialEq, Eq)]
pub enum Node {
    Source,
    Version(u32),
    Cell(u32),
    Sink,
}

/// What a flow carries from one node to another.
#[derive(Clone, Copy, Debug, PartialEq, Eq)]
pub struct FlowArc {
    pub from: Node,
    pub to: Node,
    pub flow: u64,
}

/// A plan with its cost, and the arcs of non-zero flow that show that none costs less.
#[derive(Debug, Drop)]
pub struct Certified {
    pub plan: Plan,
    pub cost: u64,
    pub arcs: Items<FlowArc>,
}

/// The six numbers of a session that stay below 2^32.
#[derive(Clone, Copy, Debug, PartialEq, Eq)]
pub enum Tally {
    Count,
    Cells,
    Versions,
    Names,
    Texts,
    Bytes,
}
