//! Networks and flows as definitions, and the law that a cut bounds every flow.
//!
//! Node 0 of a network is the source and node 1 the sink. A flow gives each arc a number; it is legal if no arc
//! carries more than its capacity and each inner node gives what it takes. A cut is a set of nodes with the source and
//! without the sink. (Any textbook on flows.)
#![tactic(auto)]

/// An arc of a network: the node that it leaves, the node that it enters, and the most that it carries.
#[derive(Clone, Copy, Debug, PartialEq, Eq)]
pub struct Arc {
    pub from: u32,
    pub to: u32,
    pub capacity: u64,
}

pub mod laws;
