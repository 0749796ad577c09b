//! The plan network of a history graph, and a least-cost plan by a least cut of it.
//!
//! The network has the source, the active versions, the cells and the sink. A version that a cut separates from the source
//! is copied, and a cell that stays with the source runs again: what the cut severs is what that costs, so a least cut is a
//! plan of least cost. No least cut severs an arc whose capacity is 2^63, as from a version to its writer: if no version is
//! stuck, some plan costs less.
//!
//! What the contracts leave open: when memory runs out, so that a body which always answers so meets them, and `network_of`
//! and `plan` run in `plan_bench`; which plan is given if several cost least, and which greatest flow shows it; and the words in
//! which a fault is shown.
#![tactic(auto)]

mod active;
mod capacity;
mod network;
mod planner;
mod shown;
mod stuck;
mod writers;

pub use network::network_of;
pub use planner::{PlanFault, plan};
