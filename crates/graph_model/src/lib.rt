//! The history graph of a session, and plans that move it: the records, and what they mean.
//!
//! Cells and versions are numbered from 1. A version is what one cell left in one part of the state: the names of the
//! part. It is active until a later cell writes one of its names. A plan copies some active versions and runs some
//! cells again. (Li et al., ElasticNotebook, PVLDB 17(2).)
//!
//! What the contracts leave open: when memory runs out, so that a body which always answers so meets them, and `check` and
//! `need` run in `plan_bench`; and the words in which a fault is shown.
#![tactic(auto)]

mod check;
mod graph;
mod index;
mod lookup;
mod need;
mod order;
mod plan;

pub use graph::{CellRecord, Graph, GraphFault, Version};
pub use order::numbers_ascend;
pub use plan::{Certified, FlowArc, Node, Plan, Tally, Weights};
