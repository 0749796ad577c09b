//! Greatest flows over a list of arcs, with a cut of the same capacity, and a check of a flow.
//!
//! A network is built arc by arc; each arc has two directed ones, 2i along it and 2i + 1 back, and each node a list of those
//! that leave it. To `max_flow` and `max_flow_with_cut` a directed arc has the node that it enters, how much more it may carry
//! and the next one in the list of its node, which then has those that may carry more; what two partners may carry sums to the
//! capacity. Flow is sent up levels of the nodes: first by levels from a few walks over the arcs, then, round by round, by
//! those of a search from the source, one going along the search's path first. It ends when the sink has no level: the nodes
//! that have one are a cut whose capacity is the flow's value, so no flow is greater. That rests on the last search alone, and
//! each step before it keeps the flow legal. Levels promise no more than how many they are: the flow is greatest whatever they
//! are. `check_flow` says whether a flow is legal, and else its first fault, by one walk along each node's list.
//!
//! What the contracts leave open: when memory runs out, so that a body which always answers so meets them, and the calls run
//! in `plan_bench`; which of the greatest flows is found; the words in which a fault is shown; and inside, how much a sender
//! sends up the levels, which decides only how soon the greatest flow is found.
#![tactic(auto)]

mod check;
mod flow;
mod levels;
mod links;
mod lists;
mod network;
mod pairs;
mod search;
mod send;
mod solve;

pub use check::{FlowFault, check_flow};
pub use flow::{ArcFlow, Cut};
pub use network::Network;
pub use solve::{max_flow, max_flow_with_cut};
