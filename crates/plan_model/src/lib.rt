//! Plans judged: weights, feasibility, cost, and the laws that tie plans to cuts of the plan network.
//!
//! No call takes memory, and each answer is the one that its clauses name. They leave open the words in which a fault is shown.
#![tactic(auto)]

mod certainty;
mod costs;
mod feasibility;
pub mod laws;
mod names;
mod weights;

pub use certainty::{PlanCheck, check_plan};
pub use costs::cost;
pub use feasibility::{Item, feasible};
pub use names::is_plan_of;
pub use weights::{Weight, WeightFault, check_weights, copy_weight, rerun_weight};
