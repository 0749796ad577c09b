ghost use Rattle.std.specs.Prelude.{◌≡◌, IfOk};
ghost use Rattle.plan_model.specs.Weighing.{AreSmall};
ghost use Rattle.graph_model.specs.Faults.{IsGraph};
ghost use Rattle.graph_model.specs.Plans.{IsFeasible};
ghost use Rattle.checkpoint_commands.specs.Said.{IsPlanned, IsSaid};

use crate::fault_lines::{fault_line, too_much_line};
use crate::plan_lines;
use checkpoint_reader::{Checkpoint, CheckpointFault, read_checkpoint};
use command_words::status;
use cut_network::{PlanFault, plan};
use graph_model::Weights;
use plain_data::Text;
use plan_model::laws::a_stuck_pair_forbids_every_plan;
use plan_model::{WeightFault, check_weights};
use std::alloc::{AllocError, Global};

/// What a command prints, and its status.
#[derive(Drop)]
pub struct Said {
    pub status: u8,
    pub text: Text,
}

/// What is said of a checkpoint that was read. Its plan is feasible, so no pair is stuck.
fn planned_for(alloc: Global, read: &Checkpoint, weights: &Weights) -> Result<Said, AllocError>
    requires small { AreSmall weights.now }
    requires graph { IsGraph read.now.graph }
    requires feasible { IsFeasible read.now.graph read.now.plan }
    ensures { IfOk result (λ said. IsPlanned read.now.graph weights.now said.status said.text) }
{
    a_stuck_pair_forbids_every_plan();
    match check_weights(&read.graph, weights) {
        Ok(()) => {}
        Err(WeightFault::TooMuch(sum)) => {
            let text = too_much_line(alloc, sum)?;
            return Ok(Said {
                status: status::NO_PLAN,
                text,
            });
        }
        Err(WeightFault::Over(_)) => unreachable!(),
    }
    match plan(alloc, &read.graph, weights) {
        Ok(best) => {
            let text = plan_lines(alloc, &read.graph, &best)?;
            Ok(Said {
                status: status::DONE,
                text,
            })
        }
        Err(PlanFault::OutOfMemory) => Err(AllocError),
        Err(PlanFault::Stuck { .. }) => unreachable!(),
    }
}

/// Reads the bytes of a checkpoint, and says the lines of a certified plan for its graph: no plan costs less. The status is 0; or 6, if
/// the weights sum to 2^63 or more; or 7, if the bytes are no checkpoint.
pub fn planned(alloc: Global, bytes: &[u8], weights: &Weights) -> Result<Said, AllocError>
    requires { AreSmall weights.now }
    ensures { IfOk result (λ said. IsSaid bytes.now weights.now said.status said.text) }
{
    match read_checkpoint(alloc, bytes) {
        Ok(read) => planned_for(alloc, &read, weights),
        Err(CheckpointFault::OutOfMemory) => Err(AllocError),
        Err(fault) => {
            let text = fault_line(alloc, fault)?;
            Ok(Said {
                status: status::NO_CHECKPOINT,
                text,
            })
        }
    }
}
