ghost use Rattle.std.specs.Prelude.{◌≡◌, ◌≢◌, IfOk};
ghost use Rattle.checkpoint_reader.specs.declared.fault.CheckpointFault.TheVariants.{OutOfMemory};
ghost use Rattle.checkpoint_commands.specs.Said as spec;

use checkpoint_reader::CheckpointFault;
use graph_model::GraphFault;
use plain_data::Text;
use plan_model::Item;
use std::alloc::{AllocError, Global};

fn at_byte(alloc: Global, at: usize) -> Result<Text, AllocError>
    ensures { IfOk result (λ text. text ≡ spec.at_byte at) }
{
    Ok(Text::from_string(format!(in alloc; "bad checkpoint at {at}\n")?))
}

fn in_version(alloc: Global, v: u32) -> Result<Text, AllocError>
    ensures { IfOk result (λ text. text ≡ spec.in_version v) }
{
    Ok(Text::from_string(format!(in alloc; "bad checkpoint in version {v}\n")?))
}

fn in_cell(alloc: Global, c: u32) -> Result<Text, AllocError>
    ensures { IfOk result (λ text. text ≡ spec.in_cell c) }
{
    Ok(Text::from_string(format!(in alloc; "bad checkpoint in cell {c}\n")?))
}

fn graph_line(alloc: Global, fault: GraphFault) -> Result<Text, AllocError>
    ensures { IfOk result (λ text. text ≡ spec.graph_line fault) }
{
    match fault {
        GraphFault::BadWriter(v) => in_version(alloc, v),
        GraphFault::BadRead(c) => in_cell(alloc, c),
        GraphFault::TwoActive(v) => in_version(alloc, v),
        GraphFault::BadNames(v) => in_version(alloc, v),
    }
}

/// The line of a fault that isn't want of memory.
pub fn fault_line(alloc: Global, fault: CheckpointFault) -> Result<Text, AllocError>
    requires { fault ≢ OutOfMemory }
    ensures { IfOk result (λ text. text ≡ spec.fault_line fault) }
{
    match fault {
        CheckpointFault::OutOfMemory => unreachable!(),
        CheckpointFault::BadMagic => at_byte(alloc, 0),
        CheckpointFault::BadVersion(_) => at_byte(alloc, 4),
        CheckpointFault::Cut(at) => at_byte(alloc, at),
        CheckpointFault::Part { at, fault: _ } => at_byte(alloc, at),
        CheckpointFault::Graph(fault) => graph_line(alloc, fault),
        CheckpointFault::PlanDisagrees(Item::Version(v)) => in_version(alloc, v),
        CheckpointFault::PlanDisagrees(Item::Cell(c)) => in_cell(alloc, c),
        CheckpointFault::Trailing(at) => at_byte(alloc, at),
        CheckpointFault::BadField(at) => at_byte(alloc, at),
    }
}

pub(crate) fn too_much_line(alloc: Global, sum: u128) -> Result<Text, AllocError>
    ensures { IfOk result (λ text. text ≡ spec.too_much_line sum) }
{
    Ok(Text::from_string(format!(in alloc; "too much {sum}\n")?))
}
