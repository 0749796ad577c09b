ghost use Rattle.std.specs.Prelude.{◌≡◌, ◌<◌, ◌≤◌, ◌+◌, ◌*◌, ◌^◌, length, sum_by, MatchResult, MatchOption};
ghost use Rattle.graph_model.specs.Plans.{copy_weight, rerun_weight, finite_copy, finite_rerun, total_weight, AreAdmitted};
ghost use Rattle.plan_model.specs.Weighing.{IsFirstOver, AreSmall, IsWeightFault};

use graph_model::{CellRecord, Graph, Version, Weights};
use std::error::Error;
use std::fmt;

/// The most that each weight may be.
const MOST: u64 = 1_000_000;

/// One of the four weights.
#[derive(Clone, Copy, Debug, PartialEq, Eq)]
pub enum Weight {
    CopyBase,
    PerByte,
    RunBase,
    PerStep,
}

/// Why weights aren't admitted.
#[derive(Clone, Copy, Debug, PartialEq, Eq)]
pub enum WeightFault {
    /// The first weight that exceeds 1,000,000.
    Over(Weight),
    /// The sum of the finite weights, which reaches 2^63.
    TooMuch(u128),
}

impl fmt::Display for Weight {
    fn fmt<W: fmt::Write>(&self, f: &mut fmt::Formatter<W>) -> fmt::Result {
        match self {
            Weight::CopyBase => write!(f, "copy_base"),
            Weight::PerByte => write!(f, "per_byte"),
            Weight::RunBase => write!(f, "run_base"),
            Weight::PerStep => write!(f, "per_step"),
        }
    }
}

impl fmt::Display for WeightFault {
    fn fmt<W: fmt::Write>(&self, f: &mut fmt::Formatter<W>) -> fmt::Result {
        match *self {
            WeightFault::Over(weight) => write!(f, "{weight} is above 1000000"),
            WeightFault::TooMuch(sum) => write!(f, "the weights sum to {sum}, past 63 bits"),
        }
    }
}

impl Error for WeightFault {}

/// What copying the version costs.
pub fn copy_weight(weights: &Weights, version: &Version) -> u64
    requires base { weights.now.copy_base ≤ 1000000 }
    requires per { weights.now.per_byte ≤ 1000000 }
    ensures value { result ≡ copy_weight weights.now version.now }
    ensures bound { result < 2 ^ 56 }
{
    if version.absent {
        0
    } else {
        weights.copy_base + weights.per_byte * u64::from(version.size)
    }
}

/// What running the cell again costs.
pub fn rerun_weight(weights: &Weights, cell: &CellRecord) -> u64
    requires base { weights.now.run_base ≤ 1000000 }
    requires per { weights.now.per_step ≤ 1000000 }
    ensures value { result ≡ rerun_weight weights.now cell.now }
    ensures bound { result < 2 ^ 56 }
{
    weights.run_base + weights.per_step * u64::from(cell.steps)
}

fn finite_copy(weights: &Weights, version: &Version) -> u64
    requires { AreSmall weights.now }
    ensures value { result ≡ finite_copy weights.now version.now }
    ensures bound { result < 2 ^ 56 }
{
    if version.replaced == 0 && !version.handle {
        copy_weight(weights, version)
    } else {
        0
    }
}

fn finite_rerun(weights: &Weights, cell: &CellRecord) -> u64
    requires { AreSmall weights.now }
    ensures value { result ≡ finite_rerun weights.now cell.now }
    ensures bound { result < 2 ^ 56 }
{
    if cell.drew {
        0
    } else {
        rerun_weight(weights, cell)
    }
}

fn all_copies(weights: &Weights, versions: &[Version]) -> u128
    requires { AreSmall weights.now }
    ensures value { result ≡ sum_by (finite_copy weights.now) versions.now }
    ensures bound { result < 2 ^ 120 }
{
    let mut total = 0u128;
    for version in versions {
        total += u128::from(finite_copy(weights, version));
    }
    total
}

fn all_reruns(weights: &Weights, cells: &[CellRecord]) -> u128
    requires { AreSmall weights.now }
    ensures value { result ≡ sum_by (finite_rerun weights.now) cells.now }
    ensures bound { result < 2 ^ 120 }
{
    let mut total = 0u128;
    for cell in cells {
        total += u128::from(finite_rerun(weights, cell));
    }
    total
}

/// The sum of the weights of the active versions without a handle and of the cells that didn't draw.
fn total_weight(graph: &Graph, weights: &Weights) -> u128
    requires { AreSmall weights.now }
    ensures { result ≡ total_weight graph.now weights.now }
{
    all_copies(weights, graph.versions.as_slice()) + all_reruns(weights, graph.cells.as_slice())
}

/// The first of the four weights that is too great.
fn first_over(weights: &Weights) -> Option<Weight>
    ensures { MatchOption result (AreSmall weights.now) (IsFirstOver weights.now) }
{
    if weights.copy_base > MOST {
        Some(Weight::CopyBase)
    } else if weights.per_byte > MOST {
        Some(Weight::PerByte)
    } else if weights.run_base > MOST {
        Some(Weight::RunBase)
    } else if weights.per_step > MOST {
        Some(Weight::PerStep)
    } else {
        None
    }
}

/// Whether the weights are admitted: none of the four exceeds 1,000,000, and the weights of the active versions without
/// a handle and of the cells that didn't draw sum below 2^63. Else the first that is too great, or else that sum. Takes
/// no memory.
pub fn check_weights(graph: &Graph, weights: &Weights) -> Result<(), WeightFault>
    ensures { MatchResult result (λ _. AreAdmitted graph.now weights.now) (IsWeightFault graph.now weights.now) }
{
    if let Some(weight) = first_over(weights) {
        return Err(WeightFault::Over(weight));
    }
    let total = total_weight(graph, weights);
    if total < 1 << 63 {
        Ok(())
    } else {
        Err(WeightFault::TooMuch(total))
    }
}
