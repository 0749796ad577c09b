//! What holds of the streams of `made n` and of their counts. Each law is the contract of a function that does nothing.

ghost use Rattle.std.specs.Prelude.{◌≡◌, ◌≤◌, ℕ, List, [], Some};
ghost use Rattle.node_intake.specs.Intake.{Node, control_requests};
ghost use Rattle.node_run.specs.declared.end.RunEnd.TheVariants.{Whole};
ghost use Rattle.node_run.specs.Streams.{IsNodeOf};
ghost use Rattle.made_command.specs.Asked.{session, IsAlone};
ghost use Rattle.made_command.specs.Counting.{IsCount, HadMemoryInAll};
ghost use Rattle.made_command.specs.Made.{stream};

/// A run that takes in such a stream opens one session, which is asked its cells and moves, all on shell, and has no error.
pub fn the_stream_opens_one_session()
    ensures alone { (cells : ℕ) (node : Node) → cells ≤ 4000 → IsNodeOf 3 Whole (stream cells) (Some []) node → IsAlone cells node }
    ensures shell { (cells : ℕ) → control_requests (session cells) ≡ [] }
{}

/// Unless memory runs out, the counts of such a stream depend on its number of cells alone: two lines with counts are equal if memory
/// ran out at no entry of the journals that they count.
pub fn counts_depend_on_n_alone()
    ensures { (cells : ℕ) (a b : List ℕ) (i : IsCount cells a) (j : IsCount cells b) → cells ≤ 4000 → HadMemoryInAll i.journals → HadMemoryInAll j.journals → a ≡ b }
{}
