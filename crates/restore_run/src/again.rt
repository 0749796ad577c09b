ghost use Rattle.std.specs.Prelude.{◌≡◌, ◌≤◌, [], Ok};
ghost use Rattle.py_meaning.specs.Cells.{outcome, Asks};
ghost use Rattle.every_history.specs.Reading as reading;
ghost use Rattle.run_graph.specs.Soundness.{done_by};
ghost use Rattle.replay_laws.specs.Walks.{with_meter};

use nb_outside::NoFeed;
use py_kernel::Kernel;
use py_reader::{ReadError, Trees, read_cell};
use py_tree::{Stmt, Tree};
use std::alloc::{AllocError, Global};

/// How a cell that was run again ended.
#[derive(Clone, Copy, Debug, PartialEq, Eq)]
pub(crate) enum Ran {
    /// Without a draw: its state stays.
    Ended,
    /// It called `draw()`.
    Drew,
}

/// Runs statements without draws. What they print is dropped.
fn run_body(alloc: Global, kernel: &mut Kernel, body: &[Stmt]) -> Result<Ran, AllocError>
    ensures ended { result ≡ Ok Ran.Ended → (¬ Asks (outcome body.now kernel.old.state [])) × (kernel.new.state ≡ (outcome body.now kernel.old.state []).1.state) }
    ensures drew { result ≡ Ok Ran.Drew → Asks (outcome body.now kernel.old.state []) }
{
    let mut feed = NoFeed::new();
    let end = kernel.run_cell(alloc, body, &mut feed)?;
    if end.draws.is_empty() {
        Ok(Ran::Ended)
    } else {
        Ok(Ran::Drew)
    }
}

/// Runs a recorded code again, from the recorded meter and without draws. A code without a tree runs nothing. A code whose tree is kept
/// isn't read again.
pub(crate) fn run_again(
    alloc: Global,
    kernel: &mut Kernel,
    trees: &mut Trees,
    code: &str,
    meter: u32,
) -> Result<Ran, AllocError>
    requires { meter ≤ 16777216 }
    ensures ended { result ≡ Ok Ran.Ended → (¬ Asks (done_by reading.read code.now (with_meter kernel.old.state meter) []))
        × (kernel.new.state ≡ (done_by reading.read code.now (with_meter kernel.old.state meter) []).1.state) }
    ensures drew { result ≡ Ok Ran.Drew → Asks (done_by reading.read code.now (with_meter kernel.old.state meter) []) }
{
    kernel.set_meter(meter);
    if let Some(body) = trees.look(alloc, code) {
        return run_body(alloc, kernel, body.as_slice());
    }
    match read_cell(alloc, code) {
        Ok(Tree { body }) => {
            let ran = run_body(alloc, kernel, body.as_slice())?;
            trees.keep(alloc, code, body);
            Ok(ran)
        }
        Err(ReadError::Fault(_)) => run_body(alloc, kernel, &[]),
        Err(ReadError::OutOfMemory) => Err(AllocError),
    }
}
