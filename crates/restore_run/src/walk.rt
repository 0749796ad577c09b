ghost use Rattle.std.specs.Prelude.{ℕ, ◌≡◌, ◌≢◌, ◌⊎◌, ◌↔◌, ◌+◌, ◌<◌, ◌≤◌, true, false, ◌∷◌, [], List, Contains, IsTrue, length, slice_get, Some, Ok, IfOk, OnOk, IfErr};
ghost use Rattle.py_heap.specs.States.{without_name};
ghost use Rattle.py_meaning.specs.Cells.{Asks};
ghost use Rattle.graph_model.specs.declared.graph.Version.{Version};
ghost use Rattle.graph_model.specs.Graphs.{CellAt, VersionAt};
ghost use Rattle.graph_model.specs.Faults.{Ascends};
ghost use Rattle.reader_laws.specs.Valid.{IsValidState};
ghost use Rattle.every_history.specs.Reading as reading;
ghost use Rattle.replay_laws.specs.Walks.{done_again, Passes, GivesBack, GivesAllBack};
ghost use Rattle.part_loader.specs.Loading.{loaded};
ghost use Rattle.restore_run.specs.Restoring.{IsSoundCheckpoint, copies, IsWalked, DrawsAgain};
ghost use Rattle.restore_run.specs.Walking.{IsBetween, OnCopiedAt, AreLeft};
ghost use Rattle.checkpoint_reader.specs.declared.checkpoint.Checkpoint.{Checkpoint};

use crate::again::{Ran, run_again};
use crate::fault::RestoreFault;
use graph_model::{CellRecord, Graph, Plan, Version};
use part_bytes::PartValue;
use part_loader::load;
use plain_data::Items;
use py_heap::State;
use py_kernel::Kernel;
use py_reader::Trees;
use std::alloc::{AllocError, Global};

/// Whether the number is among the numbers, which ascend.
fn has(numbers: &[u32], number: u32) -> bool
    requires { Ascends (λ m n. m < n) numbers.now }
    ensures { IsTrue result ↔ Contains numbers.now number }
{
    numbers.binary_search(&number).is_ok()
}

/// Runs the cell with that number again, if the plan says so.
fn pass(
    alloc: Global,
    kernel: &mut Kernel,
    trees: &mut Trees,
    plan: &Plan,
    number: u32,
    cell: &CellRecord,
) -> Result<(), RestoreFault>
    ghost k: { Checkpoint }
    requires sound { IsSoundCheckpoint k }
    requires plan { plan.now ≡ k.plan }
    requires at { CellAt k.graph number cell.now }
    requires valid { IsValidState kernel.old.state }
    ensures passes { OnOk result (Passes reading.read k.graph k.plan number kernel.old.state kernel.new.state) }
    ensures valid { OnOk result (IsValidState kernel.new.state) }
    ensures fault { IfErr result (λ f. (f ≡ RestoreFault.OutOfMemory)
        ⊎ ((f ≡ RestoreFault.DrewAgain number) × Contains k.plan.rerun number × Asks (done_again reading.read cell.now kernel.old.state))) }
{
    if !has(plan.rerun.as_slice(), number) {
        return Ok(());
    }
    match run_again(alloc, kernel, trees, cell.code.as_str(), cell.meter)? {
        Ran::Ended => Ok(()),
        Ran::Drew => Err(RestoreFault::DrewAgain(number)),
    }
}

/// Loads the part of a version, or takes away the value of its name if it is absent.
fn give(
    alloc: Global,
    state: &mut State,
    version: &Version,
    part: PartValue,
) -> Result<(), AllocError>
    ensures present { version.now.absent ≡ false → OnOk result (state.new ≡ loaded part state.old) }
    ensures absent { version.now.absent ≡ true → (name : List ℕ) → version.now.names ≡ name ∷ [] → OnOk result (state.new ≡ without_name state.old name) }
{
    if !version.absent {
        return load(alloc, state, part);
    }
    if let [name, ..] = version.names.as_slice() {
        state.unbind(name);
    }
    Ok(())
}

/// The part at that index, which is taken out.
fn take_part(alloc: Global, parts: &mut Items<PartValue>, at: usize) -> PartValue
    requires { at < length parts.old }
    ensures part { slice_get parts.old at ≡ Some result }
    ensures left { (i : ℕ) → at < i → slice_get parts.new i ≡ slice_get parts.old i }
{
    let none = PartValue {
        names: Items::new(alloc),
        values: Items::new(alloc),
        objects: Items::new(alloc),
    };
    parts.replace(at, none)
}

/// Gives back the copied version at index `next`, if the cell with that number wrote it, and takes its part for it. Says whether
/// that cell did.
fn give_next(
    alloc: Global,
    state: &mut State,
    graph: &Graph,
    plan: &Plan,
    parts: &mut Items<PartValue>,
    number: u32,
    next: usize,
) -> Result<bool, AllocError>
    ghost k: { Checkpoint }
    requires sound { IsSoundCheckpoint k }
    requires graph { graph.now ≡ k.graph }
    requires plan { plan.now ≡ k.plan }
    requires left { AreLeft k next parts.old }
    requires within { next < length k.plan.copied }
    requires valid { IsValidState state.old }
    ensures yes { result ≡ Ok true → OnCopiedAt k next (λ v x. (x.writer ≡ number) × GivesBack (copies k) v x state.old state.new) }
    ensures no { result ≡ Ok false → (state.new ≡ state.old) × OnCopiedAt k next (λ v x. x.writer ≢ number) }
    ensures left { result ≡ Ok true → AreLeft k (next + 1) parts.new }
    ensures same { result ≡ Ok false → parts.new ≡ parts.old }
    ensures valid { OnOk result (IsValidState state.new) }
{
    let v = plan.copied.as_slice()[next];
    let version = &graph.versions.as_slice()[v as usize - 1];
    if version.writer != number {
        return Ok(false);
    }
    let part = take_part(alloc, parts, next);
    give(alloc, state, version, part)?;
    Ok(true)
}

/// Gives back the copied versions that the cell with that number wrote, one after the other. Those before index `from` are of
/// earlier cells. Says at which index those of later cells begin.
fn give_back(
    alloc: Global,
    state: &mut State,
    graph: &Graph,
    plan: &Plan,
    parts: &mut Items<PartValue>,
    number: u32,
    from: usize,
) -> Result<usize, AllocError>
    ghost k: { Checkpoint }
    requires sound { IsSoundCheckpoint k }
    requires graph { graph.now ≡ k.graph }
    requires plan { plan.now ≡ k.plan }
    requires left { AreLeft k from parts.old }
    requires between { (c : ℕ) → number ≡ c + 1 → IsBetween k c from }
    requires above { 0 < number }
    requires valid { IsValidState state.old }
    ensures gives { OnOk result (GivesAllBack (copies k) k.graph number k.plan.copied state.old state.new) }
    ensures between { IfOk result (IsBetween k number) }
    ensures left { IfOk result (λ next. AreLeft k next parts.new) }
    ensures valid { OnOk result (IsValidState state.new) }
{
    let mut next = from;
    while next < plan.copied.len() {
        let given = give_next(alloc, state, graph, plan, parts, number, next)?;
        if !given {
            return Ok(next);
        }
        next += 1;
    }
    Ok(next)
}

/// Walks over the cells of a checkpoint, from the empty state: runs those that the plan runs again, and after each cell gives back the
/// copied versions that it wrote. Gives the state in which the walk ends.
pub(crate) fn walk(
    alloc: Global,
    graph: &Graph,
    plan: &Plan,
    parts: Items<PartValue>,
    host: u32,
) -> Result<State, RestoreFault>
    ghost k: { Checkpoint }
    requires sound { IsSoundCheckpoint k }
    requires graph { graph.now ≡ k.graph }
    requires plan { plan.now ≡ k.plan }
    requires parts { parts ≡ k.parts }
    ensures walked { IfOk result (IsWalked k (length k.graph.cells)) }
    ensures valid { IfOk result IsValidState }
    ensures fault { IfErr result (λ f. (f ≡ RestoreFault.OutOfMemory) ⊎ ((c : ℕ) × (f ≡ RestoreFault.DrewAgain c) × DrawsAgain k c)) }
{
    let cells = graph.cells.as_slice();
    let mut left = parts;
    let mut state = State::new(alloc);
    let mut trees = Trees::new(alloc);
    let mut next = 0;
    for index in 0..cells.len() {
        let number = index as u32 + 1;
        let mut kernel = Kernel::of(state, host);
        pass(alloc, &mut kernel, &mut trees, plan, number, &cells[index])?;
        state = kernel.into_state();
        next = give_back(alloc, &mut state, graph, plan, &mut left, number, next)?;
    }
    Ok(state)
}
