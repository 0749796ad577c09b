ghost use Rattle.std.specs.Prelude.{ℕ, ◌≡◌, ◌↔◌, ◌<◌, ◌^◌, List, Contains, IsTrue, length, SomeIff, MatchOption, MatchResult, IfOk, IfErr, OnOk, Ok};
ghost use Rattle.flow_model.specs.First.{IsFirst};
ghost use Rattle.py_heap.specs.declared.state.State.{State};
ghost use Rattle.py_heap.specs.References.{IsClosed};
ghost use Rattle.graph_model.specs.declared.graph.Version.{Version};
ghost use Rattle.graph_model.specs.Graphs.{IsActive};
ghost use Rattle.graph_model.specs.Faults.{Never};
ghost use Rattle.linked_parts.specs.Parts.{HasValue, IsPartOf, ArePartsOf};
ghost use Rattle.history_graph.specs.Written.{WasPart, IsByLeast};
ghost use Rattle.history_graph.specs.Sets.{Has};
ghost use Rattle.part_bytes.specs.Sizing.{size_of};
ghost use Rattle.state_judge.specs.Agreeing.{IsAsSaid, Disagrees, IsUnlike, IsLoose, IsFirstLoose, IsStateJudged};

use graph_model::{Graph, Version};
use history_graph::{add_names, by_least, is_in};
use linked_parts::{Part, Parts};
use part_bytes::part_len;
use plain_data::{Text, TextMap};
use py_heap::State;
use std::alloc::{AllocError, Global};

/// Why a state isn't as a graph says.
#[derive(Debug, Drop)]
pub enum Disagreement {
    OutOfMemory,
    /// The least version that holds at the end and isn't as the graph says: it is absent and its name has a value, or its names aren't
    /// one part with its handle and its size.
    Unlike(u32),
    /// The least name that has a value and is in no version that holds at the end.
    Loose(Text),
}

impl From<AllocError> for Disagreement {
    ghost use Rattle.std.specs.Prelude.{◌≡◌};
    ghost use Rattle.state_judge.specs.declared.judging.Disagreement.TheVariants.{OutOfMemory};

    ghost from_gives = { λ _ e. e ≡ OutOfMemory };

    fn from(_: AllocError) -> Disagreement {
        Disagreement::OutOfMemory
    }
}

/// Whether the two lists have the same texts.
fn are_same(xs: &[Text], ys: &[Text]) -> bool
    ensures { IsTrue result ↔ (xs.now ≡ ys.now) }
{
    xs == ys
}

/// The part with these names. The index has the numbers of the parts by their least names.
fn part_with<'a>(parts: &'a Parts, index: &TextMap<usize>, names: &[Text]) -> Option<&'a Part>
    requires { IsByLeast parts.now (length parts.now.list) index.now }
    ensures { (s : State) → ArePartsOf s parts.now
        → MatchOption result (¬ WasPart parts.now names.now) (λ p. Contains parts.now.list p.now × (p.now.names ≡ names.now)) }
{
    let [least, ..] = names else {
        return None;
    };
    let Some(n) = index.look(least) else {
        return None;
    };
    match parts.list.get(*n) {
        Some(part) if are_same(part.names.as_slice(), names) => Some(part),
        _ => None,
    }
}

/// The length of the text of a part, or 0 if a handle is in it; None if that is 2^32 or more.
fn size_of_part(alloc: Global, state: &State, part: &Part) -> Result<Option<u32>, AllocError>
    requires closed { IsClosed state.now }
    requires part { IsPartOf state.now part.now }
    ensures { IfOk result (λ size. SomeIff size (size_of part.now.names state.now < 2 ^ 32) (size_of part.now.names state.now)) }
{
    if part.handle {
        return Ok(Some(0));
    }
    part_len(alloc, state, part.names.as_slice())
}

/// Whether a size that was found is the version's.
fn has_size(found: Option<u32>, version: &Version) -> bool
    ensures { (n : ℕ) → SomeIff found (n < 2 ^ 32) n → IsTrue result ↔ (n ≡ version.now.size) }
{
    let said = version.size;
    match found {
        Some(size) => size == said,
        None => false,
    }
}

/// Whether a part has the version's handle and size.
fn is_like(alloc: Global, state: &State, part: &Part, version: &Version) -> Result<bool, AllocError>
    requires closed { IsClosed state.now }
    requires part { IsPartOf state.now part.now }
    requires names { part.now.names ≡ version.now.names }
    ensures { IfOk result (λ like. IsTrue like ↔ IsAsSaid version.now state.now) }
{
    if part.handle != version.handle {
        return Ok(false);
    }
    let found = size_of_part(alloc, state, part)?;
    Ok(has_size(found, version))
}

/// Whether the version's names are one part, with its handle and its size.
fn is_as_said(
    alloc: Global,
    state: &State,
    parts: &Parts,
    index: &TextMap<usize>,
    version: &Version,
) -> Result<bool, AllocError>
    requires closed { IsClosed state.now }
    requires parts { ArePartsOf state.now parts.now }
    requires index { IsByLeast parts.now (length parts.now.list) index.now }
    ensures { IfOk result (λ said. IsTrue said ↔ IsAsSaid version.now state.now) }
{
    match part_with(parts, index, version.names.as_slice()) {
        Some(part) => is_like(alloc, state, part, version),
        None => Ok(false),
    }
}

/// Whether one of the names has a value.
fn has_value(state: &State, names: &[Text]) -> bool
    ensures { IsTrue result ↔ ((name : List ℕ) × Contains names.now name × HasValue state.now name) }
{
    for name in names {
        if state.look(name).is_some() {
            return true;
        }
    }
    false
}

/// Whether the state isn't as the version says.
fn disagrees(
    alloc: Global,
    state: &State,
    parts: &Parts,
    index: &TextMap<usize>,
    version: &Version,
) -> Result<bool, AllocError>
    requires closed { IsClosed state.now }
    requires parts { ArePartsOf state.now parts.now }
    requires index { IsByLeast parts.now (length parts.now.list) index.now }
    ensures { IfOk result (λ other. IsTrue other ↔ Disagrees version.now state.now) }
{
    if version.absent {
        return Ok(has_value(state, version.names.as_slice()));
    }
    let said = is_as_said(alloc, state, parts, index, version)?;
    Ok(!said)
}

/// The first version that holds at the end and isn't as it says.
fn first_unlike(
    alloc: Global,
    graph: &Graph,
    state: &State,
    parts: &Parts,
) -> Result<Option<u32>, AllocError>
    requires closed { IsClosed state.now }
    requires parts { ArePartsOf state.now parts.now }
    requires few { length graph.now.versions < 2 ^ 32 }
    ensures { IfOk result (λ found. MatchOption found (Never (IsUnlike graph.now state.now)) (IsFirst (IsUnlike graph.now state.now))) }
{
    let index = by_least(alloc, parts)?;
    let versions = graph.versions.as_slice();
    for i in 0..versions.len() {
        let version = &versions[i];
        if version.replaced == 0 && disagrees(alloc, state, parts, &index, version)? {
            return Ok(Some(i as u32 + 1));
        }
    }
    Ok(None)
}

/// The names of the versions that hold at the end.
fn active_names(alloc: Global, graph: &Graph) -> Result<TextMap<()>, AllocError>
    ensures { IfOk result (λ names. (x : List ℕ) → Has names x ↔ ((v : ℕ) × (y : Version) × IsActive graph.now v y × Contains y.names x)) }
{
    let mut names = TextMap::new(alloc);
    for version in graph.versions.as_slice() {
        if version.replaced == 0 {
            add_names(alloc, &mut names, version.names.as_slice())?;
        }
    }
    Ok(names)
}

/// The least name that has a value and is in no version that holds at the end.
fn first_loose(alloc: Global, graph: &Graph, state: &State) -> Result<Option<Text>, AllocError>
    ensures { IfOk result (λ found. MatchOption found ((name : List ℕ) → ¬ IsLoose graph.now state.now name) (IsFirstLoose graph.now state.now)) }
{
    let active = active_names(alloc, graph)?;
    let names = state.names(alloc)?;
    for name in names.as_slice() {
        if !is_in(&active, name) {
            return Ok(Some(name.copy(alloc)?));
        }
    }
    Ok(None)
}

/// Judges a state by the graph: each version that holds at the end is as it says, and each name with a value is in one.
pub fn judge(alloc: Global, graph: &Graph, state: &State, parts: &Parts) -> Result<(), Disagreement>
    requires closed { IsClosed state.now }
    requires parts { ArePartsOf state.now parts.now }
    requires few { length graph.now.versions < 2 ^ 32 }
    ensures agrees { OnOk result (Never (IsUnlike graph.now state.now)) }
    ensures none_loose { OnOk result ((name : List ℕ) → ¬ IsLoose graph.now state.now name) }
    ensures fault { IfErr result (λ f. IsStateJudged graph.now state.now f) }
{
    if let Some(v) = first_unlike(alloc, graph, state, parts)? {
        return Err(Disagreement::Unlike(v));
    }
    if let Some(name) = first_loose(alloc, graph, state)? {
        return Err(Disagreement::Loose(name));
    }
    Ok(())
}
