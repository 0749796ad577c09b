ghost use Rattle.std.specs.Prelude.{◌≡◌, ◌∷◌, [], drop, OnOk};
ghost use Rattle.py_heap.specs.Searches.{has};
ghost use Rattle.py_meaning.specs.Acts.{run};
ghost use Rattle.py_meaning.specs.Shown as meaning;
ghost use Rattle.py_show.specs.OnState as spec;
ghost use Rattle.py_show.specs.Uses.{Takes, Gives, PutsRun};

use crate::limited::Limited;
use crate::plain::{closing, object_on, open_text, opening, put_function, put_handle, put_plain};
use plain_data::Items;
use py_heap::{Dict, Object, SequenceKind, State};
use py_machine::{Fault, MAX_STEPS, recursion_error, step_limit_error};
use py_value::{Key, Value};
use std::alloc::Global;

/// Counts a step.
#[tactic(auto, unfolding(crate::specs::OnState::one_step))]
fn take_step(alloc: Global, steps: &mut u32) -> Result<(), Fault>
    ensures { Takes (spec.one_step steps.old) result steps.new }
{
    if *steps < MAX_STEPS {
        *steps += 1;
        return Ok(());
    }
    Err(Fault::Raised(step_limit_error(alloc)?))
}

/// Whether a list, a tuple or a dict is open.
fn is_open(path: &[u32], at: u32) -> bool
    ensures { result ≡ has path.now at }
{
    path.iter().any(|open| *open == at)
}

/// Puts what a value shows. Its items have `left` levels left.
#[cycle(show)]
fn show_value(
    alloc: Global,
    left: u32,
    state: &State,
    steps: &mut u32,
    path: &mut Items<u32>,
    value: &Value,
    out: &mut Limited,
) -> Result<(), Fault>
    ensures shows { Gives (spec.value_shown state.now (spec.shown state.now left) path.old value.now) out.old steps.old result out.new steps.new }
    ensures path { OnOk result (path.new ≡ path.old) }
{
    match value {
        Value::Ref(at) => show_ref(alloc, left, state, steps, path, *at, out),
        _ => {
            put_plain(alloc, value, out)?;
            Ok(())
        }
    }
}

/// Puts what the object at an address shows.
#[cycle(show)]
#[tactic(auto, unfolding(crate::specs::OnState::ref_shown))]
fn show_ref(
    alloc: Global,
    left: u32,
    state: &State,
    steps: &mut u32,
    path: &mut Items<u32>,
    at: u32,
    out: &mut Limited,
) -> Result<(), Fault>
    ensures shows { Gives (spec.ref_shown state.now (spec.shown state.now left) path.old at) out.old steps.old result out.new steps.new }
    ensures path { OnOk result (path.new ≡ path.old) }
{
    if is_open(path.as_slice(), at) {
        out.push_str(open_text(state, at))?;
        return Ok(());
    }
    match object_on(state, at) {
        Some(Object::List(items)) => {
            let kind = SequenceKind::List;
            show_sequence(
                alloc,
                left,
                state,
                steps,
                path,
                kind,
                at,
                items.as_slice(),
                out,
            )
        }
        Some(Object::Tuple(items)) => {
            let kind = SequenceKind::Tuple;
            show_sequence(
                alloc,
                left,
                state,
                steps,
                path,
                kind,
                at,
                items.as_slice(),
                out,
            )
        }
        Some(Object::Dict(dict)) => show_dict(alloc, left, state, steps, path, at, dict, out),
        Some(Object::Function(function)) => {
            put_function(&function.def().name, out)?;
            Ok(())
        }
        Some(Object::Handle { name, .. }) => {
            put_handle(alloc, name, out)?;
            Ok(())
        }
        None => {
            out.push_str("None")?;
            Ok(())
        }
    }
}

/// Puts what the dict at an address shows.
#[cycle(show)]
fn show_dict(
    alloc: Global,
    left: u32,
    state: &State,
    steps: &mut u32,
    path: &mut Items<u32>,
    at: u32,
    dict: &Dict,
    out: &mut Limited,
) -> Result<(), Fault>
    ensures shows { Gives (spec.dict_shown state.now (spec.shown state.now left) path.old at dict.now) out.old steps.old result out.new steps.new }
    ensures path { OnOk result (path.new ≡ path.old) }
{
    out.push_str("{")?;
    path.push(at)?;
    show_pairs(alloc, left, state, steps, path, dict, out)?;
    path.pop();
    Ok(())
}

/// Puts what the pairs of a dict show, and its end.
#[cycle(show)]
fn show_pairs(
    alloc: Global,
    left: u32,
    state: &State,
    steps: &mut u32,
    path: &mut Items<u32>,
    dict: &Dict,
    out: &mut Limited,
) -> Result<(), Fault>
    ensures shows { Gives (spec.all_pairs state.now (spec.shown state.now left) path.old dict.now) out.old steps.old result out.new steps.new }
    ensures path { OnOk result (path.new ≡ path.old) }
{
    if dict.len() == 0 {
        out.push_str("}")?;
        return Ok(());
    }
    let (key, value) = dict.pair_at(0);
    show_pair(alloc, left, state, steps, path, key, value, out)?;
    show_more_pairs(alloc, left, state, steps, path, dict, out)
}

/// Puts what the pairs of a dict after its first one show, and its end.
#[cycle(show)]
fn show_more_pairs(
    alloc: Global,
    left: u32,
    state: &State,
    steps: &mut u32,
    path: &mut Items<u32>,
    dict: &Dict,
    out: &mut Limited,
) -> Result<(), Fault>
    ensures shows { Gives (spec.more_pairs state.now (spec.shown state.now left) path.old (drop 1 dict.now)) out.old steps.old result out.new steps.new }
    ensures path { OnOk result (path.new ≡ path.old) }
{
    for index in 1..dict.len() {
        out.push_str(", ")?;
        let (key, value) = dict.pair_at(index);
        show_pair(alloc, left, state, steps, path, key, value, out)?;
    }
    out.push_str("}")?;
    Ok(())
}

/// Puts a key and its value.
#[cycle(show)]
fn show_pair(
    alloc: Global,
    left: u32,
    state: &State,
    steps: &mut u32,
    path: &mut Items<u32>,
    key: &Key,
    value: &Value,
    out: &mut Limited,
) -> Result<(), Fault>
    ensures shows { Gives (spec.pair_shown state.now (spec.shown state.now left) path.old (key.now, value.now)) out.old steps.old result out.new steps.new }
    ensures path { OnOk result (path.new ≡ path.old) }
{
    let key = key.value()?;
    show(alloc, left, state, steps, path, &key, out)?;
    out.push_str(": ")?;
    show(alloc, left, state, steps, path, value, out)
}

/// Puts what the list or the tuple at an address shows.
#[cycle(show)]
fn show_sequence(
    alloc: Global,
    left: u32,
    state: &State,
    steps: &mut u32,
    path: &mut Items<u32>,
    kind: SequenceKind,
    at: u32,
    items: &[Value],
    out: &mut Limited,
) -> Result<(), Fault>
    ensures shows { Gives (spec.sequence_shown state.now (spec.shown state.now left) kind path.old at items.now) out.old steps.old result out.new steps.new }
    ensures path { OnOk result (path.new ≡ path.old) }
{
    out.push_str(opening(kind))?;
    path.push(at)?;
    show_items(
        alloc,
        left,
        state,
        steps,
        path,
        closing(kind, items),
        items,
        out,
    )?;
    path.pop();
    Ok(())
}

/// Puts what the items of a list or a tuple show, and its end.
#[cycle(show)]
fn show_items(
    alloc: Global,
    left: u32,
    state: &State,
    steps: &mut u32,
    path: &mut Items<u32>,
    end: &str,
    items: &[Value],
    out: &mut Limited,
) -> Result<(), Fault>
    ensures shows { Gives (spec.all_items state.now (spec.shown state.now left) end.now path.old items.now) out.old steps.old result out.new steps.new }
    ensures path { OnOk result (path.new ≡ path.old) }
{
    match items {
        [first, more @ ..] => {
            show(alloc, left, state, steps, path, first, out)?;
            show_more(alloc, left, state, steps, path, end, more, out)
        }
        [] => {
            out.push_str(end)?;
            Ok(())
        }
    }
}

/// Puts what the items of a list or a tuple after its first one show, and its end.
#[cycle(show)]
fn show_more(
    alloc: Global,
    left: u32,
    state: &State,
    steps: &mut u32,
    path: &mut Items<u32>,
    end: &str,
    items: &[Value],
    out: &mut Limited,
) -> Result<(), Fault>
    ensures shows { Gives (spec.more_items state.now (spec.shown state.now left) end.now path.old items.now) out.old steps.old result out.new steps.new }
    ensures path { OnOk result (path.new ≡ path.old) }
{
    for item in items {
        out.push_str(", ")?;
        show(alloc, left, state, steps, path, item, out)?;
    }
    out.push_str(end)?;
    Ok(())
}

/// Puts what a value shows, and takes its step.
#[cycle(show)]
fn show_one(
    alloc: Global,
    left: u32,
    state: &State,
    steps: &mut u32,
    path: &mut Items<u32>,
    value: &Value,
    out: &mut Limited,
) -> Result<(), Fault>
    ensures shows { Gives (spec.one_shown state.now (spec.shown state.now left) path.old value.now) out.old steps.old result out.new steps.new }
    ensures path { OnOk result (path.new ≡ path.old) }
{
    take_step(alloc, steps)?;
    show_value(alloc, left, state, steps, path, value, out)
}

/// Puts what a value shows (its `repr`), with `left` levels left.
#[cycle(show)]
fn show(
    alloc: Global,
    left: u32,
    state: &State,
    steps: &mut u32,
    path: &mut Items<u32>,
    value: &Value,
    out: &mut Limited,
) -> Result<(), Fault>
    ensures shows { Gives (spec.shown state.now left path.old value.now) out.old steps.old result out.new steps.new }
    ensures path { OnOk result (path.new ≡ path.old) }
{
    if left == 0 {
        return Err(Fault::Raised(recursion_error(alloc)?));
    }
    show_one(alloc, left - 1, state, steps, path, value, out)
}

/// Puts what a value shows (its `repr`), with `left` levels left and nothing open.
fn show_first(
    alloc: Global,
    left: u32,
    state: &State,
    steps: &mut u32,
    value: &Value,
    out: &mut Limited,
) -> Result<(), Fault>
    ensures { Gives (spec.shown state.now left [] value.now) out.old steps.old result out.new steps.new }
{
    let mut path = Items::new(alloc);
    show(alloc, left, state, steps, &mut path, value, out)
}

/// Puts the `str` of a value.
fn write_value(
    alloc: Global,
    left: u32,
    state: &State,
    steps: &mut u32,
    value: &Value,
    out: &mut Limited,
) -> Result<(), Fault>
    ensures { Gives (spec.str_shown state.now (spec.shown state.now left) value.now) out.old steps.old result out.new steps.new }
{
    match value {
        Value::Text(text) => {
            out.push_str(text.as_str())?;
            Ok(())
        }
        _ => {
            let mut path = Items::new(alloc);
            show_value(alloc, left, state, steps, &mut path, value, out)
        }
    }
}

/// Puts the `str` of a value, and takes its step.
fn write_one(
    alloc: Global,
    left: u32,
    state: &State,
    steps: &mut u32,
    value: &Value,
    out: &mut Limited,
) -> Result<(), Fault>
    ensures { Gives (spec.one_written state.now (spec.shown state.now left) value.now) out.old steps.old result out.new steps.new }
{
    take_step(alloc, steps)?;
    write_value(alloc, left, state, steps, value, out)
}

/// Puts what `print` writes of a value (its `str`), with `left` levels left.
pub(crate) fn write_first(
    alloc: Global,
    left: u32,
    state: &State,
    steps: &mut u32,
    value: &Value,
    out: &mut Limited,
) -> Result<(), Fault>
    ensures { Gives (spec.written state.now left value.now) out.old steps.old result out.new steps.new }
{
    if left == 0 {
        return Err(Fault::Raised(recursion_error(alloc)?));
    }
    write_one(alloc, left - 1, state, steps, value, out)
}

/// Puts what a value shows (its `repr`) after an output, on a state that nothing changes, with `left` levels left.
pub fn put_repr(
    alloc: Global,
    left: u32,
    state: &State,
    steps: &mut u32,
    value: &Value,
    out: &mut Limited,
) -> Result<(), Fault>
    ensures { PutsRun (run (meaning.shown left [] [] value.now)) state.now out.old steps.old result out.new steps.new }
{
    show_first(alloc, left, state, steps, value, out)
}

/// Puts what `print` writes of a value (its `str`) after an output, on a state that nothing changes, with `left` levels
/// left.
pub fn put_written(
    alloc: Global,
    left: u32,
    state: &State,
    steps: &mut u32,
    value: &Value,
    out: &mut Limited,
) -> Result<(), Fault>
    ensures { PutsRun (run (meaning.written left value.now)) state.now out.old steps.old result out.new steps.new }
{
    write_first(alloc, left, state, steps, value, out)
}
