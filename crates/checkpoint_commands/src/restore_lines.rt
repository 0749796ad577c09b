ghost use Rattle.std.specs.Prelude.{◌≡◌, ◌≢◌, ◌++◌, IfOk, OnOk};
ghost use Rattle.std.specs.List.{flat_map};
ghost use Rattle.restore_run.specs.declared.fault.RestoreFault.TheVariants.{OutOfMemory};
ghost use Rattle.checkpoint_commands.specs.Told as spec;

use crate::fault_line;
use crate::shown::shown_text;
use plain_data::Text;
use py_heap::State;
use restore_run::RestoreFault;
use std::alloc::{AllocError, Global};

/// Puts the line of a name, if it has a value: `name = repr`. After an error nothing is said of the text: it is only dropped.
fn put_line(alloc: Global, state: &State, name: &Text, lines: &mut Text) -> Result<(), AllocError>
    ensures { OnOk result (lines.new ≡ lines.old ++ spec.line_of state.now name.now) }
{
    let Some(value) = state.look(name) else {
        return Ok(());
    };
    let shown = shown_text(alloc, state, value)?;
    lines.push_str(name.as_str())?;
    lines.push_str(" = ")?;
    lines.push_str(shown.as_str())?;
    lines.push_str("\n")
}

/// Puts the lines of names.
fn put_lines(
    alloc: Global,
    state: &State,
    names: &[Text],
    lines: &mut Text,
) -> Result<(), AllocError>
    ensures { OnOk result (lines.new ≡ lines.old ++ flat_map (spec.line_of state.now) names.now) }
{
    for name in names {
        put_line(alloc, state, name, lines)?;
    }
    Ok(())
}

/// The line of the count and the meter.
fn last_line(alloc: Global, state: &State) -> Result<Text, AllocError>
    ensures { IfOk result (λ text. text ≡ spec.last_line state.now) }
{
    let count = state.count();
    let meter = state.meter();
    Ok(Text::from_string(format!(in alloc; "count {count} meter {meter}\n")?))
}

/// A line for each name with a value, ascending, and then the line of the count and the meter.
pub(crate) fn state_lines(alloc: Global, state: &State) -> Result<Text, AllocError>
    ensures { IfOk result (λ text. text ≡ spec.state_lines state.now) }
{
    let names = state.names(alloc)?;
    let mut lines = Text::new(alloc, "")?;
    put_lines(alloc, state, names.as_slice(), &mut lines)?;
    let last = last_line(alloc, state)?;
    lines.push_str(last.as_str())?;
    Ok(lines)
}

fn draws_line(alloc: Global, cell: u32) -> Result<Text, AllocError>
    ensures { IfOk result (λ text. text ≡ spec.draws_line cell) }
{
    Ok(Text::from_string(format!(in alloc; "draws again in cell {cell}\n")?))
}

fn unlike_line(alloc: Global, version: u32) -> Result<Text, AllocError>
    ensures { IfOk result (λ text. text ≡ spec.unlike_line version) }
{
    Ok(Text::from_string(format!(in alloc; "unlike in version {version}\n")?))
}

fn loose_line(alloc: Global, name: &Text) -> Result<Text, AllocError>
    ensures { IfOk result (λ text. text ≡ spec.loose_line name.now) }
{
    let mut line = Text::new(alloc, "loose name ")?;
    line.push_str(name.as_str())?;
    line.push_str("\n")?;
    Ok(line)
}

/// The line of a fault that isn't want of memory.
pub(crate) fn restore_line(alloc: Global, fault: RestoreFault) -> Result<Text, AllocError>
    requires memory { fault ≢ OutOfMemory }
    requires told { spec.IsTold fault }
    ensures { IfOk result (λ text. text ≡ spec.restore_line fault) }
{
    match fault {
        RestoreFault::OutOfMemory => unreachable!(),
        RestoreFault::Checkpoint(fault) => fault_line(alloc, fault),
        RestoreFault::DrewAgain(cell) => draws_line(alloc, cell),
        RestoreFault::Unlike(version) => unlike_line(alloc, version),
        RestoreFault::Loose(name) => loose_line(alloc, &name),
    }
}
