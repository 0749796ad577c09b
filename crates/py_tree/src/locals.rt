ghost use Rattle.std.specs.Prelude.{◌≡◌, ◌++◌, ◌∷◌, [], IfOk, OnOk, not, filter};
ghost use Rattle.py_tree.specs.Added.{added};
ghost use Rattle.py_tree.specs.Locals.{bound_at, bound_at_all, bound_by, global_by, bound_in, globals_in, bound_in_arms, globals_in_arms, is_among, distinct, locals_of};

use crate::expressions::Target;
use crate::statements::{Arm, Def, Stmt};
use plain_data::{Items, Text};
use std::alloc::{AllocError, Global};

/// The names that some statements bind, and those that they declare global, in the order of the text.
#[derive(Drop)]
struct Names {
    bound: Items<Text>,
    global: Items<Text>,
}

fn copy_onto(alloc: Global, names: &mut Items<Text>, name: &Text) -> Result<(), AllocError>
    ensures { OnOk result (names.new ≡ names.old ++ name.now ∷ []) }
{
    names.push(name.copy(alloc)?)
}

fn copy_all(alloc: Global, names: &mut Items<Text>, others: &Items<Text>) -> Result<(), AllocError>
    ensures { OnOk result (names.new ≡ names.old ++ others.now) }
{
    for name in others.as_slice() {
        copy_onto(alloc, names, name)?;
    }
    Ok(())
}

fn collect_target(alloc: Global, target: &Target, names: &mut Names) -> Result<(), AllocError>
    ensures { OnOk result (names.new ≡ added names.old (bound_at target.now) []) }
{
    match target {
        Target::Name(name) => copy_onto(alloc, &mut names.bound, name),
        Target::Item { .. } => Ok(()),
    }
}

fn collect_targets(alloc: Global, targets: &[Target], names: &mut Names) -> Result<(), AllocError>
    ensures { OnOk result (names.new ≡ added names.old (bound_at_all targets.now) []) }
{
    for target in targets {
        collect_target(alloc, target, names)?;
    }
    Ok(())
}

/// Adds the names of one statement.
#[cycle(names)]
#[tactic(auto, using(crate::proofs::Walks::walks))]
fn collect_statement(alloc: Global, statement: &Stmt, names: &mut Names) -> Result<(), AllocError>
    ensures { OnOk result (names.new ≡ added names.old (bound_by statement.now) (global_by statement.now)) }
{
    match statement {
        Stmt::Delete(target) => collect_target(alloc, target, names),
        Stmt::Assign { targets, .. } => collect_targets(alloc, targets.as_slice(), names),
        Stmt::Augment { target, .. } => collect_target(alloc, target, names),
        Stmt::Global(global) => copy_all(alloc, &mut names.global, global),
        Stmt::If { arms, other } => {
            collect_arms(alloc, arms.as_slice(), names)?;
            collect(alloc, other.as_slice(), names)
        }
        Stmt::While { body, .. } => collect(alloc, body.as_slice(), names),
        Stmt::For {
            names: bound,
            body,
            ..
        } => {
            copy_all(alloc, &mut names.bound, bound)?;
            collect(alloc, body.as_slice(), names)
        }
        Stmt::Pass
        | Stmt::Break
        | Stmt::Continue
        | Stmt::Return(_)
        | Stmt::Expression(_)
        | Stmt::Function(_) => Ok(()),
    }
}

/// Adds the names of the blocks after some tests.
#[cycle(names)]
fn collect_arms(alloc: Global, arms: &[Arm], names: &mut Names) -> Result<(), AllocError>
    ensures { OnOk result (names.new ≡ added names.old (bound_in_arms arms.now) (globals_in_arms arms.now)) }
{
    for arm in arms {
        collect(alloc, arm.body.as_slice(), names)?;
    }
    Ok(())
}

/// Adds the names of a block.
#[cycle(names)]
fn collect(alloc: Global, body: &[Stmt], names: &mut Names) -> Result<(), AllocError>
    ensures { OnOk result (names.new ≡ added names.old (bound_in body.now) (globals_in body.now)) }
{
    for statement in body {
        collect_statement(alloc, statement, names)?;
    }
    Ok(())
}

fn is_among(names: &[Text], name: &Text) -> bool
    ensures { result ≡ is_among names.now name.now }
{
    names.contains(name)
}

/// Adds the names that aren't among the globals.
fn copy_locals(
    alloc: Global,
    names: &mut Items<Text>,
    others: &Items<Text>,
    globals: &Items<Text>,
) -> Result<(), AllocError>
    ensures { OnOk result (names.new ≡ names.old ++ filter (λ name. not (is_among globals.now name)) others.now) }
{
    for name in others.as_slice() {
        if !is_among(globals.as_slice(), name) {
            copy_onto(alloc, names, name)?;
        }
    }
    Ok(())
}

/// The names, each once, at its first position.
fn distinct(alloc: Global, names: &[Text]) -> Result<Items<Text>, AllocError>
    ensures { IfOk result (λ all. all ≡ distinct names.now) }
{
    let mut seen = Items::new(alloc);
    for name in names {
        if !is_among(seen.as_slice(), name) {
            copy_onto(alloc, &mut seen, name)?;
        }
    }
    Ok(seen)
}

/// The locals of a function: its parameters, and then the names that its body assigns, augments, deletes or uses as a
/// name of a `for` and doesn't declare global, in the order of their first positions, each once. An assignment assigns
/// each of its targets that is a name.
#[tactic(auto, unfolding(crate::specs::Locals::locals))]
pub fn locals_of(alloc: Global, def: &Def) -> Result<Items<Text>, AllocError>
    ensures { IfOk result (λ names. names ≡ locals_of def.now) }
{
    let mut names = Names {
        bound: Items::new(alloc),
        global: Items::new(alloc),
    };
    collect(alloc, def.body.as_slice(), &mut names)?;
    let mut all = Items::new(alloc);
    copy_all(alloc, &mut all, &def.params)?;
    copy_locals(alloc, &mut all, &names.bound, &names.global)?;
    distinct(alloc, all.as_slice())
}
