//! How a tree is printed: each statement and expression in parentheses, its kind first.
use plain_data::{Boxed, Items, Text};
use py_tree::{Arm, Def, Expr, Literal, Op, Operand, Pair, Relation, Stmt, Target, Tree};
use std::alloc::{AllocError, Global};

fn sign(op: Op) -> &'static str {
    match op {
        Op::Plus => "+",
        Op::Minus => "-",
        Op::Times => "*",
        Op::Floor => "//",
        Op::Mod => "%",
        Op::Equal => "==",
        Op::NotEqual => "!=",
        Op::Less => "<",
        Op::AtMost => "<=",
        Op::More => ">",
        Op::AtLeast => ">=",
        Op::In => "in",
        Op::NotIn => "not-in",
    }
}

fn write_literal(alloc: Global, out: &mut String, literal: &Literal) -> Result<(), AllocError> {
    match literal {
        Literal::Nothing => out.push_str("None"),
        Literal::Bool(true) => out.push_str("True"),
        Literal::Bool(false) => out.push_str("False"),
        Literal::Number(number) => out.push_str(format!(in alloc; "{number}")?.as_str()),
        Literal::Text(text) => out.push_str(format!(in alloc; "'{}'", text.as_str())?.as_str()),
    }
}

// A head, a space and the expression.
#[cycle(expression)]
fn begin(alloc: Global, out: &mut String, head: &str, value: &Expr) -> Result<(), AllocError> {
    out.push_str(head)?;
    write(alloc, out, value)
}

// The same, and a closing parenthesis.
#[cycle(expression)]
fn write_one(alloc: Global, out: &mut String, head: &str, value: &Expr) -> Result<(), AllocError> {
    begin(alloc, out, head, value)?;
    out.push_str(")")
}

#[cycle(expression)]
fn write_bound(
    alloc: Global,
    out: &mut String,
    bound: &Option<Boxed<Expr>>,
) -> Result<(), AllocError> {
    match bound {
        Some(value) => write(alloc, out, value.get()),
        None => out.push_str(" _"),
    }
}

// A space and the expression.
#[cycle(expression)]
fn write(alloc: Global, out: &mut String, value: &Expr) -> Result<(), AllocError> {
    out.push_str(" ")?;
    match value {
        Expr::Name(name) => out.push_str(name.as_str()),
        Expr::Literal(literal) => write_literal(alloc, out, literal),
        Expr::ListOf(items) => write_all(alloc, out, "(list", items.as_slice()),
        Expr::TupleOf(items) => write_all(alloc, out, "(tuple", items.as_slice()),
        Expr::DictOf(pairs) => write_pairs(alloc, out, pairs.as_slice()),
        Expr::Or(items) => write_all(alloc, out, "(or", items.as_slice()),
        Expr::And(items) => write_all(alloc, out, "(and", items.as_slice()),
        Expr::Not(value) => write_one(alloc, out, "(not", value.get()),
        Expr::Sign { minus: true, value } => write_one(alloc, out, "(-", value.get()),
        Expr::Sign {
            minus: false,
            value,
        } => write_one(alloc, out, "(+", value.get()),
        Expr::Compare { first, rest } => {
            begin(alloc, out, "(compare", first.get())?;
            write_relations(alloc, out, rest.as_slice())
        }
        Expr::Sum { first, rest } => {
            begin(alloc, out, "(sum", first.get())?;
            write_operands(alloc, out, rest.as_slice())
        }
        Expr::Product { first, rest } => {
            begin(alloc, out, "(product", first.get())?;
            write_operands(alloc, out, rest.as_slice())
        }
        _ => write_joined(alloc, out, value),
    }
}

#[cycle(expression)]
fn write_joined(alloc: Global, out: &mut String, value: &Expr) -> Result<(), AllocError> {
    match value {
        Expr::Conditional { test, yes, no } => {
            begin(alloc, out, "(conditional", test.get())?;
            write(alloc, out, yes.get())?;
            write_one(alloc, out, "", no.get())
        }
        Expr::Call { callee, args } => {
            begin(alloc, out, "(call", callee.get())?;
            write_all(alloc, out, "", args.as_slice())
        }
        Expr::Index { value, at } => {
            begin(alloc, out, "(item", value.get())?;
            write_one(alloc, out, "", at.get())
        }
        Expr::Slice { value, from, to } => {
            begin(alloc, out, "(slice", value.get())?;
            write_bound(alloc, out, from)?;
            write_bound(alloc, out, to)?;
            out.push_str(")")
        }
        Expr::Method { value, name, args } => {
            begin(alloc, out, "(method", value.get())?;
            out.push_str(" ")?;
            write_all(alloc, out, name.as_str(), args.as_slice())
        }
        _ => Ok(()),
    }
}

#[cycle(expression)]
fn write_all(
    alloc: Global,
    out: &mut String,
    head: &str,
    items: &[Expr],
) -> Result<(), AllocError> {
    out.push_str(head)?;
    for item in items {
        write(alloc, out, item)?;
    }
    out.push_str(")")
}

#[cycle(expression)]
fn write_pairs(alloc: Global, out: &mut String, pairs: &[Pair]) -> Result<(), AllocError> {
    out.push_str("(dict")?;
    for pair in pairs {
        out.push_str(" (:")?;
        write(alloc, out, &pair.key)?;
        write(alloc, out, &pair.value)?;
        out.push_str(")")?;
    }
    out.push_str(")")
}

#[cycle(expression)]
fn write_operands(alloc: Global, out: &mut String, rest: &[Operand]) -> Result<(), AllocError> {
    for operand in rest {
        out.push_str(" ")?;
        out.push_str(sign(operand.op))?;
        write(alloc, out, &operand.value)?;
    }
    out.push_str(")")
}

#[cycle(expression)]
fn write_relations(alloc: Global, out: &mut String, rest: &[Relation]) -> Result<(), AllocError> {
    for relation in rest {
        match relation {
            Relation::IsNone => out.push_str(" is-None")?,
            Relation::IsNotNone => out.push_str(" is-not-None")?,
            Relation::With(op, value) => {
                out.push_str(" ")?;
                out.push_str(sign(*op))?;
                write(alloc, out, value)?;
            }
        }
    }
    out.push_str(")")
}

// A head, a space and the target.
fn write_target(
    alloc: Global,
    out: &mut String,
    head: &str,
    target: &Target,
) -> Result<(), AllocError> {
    out.push_str(head)?;
    match target {
        Target::Name(name) => {
            out.push_str(" ")?;
            out.push_str(name.as_str())
        }
        Target::Item { value, at } => {
            out.push_str(" (item")?;
            write(alloc, out, value)?;
            write(alloc, out, at)?;
            out.push_str(")")
        }
    }
}

// The targets of an assignment, each after a space. If a comma stands among them, they are in parentheses.
fn write_targets(
    alloc: Global,
    out: &mut String,
    targets: &[Target],
    comma: bool,
) -> Result<(), AllocError> {
    out.push_str(if comma { " (targets" } else { "" })?;
    for target in targets {
        write_target(alloc, out, "", target)?;
    }
    out.push_str(if comma { ")" } else { "" })
}

// The names of a `for`, likewise.
fn write_variables(out: &mut String, names: &Items<Text>, comma: bool) -> Result<(), AllocError> {
    out.push_str(if comma { " (names" } else { "" })?;
    write_names(out, names)?;
    out.push_str(if comma { ")" } else { "" })
}

fn write_names(out: &mut String, names: &Items<Text>) -> Result<(), AllocError> {
    for name in names.as_slice() {
        out.push_str(" ")?;
        out.push_str(name.as_str())?;
    }
    Ok(())
}

fn write_simple(alloc: Global, out: &mut String, statement: &Stmt) -> Result<(), AllocError> {
    match statement {
        Stmt::Pass => out.push_str("pass"),
        Stmt::Break => out.push_str("break"),
        Stmt::Continue => out.push_str("continue"),
        Stmt::Return(Some(value)) => write_one(alloc, out, "(return", value),
        Stmt::Return(None) => out.push_str("(return)"),
        Stmt::Global(names) => {
            out.push_str("(global")?;
            write_names(out, names)?;
            out.push_str(")")
        }
        Stmt::Delete(target) => {
            write_target(alloc, out, "(del", target)?;
            out.push_str(")")
        }
        Stmt::Assign {
            targets,
            comma,
            value,
        } => {
            out.push_str("(assign")?;
            write_targets(alloc, out, targets.as_slice(), *comma)?;
            write(alloc, out, value)?;
            out.push_str(")")
        }
        Stmt::Augment { target, op, value } => {
            write_target(alloc, out, "(augment", target)?;
            out.push_str(" ")?;
            out.push_str(sign(*op))?;
            write(alloc, out, value)?;
            out.push_str(")")
        }
        Stmt::Expression(value) => write_one(alloc, out, "(expression", value),
        _ => Ok(()),
    }
}

#[cycle(statement)]
fn write_statement(alloc: Global, out: &mut String, statement: &Stmt) -> Result<(), AllocError> {
    match statement {
        Stmt::If { arms, other } => {
            out.push_str("(if")?;
            write_arms(alloc, out, arms.as_slice())?;
            if !other.is_empty() {
                write_block(alloc, out, " (else", other.as_slice())?;
            }
            out.push_str(")")
        }
        Stmt::While { test, body } => {
            out.push_str("(while")?;
            write(alloc, out, test)?;
            write_block(alloc, out, "", body.as_slice())
        }
        Stmt::For {
            names,
            comma,
            iterable,
            body,
        } => {
            out.push_str("(for")?;
            write_variables(out, names, *comma)?;
            write(alloc, out, iterable)?;
            write_block(alloc, out, "", body.as_slice())
        }
        Stmt::Function(def) => write_function(alloc, out, def.get()),
        _ => write_simple(alloc, out, statement),
    }
}

#[cycle(statement)]
fn write_arms(alloc: Global, out: &mut String, arms: &[Arm]) -> Result<(), AllocError> {
    for arm in arms {
        out.push_str(" (when")?;
        write(alloc, out, &arm.test)?;
        write_block(alloc, out, "", arm.body.as_slice())?;
    }
    Ok(())
}

#[cycle(statement)]
/// `(def name (of parameters) body)`.
pub fn write_function(alloc: Global, out: &mut String, def: &Def) -> Result<(), AllocError> {
    out.push_str("(def ")?;
    out.push_str(def.name.as_str())?;
    out.push_str(" (of")?;
    write_names(out, &def.params)?;
    write_block(alloc, out, ")", def.body.as_slice())
}

#[cycle(statement)]
fn write_block(
    alloc: Global,
    out: &mut String,
    head: &str,
    body: &[Stmt],
) -> Result<(), AllocError> {
    out.push_str(head)?;
    for statement in body {
        out.push_str(" ")?;
        write_statement(alloc, out, statement)?;
    }
    out.push_str(")")
}

/// The statements of a cell, a space between two.
pub fn tree_text(alloc: Global, tree: &Tree) -> Result<String, AllocError> {
    let mut out = String::new(alloc);
    for statement in tree.body.as_slice() {
        if !out.is_empty() {
            out.push_str(" ")?;
        }
        write_statement(alloc, &mut out, statement)?;
    }
    Ok(out)
}
