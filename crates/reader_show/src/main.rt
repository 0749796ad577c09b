//! Shows how the reader reads texts, for tables of cases and for people.
//!
//! Each line of standard input is a JSON array of what is asked and a text, or texts. For each, one line of JSON is printed, a text:
//!
//! - `["cell", code]`: the tree of the cell, or what its fault says;
//! - `["function", source]`: the tree of the one function that the text is, and its locals; or what its fault says;
//! - `["sources", code]`: the text of each function of the cell, `|` after each;
//! - `["completeness", code]`: `complete`, `incomplete` and how many spaces the next line begins with, or `invalid`;
//! - `["statements", times, code]`: how many statements the tree of the cell has at the top, or what its fault says, after the cell
//!   was read so often (to be timed);
//! - `["kept", [code, ..], [code, ..]]`: the trees of the first codes are kept, one after the other; for each of the others how
//!   many statements its kept tree has, or `none` if none is found.
//!
//! The fault of a text that ends too early is followed by ` (its end)`.
#![tactic(auto)]

mod shown;

use anyhow::{Result, anyhow, bail};
use py_reader::{Completeness, ReadError, SyntaxFault, Trees, completeness, read_cell, read_def};
use py_tree::{Def, Stmt, locals_of};
use serde_json::Value;
use shown::{tree_text, write_function};
use std::alloc::{AllocError, Global};
use std::io::{BufRead, BufReader};

fn fault_text(alloc: Global, fault: SyntaxFault) -> Result<String, AllocError> {
    match fault {
        SyntaxFault::NoParse { end: true, .. } => format!(in alloc; "{fault} (its end)"),
        _ => format!(in alloc; "{fault}"),
    }
}

fn error_text(alloc: Global, error: ReadError) -> Result<String, AllocError> {
    match error {
        ReadError::OutOfMemory => Err(AllocError),
        ReadError::Fault(fault) => fault_text(alloc, fault),
    }
}

fn cell_text(alloc: Global, code: &str) -> Result<String, AllocError> {
    match read_cell(alloc, code) {
        Ok(tree) => tree_text(alloc, &tree),
        Err(error) => error_text(alloc, error),
    }
}

fn function_text(alloc: Global, def: &Def) -> Result<String, AllocError> {
    let mut text = String::new(alloc);
    write_function(alloc, &mut text, def)?;
    let names = locals_of(alloc, def)?;
    for name in names.as_slice() {
        text.push_str(" ")?;
        text.push_str(name.as_str())?;
    }
    Ok(text)
}

fn definition_text(alloc: Global, source: &str) -> Result<String, AllocError> {
    match read_def(alloc, source) {
        Ok(def) => function_text(alloc, def.get()),
        Err(error) => error_text(alloc, error),
    }
}

fn sources_text(alloc: Global, code: &str) -> Result<String, AllocError> {
    let tree = match read_cell(alloc, code) {
        Ok(tree) => tree,
        Err(error) => return error_text(alloc, error),
    };
    let mut all = String::new(alloc);
    for statement in tree.body.as_slice() {
        if let Stmt::Function(def) = statement {
            all.push_str(def.get().source.as_str())?;
            all.push_str("|")?;
        }
    }
    Ok(all)
}

fn completeness_text(alloc: Global, code: &str) -> Result<String, AllocError> {
    match completeness(alloc, code)? {
        Completeness::Complete => format!(in alloc; "complete"),
        Completeness::Incomplete(indent) => format!(in alloc; "incomplete {indent}"),
        Completeness::Invalid => format!(in alloc; "invalid"),
    }
}

fn count_text(alloc: Global, code: &str) -> Result<String, AllocError> {
    match read_cell(alloc, code) {
        Ok(tree) => format!(in alloc; "{}", tree.body.len()),
        Err(error) => error_text(alloc, error),
    }
}

fn statements_text(alloc: Global, request: &Value) -> Result<String> {
    let (times, code) = match (request.get(1), request.get(2)) {
        (Some(times), Some(code)) => (times.as_u64(), code.as_str()),
        _ => bail!("what is counted is asked by how often, and a code"),
    };
    let (Some(times), Some(code)) = (times, code) else {
        bail!("how often is to be a number, and the code a text")
    };
    let mut found = count_text(alloc, code)?;
    for _ in 1..times {
        found = count_text(alloc, code)?;
    }
    Ok(found)
}

/// The texts in the list at that place of a line.
fn texts_at(alloc: Global, request: &Value, place: usize) -> Result<Vec<&str>> {
    let Some(items) = request.get(place).and_then(|value| value.as_array()) else {
        bail!("what is asked of kept trees is to be lists of codes")
    };
    let mut texts = Vec::new(alloc);
    for item in items.as_slice() {
        match item.as_str() {
            Some(text) => texts.push(text)?,
            None => bail!("a code is no text"),
        }
    }
    Ok(texts)
}

/// Reads a code, and keeps its tree.
fn keep(alloc: Global, trees: &mut Trees, code: &str) {
    if let Ok(tree) = read_cell(alloc, code) {
        trees.keep(alloc, code, tree.body);
    }
}

fn kept_text(alloc: Global, request: &Value) -> Result<String> {
    let mut trees = Trees::new(alloc);
    for code in texts_at(alloc, request, 1)? {
        keep(alloc, &mut trees, code);
    }
    let mut all = String::new(alloc);
    for code in texts_at(alloc, request, 2)? {
        let found = match trees.look(alloc, code) {
            Some(body) => format!(in alloc; "{}", body.len())?,
            None => String::from_str(alloc, "none")?,
        };
        if !all.is_empty() {
            all.push_str(" ")?;
        }
        all.push_str(found.as_str())?;
    }
    Ok(all)
}

/// What is printed for one line.
fn answer(alloc: Global, line: &str) -> Result<String> {
    let request = Value::from_str(alloc, line)?;
    match request.get(0).and_then(|asked| asked.as_str()) {
        Some("kept") => return kept_text(alloc, &request),
        Some("statements") => return statements_text(alloc, &request),
        _ => {}
    }
    let (asked, text) = match (request.get(0), request.get(1)) {
        (Some(asked), Some(text)) => (asked, text),
        _ => bail!("a line is no array of what is asked and a text"),
    };
    let (Some(asked), Some(text)) = (asked.as_str(), text.as_str()) else {
        bail!("what is asked and the text are to be texts")
    };
    match asked {
        "cell" => Ok(cell_text(alloc, text)?),
        "function" => Ok(definition_text(alloc, text)?),
        "sources" => Ok(sources_text(alloc, text)?),
        "completeness" => Ok(completeness_text(alloc, text)?),
        _ => Err(anyhow!("no question is called {asked}")),
    }
}

fn main(rt: HostRuntime) -> Result<()> {
    let alloc = rt.alloc();
    let input = BufReader::new(alloc, rt.stdin())?;
    for line in input.lines(alloc) {
        let line = line?;
        let text = answer(alloc, line.as_str())?;
        println!(rt; "{}", Value::String(text).to_string(alloc)?)?;
    }
    Ok(())
}
