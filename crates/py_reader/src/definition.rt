ghost use Rattle.std.specs.Prelude.{◌≡◌, true, length, Some};
ghost use Rattle.py_reader.specs.Definitions.{end_of_words};
ghost use Rattle.py_reader.specs.DefinitionVerdict.{verdict_alone};
ghost use Rattle.py_reader.specs.Gives.{Answers, MeansDefinition};
ghost use Rattle.py_reader.specs.Scans.{read_first, AreFunction, GivesFunction};

use crate::fault::{ReadError, SyntaxFault};
use crate::read::{refusal_at, start_of, statements, tokens_within};
use crate::scan::{Scan, read_tokens};
use plain_data::Shared;
use py_blocks::{Reader, last_word};
use py_token::Token;
use py_tree::{Def, Stmt};
use std::alloc::Global;

/// Where the last word of the tokens ends.
fn end_of_words(tokens: &[Token]) -> u32
    ensures { result ≡ end_of_words tokens.now }
{
    match last_word(tokens) {
        Some(token) => token.end,
        None => 0,
    }
}

/// The definition of the function that the tokens are, unless something is before or after it or it is too deep.
fn whole_alone(
    alloc: Global,
    code: &str,
    tokens: &[Token],
    reader: Reader,
) -> Result<Shared<Def>, ReadError>
    requires function { AreFunction code.now tokens.now }
    requires read { read_first true code.now tokens.now (length tokens.now) ≡ Some reader }
    ensures { GivesFunction code.now tokens.now result }
{
    if 0 < start_of(tokens, 0) {
        return Err(ReadError::Fault(SyntaxFault::NoParse { at: 0, end: false }));
    }
    let mut body = statements(true, alloc, code, tokens, reader)?;
    let at = end_of_words(tokens);
    if (at as usize) < code.len() {
        return Err(ReadError::Fault(SyntaxFault::NoParse { at, end: false }));
    }
    let Some(last) = body.pop() else {
        unreachable!()
    };
    let Stmt::Function(def) = last else {
        unreachable!()
    };
    Ok(def)
}

/// What the text is read as.
fn judge_alone(alloc: Global, source: &str) -> Result<Shared<Def>, ReadError>
    ensures { Answers result (verdict_alone source.now) }
{
    let tokens = tokens_within(alloc, source)?;
    let all = tokens.as_slice();
    match read_tokens(true, alloc, source, all, all.len())? {
        Scan::Whole(reader) => whole_alone(alloc, source, all, reader),
        Scan::Refused(place) => {
            let fault = refusal_at(true, alloc, source, all, place)?;
            Err(ReadError::Fault(fault))
        }
    }
}

/// Reads a text that is one function alone, from its first byte to the last byte of its last word.
///
/// Faults are those of `read_cell`, but the first failing token is the first such that no function alone begins with the
/// tokens up to it, and what is too deep is said of functions alone. If the tokens are those of one function and other bytes
/// are before or after it, the first such byte is `NoParse`, unless a node is too deep before it. (Python language reference,
/// in the subset of docs/LANGUAGE.md.)
#[tactic(auto, using(crate::proofs::MeantAlone::told))]
pub fn read_def(alloc: Global, source: &str) -> Result<Shared<Def>, ReadError>
    // The verdict as a definition that computes.
    ensures exact { Answers result (verdict_alone source.now) }

    // The same in the words of the grammar.
    ensures meaning { MeansDefinition source.now result }
{
    judge_alone(alloc, source)
}
