ghost use Rattle.std.specs.Prelude.{◌≡◌, ◌<◌, ◌-◌, length, Some, IfOk};
ghost use Rattle.py_blocks.specs.Source.{most};
ghost use Rattle.py_reader.specs.Gives.{Gives, Answers, Means};
ghost use Rattle.py_reader.specs.Scans.{read_first, StopsAt, IsRefusal, GivesStatements};
ghost use Rattle.py_reader.specs.Verdict.{tokens_within, verdict};
ghost use Rattle.py_reader.specs.Verdicts.{start_of, is_end, refusal};
ghost use Rattle.py_reader.specs.Sources.{HasSources};

use crate::fault::{ReadError, SyntaxFault, token_error};
use crate::scan::{Scan, held_before, kind_at, read_tokens};
use plain_data::Items;
use py_blocks::{MOST, Reader, State, deepest, outside};
use py_grammar::Construct;
use py_token::{Kind, Token, tokens};
use py_tree::{Stmt, Tree};
use std::alloc::{AllocError, Global};

/// The most bytes of a code.
pub const MAX_CODE: usize = 262_144;

/// The most depths.
const MAX_DEPTH: usize = 64;

/// The place of the token with that number.
pub fn start_of(tokens: &[Token], number: usize) -> u32
    ensures { result ≡ start_of tokens.now number }
{
    match tokens.get(number) {
        Some(token) => token.start,
        None => 0,
    }
}

/// Where the token begins that has this place, counted down from `MOST`.
fn start_at(tokens: &[Token], place: usize) -> u32
    ensures { result ≡ start_of tokens.now (most - place) }
{
    start_of(tokens, MOST.saturating_sub(place))
}

fn is_end(kind: &Kind) -> bool
    ensures { result ≡ is_end kind.now }
{
    matches!(kind, Kind::End)
}

/// What the failing token is refused as.
fn refused(at: u32, token: &Kind, construct: Option<Construct>) -> SyntaxFault
    ensures { result ≡ refusal at token.now construct }
{
    match construct {
        None => SyntaxFault::NoParse {
            at,
            end: is_end(token),
        },
        Some(construct) => SyntaxFault::Outside(at, construct),
    }
}

/// The tokens of a code that isn't too long.
pub fn tokens_within(alloc: Global, code: &str) -> Result<Items<Token>, ReadError>
    ensures { Answers result (tokens_within code.now) }
{
    if MAX_CODE < code.len() {
        return Err(ReadError::Fault(SyntaxFault::TooLong));
    }
    match tokens(alloc, code) {
        Ok(tokens) => Ok(tokens),
        Err(error) => Err(token_error(error)),
    }
}

/// Why the token with that number is refused, or what is too deep before it.
pub fn refusal_at(
    alone: bool,
    alloc: Global,
    code: &str,
    tokens: &[Token],
    place: usize,
) -> Result<SyntaxFault, AllocError>
    requires within { place < length tokens.now }
    requires stops { StopsAt alone code.now tokens.now place }
    ensures { IfOk result (IsRefusal alone tokens.now place) }
{
    let held = held_before(alone, alloc, code, tokens, place)?;
    let deep = deepest(alloc, held)?;
    let least = MOST.saturating_sub(place);
    if least < deep {
        return Ok(SyntaxFault::TooDeep(start_at(tokens, deep)));
    }
    let Reader { state, .. } = held_before(alone, alloc, code, tokens, place)?;
    let token = kind_at(tokens, place);
    let construct = outside(alloc, state, token)?;
    Ok(refused(start_of(tokens, place), token, construct))
}

/// The statements of the cell that the tokens are, unless it is too deep.
pub fn statements(
    alone: bool,
    alloc: Global,
    code: &str,
    tokens: &[Token],
    reader: Reader,
) -> Result<Items<Stmt>, ReadError>
    requires { read_first alone code.now tokens.now (length tokens.now) ≡ Some reader }
    ensures { GivesStatements alone code.now tokens.now result }
{
    let Reader { state, .. } = reader;
    let State::End(done) = state else {
        return Ok(Items::new(alloc));
    };
    let deep = done.under.reach(MAX_DEPTH);
    if 0 < deep {
        let at = start_at(tokens, deep);
        return Err(ReadError::Fault(SyntaxFault::TooDeep(at)));
    }
    Ok(done.statements)
}

/// What the code is read as.
fn judge(alloc: Global, code: &str) -> Result<Tree, ReadError>
    ensures { Gives result (verdict code.now) }
{
    let tokens = tokens_within(alloc, code)?;
    let all = tokens.as_slice();
    match read_tokens(false, alloc, code, all, all.len())? {
        Scan::Whole(reader) => {
            let body = statements(false, alloc, code, all, reader)?;
            Ok(Tree { body })
        }
        Scan::Refused(place) => {
            let fault = refusal_at(false, alloc, code, all, place)?;
            Err(ReadError::Fault(fault))
        }
    }
}

/// Reads the code of a cell.
///
/// A code of more than 262,144 bytes is `TooLong`, and one without tokens has the fault of its tokens. Otherwise, if a node
/// is at depth 65 or deeper, the first such node is `TooDeep`: a code without a tree is too deep at a place if each cell that
/// begins with the tokens before the failing one is too deep there or earlier, and one is just there. Otherwise the code has
/// its one tree in the grammar, or it is refused at the first token such that no cell begins with the tokens up to it: as
/// `Outside` if that token begins a construct of Python that this language leaves out, and else as `NoParse`. (Python
/// language reference, in the subset of docs/LANGUAGE.md.)
#[tactic(auto, using(crate::proofs::Meant::told, crate::proofs::Sources::sources))]
pub fn read_cell(alloc: Global, code: &str) -> Result<Tree, ReadError>
    // The verdict as a definition that computes.
    ensures exact { Gives result (verdict code.now) }

    // The same in the words of the grammar.
    ensures meaning { Means code.now result }

    // The text of each function is all bytes that its tokens span.
    ensures sources { IfOk result (λ tree. HasSources code.now tree.body) }
{
    judge(alloc, code)
}
