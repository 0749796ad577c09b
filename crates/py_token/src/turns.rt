ghost use Rattle.std.specs.Prelude.{◌≡◌, ◌+◌, ◌≤◌, length, IfOk};
ghost use Rattle.std.specs.List.{prefix_len};
ghost use Rattle.py_token.specs.Lexemes.{lexeme_at};
ghost use Rattle.py_token.specs.Lines.{passed, at_spot, next_line, line_ended, with_tab, without_tab, in_comment, brackets_after, begun, placed, turn, ended, last_newline};
ghost use Rattle.py_token.specs.Bodies.{EndsText};
ghost use Rattle.py_token.specs.Gives.{Gives};

use crate::blocks::{begun, close, token};
use crate::faults::TokenError;
use crate::kinds::{Kind, Symbol, Token};
use crate::lexemes::lexeme_at;
use crate::lines::{Depths, Lexeme, Line, Spot, Turn};
use crate::texts::ends_line;
use plain_data::Items;
use std::alloc::{AllocError, Global};

/// That many bytes give no token.
fn passed(alloc: Global, width: u32, line: Line) -> Result<Turn, TokenError>
    ensures { Gives result (passed width line) }
{
    Ok(Turn {
        tokens: Items::new(alloc),
        width,
        line,
    })
}

fn at_spot(spot: Spot, line: Line) -> Line
    ensures { result ≡ at_spot spot line }
{
    let Line {
        spot: _,
        depths,
        brackets,
    } = line;
    Line {
        spot,
        depths,
        brackets,
    }
}

fn next_line(at: u32, line: Line) -> Line
    requires { at + 1 ≤ 262144 }
    ensures { result ≡ next_line at line }
{
    at_spot(
        Spot::Start {
            from: at + 1,
            tab: None,
        },
        line,
    )
}

/// A line ends with the LF at that place.
fn line_ended(alloc: Global, at: u32, line: Line) -> Result<Turn, TokenError>
    requires { at + 1 ≤ 262144 }
    ensures { Gives result (line_ended at line line.spot) }
{
    match line.spot {
        Spot::Start { .. } => passed(alloc, 1, next_line(at, line)),
        Spot::Inside => {
            if line.brackets == 0 {
                let mut tokens = Items::new(alloc);
                tokens.push(token(Kind::Newline, at, 1))?;
                Ok(Turn {
                    tokens,
                    width: 1,
                    line: next_line(at, line),
                })
            } else {
                passed(alloc, 1, line)
            }
        }
    }
}

fn with_tab(at: u32, spot: Spot) -> Spot
    ensures { result ≡ with_tab at spot }
{
    match spot {
        Spot::Start { from, tab: None } => Spot::Start {
            from,
            tab: Some(at),
        },
        _ => spot,
    }
}

fn without_tab(spot: Spot) -> Spot
    ensures { result ≡ without_tab spot }
{
    match spot {
        Spot::Start { from, .. } => Spot::Start { from, tab: None },
        Spot::Inside => Spot::Inside,
    }
}

#[tactic(auto, using(crate::proofs::Bytes::widths))]
fn comment_width(bytes: &[u8]) -> usize
    ensures value { result ≡ prefix_len in_comment bytes.now }
    ensures within { result ≤ length bytes.now }
{
    bytes
        .iter()
        .take_while(|byte| **byte != b'\n' && **byte != b'\r')
        .count()
}

fn brackets_after(kind: &Kind, brackets: u32) -> u32
    requires { brackets ≤ 262144 }
    ensures { result ≡ brackets_after kind.now brackets }
{
    match kind {
        Kind::Symbol(Symbol::OpenParenthesis | Symbol::OpenBracket | Symbol::OpenBrace) => brackets
            + 1,
        Kind::Symbol(Symbol::CloseParenthesis | Symbol::CloseBracket | Symbol::CloseBrace) => {
            brackets.saturating_sub(1)
        }
        _ => brackets,
    }
}

/// The token at the front of the bytes, after the blocks that it begins or ends.
fn placed(alloc: Global, at: u32, line: Line, bytes: &[u8]) -> Result<Turn, TokenError>
    requires text { EndsText bytes.now }
    requires short { at + length bytes.now ≤ 262144 }
    requires few { line.brackets ≤ 262144 }
    ensures { Gives result (placed at line (begun at line.spot line.depths) (lexeme_at at bytes.now)) }
{
    let Line {
        spot,
        depths,
        brackets,
    } = line;
    let Depths { mut given, depths } = begun(alloc, at, spot, depths)?;
    let Lexeme { kind, width } = lexeme_at(alloc, at, bytes)?;
    let brackets = brackets_after(&kind, brackets);
    given.push(token(kind, at, width))?;
    Ok(Turn {
        tokens: given,
        width,
        line: Line {
            spot: Spot::Inside,
            depths,
            brackets,
        },
    })
}

/// What is read at the front of the bytes, which begin at that place.
#[tactic(auto, unfolding(crate::specs::Lines::turn))]
pub fn turn(alloc: Global, at: u32, line: Line, bytes: &[u8]) -> Result<Turn, TokenError>
    requires text { EndsText bytes.now }
    requires short { at + length bytes.now ≤ 262144 }
    requires few { line.brackets ≤ 262144 }
    ensures { Gives result (turn at line bytes.now) }
{
    match bytes {
        [b' ', ..] => passed(alloc, 1, line),
        [b'\t', ..] => passed(alloc, 1, at_spot(with_tab(at, line.spot), line)),
        [b'#', rest @ ..] => passed(
            alloc,
            1 + comment_width(rest) as u32,
            at_spot(without_tab(line.spot), line),
        ),
        [b'\n', ..] => line_ended(alloc, at, line),
        [b'\r', rest @ ..] => {
            if ends_line(rest) {
                passed(alloc, 1, line)
            } else {
                placed(alloc, at, line, bytes)
            }
        }
        [_, ..] => placed(alloc, at, line, bytes),
        [] => passed(alloc, 0, line),
    }
}

fn last_newline(
    alloc: Global,
    at: u32,
    spot: Spot,
    brackets: u32,
) -> Result<Items<Token>, AllocError>
    requires { at ≤ 262144 }
    ensures { IfOk result (λ tokens. tokens ≡ last_newline at spot brackets) }
{
    let mut tokens = Items::new(alloc);
    match spot {
        Spot::Start { .. } => Ok(tokens),
        Spot::Inside => {
            if brackets == 0 {
                tokens.push(token(Kind::Newline, at, 0))?;
                Ok(tokens)
            } else {
                Ok(tokens)
            }
        }
    }
}

/// What the end of the text gives, which is at that place.
pub fn ended(alloc: Global, at: u32, line: Line) -> Result<Items<Token>, AllocError>
    requires { at ≤ 262144 }
    ensures { IfOk result (λ tokens. tokens ≡ ended at line) }
{
    let Line {
        spot,
        depths,
        brackets,
    } = line;
    let mut tokens = last_newline(alloc, at, spot, brackets)?;
    close(at, depths, &mut tokens)?;
    tokens.push(token(Kind::End, at, 0))?;
    Ok(tokens)
}
