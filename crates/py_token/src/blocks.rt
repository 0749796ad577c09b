ghost use Rattle.std.specs.Prelude.{◌≡◌, ◌+◌, ◌≤◌, ◌++◌, OnOk};
ghost use Rattle.py_token.specs.Lines.{token, shallower, is_deeper, indented, begun, closing};
ghost use Rattle.py_token.specs.Gives.{Gives};

use crate::faults::{TokenError, TokenFault};
use crate::kinds::{Kind, Token};
use crate::lines::{Depths, Spot};
use plain_data::{Items, Stack};
use std::alloc::{AllocError, Global};

/// A token of that width.
pub fn token(kind: Kind, at: u32, width: u32) -> Token
    requires { at + width ≤ 262144 }
    ensures { result ≡ token kind at width }
{
    Token {
        kind,
        start: at,
        end: at + width,
    }
}

/// A line that isn't deeper ends each block that is, and its depth has to be open.
#[tactic(auto, unfolding(crate::specs::Lines::shallower))]
fn shallower(
    alloc: Global,
    at: u32,
    depth: u32,
    mut depths: Stack<u32>,
) -> Result<Depths, TokenError>
    requires { at ≤ 262144 }
    ensures { Gives result (shallower at depth depths) }
{
    let mut given = Items::new(alloc);
    while let Some(top) = depths.pop() {
        if depth < top {
            given.push(token(Kind::Dedent, at, 0))?;
        } else if top == depth {
            depths.push(top)?;
            return Ok(Depths { given, depths });
        } else {
            return Err(TokenError::Fault(TokenFault::BadIndent(at)));
        }
    }
    Err(TokenError::Fault(TokenFault::BadIndent(at)))
}

fn is_deeper(depth: u32, depths: &Stack<u32>) -> bool
    ensures { result ≡ is_deeper depth depths.now }
{
    match depths.top() {
        Some(top) => *top < depth,
        None => false,
    }
}

#[tactic(auto, unfolding(crate::specs::Lines::indented))]
fn indented(
    alloc: Global,
    at: u32,
    depth: u32,
    mut depths: Stack<u32>,
) -> Result<Depths, TokenError>
    requires { at ≤ 262144 }
    ensures { Gives result (indented at depth depths) }
{
    if is_deeper(depth, &depths) {
        let mut given = Items::new(alloc);
        given.push(token(Kind::Indent, at, 0))?;
        depths.push(depth)?;
        Ok(Depths { given, depths })
    } else {
        shallower(alloc, at, depth, depths)
    }
}

/// What the first token of a line, which begins at that place, begins and ends of blocks.
#[tactic(auto, unfolding(crate::specs::Lines::begun))]
pub fn begun(alloc: Global, at: u32, spot: Spot, depths: Stack<u32>) -> Result<Depths, TokenError>
    requires { at ≤ 262144 }
    ensures { Gives result (begun at spot depths) }
{
    match spot {
        Spot::Inside => Ok(Depths {
            given: Items::new(alloc),
            depths,
        }),
        Spot::Start { from, tab: None } => indented(alloc, at, at.saturating_sub(from), depths),
        Spot::Start { tab: Some(tab), .. } => Err(TokenError::Fault(TokenFault::Tab(tab))),
    }
}

/// Ends the blocks that are open.
pub fn close(at: u32, mut depths: Stack<u32>, tokens: &mut Items<Token>) -> Result<(), AllocError>
    requires { at ≤ 262144 }
    ensures { OnOk result (tokens.new ≡ tokens.old ++ closing at depths) }
{
    while let Some(depth) = depths.pop() {
        if depth != 0 {
            tokens.push(token(Kind::Dedent, at, 0))?;
        }
    }
    Ok(())
}
