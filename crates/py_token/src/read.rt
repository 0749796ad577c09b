ghost use Rattle.std.specs.Prelude.{◌≡◌, ◌≤◌, ◌<◌, ◌++◌, length, IfOk, OnOk};
ghost use Rattle.py_token.specs.Lines.{start, tokens_of};
ghost use Rattle.py_token.specs.Laws.{Cover, EndsWell, place};
ghost use Rattle.py_token.specs.Gives.{Gives, IfFault};

use crate::faults::TokenError;
use crate::kinds::Token;
use crate::lines::{Line, Spot, Turn};
use crate::turns::{ended, turn};
use plain_data::{Items, Stack};
use std::alloc::{AllocError, Global};

fn append(all: &mut Items<Token>, tokens: Items<Token>) -> Result<(), AllocError>
    ensures { OnOk result (all.new ≡ all.old ++ tokens) }
{
    for token in tokens.into_vec() {
        all.push(token)?;
    }
    Ok(())
}

fn start(alloc: Global) -> Result<Line, AllocError>
    ensures { IfOk result (λ line. line ≡ start) }
{
    let mut depths = Stack::new(alloc);
    depths.push(0)?;
    Ok(Line {
        spot: Spot::Start { from: 0, tab: None },
        depths,
        brackets: 0,
    })
}

/// The tokens of a text, or the first fault in it.
///
/// A place is a byte offset. A CR directly before an LF belongs to the line's end; any other is a bad character, in a
/// comment too. Indentation is the spaces at a line's start; a tab there is a fault, unless the line has only spaces,
/// tabs and a comment, or begins inside brackets. Spaces, tabs and comments between tokens are passed over, and a line
/// with nothing else gives no token. The depths of the open blocks begin with 0; a deeper line gives an `Indent`, a
/// shallower one a `Dedent` for each block that it ends, and its depth has to be open. Inside brackets, whatever their
/// kind, line ends and indentation are passed over. At the end come a `Newline`, if the last line has tokens and no
/// bracket is open, the `Dedent`s and `End`.
///
/// A name is a letter or `_`, then letters, digits and `_`, at most 255 bytes. A number is `0`s alone, or a digit 1 to 9
/// and digits, with single `_` between digits, at most 2^127 - 1; no letter, digit, `_` or `.` may come directly after
/// it. A text is between two quotes of one sort on one line, with the escapes `\\`, `\'`, `\"`, `\n`, `\r`, `\t` and
/// `\x` with two hexadecimal digits. No quote may come directly after a name or a text. Operators are read longest
/// first. Any other character is a fault; those past ASCII may be in texts and comments.
///
/// The fault that is reported is the one with the least place; at one place a wrong depth comes before a bad token.
pub fn tokens(alloc: Global, code: &str) -> Result<Items<Token>, TokenError>
    requires { length code.now ≤ 262144 }
    // The tokens are those of the rules, and so is the fault.
    ensures exact { Gives result (tokens_of code.now) }

    // Spans ascend without overlap and spell their kinds, and what lies between two of them is blank.
    ensures cover { IfOk result (λ all. Cover code.now 0 all) }
    ensures ends { IfOk result (λ all. EndsWell code.now all) }
    ensures within { IfFault result (λ fault. place fault < length code.now) }
{
    let bytes = code.as_bytes();
    let mut line = start(alloc)?;
    let mut all = Items::new(alloc);
    let mut at: usize = 0;
    while at < bytes.len() {
        let Turn {
            tokens,
            width,
            line: next,
        } = turn(alloc, at as u32, line, &bytes[at..])?;
        append(&mut all, tokens)?;
        line = next;
        at += width as usize;
    }
    let last = ended(alloc, at as u32, line)?;
    append(&mut all, last)?;
    Ok(all)
}
