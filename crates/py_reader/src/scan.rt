ghost use Rattle.std.specs.Prelude.{◌≡◌, ◌≤◌, ◌<◌, length, slice_get, Some, IfOk};
ghost use Rattle.py_token.specs.Cuts.{kinds};
ghost use Rattle.py_reader.specs.Scans.{read_first, Scans, StopsAt};

use py_blocks::{MOST, Place, Reader, start, step};
use py_frames::Stop;
use py_token::{Kind, Token};
use std::alloc::{AllocError, Global};

/// What was read of some tokens.
#[derive(Drop)]
pub enum Scan {
    /// All of them.
    Whole(Reader),
    /// Those before the one with this number, which is refused.
    Refused(usize),
}

/// What the token with that number is.
pub fn kind_at(tokens: &[Token], index: usize) -> &Kind
    requires { index < length tokens.now }
    ensures { slice_get (kinds tokens.now) index ≡ Some result.now }
{
    &tokens[index].kind
}

/// Reads the first `count` tokens of a code, as a cell or as one function alone.
pub fn read_tokens(
    alone: bool,
    alloc: Global,
    code: &str,
    tokens: &[Token],
    count: usize,
) -> Result<Scan, AllocError>
    requires { count ≤ length tokens.now }
    ensures { IfOk result (Scans alone code.now tokens.now count) }
{
    let mut reader = start(alloc);
    let mut index = 0;
    while index < count {
        let at = MOST - index;
        let place = Place { at, left: at - 1 };
        let token = kind_at(tokens, index);
        match step(alone, alloc, code, tokens, reader, token, place) {
            Ok(next) => reader = next,
            Err(Stop::Refused) => return Ok(Scan::Refused(index)),
            Err(Stop::Memory) => return Err(AllocError),
        }
        index += 1;
    }
    Ok(Scan::Whole(reader))
}

/// What is held of the tokens before one that is refused: they are read once more.
pub fn held_before(
    alone: bool,
    alloc: Global,
    code: &str,
    tokens: &[Token],
    place: usize,
) -> Result<Reader, AllocError>
    requires within { place < length tokens.now }
    requires stops { StopsAt alone code.now tokens.now place }
    ensures { IfOk result (λ reader. read_first alone code.now tokens.now place ≡ Some reader) }
{
    match read_tokens(alone, alloc, code, tokens, place)? {
        Scan::Whole(reader) => Ok(reader),
        Scan::Refused(_) => unreachable!(),
    }
}
