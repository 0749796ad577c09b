//! The messages of the stream as frames, one after the other.

ghost use Rattle.std.specs.Prelude.{◌≡◌, ◌≤◌, ◌++◌, IfOk, OnOk};
ghost use Rattle.serde_json.specs.Written.{compact_text};
ghost use Rattle.jupyter_frames.specs.Framing.{frame, IsBody};
ghost use Rattle.made_command.specs.Made as spec;

use crate::messages::{cell_text, move_text, opening_text};
use jupyter_frames::write_frame;
use plain_data::Items;
use std::alloc::{AllocError, Global};

/// Adds a frame with a body that is read.
fn push(out: &mut Vec<u8>, body: &str) -> Result<(), AllocError>
    requires { IsBody body.now }
    ensures { OnOk result (out.new.items ≡ out.old.items ++ frame body.now) }
{
    write_frame(body.as_bytes(), out)
}

/// Adds the frame of a cell.
#[tactic(auto, using(crate::proofs::Short::cell_read))]
fn push_cell(alloc: Global, out: &mut Vec<u8>, number: u32) -> Result<(), AllocError>
    requires { number ≤ 4000 }
    ensures { OnOk result (out.new.items ≡ out.old.items ++ frame (compact_text (spec.cell number))) }
{
    let text = cell_text(alloc, number)?;
    push(out, text.as_str())
}

/// Adds the frame of the move after a cell.
#[tactic(auto, using(crate::proofs::Short::move_read))]
fn push_move(alloc: Global, out: &mut Vec<u8>, number: u32) -> Result<(), AllocError>
    requires { number ≤ 4000 }
    ensures { OnOk result (out.new.items ≡ out.old.items ++ frame (compact_text (spec.moving number))) }
{
    let text = move_text(alloc, number)?;
    push(out, text.as_str())
}

/// Adds the frames of a cell, and of the move after it if there is one.
#[tactic(auto, using(crate::proofs::Frames::cell_alone, crate::proofs::Frames::cell_and_move))]
fn push_asked(alloc: Global, out: &mut Vec<u8>, number: u32) -> Result<(), AllocError>
    requires { number ≤ 4000 }
    ensures { OnOk result (out.new.items ≡ out.old.items ++ spec.framed (spec.asked number)) }
{
    push_cell(alloc, out, number)?;
    if number % 4 == 0 {
        return push_move(alloc, out, number);
    }
    Ok(())
}

/// The frames of the stream with this many cells.
#[tactic(auto, using(crate::proofs::Frames::stream_begins, crate::proofs::Frames::stream_more, crate::proofs::Short::opening_read))]
fn frames(alloc: Global, cells: u32) -> Result<Vec<u8>, AllocError>
    requires { cells ≤ 4000 }
    ensures { IfOk result (λ bytes. bytes.items ≡ spec.stream cells) }
{
    let mut out = Vec::new(alloc);
    let text = opening_text(alloc)?;
    push(&mut out, text.as_str())?;
    for before in 0..cells {
        push_asked(alloc, &mut out, before + 1)?;
    }
    Ok(out)
}

/// The bytes of the stream with this many cells, at most 4,000.
pub fn made_bytes(alloc: Global, cells: u32) -> Result<Items<u8>, AllocError>
    requires { cells ≤ 4000 }
    ensures { IfOk result (λ bytes. bytes ≡ spec.stream cells) }
{
    Ok(Items::from_vec(frames(alloc, cells)?))
}
