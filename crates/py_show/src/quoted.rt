ghost use Rattle.std.specs.Prelude.{◌≡◌, ◌≤◌, length, nat_le, OnOk};
ghost use Rattle.py_value.specs.Reprs as spec;
ghost use Rattle.py_show.specs.Limits.{pushed};

use crate::limited::Limited;
use plain_data::SharedText;
use py_value::{Key, key_text};
use std::alloc::{AllocError, Global};

fn has(text: &str, byte: u8) -> bool
    ensures { result ≡ spec.has byte text.now }
{
    text.as_bytes().contains(&byte)
}

fn quote_of(text: &str) -> u8
    ensures { result ≡ spec.quote_of text.now }
{
    if has(text, b'\'') && !has(text, b'"') {
        b'"'
    } else {
        b'\''
    }
}

/// How many bytes a byte shows as between quotes.
#[tactic(auto, unfolding(py_value::specs::Reprs::escaped))]
fn escaped_len(quote: u8, byte: u8) -> usize
    ensures value { result ≡ length (spec.escaped quote byte) }
    ensures limit { result ≤ 4 }
{
    if byte == b'\\' || byte == quote {
        return 2;
    }
    match byte {
        b'\n' | b'\r' | b'\t' => 2,
        _ if byte < 32 || byte == 127 => 4,
        _ => 1,
    }
}

/// Whether what a text shows as has at most `room` bytes. Takes no memory. A byte shows as four at most, so the length of
/// most texts tells.
fn quoted_fits(text: &str, room: usize) -> bool
    requires { room ≤ 16777216 }
    ensures { result ≡ nat_le (length (spec.quoted text.now)) room }
{
    if room >= 2 && text.len() <= (room - 2) / 4 {
        return true;
    }
    let quote = quote_of(text);
    let mut len: usize = 2;
    for byte in text.as_bytes() {
        len += escaped_len(quote, *byte);
        if len > room {
            return false;
        }
    }
    len <= room
}

/// Puts what a text shows as. It isn't made if the output would be too long to be kept.
pub(crate) fn put_quoted(
    alloc: Global,
    text: &SharedText,
    out: &mut Limited,
) -> Result<(), AllocError>
    ensures { OnOk result (out.new ≡ pushed out.old (spec.quoted text.now)) }
{
    if out.is_long() {
        return Ok(());
    }
    let fits = quoted_fits(text.as_str(), out.room());
    if fits {
        return out.push_str(key_text(alloc, &Key::Text(text.share()?))?.as_str());
    }
    out.lose();
    Ok(())
}
