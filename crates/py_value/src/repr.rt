ghost use Rattle.std.specs.Prelude.{◌≡◌, ◌<◌, ◌++◌, IfOk, OnOk, string_bytes, encode_utf8};
ghost use Rattle.std.specs.List.{flat_map, list_all};
ghost use Rattle.std.specs.Char.{digit_char};
ghost use Rattle.py_value.specs.Reprs as spec;

use crate::key::Key;
use plain_data::Text;
use std::alloc::{AllocError, Global};

fn has(text: &str, byte: u8) -> bool
    ensures { result ≡ spec.has byte text.now }
{
    text.as_bytes().contains(&byte)
}

fn quote_of(text: &str) -> u8
    ensures quote { result ≡ spec.quote_of text.now }
    ensures ascii { result < 128 }
{
    if has(text, b'\'') && !has(text, b'"') {
        b'"'
    } else {
        b'\''
    }
}

fn hex_digit(value: u8) -> char
    requires { value < 16 }
    ensures { result ≡ digit_char value }
{
    if value < 10 {
        (b'0' + value) as char
    } else {
        (b'a' + (value - 10)) as char
    }
}

fn push_hexadecimal(out: &mut String, byte: u8) -> Result<(), AllocError>
    ensures { OnOk result (string_bytes out.new ≡ string_bytes out.old ++ spec.hexadecimal byte) }
{
    out.push_str("\\x")?;
    out.push(hex_digit(byte / 16))?;
    out.push(hex_digit(byte % 16))
}

/// Adds what an ASCII character shows as between quotes.
#[tactic(auto, unfolding(crate::specs::Reprs::escaped))]
fn push_ascii(out: &mut String, quote: u8, byte: u8) -> Result<(), AllocError>
    requires { byte < 128 }
    ensures { OnOk result (string_bytes out.new ≡ string_bytes out.old ++ spec.escaped quote byte) }
{
    if byte == b'\\' || byte == quote {
        out.push('\\')?;
        return out.push(byte as char);
    }
    match byte {
        b'\n' => out.push_str("\\n"),
        b'\r' => out.push_str("\\r"),
        b'\t' => out.push_str("\\t"),
        _ if byte < 32 || byte == 127 => push_hexadecimal(out, byte),
        _ => out.push(byte as char),
    }
}

/// Adds what a character shows as between quotes.
#[tactic(auto, using(crate::proofs::Escapes::escaped_character))]
fn push_escaped(out: &mut String, quote: u8, c: char) -> Result<(), AllocError>
    requires { quote < 128 }
    ensures { OnOk result (string_bytes out.new ≡ string_bytes out.old ++ flat_map (spec.escaped quote) (encode_utf8 c)) }
{
    if c.is_ascii() {
        push_ascii(out, quote, c as u8)
    } else {
        out.push(c)
    }
}

/// Whether a byte shows as itself between quotes.
fn is_plain(quote: u8, byte: u8) -> bool
    ensures { result ≡ spec.is_plain quote byte }
{
    byte >= b' ' && byte != 127 && byte != b'\\' && byte != quote
}

fn are_plain(quote: u8, bytes: &[u8]) -> bool
    ensures { result ≡ list_all (spec.is_plain quote) bytes.now }
{
    bytes.iter().all(|byte| is_plain(quote, *byte))
}

/// Adds what a text shows as between quotes. Most texts show as themselves, and are added whole.
fn push_shown(out: &mut String, quote: u8, text: &str) -> Result<(), AllocError>
    requires { quote < 128 }
    ensures { OnOk result (string_bytes out.new ≡ string_bytes out.old ++ flat_map (spec.escaped quote) text.now) }
{
    if are_plain(quote, text.as_bytes()) {
        return out.push_str(text);
    }
    for c in text.chars() {
        push_escaped(out, quote, c)?;
    }
    Ok(())
}

#[tactic(auto, unfolding(crate::specs::Reprs::between))]
fn quoted(alloc: Global, text: &str) -> Result<String, AllocError>
    ensures { IfOk result (λ shown. string_bytes shown ≡ spec.quoted text.now) }
{
    let quote = quote_of(text);
    let mut out = String::new(alloc);
    out.push(quote as char)?;
    push_shown(&mut out, quote, text)?;
    out.push(quote as char)?;
    Ok(out)
}

/// The text that the key shows as (its `repr`): None, True, False, a decimal number, or a text between quotes. These are
/// single, and double if the text holds a single quote and no double one. Backslashes and such quotes come after a
/// backslash, line feeds, carriage returns and tabs show as \n, \r and \t, and other characters below 32 and 127 as \x
/// and two hexadecimal digits.
pub fn key_text(alloc: Global, key: &Key) -> Result<Text, AllocError>
    ensures { IfOk result (λ shown. shown ≡ spec.key_text key.now) }
{
    match key {
        Key::Nothing => Text::new(alloc, "None"),
        Key::Bool(true) => Text::new(alloc, "True"),
        Key::Bool(false) => Text::new(alloc, "False"),
        Key::Number(number) => Ok(Text::from_string(format!(in alloc; "{number}")?)),
        Key::Text(text) => Ok(Text::from_string(quoted(alloc, text.as_str())?)),
    }
}
