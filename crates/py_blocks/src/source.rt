//! The text of the tokens of a function.
ghost use Rattle.std.specs.Prelude.{◌≡◌, IfOk, slice_range};
ghost use Rattle.std.specs.Option.{option_copied};
ghost use Rattle.py_blocks.specs.Source.{is_layout, last_word, text_of, text_from, left_of};

use plain_data::Text;
use py_token::{Kind, Token};
use std::alloc::{AllocError, Global};

/// The place of the first token. Each of the others has one less than the one before.
pub const MOST: usize = 9_223_372_036_854_775_808;

/// Whether no characters of a line spell the token.
fn is_layout(kind: &Kind) -> bool
    ensures { result ≡ is_layout kind.now }
{
    matches!(
        kind,
        Kind::Newline | Kind::Indent | Kind::Dedent | Kind::End
    )
}

/// The elements from one number up to another, as far as there are any.
fn part<T>(all: &[T], from: usize, to: usize) -> &[T]
    ensures { result.now ≡ slice_range all.now from to }
{
    let to = to.min(all.len());
    let from = from.min(to);
    &all[from..to]
}

/// The last of the tokens that is no `Newline`, `Indent`, `Dedent` or `End`, if there is one.
pub fn last_word(tokens: &[Token]) -> Option<&Token>
    ensures { option_copied result ≡ last_word tokens.now }
{
    tokens.iter().rev().find(|token| !is_layout(&token.kind))
}

/// Those bytes, if they are a text.
#[tactic(auto, using(crate::proofs::Texts::texts))]
fn text_of(bytes: &[u8]) -> &str
    ensures { result.now ≡ text_of bytes.now }
{
    match str::from_utf8(bytes) {
        Ok(text) => text,
        Err(_) => "",
    }
}

/// The text from the start of the first of some tokens to the end of the last that is no layout.
fn text_from(alloc: Global, code: &str, tokens: &[Token]) -> Result<Text, AllocError>
    ensures { IfOk result (λ text. text ≡ text_from code.now tokens.now) }
{
    match (tokens.first(), last_word(tokens)) {
        (Some(first), Some(last)) => {
            let bytes = part(code.as_bytes(), first.start as usize, last.end as usize);
            Text::new(alloc, text_of(bytes))
        }
        _ => Text::new(alloc, ""),
    }
}

/// The text of the tokens from one place up to another.
pub fn text_left(
    alloc: Global,
    code: &str,
    tokens: &[Token],
    from: usize,
    to: usize,
) -> Result<Text, AllocError>
    ensures { IfOk result (λ text. text ≡ left_of code.now tokens.now from to) }
{
    let from = MOST.saturating_sub(from);
    let to = MOST.saturating_sub(to);
    text_from(alloc, code, part(tokens, from, to))
}
