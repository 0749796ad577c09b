//! The names of the function that is open.
ghost use Rattle.std.specs.Prelude.{◌≡◌, IfOk};
ghost use Rattle.py_blocks.specs.Steps.{is_new_in, begins_function, noted};

use crate::state::State;
use plain_data::{Text, TextMap};
use py_token::{Kind, Symbol};
use std::alloc::{AllocError, Global};

/// Whether the name isn't among these.
pub fn is_new(names: &TextMap<bool>, name: &Text) -> bool
    ensures { result ≡ is_new_in names.now name.now }
{
    names.look(name).is_none()
}

/// Whether another function begins.
pub fn begins_function(state: &State, token: &Kind) -> bool
    ensures { result ≡ begins_function state.now token.now }
{
    match state {
        State::AfterDefName(_, _) => match token {
            Kind::Symbol(Symbol::OpenParenthesis) => true,
            _ => false,
        },
        _ => false,
    }
}

/// Adds one more token to the names, if it is a name.
pub fn note(
    alloc: Global,
    mut names: TextMap<bool>,
    token: &Kind,
) -> Result<TextMap<bool>, AllocError>
    ensures { IfOk result (λ n. n ≡ noted token.now names) }
{
    match token {
        Kind::Name(name) => {
            names.bind(name.copy(alloc)?, true)?;
            Ok(names)
        }
        _ => Ok(names),
    }
}
