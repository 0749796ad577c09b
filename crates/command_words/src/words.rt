ghost use Rattle.std.specs.Prelude.{ℕ, ◌≡◌, ◌≢◌, ◌≤◌, codes, [], ◌∷◌, map, get_or, string_bytes, IfErr, IfOk, MatchOption};
ghost use Rattle.std.specs.Fmt.{decimal};
ghost use Rattle.graph_model.specs.declared.plan.Weights.{Weights as Four};
ghost use Rattle.plan_model.specs.Weighing.{AreSmall};
ghost use Rattle.command_words.specs.declared.words.Command.{Command as Asked};
ghost use Rattle.command_words.specs.Grammar.{weight_words, IsCommand};

use crate::numbers::number_of;
use crate::settings::run_of;
use graph_model::Weights;
use std::alloc::{AllocError, Global};

/// What the words of the command line ask for.
#[derive(Clone, Copy, Debug, PartialEq, Eq)]
pub enum Command {
    /// `run`: the frames of the source are served, by this number of hosts with this number of workers each.
    Run { hosts: u32, workers: u32 },
    /// `plan c b r s`: a least-cost plan of a checkpoint's graph, under these weights.
    Plan(Weights),
    /// `save c b r s`: a checkpoint of a session, by a least-cost plan under these weights.
    Save(Weights),
    /// `restore`: the state of a checkpoint.
    Restore,
    /// `made n`: the stream with this many cells is made and served, and its answers are counted.
    Made(u32),
    /// `serve address links`: so many links are served. Where they come is for who makes the door.
    Serve(u32),
}

/// The greatest weight.
pub const MOST_WEIGHT: u64 = 1_000_000;

/// The weight that a word says: a number from 0 to 1,000,000 in decimal digits, without a zero before others.
fn weight_of(word: &str) -> Option<u64>
    ensures { MatchOption result ((n : ℕ) → n ≤ 1000000 → word.now ≢ decimal n) (λ n. (n ≤ 1000000) × (word.now ≡ decimal n)) }
{
    number_of(word, 0, MOST_WEIGHT)
}

/// The weights that four words say.
fn weights_of(words: &[String]) -> Option<Weights>
    ensures { MatchOption result ((w : Four) → AreSmall w → map string_bytes words.now ≢ weight_words w) (λ w. AreSmall w × (map string_bytes words.now ≡ weight_words w)) }
{
    let [copy_base, per_byte, run_base, per_step] = words else {
        return None;
    };
    Some(Weights {
        copy_base: weight_of(copy_base.as_str())?,
        per_byte: weight_of(per_byte.as_str())?,
        run_base: weight_of(run_base.as_str())?,
        per_step: weight_of(per_step.as_str())?,
    })
}

/// The command `plan` with the weights that these words say.
fn plan_of(words: &[String]) -> Option<Command>
    ensures { MatchOption result ((c : Asked) → ¬ IsCommand (codes "plan" ∷ map string_bytes words.now) c) (IsCommand (codes "plan" ∷ map string_bytes words.now)) }
{
    match weights_of(words) {
        Some(weights) => Some(Command::Plan(weights)),
        None => None,
    }
}

/// The command `save` with the weights that these words say.
fn save_of(words: &[String]) -> Option<Command>
    ensures { MatchOption result ((c : Asked) → ¬ IsCommand (codes "save" ∷ map string_bytes words.now) c) (IsCommand (codes "save" ∷ map string_bytes words.now)) }
{
    match weights_of(words) {
        Some(weights) => Some(Command::Save(weights)),
        None => None,
    }
}

/// The greatest number of cells that `made` takes.
pub const MOST_CELLS: u64 = 4_000;

/// The greatest number of links that `serve` takes.
pub const MOST_LINKS: u64 = 100;

/// The command `made` with the number that this word says.
fn made_of(words: &[String]) -> Option<Command>
    ensures { MatchOption result ((c : Asked) → ¬ IsCommand (codes "made" ∷ map string_bytes words.now) c) (IsCommand (codes "made" ∷ map string_bytes words.now)) }
{
    let [cells] = words else {
        return None;
    };
    match number_of(cells.as_str(), 1, MOST_CELLS) {
        Some(cells) => Some(Command::Made(cells as u32)),
        None => None,
    }
}

/// The command `serve` with an address, which is any word, and the number that the word after it says.
fn serve_of(words: &[String]) -> Option<Command>
    ensures { MatchOption result ((c : Asked) → ¬ IsCommand (codes "serve" ∷ map string_bytes words.now) c) (IsCommand (codes "serve" ∷ map string_bytes words.now)) }
{
    let [_address, links] = words else {
        return None;
    };
    match number_of(links.as_str(), 1, MOST_LINKS) {
        Some(links) => Some(Command::Serve(links as u32)),
        None => None,
    }
}

/// The command with this first word, and these after it.
fn command_with(alloc: Global, first: &str, words: &[String]) -> Result<Option<Command>, AllocError>
    ensures command { IfOk result (λ o. MatchOption o ((c : Asked) → ¬ IsCommand (first.now ∷ map string_bytes words.now) c) (IsCommand (first.now ∷ map string_bytes words.now))) }
    ensures memory { IfErr result (λ _. first.now ≡ codes "run") }
{
    match first {
        "run" => run_of(alloc, words),
        "plan" => Ok(plan_of(words)),
        "save" => Ok(save_of(words)),
        "restore" if words.is_empty() => Ok(Some(Command::Restore)),
        "made" => Ok(made_of(words)),
        "serve" => Ok(serve_of(words)),
        _ => Ok(None),
    }
}

/// The command that the words say, if they say one. Only what comes after `run` takes memory.
pub fn command_of(alloc: Global, words: &[String]) -> Result<Option<Command>, AllocError>
    ensures command { IfOk result (λ o. MatchOption o ((c : Asked) → ¬ IsCommand (map string_bytes words.now) c) (IsCommand (map string_bytes words.now))) }
    ensures memory { IfErr result (λ _. get_or (map string_bytes words.now) 0 [] ≡ codes "run") }
{
    let [first, rest @ ..] = words else {
        return Ok(None);
    };
    command_with(alloc, first.as_str(), rest)
}
