ghost use Rattle.std.specs.Prelude.{ℕ, ◌≡◌, codes, ◌∷◌, IfOk, MatchOption, map, string_bytes};
ghost use Rattle.std.specs.List.{list_any};
ghost use Rattle.clap.specs.Words.{app_of, first_value, found_of};
ghost use Rattle.command_words.specs.declared.settings.Kind.TheVariants as kind;
ghost use Rattle.command_words.specs.declared.words.Command.{Command as Asked};
ghost use Rattle.command_words.specs.Grammar.{most, IsCommand};
ghost use Rattle.command_words.specs.Line as spec;
ghost use Rattle.command_words.specs.Line.{label_of, line, IsRead, RunIs};

use crate::numbers::number_of;
use crate::words::Command;
use clap::error::ErrorKind;
use clap::{Arg, ArgMatches};
use std::alloc::{AllocError, Global};

/// The greatest number of hosts.
const MOST_HOSTS: u64 = 64;

/// The greatest number of workers of a host.
const MOST_WORKERS: u64 = 16;

/// How many hosts and workers there are if no setting says it.
const UNSAID: u32 = 1;

/// What `run` can be told.
#[derive(Clone, Copy, Debug, PartialEq, Eq)]
pub enum Kind {
    /// How many hosts.
    Hosts,
    /// How many workers a host has.
    Workers,
}

/// A setting's name without its hyphens.
pub fn label(kind: Kind) -> &'static str
    ensures { result.now ≡ label_of kind }
{
    match kind {
        Kind::Hosts => "hosts",
        Kind::Workers => "workers",
    }
}

/// The greatest number of this kind.
pub fn most_of(kind: Kind) -> u64
    ensures { result ≡ most kind }
{
    match kind {
        Kind::Hosts => MOST_HOSTS,
        Kind::Workers => MOST_WORKERS,
    }
}

/// `run` with its two options, without help and version.
fn line_of_run<'a>(alloc: Global) -> Result<clap::Command<'a>, AllocError>
    ensures { IfOk result (λ c. app_of c ≡ line) }
{
    let hosts = Arg::new(alloc, "hosts").long("hosts");
    let workers = Arg::new(alloc, "workers").long("workers");
    clap::Command::new(alloc, "run")
        .no_binary_name(true)
        .disable_help_flag(true)
        .disable_version_flag(true)
        .arg(hosts)?
        .arg(workers)
}

/// The number that is said of this kind, or 1 if none is.
fn number_given(matches: &ArgMatches, kind: Kind) -> Option<u32>
    ensures { MatchOption result ((n : ℕ) → ¬ IsRead kind (first_value (found_of matches.now) (label_of kind)) n) (IsRead kind (first_value (found_of matches.now) (label_of kind))) }
{
    let Some(text) = matches.get_str(label(kind)) else {
        return Some(UNSAID);
    };
    match number_of(text, 1, most_of(kind)) {
        Some(n) => Some(n as u32),
        None => None,
    }
}

/// The command `run` with what clap took.
fn run_with(matches: &ArgMatches) -> Option<Command>
    ensures { MatchOption result ((h w : ℕ) → IsRead kind.Hosts (first_value (found_of matches.now) (label_of kind.Hosts)) h → ¬ IsRead kind.Workers (first_value (found_of matches.now) (label_of kind.Workers)) w) (RunIs (first_value (found_of matches.now) (label_of kind.Hosts)) (first_value (found_of matches.now) (label_of kind.Workers))) }
{
    let hosts = number_given(matches, Kind::Hosts)?;
    let workers = number_given(matches, Kind::Workers)?;
    Some(Command::Run { hosts, workers })
}

/// Whether a word is two hyphens, which clap takes for the end of the options.
fn is_hyphens(word: &str) -> bool
    ensures { result ≡ spec.is_hyphens word.now }
{
    word == "--"
}

/// Whether one of the words is two hyphens.
fn has_hyphens(words: &[String]) -> bool
    ensures { result ≡ list_any (λ w. spec.is_hyphens (string_bytes w)) words.now }
{
    words.iter().any(|word| is_hyphens(word.as_str()))
}

/// The command `run` with the settings that these words say, as clap reads them.
pub fn run_of(alloc: Global, words: &[String]) -> Result<Option<Command>, AllocError>
    ensures { IfOk result (λ o. MatchOption o ((c : Asked) → ¬ IsCommand (codes "run" ∷ map string_bytes words.now) c) (IsCommand (codes "run" ∷ map string_bytes words.now))) }
{
    if has_hyphens(words) {
        return Ok(None);
    }
    match line_of_run(alloc)?.try_get_matches_from(words) {
        Ok(matches) => Ok(run_with(&matches)),
        Err(error) if error.kind() == ErrorKind::OutOfMemory => Err(AllocError),
        Err(_) => Ok(None),
    }
}
