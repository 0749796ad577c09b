use crate::numbers::number_of;
use crate::settings::{Kind, label, most_of};
use crate::words::{MOST_CELLS, MOST_LINKS, MOST_WEIGHT};
use std::fmt;

/// How many bytes of a word are shown.
const SHOWN: usize = 40;

/// A weight of `save` or `plan`.
#[derive(Clone, Copy, Debug)]
pub enum Weight {
    /// For a copy.
    CopyBase,
    /// For each byte of a copy.
    PerByte,
    /// For a cell that runs again.
    RunBase,
    /// For each step of such a cell.
    PerStep,
}

/// The weights in their order.
const WEIGHTS: [Weight; 4] = [
    Weight::CopyBase,
    Weight::PerByte,
    Weight::RunBase,
    Weight::PerStep,
];

/// What `made` and `serve` take a number of.
#[derive(Clone, Copy, Debug)]
pub enum Counted {
    /// The cells of `made`.
    Cells,
    /// The links of `serve`.
    Links,
}

impl Counted {
    /// The greatest number.
    fn most(self) -> u64 {
        match self {
            Counted::Cells => MOST_CELLS,
            Counted::Links => MOST_LINKS,
        }
    }

    /// The range of the number, as people read it.
    fn range(self) -> &'static str {
        match self {
            Counted::Cells => "it has to be a number from 1 to 4,000",
            Counted::Links => "it has to be a number from 1 to 100",
        }
    }
}

impl fmt::Display for Counted {
    fn fmt<W: fmt::Write>(&self, f: &mut fmt::Formatter<W>) -> fmt::Result {
        f.write_str(match self {
            Counted::Cells => "number of cells",
            Counted::Links => "number of links",
        })
    }
}

/// The first word that can't stand where it is, or what is missing after the last word.
#[derive(Clone, Copy, Debug)]
pub enum WordFault<'a> {
    /// There is no word.
    NoWord,
    /// The first word names no command.
    NoCommand(&'a str),
    /// A word after `run` names no setting.
    NoSetting(&'a str),
    /// A setting has no number.
    NoNumber(Kind),
    /// A setting is there twice.
    Twice(Kind),
    /// The number of a setting isn't one in its range.
    BadNumber(Kind, &'a str),
    /// A weight is missing.
    NoWeight(Weight),
    /// A weight isn't a number in its range.
    BadWeight(Weight, &'a str),
    /// The address of `serve` is missing.
    NoAddress,
    /// A number of cells or links is missing.
    NoCount(Counted),
    /// It isn't a number in its range.
    BadCount(Counted, &'a str),
    /// The command takes no more words.
    TooMany(&'a str),
}

impl fmt::Display for Weight {
    fn fmt<W: fmt::Write>(&self, f: &mut fmt::Formatter<W>) -> fmt::Result {
        f.write_str(match self {
            Weight::CopyBase => "copy_base",
            Weight::PerByte => "per_byte",
            Weight::RunBase => "run_base",
            Weight::PerStep => "per_step",
        })
    }
}

/// A word in quotes, cut if it is long.
#[derive(Clone, Copy)]
struct Quoted<'a>(&'a str);

impl fmt::Display for Quoted<'_> {
    fn fmt<W: fmt::Write>(&self, f: &mut fmt::Formatter<W>) -> fmt::Result {
        let word = self.0;
        if word.len() <= SHOWN {
            return write!(f, "{word:?}");
        }
        let (shown, _) = word.split_at(word.floor_char_boundary(SHOWN));
        write!(f, "{shown:?}...")
    }
}

/// What a weight has to be.
const WEIGHT_IS: &str = "it has to be a number from 0 to 1,000,000";

/// Which commands there are.
const COMMANDS: &str = "The commands are run, serve, save, plan, restore and made";

/// Which settings there are.
const SETTINGS: &str =
    "It takes --hosts (1 to 64) and --workers (1 to 16), each at most once, as --hosts 3 or --hosts=3";

impl fmt::Display for WordFault<'_> {
    fn fmt<W: fmt::Write>(&self, f: &mut fmt::Formatter<W>) -> fmt::Result {
        match *self {
            WordFault::NoWord => write!(f, "there is no command. {COMMANDS}"),
            WordFault::NoCommand(word) => {
                write!(f, "{} is no command. {COMMANDS}", Quoted(word))
            }
            WordFault::NoSetting(word) => { write!(f, "run knows no {}. {SETTINGS}", Quoted(word)) }
            WordFault::NoNumber(kind) => write!(
                f,
                "--{} has no value: it takes a number from 1 to {}",
                label(kind),
                most_of(kind)
            ),
            WordFault::Twice(kind) => {
                write!(f, "--{} is there twice, and run takes it once", label(kind))
            }
            WordFault::BadNumber(kind, word) => write!(
                f,
                "--{} is {}: it has to be a number from 1 to {}",
                label(kind),
                Quoted(word),
                most_of(kind)
            ),
            WordFault::NoWeight(weight) => {
                write!(f, "the weight {weight} is missing: {WEIGHT_IS}")
            }
            WordFault::BadWeight(weight, word) => {
                write!(f, "the weight {weight} is {}: {WEIGHT_IS}", Quoted(word))
            }
            WordFault::NoAddress => write!(
                f,
                "the address is missing: serve takes one, as 127.0.0.1:8765, [::1]:8765, or a port alone"
            ),
            WordFault::NoCount(counted) => {
                write!(f, "the {counted} is missing: {}", counted.range())
            }
            WordFault::BadCount(counted, word) => {
                write!(f, "the {counted} is {}: {}", Quoted(word), counted.range())
            }
            WordFault::TooMany(word) => write!(f, "{} is a word too many", Quoted(word)),
        }
    }
}

/// What of the words after `run` has been looked at.
#[derive(Drop)]
struct Looked {
    has_hosts: bool,
    has_workers: bool,
    /// The setting whose number is the next word.
    waits: Option<Kind>,
}

impl Looked {
    /// Notes a setting, and tells whether it was there before.
    fn note(&mut self, kind: Kind) -> bool {
        match kind {
            Kind::Hosts => {
                let before = self.has_hosts;
                self.has_hosts = true;
                before
            }
            Kind::Workers => {
                let before = self.has_workers;
                self.has_workers = true;
                before
            }
        }
    }

    /// Looks at a word that begins a setting.
    fn begin<'a>(&mut self, word: &'a str) -> Option<WordFault<'a>> {
        let (name, number) = match word.split_once('=') {
            Some((name, number)) => (name, Some(number)),
            None => (word, None),
        };
        let kind = match name {
            "--hosts" => Kind::Hosts,
            "--workers" => Kind::Workers,
            _ => return Some(WordFault::NoSetting(word)),
        };
        if self.note(kind) {
            return Some(WordFault::Twice(kind));
        }
        match number {
            Some(number) => number_fault(kind, number),
            None => {
                self.waits = Some(kind);
                None
            }
        }
    }

    /// Looks at one more word.
    fn look<'a>(&mut self, word: &'a str) -> Option<WordFault<'a>> {
        match self.waits {
            None => self.begin(word),
            Some(kind) if word.starts_with("--") => Some(WordFault::NoNumber(kind)),
            Some(kind) => {
                self.waits = None;
                number_fault(kind, word)
            }
        }
    }
}

/// What is wrong with the number of a setting.
fn number_fault(kind: Kind, number: &str) -> Option<WordFault<'_>> {
    if number.is_empty() {
        return Some(WordFault::NoNumber(kind));
    }
    match number_of(number, 1, most_of(kind)) {
        Some(_) => None,
        None => Some(WordFault::BadNumber(kind, number)),
    }
}

/// What is wrong with the words after `run`.
fn run_fault(words: &[String]) -> Option<WordFault<'_>> {
    let mut looked = Looked {
        has_hosts: false,
        has_workers: false,
        waits: None,
    };
    for word in words {
        let fault = looked.look(word.as_str());
        if fault.is_some() {
            return fault;
        }
    }
    match looked.waits {
        Some(kind) => Some(WordFault::NoNumber(kind)),
        None => None,
    }
}

/// That there is a word after this many.
fn more_than(words: &[String], many: usize) -> Option<WordFault<'_>> {
    match words.get(many) {
        Some(word) => Some(WordFault::TooMany(word.as_str())),
        None => None,
    }
}

/// What is wrong with the words after `save` or `plan`.
fn weights_fault(words: &[String]) -> Option<WordFault<'_>> {
    for (place, weight) in WEIGHTS.iter().enumerate() {
        match words.get(place) {
            None => return Some(WordFault::NoWeight(*weight)),
            Some(word) if number_of(word.as_str(), 0, MOST_WEIGHT).is_none() => {
                return Some(WordFault::BadWeight(*weight, word.as_str()));
            }
            Some(_) => {}
        }
    }
    more_than(words, WEIGHTS.len())
}

/// What is wrong with the words of which this one is the number.
fn count_fault(words: &[String], place: usize, counted: Counted) -> Option<WordFault<'_>> {
    match words.get(place) {
        None => Some(WordFault::NoCount(counted)),
        Some(word) if number_of(word.as_str(), 1, counted.most()).is_none() => {
            Some(WordFault::BadCount(counted, word.as_str()))
        }
        Some(_) => more_than(words, place.saturating_add(1)),
    }
}

/// What is wrong with the words after `serve`.
fn serve_fault(words: &[String]) -> Option<WordFault<'_>> {
    if words.is_empty() {
        return Some(WordFault::NoAddress);
    }
    count_fault(words, 1, Counted::Links)
}

/// What is wrong with these words, if they are no command.
pub fn word_fault(words: &[String]) -> Option<WordFault<'_>> {
    let [first, rest @ ..] = words else {
        return Some(WordFault::NoWord);
    };
    match first.as_str() {
        "run" => run_fault(rest),
        "save" | "plan" => weights_fault(rest),
        "restore" => more_than(rest, 0),
        "made" => count_fault(rest, 0, Counted::Cells),
        "serve" => serve_fault(rest),
        word => Some(WordFault::NoCommand(word)),
    }
}
