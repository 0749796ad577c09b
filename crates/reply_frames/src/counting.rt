//! How many frames tell an entry.

ghost use Rattle.std.specs.Prelude.{◌≡◌, ℕ, ◌+◌, ◌^◌, ◌<◌, ◌≤◌, List, false, length};
ghost use Rattle.serde_json.specs.Data.{Data};
ghost use Rattle.session_core.specs.declared.request.Request.{Request};
ghost use Rattle.reply_frames.specs.declared.lists.Listing.{Listing};
ghost use Rattle.reply_frames.specs.Messages as said;
ghost use Rattle.reply_frames.specs.Replies as spec;

use crate::entry::MOST_PIECE;
use crate::lists::MOST_ITEMS;
use graph_model::Certified;
use plain_data::{Text, cut_at};
use session_core::{Entry, Failure, Reply};

/// How many messages tell a printed text.
#[tactic(auto, unfolding(plain_data::specs::Cuts::pieces))]
fn count_streams(printed: &str) -> u64
    ensures is { result ≡ length (said.streams printed.now) }
    ensures small { result < 2 ^ 63 }
{
    let mut rest = printed;
    for turn in 0..printed.len() {
        if rest.is_empty() {
            return turn as u64;
        }
        let (_, more) = cut_at(rest, MOST_PIECE);
        rest = more;
    }
    printed.len() as u64
}

/// How many messages tell a list with so many items.
fn count_list(items: usize) -> u64
    ensures is { (which : Listing) (ds : List Data) → length ds ≡ items → length (spec.lists which ds) ≡ result }
    ensures small { result < 2 ^ 53 }
{
    items.div_ceil(MOST_ITEMS) as u64
}

/// How many messages tell how a cell ended.
#[tactic(auto, unfolding(crate::specs::Replies::outcome))]
fn count_outcome(shown: &Option<Text>, failure: &Option<Failure>) -> u64
    ensures is { (count : ℕ) → result ≡ length (spec.outcome count shown.now failure.now) }
    ensures small { result ≤ 1 }
{
    match failure {
        Some(_) => 1,
        None => match shown {
            Some(_) => 1,
            None => 0,
        },
    }
}

/// How many messages tell a cell that isn't silent.
fn count_cell(printed: &Text, shown: &Option<Text>, failure: &Option<Failure>) -> u64
    ensures is { (request : Request) (count : ℕ) → result ≡ length (spec.cell_said false request count printed.now shown.now failure.now) }
    ensures small { result < 2 ^ 63 + 3 }
{
    count_streams(printed.as_str()) + count_outcome(shown, failure) + 2
}

/// How many frames tell what a session answered.
#[tactic(auto, unfolding(crate::specs::Replies::ran_said, crate::specs::Replies::cell_said), using(crate::proofs::Counts::between_counted))]
fn count_ran(reply: &Reply) -> u64
    ensures { (request : Request) → result ≡ length (spec.between (spec.ran_said request reply.now)) }
{
    match reply {
        Reply::Executed {
            silent,
            printed,
            shown,
            error,
            ..
        } => {
            if *silent {
                return 3;
            }
            count_cell(printed, shown, error) + 2
        }
        Reply::Info | Reply::Complete(_) | Reply::Shut { .. } => 3,
    }
}

/// How many frames tell a move that was made.
fn count_adopted(certified: &Certified) -> u64
    ensures { (request : Request) (from to objects : ℕ) → result ≡ length (spec.between (spec.adopted_said request from to certified.now objects)) }
{
    let plan = &certified.plan;
    let steps = plan.copied.as_slice().len() + plan.rerun.as_slice().len();
    count_list(steps) + count_list(certified.arcs.as_slice().len()) + 3
}

/// How many frames tell an entry.
#[tactic(auto, unfolding(crate::specs::Replies::answer_of, crate::specs::Replies::failed_said))]
pub fn frame_count(entry: &Entry) -> u64
    ensures { result ≡ spec.entry_length entry.now }
{
    match entry {
        Entry::Sealed { .. } | Entry::Moved { .. } => 0,
        Entry::Ran { reply, .. } => count_ran(reply),
        Entry::Adopted { certified, .. } => count_adopted(certified),
        Entry::Opened { .. }
        | Entry::Died { .. }
        | Entry::Dead { .. }
        | Entry::Refused { .. }
        | Entry::Resumed { .. } => 3,
    }
}
