ghost use Rattle.std.specs.Prelude.{◌≡◌, ◌<◌, [], true, false, IfOk, MatchBool, MatchOption, MatchResult};
ghost use Rattle.crossbeam_queue.specs.SegTies.{IsSegPassOf};
ghost use Rattle.ruled_queue.specs.Rule.{first_view, producer_part, consumer_part, gave_number, next_number, joined, looked, impossible, grown, Took, MayPush, Waits};

use crate::rule::{
    Consumers, EmptyLook, Never, NextNumber, Numbering, PassNumbers, Popped, Pushed, Roles, Ruled,
    View,
};
use crossbeam_queue::{RuledSegQueue, SegPass};
use std::alloc::{AllocError, Global};
use std::sync::Wait;

/// A queue under the rule.
pub type Queue<T, N> = RuledSegQueue<T, View<T>, Ruled<N>>;

/// A thread's pass on a queue under the rule.
pub type Seat<T> = SegPass<T, View<T>>;

/// An empty queue. The seat has number 0 and is the consumer's.
pub fn make<T, N: Numbering<T>>(alloc: Global) -> Result<(Queue<T, N>, Seat<T>), AllocError>
    ensures { IfOk result (λ made. IsSegPassOf made.0 made.1 × (made.1.me.view.client ≡ first_view)) }
{
    Queue::with_rule(alloc)
}

/// Pushes an item under its number. It comes back for want of memory alone, and then nothing has changed.
pub fn push<T: Drop, N: Numbering<T>, R: Wait>(
    rt: &R,
    queue: &Queue<T, N>,
    seat: &mut Seat<T>,
    item: T,
) -> Result<(), T>
    requires queue { IsSegPassOf queue.now seat.old }
    requires may { MayPush N.number N.is_fit N.opens seat.old.me.view.client item }
    ensures queue { IsSegPassOf queue.now seat.new }
    ensures done { MatchResult result (λ _. seat.new.me.view.client ≡ grown N.number seat.old.me.view.client item) (λ x. (x ≡ item) × (seat.new.me.view.client ≡ seat.old.me.view.client)) }
{
    queue.push_as::<Pushed<N>, R>(rt, seat, item)
}

/// Pops the front. None if the queue was found empty at a step of this call.
pub fn pop<T: Drop, N: Numbering<T>, R: Wait>(
    rt: &R,
    queue: &Queue<T, N>,
    seat: &mut Seat<T>,
) -> Option<T>
    requires queue { IsSegPassOf queue.now seat.old }
    requires consumer { seat.old.me.view.client.pops ≡ true }
    ensures queue { IsSegPassOf queue.now seat.new }
    ensures done { MatchOption result ((seat.new.me.view.client ≡ seat.old.me.view.client) × Waits N.number seat.old.me.view.client []) (λ x. Took N.number N.is_fit N.opens seat.old.me.view.client x seat.new.me.view.client) }
{
    queue.pop_as::<Popped<N>, R>(rt, seat)
}

/// Pops the front. None if the queue was found empty at a step of this call, and then the seat has counted one empty look more.
pub fn pop_or_count<T: Drop, N: Numbering<T>, R: Wait>(
    rt: &R,
    queue: &Queue<T, N>,
    seat: &mut Seat<T>,
) -> Option<T>
    requires queue { IsSegPassOf queue.now seat.old }
    requires consumer { seat.old.me.view.client.pops ≡ true }
    ensures queue { IsSegPassOf queue.now seat.new }
    ensures done { MatchOption result ((seat.new.me.view.client ≡ looked seat.old.me.view.client) × Waits N.number seat.old.me.view.client []) (λ x. Took N.number N.is_fit N.opens seat.old.me.view.client x seat.new.me.view.client) }
{
    match pop(rt, queue, seat) {
        Some(item) => Some(item),
        None => {
            count_look(queue, seat);
            None
        }
    }
}

/// Counts an empty look.
fn count_look<T, N: Numbering<T>>(queue: &Queue<T, N>, seat: &mut Seat<T>)
    requires queue { IsSegPassOf queue.now seat.old }
    ensures queue { IsSegPassOf queue.now seat.new }
    ensures counted { seat.new.me.view.client ≡ looked seat.old.me.view.client }
{
    let spent = queue.another::<EmptyLook>(seat);
    queue.absorb::<EmptyLook>(seat, spent);
}

/// Pushes an item under its number, or lets it go for want of memory.
pub fn push_or_drop<T: Drop, N: Numbering<T>, R: Wait>(
    rt: &R,
    queue: &Queue<T, N>,
    seat: &mut Seat<T>,
    item: T,
) -> Result<(), AllocError>
    requires queue { IsSegPassOf queue.now seat.old }
    requires may { MayPush N.number N.is_fit N.opens seat.old.me.view.client item }
    ensures queue { IsSegPassOf queue.now seat.new }
    ensures done { MatchResult result (λ _. seat.new.me.view.client ≡ grown N.number seat.old.me.view.client item) (λ _. seat.new.me.view.client ≡ seat.old.me.view.client) }
{
    match push(rt, queue, seat, item) {
        Ok(()) => Ok(()),
        Err(_item) => Err(AllocError),
    }
}

/// Pops the front and lets it go. Whether there was one; if not, the queue was found empty at a step of this call.
pub fn pop_and_drop<T: Drop, N: Numbering<T>, R: Wait>(
    rt: &R,
    queue: &Queue<T, N>,
    seat: &mut Seat<T>,
) -> bool
    requires queue { IsSegPassOf queue.now seat.old }
    requires consumer { seat.old.me.view.client.pops ≡ true }
    ensures queue { IsSegPassOf queue.now seat.new }
    ensures done { MatchBool result ((x : T) × Took N.number N.is_fit N.opens seat.old.me.view.client x seat.new.me.view.client)
        ((seat.new.me.view.client ≡ seat.old.me.view.client) × Waits N.number seat.old.me.view.client []) }
{
    match pop(rt, queue, seat) {
        Some(_item) => true,
        None => false,
    }
}

/// Splits off a seat that is the consumer's. The old one keeps the numbers and no longer pops.
pub fn split_consumer<T, N: Numbering<T>>(queue: &Queue<T, N>, seat: &mut Seat<T>) -> Seat<T>
    requires queue { IsSegPassOf queue.now seat.old }
    requires consumer { seat.old.me.view.client.pops ≡ true }
    ensures queue { IsSegPassOf queue.now seat.new × IsSegPassOf queue.now result }
    ensures producer { seat.new.me.view.client ≡ producer_part seat.old.me.view.client }
    ensures consumer { result.me.view.client ≡ consumer_part seat.old.me.view.client }
{
    queue.another::<Roles>(seat)
}

/// Splits off a seat with the next number.
pub fn split_number<T, N: Numbering<T>>(queue: &Queue<T, N>, seat: &mut Seat<T>) -> Seat<T>
    requires queue { IsSegPassOf queue.now seat.old }
    requires first { 0 < seat.old.me.view.client.given }
    ensures queue { IsSegPassOf queue.now seat.new × IsSegPassOf queue.now result }
    ensures old { seat.new.me.view.client ≡ gave_number seat.old.me.view.client }
    ensures new { result.me.view.client ≡ next_number seat.old.me.view.client }
{
    queue.another::<NextNumber>(seat)
}

/// Takes in the numbers of a producer.
pub fn join<T, N: Numbering<T>>(queue: &Queue<T, N>, seat: &mut Seat<T>, other: Seat<T>)
    requires queue { IsSegPassOf queue.now seat.old × IsSegPassOf queue.now other }
    requires producer { other.me.view.client.pops ≡ false }
    ensures queue { IsSegPassOf queue.now seat.new }
    ensures view { seat.new.me.view.client ≡ joined seat.old.me.view.client other.me.view.client }
{
    queue.absorb::<PassNumbers>(seat, other);
}

/// A queue has one consumer: two seats that pop are never both of one queue.
pub fn one_consumer<T: Drop, N: Numbering<T>, R: Wait>(
    rt: &R,
    queue: &Queue<T, N>,
    seat: &mut Seat<T>,
    other: Seat<T>,
)
    requires queue { IsSegPassOf queue.now seat.old × IsSegPassOf queue.now other }
    requires consumers { (seat.old.me.view.client.pops ≡ true) × (other.me.view.client.pops ≡ true) }
    ensures { ⊥ }
{
    queue.absorb::<Consumers>(seat, other);
    let _ = queue.pop_as::<Never, R>(rt, seat);
}
