use crossbeam_queue::protocol::{Join, Lesson, Outcome, Protocol, Split};
use std::collections::LinkedList;
use std::marker::PhantomData;

/// How the items of a queue are numbered, and which may be in it.
pub trait Numbering<T> {
    ghost use Rattle.std.specs.Prelude.{ℕ, Bool};

    // The number under which an item is pushed.
    ghost number: { T → ℕ };

    // It may be in the queue.
    ghost is_fit: { T → Type 0 };

    // It may only come first.
    ghost opens: { T → Bool };
}

/// What a pass knows of its queue. No value of it is ever made.
pub struct View<T> {
    /// Whether it may pop.
    pub pops: bool,
    /// What it popped, in order.
    pub popped: LinkedList<T>,
    /// Its numbers, each with what was pushed under it.
    pub lists: LinkedList<(u32, LinkedList<T>)>,
    /// How many numbers were given, if it has number 0.
    pub given: u32,
    /// How often it found the queue empty, as far as that was counted.
    pub looks: u64,
}

/// The rule of a queue.
pub struct Ruled<N> {
    numbering: PhantomData<N>,
}

impl<T, N: Numbering<T>> Protocol<T, View<T>> for Ruled<N> {
    ghost use Rattle.ruled_queue.specs.Rule.{Kept, first_view};

    ghost holds = { Kept N.number N.is_fit N.opens };

    ghost first = { first_view };
}

/// A push tells that its number's list grew.
pub struct Pushed<N> {
    numbering: PhantomData<N>,
}

impl<T, N: Numbering<T>> Outcome<T, View<T>> for Pushed<N> {
    ghost use Rattle.std.specs.Prelude.{◌≡◌};
    ghost use Rattle.ruled_queue.specs.Rule.{grown};

    ghost then = { λ v x w. w ≡ grown N.number v x };
}

/// A pop tells what it took, and an empty look that nothing waits.
pub struct Popped<N> {
    numbering: PhantomData<N>,
}

impl<T, N: Numbering<T>> Outcome<T, View<T>> for Popped<N> {
    ghost use Rattle.ruled_queue.specs.Rule.{Took};

    ghost then = { Took N.number N.is_fit N.opens };
}

impl<T, N: Numbering<T>> Lesson<T, View<T>> for Popped<N> {
    ghost use Rattle.ruled_queue.specs.Rule.{Waits};

    ghost fact = { Waits N.number };
}

/// The consumer's role is split off: one pass pops, and the other keeps the numbers.
pub struct Roles;

impl<T> Split<View<T>> for Roles {
    ghost use Rattle.ruled_queue.specs.Rule.{producer_part, consumer_part};

    ghost left = { producer_part };

    ghost right = { consumer_part };
}

/// The next number is split off.
pub struct NextNumber;

impl<T> Split<View<T>> for NextNumber {
    ghost use Rattle.ruled_queue.specs.Rule.{gave_number, next_number};

    ghost left = { gave_number };

    ghost right = { next_number };
}

/// A pass takes in the numbers of another.
pub struct PassNumbers;

impl<T> Join<View<T>> for PassNumbers {
    ghost use Rattle.ruled_queue.specs.Rule.{joined, spent_view};

    ghost both = { joined };

    ghost spent = { spent_view };
}

/// A pass that knows nothing is split off, and taken in again as one look that found the queue empty.
pub struct EmptyLook;

impl<T> Split<View<T>> for EmptyLook {
    ghost use Rattle.ruled_queue.specs.Rule.{spent_view};

    ghost left = { λ v. v };

    ghost right = { λ v. spent_view };
}

impl<T> Join<View<T>> for EmptyLook {
    ghost use Rattle.ruled_queue.specs.Rule.{looked, spent_view};

    ghost both = { λ v w. looked v };

    ghost spent = { spent_view };
}

/// Two consumers would meet.
pub struct Consumers;

impl<T> Join<View<T>> for Consumers {
    ghost use Rattle.ruled_queue.specs.Rule.{impossible, spent_view};

    ghost both = { λ v w. impossible };

    ghost spent = { spent_view };
}

/// What never happens.
pub struct Never;

impl<T> Outcome<T, View<T>> for Never {
    ghost then = { λ v x w. ⊥ };
}

impl<T> Lesson<T, View<T>> for Never {
    ghost fact = { λ v items. ⊥ };
}
