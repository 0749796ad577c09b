ghost use Rattle.std.specs.Prelude.{◌≡◌, ◌≢◌, ◌<◌, [], cond, true, List, MatchOption, MatchResult};
ghost use Rattle.crossbeam_queue.specs.SegTies.{IsSegPassOf};
ghost use Rattle.ruled_queue.specs.Rule.{Waits};
ghost use Rattle.session_core.specs.Asks.{is_control};
ghost use Rattle.session_queues.specs.Passes.{IsPassOf, KeepsAll};
ghost use Rattle.session_queues.specs.Ends.{FoundNothing, HasWaiting, looked_at_both, TookRequest, gathered, admitted_main, admitted_control};

use crate::items::MainItem;
use crate::pass::{Pass, push_main};
use crate::shared::SharedQueues;
use ruled_queue::{Numbering, Queue, Seat};
use session_core::Request;
use std::alloc::Global;
use std::marker::Model;
use std::sync::{Arc, Wait};

/// The owner's ends of a session's queues: it pops requests of main and control.
#[derive(Drop)]
pub struct Ends {
    pub(crate) shared: Arc<SharedQueues, Global>,
    pub(crate) main: Seat<MainItem>,
    pub(crate) control: Seat<Request>,
}

impl Model for Ends {
    ghost use Rattle.std.specs.Prelude.{◌≡◌, true};
    ghost use Rattle.crossbeam_queue.specs.SegTies.{IsSegPassOf};
    ghost use Rattle.session_queues.specs.Ends.{Held};

    ghost Value = { Held };

    ghost view = { λ e. record { queues = e.shared.value; main = e.main.me.view.client; control = e.control.me.view.client } };

    ghost invariant = { λ e. (IsSegPassOf e.shared.value.main e.main × (e.main.me.view.client.pops ≡ true))
        × (IsSegPassOf e.shared.value.control e.control × (e.control.me.view.client.pops ≡ true))
        × (e.control.me.view.client.given ≡ e.main.me.view.client.given) };
}

impl Ends {
    /// Another share of the queues.
    pub fn shared(&self) -> &SharedQueues
        ensures { result.now ≡ self.now.queues }
    {
        &self.shared
    }

    /// Pops the front of the control queue, or else of the main queue. None if each of the two was found empty at a step of
    /// this call. Each queue that was found empty counts one empty look more. Takes no memory.
    pub fn pop<R: Wait>(&mut self, rt: &R) -> Option<Request>
        requires { self.old.main.popped ≢ [] }
        ensures { MatchOption result ((self.new ≡ looked_at_both self.old) × FoundNothing self.old) (λ request. TookRequest self.old request self.new) }
    {
        if let Some(request) = ruled_queue::pop_or_count(
            rt,
            &self.shared.control,
            &mut self.control,
        ) {
            return Some(request);
        }
        match ruled_queue::pop_or_count(rt, &self.shared.main, &mut self.main) {
            None => None,
            Some(MainItem::Asked(request)) => Some(request),
            Some(MainItem::Opening { .. }) => unreachable!(),
        }
    }

    /// Pushes a request on the queue that it belongs to. All passes have to be joined before. The request comes back for want of
    /// memory alone.
    pub fn admit<R: Wait>(&mut self, rt: &R, request: Request) -> Result<(), Request>
        requires whole { KeepsAll self.old.main × KeepsAll self.old.control }
        requires given { request.frontend < self.old.main.given }
        ensures { MatchResult result (λ _. self.new ≡ cond (is_control request) (admitted_control self.old request) (admitted_main self.old request)) (λ r. (r ≡ request) × (self.new ≡ self.old)) }
    {
        if request.is_control() {
            ruled_queue::push(rt, &self.shared.control, &mut self.control, request)
        } else {
            push_main(rt, &self.shared, &mut self.main, request)
        }
    }

    /// Takes in what a producer's pass holds. Takes no memory.
    pub fn join(&mut self, pass: Pass)
        requires { IsPassOf self.old.queues pass }
        ensures { self.new ≡ gathered self.old pass }
    {
        let Pass {
            main,
            control,
            number: _,
            given: _,
        } = pass;
        ruled_queue::join(&self.shared.main, &mut self.main, main);
        ruled_queue::join(&self.shared.control, &mut self.control, control);
    }

    /// Lets the ends go, with all that waits. What was popped before is the front of each list that is kept here. Takes no memory.
    pub fn let_go<R: Wait>(self, rt: &R)
        ensures { HasWaiting self }
    {
        let Ends {
            shared,
            main,
            control,
        } = self;
        let mut main = main;
        let mut control = control;
        drop_waiting(rt, &shared.main, &mut main);
        drop_waiting(rt, &shared.control, &mut control);
    }

    /// Two owners of one session never meet.
    pub fn meets<R: Wait>(&mut self, rt: &R, other: Ends)
        requires { other.queues ≡ self.old.queues }
        ensures { ⊥ }
    {
        let Ends {
            shared: _,
            main: other,
            control: _,
        } = other;
        ruled_queue::one_consumer(rt, &self.shared.main, &mut self.main, other);
    }
}

/// Drops all that is queued.
fn drop_waiting<T: Drop, N: Numbering<T>, R: Wait>(rt: &R, queue: &Queue<T, N>, seat: &mut Seat<T>)
    requires queue { IsSegPassOf queue.now seat.old }
    requires consumer { seat.old.me.view.client.pops ≡ true }
    ensures { (items : List T) × Waits N.number seat.old.me.view.client items }
{
    for _ in rt.forever() {
        if !ruled_queue::pop_and_drop(rt, queue, seat) {
            return;
        }
    }
    unreachable!()
}
