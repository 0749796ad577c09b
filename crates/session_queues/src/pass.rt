ghost use Rattle.std.specs.Prelude.{◌≡◌, ◌+◌, ◌<◌, ◌^◌, List, false, MatchResult};
ghost use Rattle.crossbeam_queue.specs.SegTies.{IsSegPassOf};
ghost use Rattle.ruled_queue.specs.Rule.{Keeps, grown};
ghost use Rattle.session_core.specs.Asks.{is_control};
ghost use Rattle.session_queues.specs.declared.items.MainItem.{MainItem};
ghost use Rattle.session_queues.specs.declared.items.MainItem.TheVariants.{Asked};
ghost use Rattle.session_queues.specs.Items.{number_of};
ghost use Rattle.session_queues.specs.Passes.{IsPassOf, admitted_by, parted, next_pass, taking_in};

use crate::items::MainItem;
use crate::shared::SharedQueues;
use ruled_queue::Seat;
use session_core::Request;
use std::marker::Model;
use std::sync::Wait;

/// A producer's pass on the main and the control queue. The requests that it admits have its number for their frontend.
#[derive(Drop)]
pub struct Pass {
    pub(crate) main: Seat<MainItem>,
    pub(crate) control: Seat<Request>,
    pub(crate) number: u32,
    /// How many numbers were given, if it has number 0. The count is right as long as it is below 2^32.
    pub(crate) given: u32,
}

impl Model for Pass {
    ghost use Rattle.std.specs.Prelude.{◌≡◌, false, [], None, List};
    ghost use Rattle.ruled_queue.specs.Rule.{Keeps};
    ghost use Rattle.session_core.specs.declared.request.Request.{Request};
    ghost use Rattle.session_queues.specs.declared.items.MainItem.{MainItem};
    ghost use Rattle.session_queues.specs.Passes.{Producer, Counts};

    ghost Value = { Producer };

    ghost view = { λ p. record { main_queue = record { web = p.main.web; heap = p.main.heap }; control_queue = record { web = p.control.web; heap = p.control.heap }; number = p.number; main = p.main.me.view.client; control = p.control.me.view.client } };

    ghost invariant = { λ p. ((p.main.me.hand ≡ None) × (p.main.me.spare ≡ None) × (p.control.me.hand ≡ None) × (p.control.me.spare ≡ None))
        × ((p.main.me.view.client.pops ≡ false) × (p.control.me.view.client.pops ≡ false))
        × ((l : List MainItem) × Keeps p.number l p.main.me.view.client.lists)
        × ((l : List Request) × Keeps p.number l p.control.me.view.client.lists)
        × (Counts p.given p.main.me.view.client.given × (p.control.me.view.client.given ≡ p.main.me.view.client.given)) };
}

impl Pass {
    /// Its number.
    pub fn number(&self) -> u32
        ensures { result ≡ self.now.number }
    {
        self.number
    }

    /// Pushes a request on the queue that it belongs to. It comes back for want of memory alone.
    pub fn admit<R: Wait>(
        &mut self,
        rt: &R,
        shared: &SharedQueues,
        request: Request,
    ) -> Result<(), Request>
        requires pass { IsPassOf shared.now self.old }
        requires number { request.frontend ≡ self.old.number }
        ensures { MatchResult result (λ _. self.new ≡ admitted_by self.old request) (λ r. (r ≡ request) × (self.new ≡ self.old)) }
    {
        if request.is_control() {
            ruled_queue::push(rt, &shared.control, &mut self.control, request)
        } else {
            push_main(rt, shared, &mut self.main, request)
        }
    }

    /// A pass with the next number. A pass that was split off isn't split again.
    pub fn split(&mut self, shared: &SharedQueues) -> Pass
        requires pass { IsPassOf shared.now self.old }
        requires first { (0 < self.old.main.given) × (self.old.main.given + 1 < 2 ^ 32) }
        ensures old { self.new ≡ parted self.old }
        ensures new { result ≡ next_pass self.old }
    {
        let main = ruled_queue::split_number(&shared.main, &mut self.main);
        let control = ruled_queue::split_number(&shared.control, &mut self.control);
        let number = self.given;
        self.given += 1;
        Pass {
            main,
            control,
            number,
            given: 0,
        }
    }

    /// Takes in the lists of the other pass.
    pub fn join(&mut self, shared: &SharedQueues, other: Pass)
        requires passes { IsPassOf shared.now self.old × IsPassOf shared.now other }
        ensures { self.new ≡ taking_in self.old other }
    {
        let Pass {
            main,
            control,
            number: _,
            given,
        } = other;
        ruled_queue::join(&shared.main, &mut self.main, main);
        ruled_queue::join(&shared.control, &mut self.control, control);
        self.given = self.given.wrapping_add(given);
    }
}

/// Pushes a request on the main queue.
pub(crate) fn push_main<R: Wait>(
    rt: &R,
    shared: &SharedQueues,
    seat: &mut Seat<MainItem>,
    request: Request,
) -> Result<(), Request>
    requires queue { IsSegPassOf shared.now.main seat.old }
    requires main { is_control request ≡ false }
    requires number { (l : List MainItem) × Keeps request.frontend l seat.old.me.view.client.lists }
    ensures queue { IsSegPassOf shared.now.main seat.new }
    ensures done { MatchResult result (λ _. seat.new.me.view.client ≡ grown number_of seat.old.me.view.client (Asked request)) (λ r. (r ≡ request) × (seat.new.me.view.client ≡ seat.old.me.view.client)) }
{
    match ruled_queue::push(rt, &shared.main, seat, MainItem::Asked(request)) {
        Ok(()) => Ok(()),
        Err(MainItem::Asked(request)) => Err(request),
        Err(MainItem::Opening { .. }) => unreachable!(),
    }
}
