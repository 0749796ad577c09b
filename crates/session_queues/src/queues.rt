ghost use Rattle.std.specs.Prelude.{◌≡◌, true, [], ◌∷◌, IfOk, MatchResult};
ghost use Rattle.crossbeam_queue.specs.SegTies.{IsSegPassOf};
ghost use Rattle.ruled_queue.specs.Rule.{knows, first_view};
ghost use Rattle.session_queues.specs.Items.{number_of};
ghost use Rattle.session_queues.specs.declared.items.MainItem.{MainItem};
ghost use Rattle.session_queues.specs.Ends.{pushed_first, opened_ends, first_pass, nothing_on, nothing_pushed};

use crate::ends::Ends;
use crate::items::{MainItem, MainNumbers};
use crate::outlet::Outlet;
use crate::pass::Pass;
use crate::reader::Reader;
use crate::shared::SharedQueues;
use ruled_queue::{Queue, Seat};
use session_core::{Channel, Entry, Header, Request};
use std::alloc::{AllocError, Global};
use std::marker::Model;
use std::sync::{Arc, Wait};

/// The empty queues of a session that isn't open yet, with their first passes.
#[derive(Drop)]
pub struct Queues {
    shared: Arc<SharedQueues, Global>,
    main: Seat<MainItem>,
    control: Seat<Request>,
    out: Seat<Entry>,
}

impl Model for Queues {
    ghost use Rattle.std.specs.Prelude.{◌≡◌};
    ghost use Rattle.crossbeam_queue.specs.SegTies.{IsSegPassOf};
    ghost use Rattle.ruled_queue.specs.Rule.{first_view};
    ghost use Rattle.session_queues.specs.declared.shared.SharedQueues.{SharedQueues};

    ghost Value = { SharedQueues };

    ghost view = { λ q. q.shared.value };

    ghost invariant = { λ q. (IsSegPassOf q.shared.value.main q.main × (q.main.me.view.client ≡ first_view))
        × (IsSegPassOf q.shared.value.control q.control × (q.control.me.view.client ≡ first_view))
        × (IsSegPassOf q.shared.value.out q.out × (q.out.me.view.client ≡ first_view)) };
}

/// What the opening of a session gives: the owner's ends and its outlet, the first pass and the one reader.
#[derive(Drop)]
pub struct Opened {
    pub ends: Ends,
    pub outlet: Outlet,
    pub pass: Pass,
    pub reader: Reader,
}

impl Queues {
    /// The queues of a new session.
    pub fn new(alloc: Global) -> Result<Queues, AllocError> {
        let (main, main_seat) = ruled_queue::make(alloc)?;
        let Ok((control, control_seat)) = ruled_queue::make(alloc) else {
            main.destroy();
            return Err(AllocError);
        };
        let Ok((out, out_seat)) = ruled_queue::make(alloc) else {
            main.destroy();
            control.destroy();
            return Err(AllocError);
        };
        let shared = Arc::new(alloc, SharedQueues { main, control, out })?;
        Ok(Queues {
            shared,
            main: main_seat,
            control: control_seat,
            out: out_seat,
        })
    }

    /// Another share of the queues.
    pub fn share(&self) -> Result<Arc<SharedQueues, Global>, AllocError>
        ensures { IfOk result (λ shared. shared.value ≡ self.now) }
    {
        Arc::try_clone(&self.shared)
    }

    /// Who holds the queues of a session that isn't open yet never meets an owner of that session.
    pub fn meets<R: Wait>(&mut self, rt: &R, other: Ends)
        requires { other.queues ≡ self.old }
        ensures { ⊥ }
    {
        let Ends {
            shared: _,
            main: other,
            control: _,
        } = other;
        ruled_queue::one_consumer(rt, &self.shared.main, &mut self.main, other);
    }

    /// Pushes the opening as the first item of the main queue and pops it. The queues come back for want of memory alone.
    pub fn open<R: Wait>(
        self,
        rt: &R,
        kernel: u128,
        host: u32,
        request: Header,
        channel: Channel,
    ) -> Result<Opened, Queues>
        ensures { MatchResult result (λ opened. (opened.ends ≡ opened_ends self (MainItem.Opening kernel host request channel)) × (opened.pass ≡ first_pass self (MainItem.Opening kernel host request channel)) × (opened.outlet ≡ nothing_pushed self) × (opened.reader ≡ nothing_on self)) (λ queues. queues ≡ self) }
    {
        let Queues {
            shared,
            mut main,
            control,
            out,
        } = self;
        let opening = MainItem::Opening {
            kernel,
            host,
            request,
            channel,
        };
        match ruled_queue::push(rt, &shared.main, &mut main, opening) {
            Ok(()) => Ok(separated(rt, shared, main, control, out)),
            Err(_) => Err(Queues {
                shared,
                main,
                control,
                out,
            }),
        }
    }
}

/// Pops the opening, and separates the owner, the first producer and the reader.
fn separated<R: Wait>(
    rt: &R,
    shared: Arc<SharedQueues, Global>,
    main: Seat<MainItem>,
    control: Seat<Request>,
    out: Seat<Entry>,
) -> Opened
    requires main { IsSegPassOf shared.value.main main × ((opening : MainItem) × (number_of opening ≡ 0) × (main.me.view.client ≡ pushed_first opening)) }
    requires control { IsSegPassOf shared.value.control control × (control.me.view.client ≡ first_view) }
    requires out { IsSegPassOf shared.value.out out × (out.me.view.client ≡ first_view) }
    ensures ends { (opening : MainItem) → number_of opening ≡ 0 → main.me.view.client ≡ pushed_first opening → result.ends ≡ opened_ends shared.value opening }
    ensures pass { (opening : MainItem) → number_of opening ≡ 0 → main.me.view.client ≡ pushed_first opening → result.pass ≡ first_pass shared.value opening }
    ensures outlet { result.outlet ≡ nothing_pushed shared.value }
    ensures reader { result.reader ≡ nothing_on shared.value }
{
    let mut main = main;
    let mut control = control;
    let mut out = out;
    pop_opening(rt, &shared.main, &mut main);
    let main_consumer = ruled_queue::split_consumer(&shared.main, &mut main);
    let control_consumer = ruled_queue::split_consumer(&shared.control, &mut control);
    let out_consumer = ruled_queue::split_consumer(&shared.out, &mut out);
    let pass = Pass {
        main,
        control,
        number: 0,
        given: 1,
    };
    let reader = Reader {
        out: out_consumer,
        taken: 0,
    };
    let outlet = Outlet {
        out,
        count: 0,
        closed: false,
    };
    let ends = Ends {
        shared,
        main: main_consumer,
        control: control_consumer,
    };
    Opened {
        ends,
        outlet,
        pass,
        reader,
    }
}

fn pop_opening<R: Wait>(rt: &R, queue: &Queue<MainItem, MainNumbers>, seat: &mut Seat<MainItem>)
    requires queue { IsSegPassOf queue.now seat.old }
    requires view { (opening : MainItem) × (number_of opening ≡ 0) × (seat.old.me.view.client ≡ pushed_first opening) }
    ensures queue { IsSegPassOf queue.now seat.new }
    ensures popped { (opening : MainItem) → number_of opening ≡ 0 → seat.old.me.view.client ≡ pushed_first opening
        → seat.new.me.view.client ≡ knows true (opening ∷ []) ((0, opening ∷ []) ∷ []) 1 }
{
    let _ = ruled_queue::pop(rt, queue, seat);
}
