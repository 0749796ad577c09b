ghost use Rattle.std.specs.Prelude.{◌≡◌, ◌≤◌, Bool, IsTrue, IfOk, List, Some, OnOk};
ghost use Rattle.nb_outside.specs.declared.feed.Drawn.{Drawn};
ghost use Rattle.nb_outside.specs.Counts.{HasRisen};
ghost use Rattle.nb_outside.specs.Feeds.{Fed};
ghost use Rattle.py_tree.specs.declared.statements.Def.{Def};
ghost use Rattle.py_heap.specs.States.{empty};
ghost use Rattle.py_heap.specs.Valid.{IsValidBy};
ghost use Rattle.py_laws.specs.Allowed.{AreAllowedBy};
ghost use Rattle.py_meaning.specs.Cells as spec;

use crate::cell::run_cell;
use nb_outside::Feed;
use py_heap::{METER_LIMIT, State};
use py_meaning::{CellEnd, CellError};
use py_tree::Stmt;
use std::alloc::{AllocError, Global};
use std::marker::Model;

/// A kernel: the state of a session, on which its cells run, and the number of the host on which its handles are open.
#[derive(Drop)]
pub struct Kernel {
    state: State,
    host: u32,
}

impl Model for Kernel {
    ghost use Rattle.std.specs.Prelude.{ℕ, refl};
    ghost use Rattle.std.specs.Coded.{code_by, coded×, coded_ℕ};
    ghost use Rattle.py_heap.specs.declared.state.State.{State as StateOf};
    ghost use Rattle.py_heap.specs.contracts.state.State as session;
    ghost use Rattle.py_kernel.specs.Kernels.{KernelView};

    ghost Value = { KernelView };

    ghost coded = { code_by (StateOf × ℕ) (coded× session.the_row.coded coded_ℕ) (λ k. (k.state, k.host)) (λ p. record { state = p.0; host = p.1 }) (λ _. refl) };

    ghost view = { λ k. record { state = k.state; host = k.host } };
}

impl Kernel {
    /// A kernel in the empty state on this host. Takes no memory.
    pub fn new(alloc: Global, host: u32) -> Kernel
        ensures state { result.state ≡ empty }
        ensures host { result.host ≡ host }
    {
        Kernel::of(State::new(alloc), host)
    }

    /// A kernel with this state, whose handles are open on that host. Takes no memory.
    pub fn of(state: State, host: u32) -> Kernel
        ensures state { result.state ≡ state }
        ensures host { result.host ≡ host }
    {
        Kernel { state, host }
    }

    /// The kernel's state, as it stands. Takes no memory.
    pub fn into_state(self) -> State
        ensures { result ≡ self.state }
    {
        let Kernel { state, .. } = self;
        state
    }

    /// The state.
    pub fn state(&self) -> &State
        ensures { result.now ≡ self.now.state }
    {
        &self.state
    }

    /// The host on which its handles are open.
    pub fn host(&self) -> u32
        ensures { result ≡ self.now.host }
    {
        self.host
    }

    /// Sets the count of cells. Takes no memory.
    pub fn set_count(&mut self, n: u32)
        ensures state { self.new.state ≡ record self.old.state { count = n } }
        ensures host { self.new.host ≡ self.old.host }
    {
        self.state.set_count(n);
    }

    /// Sets the units spent. Takes no memory.
    pub fn set_meter(&mut self, n: u32)
        requires { n ≤ METER_LIMIT }
        ensures state { self.new.state ≡ record self.old.state { meter = n } }
        ensures host { self.new.host ≡ self.old.host }
    {
        self.state.set_meter(n);
    }

    /// Runs a cell with this tree, and draws from the feed. A Python error is an end of the cell, and what the cell did before
    /// stays. The count is the caller's. After an `Err`, which is want of memory, the kernel means nothing and may only be
    /// dropped. (Python language reference, in the subset of docs/LANGUAGE.md.)
    pub fn run_cell<F: Feed>(
        &mut self,
        alloc: Global,
        body: &[Stmt],
        feed: &mut F,
    ) -> Result<CellEnd, AllocError>
        // The end and the state are the meaning's, under just the draws that are recorded.
        ensures used { IfOk result (λ end. spec.UsesUp body.now self.old.state end.draws) }
        ensures end { IfOk result (λ end. end ≡ spec.end body.now self.old.state end.draws) }
        ensures state { IfOk result (λ end. self.new.state ≡ spec.end_state body.now self.old.state end.draws) }
        ensures host { self.new.host ≡ self.old.host }
        // A valid state stays valid, whatever test its functions have to pass, if the statements, and those of each function that
        // passes it, bind only names that a program may bind and define only functions that pass it.
        ensures valid { OnOk result ((test : Def → Bool) → AreAllowedBy test body.now → ((def : Def) → IsTrue (test def) → AreAllowedBy test def.body)
            → IsValidBy test self.old.state → IsValidBy test self.new.state) }

        // These are what the feed gave in this call, and it gave no others.
        ensures fed { IfOk result (λ end. Fed (F.seen feed.old) end.draws (F.seen feed.new)) }
        ensures taken { (draws : List Drawn) × Fed (F.seen feed.old) draws (F.seen feed.new) }
        ensures feed_error { IfOk result (λ end. end.error ≡ Some CellError.Feed → HasRisen (F.seen feed.old).faults (F.seen feed.new).faults) }
    {
        run_cell(alloc, &mut self.state, body, feed)
    }
}
