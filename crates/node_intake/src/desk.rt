ghost use Rattle.std.specs.Prelude.{◌≡◌, ◌<◌, [], ◌∷◌, ◌++◌, List, length, slice_get, slice_set, Some, OnOk, OnErr};
ghost use Rattle.node_intake.specs.Intake as spec;
ghost use Rattle.node_intake.specs.Intake.{Taken};
ghost use Rattle.node_intake.specs.Sessions.{new_session, with_more};

use session_core::{Channel, Header, Request};
use std::alloc::{AllocError, Global};

/// Where sessions are opened and requests are handed in.
pub trait Desk: Drop {
    ghost use Rattle.std.specs.Prelude.{ℕ, List};
    ghost use Rattle.node_intake.specs.Intake.{Taken};

    // These are the sessions that were opened here, in order, with what was handed in for each.
    ghost holds: { Self → List Taken → Type 0 };

    // How many sessions were opened here.
    ghost count: { Self → ℕ };

    // How many requests were handed in for the session at this index.
    ghost asked: { Self → ℕ → ℕ };

    // A session can be opened on this host.
    ghost is_host: { ℕ → Type 0 };

    // What is kept from a desk to what it became, whatever was opened and handed in between.
    ghost keeps: { Self → Self → Type 0 };

    ghost keeps_all: { (d : Self) → keeps d d };

    ghost keeps_on: { (d e f : Self) → keeps d e → keeps e f → keeps d f };

    /// How many sessions were opened.
    fn sessions(&self) -> usize
        ensures count { result ≡ count self.now }
        ensures all { (ts : List Taken) → holds self.now ts → length ts ≡ result };

    /// The kernel of the session at that index.
    fn kernel(&self, at: usize) -> u128
        requires { at < count self.now }
        ensures { (ts : List Taken) (s : Taken) → holds self.now ts → slice_get ts at ≡ Some s → result ≡ s.kernel };

    /// How many requests were handed in for the session at that index.
    fn requests(&self, at: usize) -> usize
        requires { at < count self.now }
        ensures asked { result ≡ asked self.now at }
        ensures all { (ts : List Taken) (s : Taken) → holds self.now ts → slice_get ts at ≡ Some s → length s.requests ≡ result };

    /// Opens a session after the others. After an error the sessions are as before.
    fn open(
        &mut self,
        alloc: Global,
        kernel: u128,
        host: u32,
        request: Header,
        channel: Channel,
    ) -> Result<(), AllocError>
        requires host { is_host host }
        requires room { count self.old < spec.most_sessions }
        ensures ok { OnOk result ((ts : List Taken) → holds self.old ts → holds self.new (ts ++ new_session kernel host request channel ∷ [])) }
        ensures err { OnErr result ((ts : List Taken) → holds self.old ts → holds self.new ts) }
        ensures kept { keeps self.old self.new };

    /// Hands in a request of frontend 0, after the others of the session at that index. After an error the sessions are as before.
    fn admit(&mut self, at: usize, request: Request) -> Result<(), AllocError>
        requires at { at < count self.old }
        requires frontend { request.frontend ≡ 0 }
        requires few { asked self.old at < spec.most_requests }
        ensures ok { OnOk result ((ts : List Taken) (s : Taken) → holds self.old ts → slice_get ts at ≡ Some s → holds self.new (slice_set ts at (with_more s request))) }
        ensures err { OnErr result ((ts : List Taken) → holds self.old ts → holds self.new ts) }
        ensures kept { keeps self.old self.new };

    /// Wakes who waits for what was opened and handed in. It is called once all frames that came are taken in.
    fn notify(&self);
}
