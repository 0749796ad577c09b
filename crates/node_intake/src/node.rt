//! What was taken in so far, and one message more.

ghost use Rattle.std.specs.Prelude.{◌≡◌, ◌<◌, List, [], ◌∷◌, ◌++◌, length, map, nat_le, slice_get, Some, None, true, Ok, MatchOption, OnOk, OnErr};
ghost use Rattle.jupyter_messages.specs.Outcomes.{is_told};
ghost use Rattle.node_intake.specs.Intake as spec;
ghost use Rattle.node_intake.specs.Intake.{Taken, Node};
ghost use Rattle.node_intake.specs.Sessions.{IsAt, HasHosts, new_session};
ghost use Rattle.node_intake.specs.Standing.{StandsFor, Becomes, BecomesFront, HasKept};

use crate::desk::Desk;
use crate::reading::Read;
use jupyter_messages::{Message, MessageFault, MessageKind};
use plain_data::Text;
use reply_frames::{About, NodeError, NodeErrorKind};
use session_core::{Ask, Channel, Header, Request};
use std::alloc::{AllocError, Global};

/// The desk with its sessions, and the errors so far.
#[derive(Drop)]
pub struct Intake<D> {
    pub desk: D,
    pub errors: Vec<NodeError>,
}

/// The most sessions of a node.
const MOST_SESSIONS: usize = 256;

/// The most requests of a session.
const MOST_REQUESTS: usize = 65_536;

/// The index of this kernel's session, if there is one.
fn index_of<D: Desk>(desk: &D, kernel: u128) -> Option<usize>
    ensures { MatchOption result ((ts : List Taken) → D.holds desk.now ts → spec.session_of kernel ts ≡ None)
        (λ at. (at < D.count desk.now) × ((ts : List Taken) → D.holds desk.now ts → IsAt ts kernel at)) }
{
    for at in 0..desk.sessions() {
        if desk.kernel(at) == kernel {
            return Some(at);
        }
    }
    None
}

/// Whether the session at that index has as many requests as it may have.
fn is_full<D: Desk>(desk: &D, at: usize) -> bool
    requires { at < D.count desk.now }
    ensures full { result ≡ nat_le spec.most_requests (D.asked desk.now at) }
    ensures asked { (ts : List Taken) (s : Taken) → D.holds desk.now ts → slice_get ts at ≡ Some s → length s.requests ≡ D.asked desk.now at }
{
    MOST_REQUESTS <= desk.requests(at)
}

impl<D: Desk> Intake<D> {
    /// Nothing was taken in.
    pub fn new(alloc: Global, desk: D) -> Intake<D>
        requires { D.holds desk [] }
        ensures { StandsFor D.holds result spec.no_sessions }
    {
        Intake {
            desk,
            errors: Vec::new(alloc),
        }
    }

    fn fail(&mut self, kind: NodeErrorKind, about: Option<About>) -> Result<(), AllocError>
        ensures node { OnOk result (Becomes D.holds (λ node. spec.failed node kind about) self.old self.new) }
        ensures err { OnErr result (Becomes D.holds (λ node. node) self.old self.new) }
        ensures kept { HasKept D.keeps self.old self.new }
    {
        self.errors.push(NodeError { kind, about })?;
        Ok(())
    }

    /// An error about a message of this kernel.
    fn fail_about(
        &mut self,
        kind: NodeErrorKind,
        kernel: u128,
        header: Header,
    ) -> Result<(), AllocError>
        ensures node { OnOk result (Becomes D.holds (λ node. spec.failed node kind (Some (record { kernel = kernel; header = header }))) self.old self.new) }
        ensures err { OnErr result (Becomes D.holds (λ node. node) self.old self.new) }
        ensures kept { HasKept D.keeps self.old self.new }
    {
        self.fail(kind, Some(About { kernel, header }))
    }

    /// Opens a session on a host that is there, if its kernel has none.
    fn begin(
        &mut self,
        alloc: Global,
        kernel: u128,
        host: u32,
        header: Header,
        channel: Channel,
    ) -> Result<(), AllocError>
        requires host { D.is_host host }
        requires room { D.count self.old.desk < spec.most_sessions }
        ensures node { OnOk result ((node : Node) → StandsFor D.holds self.old node → spec.session_of kernel node.sessions ≡ None
            → StandsFor D.holds self.new (record node { sessions = node.sessions ++ new_session kernel host header channel ∷ [] })) }
        ensures err { OnErr result (Becomes D.holds (λ node. node) self.old self.new) }
        ensures kept { HasKept D.keeps self.old self.new }
    {
        self.desk.open(alloc, kernel, host, header, channel)
    }

    /// Opens a session, if its kernel has none, the host is there and less than 256 sessions are open.
    fn open_new(
        &mut self,
        alloc: Global,
        hosts: u32,
        host: u64,
        kernel: u128,
        header: Header,
        channel: Channel,
    ) -> Result<(), AllocError>
        requires hosts { HasHosts D.is_host hosts }
        ensures node { OnOk result ((node : Node) → StandsFor D.holds self.old node → spec.session_of kernel node.sessions ≡ None
            → StandsFor D.holds self.new (spec.opening hosts node (record { header = header; channel = channel; kernel = kernel; kind = MessageKind.Open host }) host None)) }
        ensures err { OnErr result (Becomes D.holds (λ node. node) self.old self.new) }
        ensures kept { HasKept D.keeps self.old self.new }
    {
        if u64::from(hosts) <= host {
            return self.fail_about(NodeErrorKind::UnknownHost(host), kernel, header);
        }
        if MOST_SESSIONS <= self.desk.sessions() {
            return self.fail_about(NodeErrorKind::TooManySessions, kernel, header);
        }
        self.begin(alloc, kernel, host as u32, header, channel)
    }

    fn open(
        &mut self,
        alloc: Global,
        hosts: u32,
        host: u64,
        kernel: u128,
        header: Header,
        channel: Channel,
    ) -> Result<(), AllocError>
        requires hosts { HasHosts D.is_host hosts }
        ensures node { OnOk result (Becomes D.holds (λ node. spec.opening hosts node
            (record { header = header; channel = channel; kernel = kernel; kind = MessageKind.Open host }) host (spec.session_of kernel node.sessions)) self.old self.new) }
        ensures err { OnErr result (Becomes D.holds (λ node. node) self.old self.new) }
        ensures kept { HasKept D.keeps self.old self.new }
    {
        match index_of(&self.desk, kernel) {
            Some(_) => self.fail_about(NodeErrorKind::OpenedTwice, kernel, header),
            None => self.open_new(alloc, hosts, host, kernel, header, channel),
        }
    }

    /// Puts a request to the session of its kernel, which is at that index.
    fn admit(&mut self, at: usize, kernel: u128, request: Request) -> Result<(), AllocError>
        requires at { at < D.count self.old.desk }
        requires frontend { request.frontend ≡ 0 }
        requires few { D.asked self.old.desk at < spec.most_requests }
        ensures node { OnOk result ((node : Node) → StandsFor D.holds self.old node → IsAt node.sessions kernel at
            → StandsFor D.holds self.new (record node { sessions = map (spec.with_request kernel request) node.sessions })) }
        ensures err { OnErr result (Becomes D.holds (λ node. node) self.old self.new) }
        ensures kept { HasKept D.keeps self.old self.new }
    {
        self.desk.admit(at, request)
    }

    fn ask(
        &mut self,
        kernel: u128,
        header: Header,
        channel: Channel,
        ask: Ask,
    ) -> Result<(), AllocError>
        ensures node { OnOk result (Becomes D.holds (λ node. spec.asking node
            (record { header = header; channel = channel; kernel = kernel; kind = MessageKind.Ask ask }) ask (spec.session_of kernel node.sessions)) self.old self.new) }
        ensures err { OnErr result (Becomes D.holds (λ node. node) self.old self.new) }
        ensures kept { HasKept D.keeps self.old self.new }
    {
        let Some(at) = index_of(&self.desk, kernel) else {
            return self.fail_about(NodeErrorKind::UnknownKernel, kernel, header);
        };
        if is_full(&self.desk, at) {
            return self.fail_about(NodeErrorKind::TooManyRequests, kernel, header);
        }
        self.admit(
            at,
            kernel,
            Request {
                header,
                channel,
                frontend: 0,
                ask,
            },
        )
    }

    fn take_message(
        &mut self,
        alloc: Global,
        hosts: u32,
        message: Message,
    ) -> Result<(), AllocError>
        requires hosts { HasHosts D.is_host hosts }
        ensures node { OnOk result (Becomes D.holds (λ node. spec.with_message hosts node (Ok message)) self.old self.new) }
        ensures err { OnErr result (Becomes D.holds (λ node. node) self.old self.new) }
        ensures kept { HasKept D.keeps self.old self.new }
    {
        let Message {
            header,
            channel,
            kernel,
            kind,
        } = message;
        match kind {
            MessageKind::Open { host } => self.open(alloc, hosts, host, kernel, header, channel),
            MessageKind::Ask(ask) => self.ask(kernel, header, channel, ask),
        }
    }

    /// A body that isn't read as a message.
    fn take_fault(&mut self, alloc: Global, fault: MessageFault) -> Result<(), AllocError>
        ensures told { OnOk result (is_told fault ≡ true) }
        ensures node { OnOk result (Becomes D.holds (λ node. spec.unread node fault) self.old self.new) }
        ensures err { OnErr result (Becomes D.holds (λ node. node) self.old self.new) }
        ensures kept { HasKept D.keeps self.old self.new }
    {
        match fault {
            MessageFault::OutOfMemory => Err(AllocError),
            MessageFault::NotJson => self.fail(NodeErrorKind::NotJson, None),
            MessageFault::NoField(name) | MessageFault::WrongKind(name) => {
                self.fail(NodeErrorKind::BadRecord(name), None)
            }
            MessageFault::BadUuid => {
                let name = Text::new(alloc, "kernel")?;
                self.fail(NodeErrorKind::BadRecord(name), None)
            }
            MessageFault::UnknownType(name) => self.fail(NodeErrorKind::UnknownType(name), None),
        }
    }

    /// Takes in what was read of one frame. After an error what was taken in is as before.
    fn take_read(&mut self, alloc: Global, hosts: u32, read: Read) -> Result<(), AllocError>
        requires hosts { HasHosts D.is_host hosts }
        ensures node { OnOk result (Becomes D.holds (λ node. spec.with_message hosts node read) self.old self.new) }
        ensures err { OnErr result (Becomes D.holds (λ node. node) self.old self.new) }
        ensures kept { HasKept D.keeps self.old self.new }
    {
        match read {
            Ok(message) => self.take_message(alloc, hosts, message),
            Err(fault) => self.take_fault(alloc, fault),
        }
    }

    /// Takes in what was read of some frames, one after the other. After an error perhaps that of some was taken in, the first.
    pub(crate) fn take_all(
        &mut self,
        alloc: Global,
        hosts: u32,
        all: Vec<Read>,
    ) -> Result<(), AllocError>
        requires hosts { HasHosts D.is_host hosts }
        ensures node { OnOk result (Becomes D.holds (λ node. spec.with_messages hosts node all.items) self.old self.new) }
        ensures err { OnErr result (BecomesFront D.holds hosts all.items self.old self.new) }
        ensures kept { HasKept D.keeps self.old self.new }
    {
        for read in all {
            self.take_read(alloc, hosts, read)?;
        }
        Ok(())
    }
}
