ghost use Rattle.std.specs.Prelude.{◌≡◌, IfOk, IsTrue, ◌↔◌};
ghost use Rattle.session_core.specs.Asks.{is_end, is_move, is_control};

use graph_model::Weights;
use plain_data::Text;
use std::alloc::{AllocError, Global};

/// The header of a message. (Jupyter messaging 5.3, "Message header".)
#[derive(Debug, Drop)]
pub struct Header {
    pub msg_id: Text,
    pub username: Text,
    pub session: Text,
    pub date: Text,
    pub msg_type: Text,
    pub version: Text,
}

/// The channel on which a message came and its reply goes.
#[derive(Clone, Copy, Debug, PartialEq, Eq)]
pub enum Channel {
    Shell,
    Control,
}

/// What a request asks of a session.
#[derive(Debug, Drop)]
pub enum Ask {
    /// Run this code as a cell. A silent cell is never stored.
    Execute {
        code: Text,
        silent: bool,
        store: bool,
    },
    /// Tell about the kernel.
    Info,
    /// Tell whether this code is a whole cell.
    Complete {
        code: Text,
    },
    /// Forget everything; without a restart answer nothing more.
    Shutdown {
        restart: bool,
    },
    /// Move the session to that host, by a plan of least cost under these weights.
    Migrate {
        to: u64,
        weights: Weights,
    },
}

/// A request to a session.
#[derive(Debug, Drop)]
pub struct Request {
    pub header: Header,
    pub channel: Channel,
    /// The number of the frontend from which it came.
    pub frontend: u32,
    pub ask: Ask,
}

impl Header {
    /// An equal header.
    pub fn copy(&self, alloc: Global) -> Result<Header, AllocError>
        ensures { IfOk result (λ header. header ≡ self.now) }
    {
        Ok(Header {
            msg_id: self.msg_id.copy(alloc)?,
            username: self.username.copy(alloc)?,
            session: self.session.copy(alloc)?,
            date: self.date.copy(alloc)?,
            msg_type: self.msg_type.copy(alloc)?,
            version: self.version.copy(alloc)?,
        })
    }
}

impl Ask {
    /// An equal ask.
    pub fn copy(&self, alloc: Global) -> Result<Ask, AllocError>
        ensures { IfOk result (λ ask. ask ≡ self.now) }
    {
        match self {
            Ask::Execute {
                code,
                silent,
                store,
            } => Ok(Ask::Execute {
                code: code.copy(alloc)?,
                silent: *silent,
                store: *store,
            }),
            Ask::Info => Ok(Ask::Info),
            Ask::Complete { code } => Ok(Ask::Complete {
                code: code.copy(alloc)?,
            }),
            Ask::Shutdown { restart } => Ok(Ask::Shutdown { restart: *restart }),
            Ask::Migrate { to, weights } => Ok(Ask::Migrate {
                to: *to,
                weights: *weights,
            }),
        }
    }

    /// Whether it ends the session: a shutdown without a restart.
    pub fn is_end(&self) -> bool
        ensures { result ≡ is_end self.now }
    {
        match self {
            Ask::Shutdown { restart } => !*restart,
            _ => false,
        }
    }

    /// Whether it asks for a move.
    pub fn is_move(&self) -> bool
        ensures { result ≡ is_move self.now }
    {
        matches!(self, Ask::Migrate { .. })
    }
}

impl Request {
    /// An equal request.
    pub fn copy(&self, alloc: Global) -> Result<Request, AllocError>
        ensures { IfOk result (λ request. request ≡ self.now) }
    {
        Ok(Request {
            header: self.header.copy(alloc)?,
            channel: self.channel,
            frontend: self.frontend,
            ask: self.ask.copy(alloc)?,
        })
    }

    /// Whether it waits in the control list: it is a move that came on control. Every other request waits in the main list.
    pub fn is_control(&self) -> bool
        ensures { result ≡ is_control self.now }
    {
        self.ask.is_move() && self.channel == Channel::Control
    }
}
