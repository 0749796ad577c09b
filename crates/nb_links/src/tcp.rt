ghost use Rattle.std.specs.Prelude.{◌≡◌, None, ◌≤◌, length, IfSome};
ghost use Rattle.nb_outside.specs.Counts.{HasRisen};
ghost use Rattle.nb_links.specs.Arrivals.{IsWithin};

use crate::door::{Door, DoorEnd};
use crate::link::{Link, Polled, SendEnd};
use std::io::{ErrorKind, Read, Write};
use std::net::{Shutdown, TcpListener, TcpStream};
use std::sync::Wait;
use std::time::Duration;

/// How often a call that a signal interrupts is made again before that counts as a fault.
const MOST_RETRIES: u32 = u32::MAX;

/// A link over TCP. It tells nothing. A send waits until the peer takes bytes.
#[derive(Drop)]
pub struct TcpLink {
    stream: TcpStream,
    /// For how many milliseconds a read waits; nothing before the first poll.
    patience: Option<u32>,
    faults: u64,
}

/// What a read of a stream came to.
enum Arrived {
    Bytes(usize),
    NotYet,
    Failed,
}

/// Reads what is ready, again if a signal interrupts the call.
fn read_ready(stream: &mut TcpStream, into: &mut [u8]) -> Arrived
    ensures { IsWithin result (length into.old) }
{
    for _ in 0..MOST_RETRIES {
        match stream.read(into) {
            Ok(count) => return Arrived::Bytes(count),
            Err(error) => match error.kind() {
                ErrorKind::Interrupted => {}
                ErrorKind::WouldBlock | ErrorKind::TimedOut => return Arrived::NotYet,
                _ => return Arrived::Failed,
            },
        }
    }
    Arrived::Failed
}

/// How many bytes a write took, made again if a signal interrupts it. `None` if writing fails.
fn write_retrying(stream: &mut TcpStream, bytes: &[u8]) -> Option<usize>
    ensures { IfSome result (λ count. count ≤ length bytes.now) }
{
    for _ in 0..MOST_RETRIES {
        match stream.write(bytes) {
            Ok(count) => return Some(count),
            Err(error) if error.kind() == ErrorKind::Interrupted => {}
            Err(_) => return None,
        }
    }
    None
}

impl TcpLink {
    /// A link over this stream, which is to wait for its peer at a write.
    pub fn new(stream: TcpStream) -> TcpLink {
        TcpLink {
            stream,
            patience: None,
            faults: 0,
        }
    }

    /// Lets reads wait for so many milliseconds, or not at all. Whether that could be done.
    fn be_patient(&mut self, patience: u32) -> bool
        ensures { self.new.faults ≡ self.old.faults }
    {
        if self.patience == Some(patience) {
            return true;
        }
        let is_set = wait_for(&self.stream, patience);
        self.patience = if is_set { Some(patience) } else { None };
        is_set
    }

    /// Counts a fault.
    fn fail(&mut self)
        ensures stays { self.old.faults ≤ self.new.faults }
        ensures risen { HasRisen self.old.faults self.new.faults }
    {
        self.faults = self.faults.saturating_add(1);
    }
}

/// Lets reads of the stream wait for so many milliseconds; or, at 0, reads and writes not at all. Whether that could be done.
fn wait_for(stream: &TcpStream, patience: u32) -> bool {
    if patience == 0 {
        return stream.set_nonblocking(true).is_ok();
    }
    let within = Duration::from_millis(u64::from(patience));
    stream.set_nonblocking(false).is_ok() && stream.set_read_timeout(Some(within)).is_ok()
}

/// For how many milliseconds reads wait after a send.
const AFTER_A_SEND: u32 = 1_000;

impl Link for TcpLink {
    ghost faults = { λ link. link.faults };

    ghost line = { λ _. None };

    fn poll(&mut self, into: &mut [u8], patience: u32) -> Polled {
        if !self.be_patient(patience) {
            self.fail();
            return Polled::Failed;
        }
        match read_ready(&mut self.stream, into) {
            Arrived::Bytes(0) => Polled::End,
            Arrived::Bytes(count) => Polled::Bytes(count),
            Arrived::NotYet => Polled::NotYet,
            Arrived::Failed => {
                self.fail();
                Polled::Failed
            }
        }
    }

    fn send(&mut self, bytes: &[u8]) -> SendEnd {
        // A stream whose reads don't wait wouldn't wait at a write either.
        if self.patience == Some(0) && !self.be_patient(AFTER_A_SEND) {
            self.fail();
            return SendEnd::Failed;
        }
        match write_retrying(&mut self.stream, bytes) {
            Some(count) if 0 < count || bytes.is_empty() => SendEnd::Wrote(count),
            _ => {
                self.fail();
                SendEnd::Failed
            }
        }
    }

    // What was sent still arrives. A peer that goes on sending may be reset.
    fn close(&mut self) {
        let _ = self.stream.shutdown(Shutdown::Both);
    }
}

/// A door over TCP, at which a link comes for each connection. It tells nothing.
#[derive(Drop)]
pub struct TcpDoor {
    listener: Option<TcpListener>,
    faults: u64,
}

impl TcpDoor {
    /// A door at this listener. Without one it fails at each call.
    pub fn new(listener: Option<TcpListener>) -> TcpDoor {
        TcpDoor {
            listener,
            faults: 0,
        }
    }
}

/// The next connection, whose small messages go out at once. A connection that its peer gave up before is passed over.
fn accepted(listener: &TcpListener) -> Option<TcpStream> {
    for _ in 0..MOST_RETRIES {
        match listener.accept() {
            Ok((stream, _)) => {
                // Without it replies only come later.
                let _ = stream.set_nodelay(true);
                return Some(stream);
            }
            Err(error) => match error.kind() {
                ErrorKind::Interrupted | ErrorKind::ConnectionAborted => {}
                _ => return None,
            },
        }
    }
    None
}

impl Door for TcpDoor {
    type Link = TcpLink;

    ghost faults = { λ door. door.faults };

    ghost passed = { λ _. None };

    fn next_link<R: Wait>(&mut self, _rt: &R) -> DoorEnd<TcpLink> {
        let stream = match &self.listener {
            Some(listener) => accepted(listener),
            None => None,
        };
        match stream {
            Some(stream) => DoorEnd::Came(TcpLink::new(stream)),
            None => {
                self.faults = self.faults.saturating_add(1);
                DoorEnd::Failed
            }
        }
    }

    fn close_link(&mut self, link: TcpLink) {
        drop(link);
    }
}
