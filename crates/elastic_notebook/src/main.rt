//! The notebook server: frames with requests come in, frames with replies go out.
//!
//! The contract of `run::top` is what the program does; everything else here is below it. `main` makes the real source,
//! sink, door and feeds, calls it with a gate that holds nobody, and ends with its status.
//!
//! The contract leaves open when memory runs out, so a body that always answers 5 meets it. Therefore the tables of cases run each
//! command on its happy path. The tests here are of what no table can give the program: a source, a sink or a feed that fails,
//! and a gate, a feed or a source that waits for what another thread does.
#![tactic(auto)]

#[cfg(test)]
mod draw_tests;
#[cfg(test)]
mod fault_tests;
#[cfg(test)]
mod link_tests;
#[cfg(test)]
mod pieces;
pub mod run;
mod say;
mod streams;
#[cfg(test)]
mod test_streams;
#[cfg(test)]
mod thread_tests;
#[cfg(test)]
mod waiting;

use command_words::{Command, command_of, status, word_fault};
use host_workers::OpenGate;
use nb_links::TcpDoor;
use nb_outside::{RandomFeeds, StdSink, StdSource};
use run::top;
use std::alloc::{AllocError, Global};
use std::env::Env;
use std::net::{Ipv4Addr, Net, SocketAddr, TcpListener};
use std::process::ExitCode;
use std::{env, io};

/// The words of the command line after the program's name.
fn words_of<R: Env + AllocGlobal>(rt: &R) -> io::Result<Vec<String>> {
    let mut words = Vec::new(rt.alloc());
    for word in env::args(rt)?.skip(1) {
        words.push(word)?;
    }
    Ok(words)
}

/// Says on standard error what is wrong with the words. If that can't be written, nothing is said.
fn say_fault(rt: &HostRuntime, words: &[String]) {
    if let Some(fault) = word_fault(words) {
        let _ = eprintln!(rt; "elastic_notebook: {fault}");
    }
}

/// The address that a word says: an address with a port, or a port alone, which is one of this machine's own loopback.
fn address_of(word: &str) -> Option<SocketAddr> {
    match word.parse::<u16>() {
        Ok(port) => Some(SocketAddr::from((Ipv4Addr::LOCALHOST, port))),
        Err(_) => match word.parse::<SocketAddr>() {
            Ok(address) => Some(address),
            Err(_) => None,
        },
    }
}

/// Listens at the address that a word says, and says on standard error where that is, or why there is no listening there.
fn listener_at(rt: HostRuntime, word: &str) -> Option<TcpListener> {
    let Some(address) = address_of(word) else {
        let _ = eprintln!(rt;
            "elastic_notebook: {word:?} is no address: serve takes one, as 127.0.0.1:8765, [::1]:8765, or a port alone"
        );
        return None;
    };
    match TcpListener::bind(&rt, address) {
        Ok(listener) => {
            if let Ok(bound) = listener.local_addr() {
                let _ = eprintln!(rt; "elastic_notebook: serves at {bound}");
            }
            Some(listener)
        }
        Err(error) => {
            let _ = eprintln!(rt; "elastic_notebook: can't listen at {address}: {error}");
            None
        }
    }
}

/// The door that these words ask for. If they ask for none, or for one at which there is no listening, it fails at its first call.
fn door_of(rt: HostRuntime, words: &[String]) -> TcpDoor {
    match (command_of(rt.alloc(), words), words) {
        (Ok(Some(Command::Serve(_))), [_, address, _]) => {
            TcpDoor::new(listener_at(rt, address.as_str()))
        }
        _ => TcpDoor::new(None),
    }
}

fn main(rt: HostRuntime) -> ExitCode {
    let words = match words_of(&rt) {
        Ok(words) => words,
        Err(error) if error.kind() == io::ErrorKind::OutOfMemory => {
            return ExitCode::from(status::OUT_OF_MEMORY);
        }
        // Words that are no text are no command.
        Err(_) => {
            let _ = eprintln!(rt; "elastic_notebook: a word is no UTF-8");
            return ExitCode::from(status::NO_COMMAND);
        }
    };
    let mut source = StdSource::new(rt.stdin());
    let mut sink = StdSink::new(rt.stdout());
    let mut door = door_of(rt, words.as_slice());
    let mut feeds = RandomFeeds::new(rt);
    let status = top(
        &rt,
        words.as_slice(),
        &mut source,
        &mut sink,
        &mut door,
        &mut feeds,
        &OpenGate,
    );
    if status == status::NO_COMMAND {
        say_fault(&rt, words.as_slice());
    }
    ExitCode::from(status)
}
