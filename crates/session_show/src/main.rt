//! Shows the journal of a session over the least engine (`counter`), for tables of cases.
//!
//! Each line of standard input has what is asked of a session on host 0 of 3, one after the other, with a space between: `info`,
//! `complete` (memory runs out for it), `restart`, `end` (a shutdown without a restart), `move:H:W` (a move to the host H; W is one of
//! the four weights, and the others are 0). With a W of 7 memory runs out as the session is packed, and at host 2 as it is unpacked.
//! For each line one is printed: a word with numbers for each entry of the journal. The session is one on a single thread; with
//! `node` before the rest of the line it is one of a node, whose hosts have a worker each.
#![tactic(auto)]

ghost use Rattle.std.specs.Prelude.{◌≡◌, IfOk};

mod asks;
mod counter;
mod node;
mod words;

use anyhow::Result;
use asks::ask_of;
use counter::Counter;
use nb_outside::{Drawn, MemFeed};
use plain_data::Text;
use session_core::{Alone, Ask, Channel, Engine, Header, Request};
use std::alloc::{AllocError, Global};
use std::io::{BufRead, BufReader};
use words::words_of;

fn header(alloc: Global) -> Result<Header, AllocError> {
    Ok(Header {
        msg_id: Text::new(alloc, "m")?,
        username: Text::new(alloc, "u")?,
        session: Text::new(alloc, "s")?,
        date: Text::new(alloc, "")?,
        msg_type: Text::new(alloc, "t")?,
        version: Text::new(alloc, "5.3")?,
    })
}

fn request(alloc: Global, ask: Ask) -> Result<Request, AllocError> {
    Ok(Request {
        header: header(alloc)?,
        channel: Channel::Shell,
        frontend: 0,
        ask,
    })
}

/// A session on host 0 of 3.
fn opened(alloc: Global) -> Result<Alone<Counter>, AllocError>
    ensures { IfOk result (λ session. session.hosts ≡ 3) }
{
    let opening = (header(alloc)?, Channel::Shell);
    Alone::opened(alloc, Counter::opened(alloc, 0), 3, 0, opening)
}

/// The session after one more request.
fn answered(
    alloc: Global,
    session: Alone<Counter>,
    feed: &mut MemFeed,
    ask: Ask,
) -> Result<Alone<Counter>, AllocError> {
    let mut session = session;
    session.reserve(3)?;
    let request = request(alloc, ask)?;
    Ok(session.answer(alloc, feed, request))
}

/// What the journal says of a session on one thread that was asked all this.
fn told(alloc: Global, asked: &str) -> Result<Text> {
    let mut feed = MemFeed::new(vec![in alloc; Drawn::Word(7), Drawn::Word(8)]?);
    let mut session = opened(alloc)?;
    for word in asked.split(" ") {
        let ask = ask_of(alloc, word)?;
        session = answered(alloc, session, &mut feed, ask)?;
    }
    session.is_legal();
    let words = words_of(alloc, session.entries());
    drop(session);
    Ok(words?)
}

fn main(rt: HostRuntime) -> Result<()> {
    let alloc = rt.alloc();
    let input = BufReader::new(alloc, rt.stdin())?;
    for line in input.lines(alloc) {
        let line = line?;
        let words = match line.as_str().strip_prefix("node ") {
            Some(asked) => node::told(&rt, asked)?,
            None => told(alloc, line.as_str())?,
        };
        println!(rt; "{}", words.as_str())?;
    }
    Ok(())
}
