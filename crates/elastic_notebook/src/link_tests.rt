//! What `serve` does with links over memory, and with one whose peer waits for replies.

use crate::run::top;
use crate::test_streams::{Asked, answered, count_of, frames_of};
use crate::waiting::{WaitingDoor, WaitingLink};
use host_workers::OpenGate;
use nb_links::{Door, Link, MemDoor, Script};
use nb_outside::{MemFeeds, MemSink, MemSource};
use std::alloc::{AllocError, Global};
use std::sync::Wait;
use std::test::Fail;
use std::thread::Threads;
use std::time::Clock;

/// What a session is asked: two cells after its opening.
static ASKED: [Asked; 3] = [Asked::Open, Asked::Cell("x = 1"), Asked::Cell("x")];

/// What says that a request is answered whole.
const IDLE: &str = "{\"execution_state\":\"idle\"}";

/// The status of `serve` of so many links at this door.
fn served<R, D>(rt: &R, links: &str, door: &mut D) -> Result<u8, AllocError>
where
    R: AllocGlobal + Threads + Wait + Clock + Sync,
    D: Door,
    D::Link: Send,
{
    let alloc = rt.alloc();
    let mut words = Vec::new(alloc);
    for word in ["serve", "a", links] {
        words.push(String::from_str(alloc, word)?)?;
    }
    let mut source = MemSource::new(Vec::new(alloc), Vec::new(alloc));
    let mut sink = MemSink::new(alloc, 1, Vec::new(alloc));
    let mut feeds = MemFeeds::new(Vec::new(alloc));
    Ok(top(
        rt,
        words.as_slice(),
        &mut source,
        &mut sink,
        door,
        &mut feeds,
        &OpenGate,
    ))
}

fn script(alloc: Global, polls_fail: &[u64], sends_fail: &[u64]) -> Result<Script, AllocError> {
    Ok(Script {
        bytes: frames_of(alloc, &ASKED)?,
        polls_fail: polls_fail.to_vec(alloc)?,
        sends_fail: sends_fail.to_vec(alloc)?,
    })
}

/// What `run` writes of the first so many of the same frames.
fn run_of<R: AllocGlobal + Threads + Wait + Clock + Sync>(
    rt: &R,
    count: usize,
) -> Result<Vec<u8>, AllocError> {
    let input = frames_of(rt.alloc(), ASKED.get(..count).unwrap_or(&ASKED[..]))?;
    let (_, written) = answered(rt, &["run"], input.as_slice(), &[], &[])?;
    Ok(written)
}

#[test]
fn links_are_sent_what_a_run_writes_and_given_back(rt: HostRuntime) -> Result<(), Fail> {
    let alloc = rt.alloc();
    let mut scripts = Vec::new(alloc);
    scripts.push(script(alloc, &[], &[])?)?;
    scripts.push(script(alloc, &[], &[])?)?;
    let mut door = MemDoor::new(alloc, scripts)?;
    assert_eq!(rt; served(&rt, "2", &mut door)?, 0);
    let written = run_of(&rt, 3)?;
    assert_eq!(rt; count_of(written.as_slice(), IDLE), 3);
    assert_eq!(rt; door.back().len(), 2);
    for link in door.back() {
        assert!(rt; link.sent() == written.as_slice());
    }
    Ok(())
}

#[test]
fn a_frontend_that_waits_for_replies_is_served(rt: HostRuntime) -> Result<(), Fail> {
    let alloc = rt.alloc();
    let first = frames_of(alloc, &[Asked::Open, Asked::Cell("x = 1")])?;
    let second = frames_of(alloc, &[Asked::Cell("x")])?;
    let mut door = WaitingDoor::new(WaitingLink::new(alloc, first, IDLE, 2, second));
    assert_eq!(rt; served(&rt, "1", &mut door)?, 0);
    assert!(rt; door.is_well());
    Ok(())
}

/// Each call of a link fails in turn, and then one that isn't made. A link is polled twice, since the first poll gives all, and it is sent
/// the frames of each of three entries by themselves. All links are given back, and the one beside them is sent all.
#[test]
fn links_whose_kth_call_fails(rt: HostRuntime) -> Result<(), Fail> {
    let alloc = rt.alloc();
    let all = run_of(&rt, 3)?;
    for before in 0..=3usize {
        let call = (before as u64).saturating_add(1);
        let mut scripts = Vec::new(alloc);
        scripts.push(script(alloc, &[], &[])?)?;
        scripts.push(script(alloc, &[call], &[])?)?;
        scripts.push(script(alloc, &[], &[call])?)?;
        let mut door = MemDoor::new(alloc, scripts)?;
        assert_eq!(rt; served(&rt, "3", &mut door)?, 0, "call {call}");
        let [whole, polled, told] = door.back() else {
            panic!(rt; "not all links are given back: call {call}");
        };
        assert!(rt; whole.sent() == all.as_slice());
        assert!(rt; all.as_slice().starts_with(polled.sent()));
        assert!(rt; call != 1 || polled.sent().is_empty());
        assert!(rt; call < 3 || polled.sent() == all.as_slice());
        assert!(rt; told.sent() == run_of(&rt, before)?.as_slice());
    }
    Ok(())
}

/// Each call of a door fails in turn, and then one that isn't made. The links that came before are served, and given back.
#[test]
fn a_door_whose_kth_call_fails(rt: HostRuntime) -> Result<(), Fail> {
    let alloc = rt.alloc();
    let all = run_of(&rt, 3)?;
    for came in 0..=3usize {
        let mut scripts = Vec::new(alloc);
        for _ in 0..came {
            scripts.push(script(alloc, &[], &[])?)?;
        }
        let mut door = MemDoor::new(alloc, scripts)?;
        let status = if came < 3 { 11 } else { 0 };
        assert_eq!(rt; served(&rt, "3", &mut door)?, status, "{came} came");
        assert_eq!(rt; door.back().len(), came);
        for link in door.back() {
            assert!(rt; link.sent() == all.as_slice());
        }
    }
    Ok(())
}
