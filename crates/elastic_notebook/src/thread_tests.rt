//! Sessions that run at once, and while their source is still read.

use crate::run::top;
use crate::test_streams::{KERNELS, push_message};
use crate::waiting::{
    CountingGate, DrawsAfter, FrameSource, HoldingGate, ReadsAfter, Seen, WaitingFeeds,
};
use host_workers::Gate;
use nb_links::TcpDoor;
use nb_outside::MemSink;
use std::alloc::{AllocError, Global};
use std::sync::Wait;
use std::sync::atomic::AtomicBool;
use std::test::Fail;
use std::thread::Threads;
use std::time::Clock;

/// The frames that open a session and ask its cells.
fn push_frames(
    alloc: Global,
    frames: &mut Vec<Vec<u8>>,
    kernel: &str,
    host: usize,
    cells: &[&str],
) -> Result<(), AllocError> {
    let mut opening = Vec::new(alloc);
    let content = format!(in alloc; "{{\"host\":{host}}}")?;
    push_message(
        alloc,
        &mut opening,
        0,
        kernel,
        "kernel_open_request",
        content.as_str(),
    )?;
    frames.push(opening)?;
    for cell in cells {
        let mut frame = Vec::new(alloc);
        let content = format!(in alloc; "{{\"code\":\"{cell}\"}}")?;
        push_message(
            alloc,
            &mut frame,
            1,
            kernel,
            "execute_request",
            content.as_str(),
        )?;
        frames.push(frame)?;
    }
    Ok(())
}

/// The frames of these sessions, each on a host of its own.
fn frames_of(alloc: Global, sessions: &[&[&str]]) -> Result<Vec<Vec<u8>>, AllocError> {
    let mut frames = Vec::new(alloc);
    for (host, cells) in sessions.iter().enumerate() {
        let kernel = KERNELS.get(host).copied().unwrap_or("");
        push_frames(alloc, &mut frames, kernel, host, cells)?;
    }
    Ok(frames)
}

/// The status of a run of these sessions on two hosts with one worker each.
fn ran<R: AllocGlobal + Threads + Wait + Clock + Sync, G: Gate + Sync>(
    rt: &R,
    seen: &Seen,
    sessions: &[&[&str]],
    reads_after: ReadsAfter,
    draws_after: DrawsAfter,
    gate: &G,
) -> Result<u8, AllocError> {
    let alloc = rt.alloc();
    let mut words = Vec::new(alloc);
    for word in ["run", "--hosts", "2", "--workers", "1"] {
        words.push(String::from_str(alloc, word)?)?;
    }
    let mut source = FrameSource::new(seen, frames_of(alloc, sessions)?, reads_after);
    let mut sink = MemSink::new(alloc, 65_536, Vec::new(alloc));
    let mut feeds = WaitingFeeds {
        seen,
        has_opened: false,
        after: draws_after,
    };
    Ok(top(
        rt,
        words.as_slice(),
        &mut source,
        &mut sink,
        &mut TcpDoor::new(None),
        &mut feeds,
        gate,
    ))
}

#[test]
fn two_sessions_run_at_once(rt: HostRuntime) -> Result<(), Fail> {
    let seen = Seen::new();
    let gate = HoldingGate {
        seen: &seen,
        was_crossed: AtomicBool::new(false),
    };
    let sessions = [&["1"][..], &["1"]];
    let status = ran(
        &rt,
        &seen,
        &sessions,
        ReadsAfter::Nothing,
        DrawsAfter::Reads(0),
        &gate,
    )?;
    assert_eq!(rt; status, 0);
    assert!(rt; seen.is_well(true));
    Ok(())
}

#[test]
fn a_draw_waits_for_the_draw_of_another_session(rt: HostRuntime) -> Result<(), Fail> {
    let seen = Seen::new();
    let sessions = [&["draw()"][..], &["draw()"]];
    let status = ran(
        &rt,
        &seen,
        &sessions,
        ReadsAfter::Nothing,
        DrawsAfter::OtherDraw,
        &CountingGate(&seen),
    )?;
    assert_eq!(rt; status, 0);
    assert!(rt; seen.is_well(true));
    Ok(())
}

#[test]
fn a_cell_runs_while_the_source_is_still_read(rt: HostRuntime) -> Result<(), Fail> {
    let seen = Seen::new();
    let sessions = [&["draw()", "1"][..]];
    let status = ran(
        &rt,
        &seen,
        &sessions,
        ReadsAfter::FirstDraw,
        DrawsAfter::Reads(4),
        &CountingGate(&seen),
    )?;
    assert_eq!(rt; status, 0);
    assert!(rt; seen.is_well(false));
    Ok(())
}

#[test]
fn the_source_is_read_on_once_the_first_cell_has_passed(rt: HostRuntime) -> Result<(), Fail> {
    let seen = Seen::new();
    let sessions = [&["1", "2"][..]];
    let status = ran(
        &rt,
        &seen,
        &sessions,
        ReadsAfter::FirstPassing,
        DrawsAfter::Reads(0),
        &CountingGate(&seen),
    )?;
    assert_eq!(rt; status, 0);
    assert!(rt; seen.is_well(false));
    Ok(())
}
