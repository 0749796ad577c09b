//! Links and doors over memory and over TCP.

use crate::{Door, DoorEnd, Link, MemDoor, Polled, Script, SendEnd, TcpDoor, TcpLink};
use std::alloc::{AllocError, Global};
use std::io::{Read, Write};
use std::net::{TcpListener, TcpStream};
use std::test::Fail;

fn script(alloc: Global, bytes: &[u8], polls_fail: &[u64]) -> Result<Script, AllocError> {
    Ok(Script {
        bytes: bytes.to_vec(alloc)?,
        polls_fail: polls_fail.to_vec(alloc)?,
        sends_fail: Vec::new(alloc),
    })
}

#[test]
fn links_come_give_what_they_have_and_are_taken_back(rt: HostRuntime) -> Result<(), Fail> {
    let alloc = rt.alloc();
    let mut scripts = Vec::new(alloc);
    scripts.push(script(alloc, &[1, 2, 3], &[2])?)?;
    let mut door = MemDoor::new(alloc, scripts)?;
    let DoorEnd::Came(mut link) = door.next_link(&rt) else {
        panic!(rt; "no link came");
    };
    let mut piece = [0u8; 2];
    assert_eq!(rt; link.poll(&mut piece, 0), Polled::Bytes(2));
    assert_eq!(rt; piece, [1u8, 2]);
    assert_eq!(rt; link.poll(&mut piece, 0), Polled::Failed);
    assert_eq!(rt; link.poll(&mut piece, 0), Polled::Bytes(1));
    assert_eq!(rt; link.poll(&mut piece, 0), Polled::End);
    assert_eq!(rt; link.send(&[7, 8]), SendEnd::Wrote(2));
    assert_eq!(rt; link.sent(), [7u8, 8].as_slice());
    assert!(rt; matches!(door.next_link(&rt), DoorEnd::Failed));
    Ok(())
}

#[test]
fn a_link_over_tcp_waits_for_its_peer(rt: HostRuntime) -> Result<(), Fail> {
    let listener = TcpListener::bind(&rt, "127.0.0.1:0")?;
    let place = listener.local_addr()?;
    let mut peer = TcpStream::connect(&rt, place)?;
    let mut door = TcpDoor::new(Some(listener));
    let DoorEnd::Came(mut link) = door.next_link(&rt) else {
        panic!(rt; "no link came");
    };
    let mut piece = [0u8; 4];
    assert_eq!(rt; link.poll(&mut piece, 0), Polled::NotYet);
    assert_eq!(rt; link.poll(&mut piece, 1), Polled::NotYet);
    assert_eq!(rt; link.send(&[5]), SendEnd::Wrote(1));
    let mut sent = [0u8; 1];
    peer.read_exact(&mut sent)?;
    assert_eq!(rt; sent, [5u8]);
    peer.write_all(&[1, 2])?;
    assert_eq!(rt; link.poll(&mut piece, 1_000), Polled::Bytes(2));
    drop(peer);
    assert_eq!(rt; link.poll(&mut piece, 1_000), Polled::End);
    door.close_link(link);
    assert!(rt; matches!(TcpDoor::new(None).next_link(&rt), DoorEnd::Failed));
    Ok(())
}
