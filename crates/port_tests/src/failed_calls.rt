// One call of each kind that fails, and the calls before and behind it.
use crate::acts::{Act, IN_0, NEITHER, OUT_0, READING, Ways, first_other};
use ev_port::{Accepted, ConnAnswer, Polled, ReadAnswer, WriteAnswer};
use ev_types::{Side, SideId};
use script_port::{FailPort, PortCall, ScriptPort};
use script_text::read_script;
use std::alloc::Global;
use std::test::Fail;

const BEYOND: SideId = SideId {
    link: 9,
    side: Side::In,
};

/// In its first turn a link waits, bytes are pending and any number may be taken.
const FIRST_TURN: &[u8] = b"\
at 1
open
r 0 in 6162
w 0 out all
";

/// The port fails at the k-th call of this kind. It comes to its first turn before the calls.
fn plays(alloc: Global, kind: PortCall, k: u64, acts: &[Act]) -> Result<Option<usize>, Fail> {
    let inner = ScriptPort::new(alloc, read_script(alloc, FIRST_TURN)?)?;
    let mut port = FailPort::new(inner, kind, k);
    Ok(first_other(&mut port, acts))
}

const MARKED: &[(SideId, Ways, Ways)] = &[(IN_0, READING, READING)];

const UNMARKED: &[(SideId, Ways, Ways)] = &[(IN_0, READING, NEITHER)];

const POLLS: &[Act] = &[
    Act::Now(1),
    Act::Reads(OUT_0, ReadAnswer::NotYet, b"\0\0\0\0"),
    Act::Poll(MARKED, true, None, Polled::Ready { accept: true }),
    Act::Poll(UNMARKED, true, None, Polled::Failed),
    Act::Poll(MARKED, true, None, Polled::Ready { accept: true }),
];

#[test]
fn one_poll_fails(rt: HostRuntime) -> Result<(), Fail> {
    assert_eq!(rt; plays(rt.alloc(), PortCall::Poll, 2, POLLS)?, None);
    Ok(())
}

const ACCEPTS: &[Act] = &[
    Act::Now(1),
    Act::Accept(0, Accepted::Failed),
    Act::Accept(0, Accepted::Link { connected: true }),
    Act::Accept(0, Accepted::NotYet),
];

#[test]
fn one_accept_fails_and_loses_no_link(rt: HostRuntime) -> Result<(), Fail> {
    assert_eq!(rt; plays(rt.alloc(), PortCall::Accept, 1, ACCEPTS)?, None);
    Ok(())
}

const CHECKS: &[Act] = &[
    Act::Now(1),
    Act::Accept(0, Accepted::Link { connected: true }),
    Act::Connects(OUT_0, ConnAnswer::Connected),
    Act::Connects(OUT_0, ConnAnswer::Failed),
    Act::Connects(OUT_0, ConnAnswer::Connected),
];

#[test]
fn one_connect_check_fails(rt: HostRuntime) -> Result<(), Fail> {
    assert_eq!(rt; plays(rt.alloc(), PortCall::ConnectState, 2, CHECKS)?, None);
    Ok(())
}

const READS: &[Act] = &[
    Act::Now(1),
    Act::Reads(IN_0, ReadAnswer::Got(1), b"a"),
    Act::Reads(IN_0, ReadAnswer::Failed, b"a"),
    Act::Reads(IN_0, ReadAnswer::Got(1), b"b"),
    Act::Reads(IN_0, ReadAnswer::NotYet, b"b"),
];

#[test]
fn one_read_fails_and_loses_no_byte(rt: HostRuntime) -> Result<(), Fail> {
    assert_eq!(rt; plays(rt.alloc(), PortCall::Read, 2, READS)?, None);
    Ok(())
}

const WRITES: &[Act] = &[
    Act::Now(1),
    Act::Writes(OUT_0, b"abc", WriteAnswer::Took(3)),
    Act::Writes(OUT_0, b"abc", WriteAnswer::Failed),
    Act::Writes(OUT_0, b"abc", WriteAnswer::Took(3)),
];

#[test]
fn one_write_fails(rt: HostRuntime) -> Result<(), Fail> {
    assert_eq!(rt; plays(rt.alloc(), PortCall::Write, 2, WRITES)?, None);
    Ok(())
}

const READS_BEYOND: &[Act] = &[
    Act::Now(1),
    Act::Reads(BEYOND, ReadAnswer::NotYet, b"\0"),
    Act::Reads(BEYOND, ReadAnswer::Failed, b"\0"),
    Act::Reads(BEYOND, ReadAnswer::NotYet, b"\0"),
];

/// By the number 0 no call fails.
const READ_WHOLE: &[Act] = &[Act::Now(1), Act::Reads(IN_0, ReadAnswer::Got(2), b"ab\0\0")];

#[test]
fn a_call_on_an_end_that_is_not_there_counts_too(rt: HostRuntime) -> Result<(), Fail> {
    assert_eq!(rt; plays(rt.alloc(), PortCall::Read, 2, READS_BEYOND)?, None);
    assert_eq!(rt; plays(rt.alloc(), PortCall::Read, 0, READ_WHOLE)?, None);
    Ok(())
}
