// Scripts, call by call. The clock of each turn is a call, too.
use crate::acts::{Act, BOTH, IN_0, NEITHER, OUT_0, READING, WRITING, Ways, first_other};
use ev_port::{Accepted, Addr, ConnAnswer, Polled, ReadAnswer, Started, WriteAnswer};
use ev_types::{Side, SideId};
use script_port::ScriptPort;
use script_text::read_script;
use std::alloc::Global;
use std::test::Fail;

const OUT_1: SideId = SideId {
    link: 1,
    side: Side::Out,
};

const NO_LINK: SideId = SideId {
    link: 9,
    side: Side::In,
};

const HERE: Addr = Addr {
    ip: [127, 0, 0, 1],
    port: 80,
};

const READY: Polled = Polled::Ready { accept: true };

const QUIET: Polled = Polled::Ready { accept: false };

fn plays(alloc: Global, script: &[u8], acts: &[Act]) -> Result<Option<usize>, Fail> {
    let mut port = ScriptPort::new(alloc, read_script(alloc, script)?)?;
    Ok(first_other(&mut port, acts))
}

/// A link with five bytes, of which three go out, and then a second one.
const HELLO: &[u8] = b"\
at 5
open
r 0 in 68656c6c6f
w 0 out 3
at 3
open wait
eof 0 in
w 1 out all
w 0 out 1
";

const PLAYED: &[Act] = &[
    Act::Accept(0, Accepted::NotYet),
    Act::Reads(IN_0, ReadAnswer::NotYet, b"\0\0\0"),
    Act::Now(5),
    Act::Poll(
        &[(IN_0, BOTH, READING), (OUT_0, BOTH, WRITING)],
        true,
        None,
        READY,
    ),
    Act::Accept(0, Accepted::Link { connected: true }),
    Act::Accept(1, Accepted::NotYet),
    Act::Reads(IN_0, ReadAnswer::Got(3), b"hel"),
    Act::Reads(IN_0, ReadAnswer::Got(2), b"lol"),
    Act::Reads(IN_0, ReadAnswer::NotYet, b"lol"),
    Act::Writes(OUT_0, b"hello", WriteAnswer::Took(3)),
    Act::Writes(OUT_0, b"hello", WriteAnswer::NotYet),
    Act::Now(3),
    Act::Reads(IN_0, ReadAnswer::Ended, b"lol"),
    Act::Writes(OUT_0, b"lo", WriteAnswer::Took(1)),
    Act::Accept(1, Accepted::Link { connected: false }),
    Act::Now(3),
];

#[test]
fn a_port_plays_its_script(rt: HostRuntime) -> Result<(), Fail> {
    assert_eq!(rt; plays(rt.alloc(), HELLO, PLAYED)?, None);
    Ok(())
}

const UNDECIDED: &[Act] = &[
    Act::Now(5),
    Act::Now(3),
    Act::Poll(
        &[(OUT_1, BOTH, NEITHER), (NO_LINK, BOTH, NEITHER)],
        false,
        Some(7),
        QUIET,
    ),
    Act::Accept(0, Accepted::Link { connected: true }),
    Act::Connects(OUT_0, ConnAnswer::Connected),
    Act::Accept(1, Accepted::Link { connected: false }),
    Act::Connects(OUT_1, ConnAnswer::Pending),
    Act::Accept(9, Accepted::NotYet),
    Act::Connects(NO_LINK, ConnAnswer::Pending),
    Act::Writes(OUT_1, b"xyz", WriteAnswer::Took(3)),
];

#[test]
fn an_undecided_end_is_not_marked_for_writing(rt: HostRuntime) -> Result<(), Fail> {
    assert_eq!(rt; plays(rt.alloc(), HELLO, UNDECIDED)?, None);
    Ok(())
}

const CLOSED: &[Act] = &[
    Act::Start(HERE, HERE, Started::Started),
    Act::Now(5),
    Act::CloseWrite(OUT_0),
    Act::Close(IN_0),
    Act::Reads(IN_0, ReadAnswer::Got(5), b"hello\0\0\0"),
    Act::Writes(OUT_0, b"h", WriteAnswer::Took(1)),
];

#[test]
fn a_start_and_the_closes_change_no_answer(rt: HostRuntime) -> Result<(), Fail> {
    assert_eq!(rt; plays(rt.alloc(), HELLO, CLOSED)?, None);
    Ok(())
}

const DECIDED_TWICE: &[u8] = b"\
at 7
open wait
open wait
at 7
conn 0 ok
conn 1 fail
at 7
conn 0 fail
conn 1 ok
";

const DECISIONS: &[Act] = &[
    Act::Now(7),
    Act::Poll(
        &[(OUT_0, BOTH, NEITHER), (OUT_1, BOTH, NEITHER)],
        false,
        None,
        QUIET,
    ),
    Act::Connects(OUT_0, ConnAnswer::Pending),
    Act::Connects(OUT_1, ConnAnswer::Pending),
    Act::Now(7),
    Act::Poll(
        &[(OUT_0, BOTH, WRITING), (OUT_1, BOTH, WRITING)],
        false,
        None,
        QUIET,
    ),
    Act::Connects(OUT_0, ConnAnswer::Connected),
    Act::Connects(OUT_1, ConnAnswer::Failed),
    Act::Now(7),
    Act::Poll(
        &[(OUT_0, BOTH, NEITHER), (OUT_1, BOTH, WRITING)],
        false,
        None,
        QUIET,
    ),
    Act::Connects(OUT_0, ConnAnswer::Connected),
    Act::Connects(OUT_1, ConnAnswer::Failed),
];

#[test]
fn the_first_decision_of_a_link_stands(rt: HostRuntime) -> Result<(), Fail> {
    assert_eq!(rt; plays(rt.alloc(), DECIDED_TWICE, DECISIONS)?, None);
    Ok(())
}

const FAILING: &[u8] = b"\
at 7
open
r 0 in 6869
rfail 0 in
eof 0 in
w 0 out 2
wfail 0 out
";

/// Both ends are marked, also once they fail.
const MARKED: &[(SideId, Ways, Ways)] = &[(IN_0, BOTH, READING), (OUT_0, BOTH, WRITING)];

const FAILED_BEHIND: &[Act] = &[
    Act::Now(7),
    Act::Poll(MARKED, false, None, QUIET),
    Act::Reads(IN_0, ReadAnswer::Got(2), b"hi\0\0\0\0\0\0"),
    Act::Writes(OUT_0, b"abc", WriteAnswer::Took(2)),
    Act::Poll(MARKED, false, None, QUIET),
    Act::Reads(IN_0, ReadAnswer::Failed, b"hi\0\0\0\0\0\0"),
    Act::Writes(OUT_0, b"abc", WriteAnswer::Failed),
    Act::Poll(MARKED, false, None, QUIET),
    Act::Reads(IN_0, ReadAnswer::Failed, b"hi\0\0\0\0\0\0"),
    Act::Writes(OUT_0, b"abc", WriteAnswer::Failed),
];

#[test]
fn reads_and_writes_fail_behind_the_bytes(rt: HostRuntime) -> Result<(), Fail> {
    assert_eq!(rt; plays(rt.alloc(), FAILING, FAILED_BEHIND)?, None);
    Ok(())
}

const SPURRED: &[u8] = b"\
at 7
open wait
at 7
pollfail
spur 0 in
at 7
spur 0 in
spur 0 out
";

/// All is wanted at In and reading alone at Out, and nothing is marked.
const UNMARKED: &[(SideId, Ways, Ways)] = &[(IN_0, BOTH, NEITHER), (OUT_0, READING, NEITHER)];

const SPURS: &[Act] = &[
    Act::Now(7),
    Act::Poll(UNMARKED, true, None, READY),
    Act::Now(7),
    Act::Poll(UNMARKED, true, None, Polled::Failed),
    Act::Now(7),
    Act::Poll(
        &[(IN_0, BOTH, BOTH), (OUT_0, READING, READING)],
        true,
        None,
        READY,
    ),
    Act::Now(7),
    Act::Poll(UNMARKED, true, None, READY),
];

#[test]
fn a_spur_and_a_failed_poll_are_of_one_turn(rt: HostRuntime) -> Result<(), Fail> {
    assert_eq!(rt; plays(rt.alloc(), SPURRED, SPURS)?, None);
    Ok(())
}
