// The port over loopback, step by step, in one thread.
use crate::acts::{
    ANY_PORT, Act, BOTH, IN_0, NEITHER, OUT_0, READING, WRITING, Ways, first_other, want,
};
use crate::loopback::{MOST_WAIT, RealPort, World, accepts, client, is_marked, join, new_world};
use crate::steps::{Step, empties, fills, first_other_step};
use ev_port::{
    Accepted, Addr, ConnAnswer, Polled, Port, ReadAnswer, Started, WantTable, WriteAnswer,
};
use ev_types::SideId;
use mio_port::MioPort;
use std::alloc::Global;
use std::io::Write;
use std::test::Fail;

const QUIET: Polled = Polled::Ready { accept: false };

/// Reading is wanted of the In end, or writing, and not marked.
const WANTS_READ: (SideId, Ways, Ways) = (IN_0, READING, NEITHER);

const WANTS_WRITE: (SideId, Ways, Ways) = (IN_0, WRITING, NEITHER);

/// The first other step of a link between a client and a target.
fn plays(rt: &HostRuntime, steps: &[Step]) -> Result<Option<usize>, Fail> {
    let mut world = new_world(rt)?;
    let other = first_other_step(&mut world, steps);
    drop(world);
    Ok(other?)
}

const CARRIES: &[Step] = &[
    Step::NearSends(b"hi"),
    Step::NearEnds,
    Step::Says(IN_0, b"hi"),
    Step::Marks(OUT_0, WRITING),
    Step::Port(&[
        Act::Writes(OUT_0, b"hi", WriteAnswer::Took(2)),
        Act::CloseWrite(OUT_0),
        Act::Poll(&[], false, Some(0), QUIET),
    ]),
    Step::FarGets(b"hi"),
    Step::FarGets(b""),
    Step::FarSends(b"there"),
    Step::FarGoes,
    Step::Says(OUT_0, b"there"),
    Step::Port(&[Act::Close(IN_0)]),
    Step::NearGets(b""),
    Step::Port(&[Act::Reads(IN_0, ReadAnswer::NotYet, &[0; 16])]),
];

#[test]
fn a_link_carries_bytes_and_their_end(rt: HostRuntime) -> Result<(), Fail> {
    assert_eq!(rt; plays(&rt, CARRIES)?, None);
    Ok(())
}

/// A close before the next poll ends writing by itself, and a write behind an end of writing fails.
const ENDS_AT_CLOSE: &[Step] = &[
    Step::Marks(OUT_0, WRITING),
    Step::Port(&[
        Act::Writes(OUT_0, b"hi", WriteAnswer::Took(2)),
        Act::CloseWrite(OUT_0),
        Act::Close(OUT_0),
    ]),
    Step::FarGets(b"hi"),
    Step::FarGets(b""),
];

const NO_WRITE_BEHIND: &[Step] = &[
    Step::Marks(OUT_0, WRITING),
    Step::Port(&[
        Act::CloseWrite(OUT_0),
        Act::Writes(OUT_0, b"hi", WriteAnswer::Failed),
    ]),
    Step::FarGets(b""),
];

const ONE_HANDS_ON_THE_OTHER: &[Step] = &[
    Step::Port(&[Act::CloseWrite(OUT_0), Act::CloseWrite(IN_0)]),
    Step::FarGets(b""),
    Step::Port(&[Act::Close(OUT_0), Act::CloseWrite(IN_0)]),
    Step::NearGets(b""),
];

#[test]
fn an_end_of_writing_waits(rt: HostRuntime) -> Result<(), Fail> {
    assert_eq!(rt; plays(&rt, ENDS_AT_CLOSE)?, None);
    assert_eq!(rt; plays(&rt, NO_WRITE_BEHIND)?, None);
    assert_eq!(rt; plays(&rt, ONE_HANDS_ON_THE_OTHER)?, None);
    Ok(())
}

/// An end of which nothing came is not marked, and gives nothing.
const STILL: Step = Step::Port(&[
    Act::Poll(&[WANTS_READ], false, Some(MOST_WAIT), QUIET),
    Act::Reads(IN_0, ReadAnswer::NotYet, &[0; 16]),
]);

const GIVES_ONE: Step = Step::Port(&[Act::Reads(
    IN_0,
    ReadAnswer::Got(1),
    b"x\0\0\0\0\0\0\0\0\0\0\0\0\0\0\0",
)]);

const SPEAKS: &[Step] = &[
    STILL,
    Step::NearSends(b"x"),
    Step::Marks(IN_0, READING),
    GIVES_ONE,
    STILL,
    Step::NearSends(b"x"),
    Step::Marks(IN_0, READING),
    GIVES_ONE,
    STILL,
    Step::NearSends(b"x"),
    Step::Marks(IN_0, READING),
    GIVES_ONE,
];

#[test]
fn an_end_is_marked_once_its_peer_spoke(rt: HostRuntime) -> Result<(), Fail> {
    assert_eq!(rt; plays(&rt, SPEAKS)?, None);
    Ok(())
}

/// A full end is not marked; once its peer read all, it is, and takes a byte.
const STILL_FULL: &[Act] = &[Act::Poll(&[WANTS_WRITE], false, Some(MOST_WAIT), QUIET)];

const TAKES_ONE: &[Act] = &[Act::Writes(IN_0, b"x", WriteAnswer::Took(1))];

fn fills_and_empties(world: &mut World<'_>) -> Result<bool, Fail> {
    let Some(taken) = fills(&mut world.port, IN_0) else {
        return Err(Fail::new("the end was never full"));
    };
    let is_full = first_other(&mut world.port, STILL_FULL).is_none();
    let is_read = empties(&mut world.near, taken)?;
    let is_marked = is_marked(&mut world.port, IN_0, WRITING);
    Ok(is_full && is_read && is_marked && first_other(&mut world.port, TAKES_ONE).is_none())
}

#[test]
fn a_full_end_is_marked_again_once_its_peer_read(rt: HostRuntime) -> Result<(), Fail> {
    let mut world = new_world(&rt)?;
    let went = fills_and_empties(&mut world);
    drop(world);
    assert!(rt; went?);
    Ok(())
}

/// A target that refuses, at a number that the system gives to no socket by itself, and an address that no connection
/// can be begun to.
const REFUSING: [Addr; 2] = [
    Addr {
        ip: [127, 0, 0, 1],
        port: 1,
    },
    Addr {
        ip: [255, 255, 255, 255],
        port: 1,
    },
];

const REFUSED: &[Act] = &[
    Act::Connects(OUT_0, ConnAnswer::Failed),
    Act::Connects(OUT_0, ConnAnswer::Failed),
    Act::Connects(IN_0, ConnAnswer::Connected),
    Act::Accept(0, Accepted::NotYet),
];

fn is_refused(rt: &HostRuntime, port: &mut RealPort<'_>, to: Addr) -> Result<bool, Fail> {
    let started = port.start(ANY_PORT, to) == Started::Started;
    let _near = client(rt, port)?;
    Ok(
        started
            && accepts(port, 0)
            && is_marked(port, OUT_0, WRITING)
            && first_other(port, REFUSED).is_none(),
    )
}

#[test]
fn a_target_that_refuses_fails_at_the_check(rt: HostRuntime) -> Result<(), Fail> {
    for to in REFUSING {
        let mut port = MioPort::new(&rt);
        let refused = is_refused(&rt, &mut port, to);
        drop(port);
        assert!(rt; refused?, "at {to:?}");
    }
    Ok(())
}

/// Each of these polls marks the ready end, and one of them tells of a link.
fn sees_a_link(port: &mut RealPort<'_>) -> bool {
    for _ in 0..16 {
        let mut wants = [want(WANTS_WRITE)];
        let polled = port.poll(&mut wants, true, None);
        if wants != [want((IN_0, WRITING, WRITING))] {
            return false;
        }
        if polled == (Polled::Ready { accept: true }) {
            return true;
        }
    }
    false
}

const NONE_WAITS: &[Act] = &[Act::Accept(3, Accepted::NotYet)];

const ONE_WAITS: &[Act] = &[
    Act::Accept(3, Accepted::Link { connected: false }),
    Act::Accept(4, Accepted::NotYet),
];

fn accepts_a_second(rt: &HostRuntime, port: &mut RealPort<'_>) -> Result<bool, Fail> {
    let is_ready = is_marked(port, IN_0, WRITING) && first_other(port, NONE_WAITS).is_none();
    let _second = client(rt, port)?;
    Ok(is_ready && sees_a_link(port) && first_other(port, ONE_WAITS).is_none())
}

#[test]
fn a_ready_end_does_not_hide_a_new_link(rt: HostRuntime) -> Result<(), Fail> {
    let mut world = new_world(&rt)?;
    let accepted = accepts_a_second(&rt, &mut world.port);
    drop(world);
    assert!(rt; accepted?);
    Ok(())
}

fn table(alloc: Global) -> Result<WantTable, Fail> {
    let mut table = WantTable::new(alloc);
    table.push_link()?;
    table.set(IN_0, true, false);
    table.set(OUT_0, true, true);
    Ok(table)
}

/// A poll of the table lists so many wants, which are among those that a poll of a list marks.
fn marks_alike(port: &mut RealPort<'_>, table: &mut WantTable, count: usize) -> bool {
    let mut wants = [want((OUT_0, BOTH, NEITHER)), want(WANTS_READ)];
    let polled = port.poll(&mut wants, false, None);
    if port.poll_table(table, false, None) != polled || table.list().len() != count {
        return false;
    }
    for want in table.list() {
        if !wants.contains(want) {
            return false;
        }
    }
    true
}

/// A port that isn't started fails and lists nothing; one of a link to which a byte came lists two wants, and once that is read one.
fn polls_a_table(
    rt: &HostRuntime,
    port: &mut RealPort<'_>,
    table: &mut WantTable,
) -> Result<[bool; 4], Fail> {
    let is_failed = port.poll_table(table, true, None) == Polled::Failed && table.list().is_empty();
    let (mut near, _far) = join(rt, port)?;
    near.write_all(b"x")?;
    let is_marked = is_marked(port, IN_0, READING);
    let are_two = marks_alike(port, table, 2);
    port.read(IN_0, &mut [0; 2]);
    let is_one = marks_alike(port, table, 1);
    Ok([is_failed, is_marked, are_two, is_one])
}

#[test]
fn a_table_poll_marks_what_a_poll_of_a_list_marks(rt: HostRuntime) -> Result<(), Fail> {
    let mut table = table(rt.alloc())?;
    let mut port = MioPort::new(&rt);
    let polled = polls_a_table(&rt, &mut port, &mut table);
    drop(port);
    drop(table);
    assert_eq!(rt; polled?, [true; 4]);
    Ok(())
}

/// An address that is none of this machine.
const ELSEWHERE: Addr = Addr {
    ip: [203, 0, 113, 1],
    port: 0,
};

const UNSTARTED: &[Act] = &[
    Act::Poll(&[WANTS_READ], true, None, Polled::Failed),
    Act::Accept(0, Accepted::NotYet),
    Act::Reads(OUT_0, ReadAnswer::NotYet, &[0]),
    Act::Writes(OUT_0, &[0], WriteAnswer::NotYet),
    Act::Connects(OUT_0, ConnAnswer::Pending),
    Act::CloseWrite(OUT_0),
    Act::Close(OUT_0),
    Act::Start(ELSEWHERE, ANY_PORT, Started::Failed),
    Act::Start(ANY_PORT, ANY_PORT, Started::Started),
    Act::Poll(&[], true, Some(0), QUIET),
];

#[test]
fn a_port_that_is_not_started_has_no_end(rt: HostRuntime) {
    let mut port = MioPort::new(&rt);
    let is_nowhere = port.local().is_none();
    let other = first_other(&mut port, UNSTARTED);
    drop(port);
    assert!(rt; is_nowhere);
    assert_eq!(rt; other, None);
}
