// Values of limits, sides and tapes, each read back.

use ev_types::{Entry, LimitCfg, NoMemory, ReadAnswer, Side, SideId, Tape};

fn numbers(limit: LimitCfg) -> [u64; 5] {
    [
        limit.read_rate(),
        limit.read_burst(),
        limit.write_rate(),
        limit.write_burst(),
        limit.tick_ms(),
    ]
}

#[test]
fn a_limit_gives_back_its_numbers(rt: HostRuntime) {
    let limit = LimitCfg::new(1, 2, 3, 4, 5);
    assert_eq!(rt; limit.map(numbers), Ok([1, 2, 3, 4, 5]));
}

const IN: SideId = SideId {
    link: 3,
    side: Side::In,
};

#[test]
fn sides_are_numbered_link_by_link_with_in_first(rt: HostRuntime) {
    assert_eq!(rt; (IN.number(), IN.peer().number()), (6, 7));
    assert_eq!(rt; IN.peer().peer(), IN);
}

const TURN: Entry = Entry::Turn { ms: 5 };

const READ: Entry = Entry::Read {
    side: IN,
    room: 9,
    answer: ReadAnswer::Got(2),
};

/// Whether a tape gives back two entries, and whether it gives back their bytes.
fn gives_back(tape: &mut Tape) -> Result<(bool, bool), NoMemory> {
    tape.reserve(2, 2)?;
    tape.put(TURN, &[]);
    tape.put(READ, b"hi");
    let (entries, bytes) = tape.parts();
    Ok((
        entries == [TURN, READ].as_slice(),
        bytes == b"hi".as_slice(),
    ))
}

#[test]
fn a_tape_gives_back_its_entries_and_bytes(rt: HostRuntime) {
    let mut tape = Tape::new(rt.alloc());
    let answer = gives_back(&mut tape);
    drop(tape);
    assert_eq!(rt; answer, Ok((true, true)));
}
