// The text of a trace: what it says, and where it is refused.
use ev_types::{Entry, ReadAnswer, Side, SideId, WriteAnswer};
use script_text::{ScriptFault, read_trace, write_trace};
use std::alloc::Global;
use std::test::Fail;

/// A line of each kind, with each answer, reason, cause and ask.
const WHOLE: &str = "turn 0\n\
    turn 18446744073709551615\n\
    poll none\n\
    poll 1099511627776\n\
    want 0 in r\n\
    want 1 out w\n\
    ready 4294967295 in rw\n\
    pollfail\n\
    open 0\n\
    open 1 wait\n\
    conn 1 out ok\n\
    conn 1 out wait\n\
    conn 1 out fail\n\
    read 0 in 16384 got 00ff7a\n\
    read 0 in 1 end\n\
    read 0 in 1 notyet\n\
    read 0 in 0 fail\n\
    write 0 out 3 took 61\n\
    write 0 out 3 notyet\n\
    write 0 out 3 fail\n\
    fired 0 in connected\n\
    fired 0 in read\n\
    fired 0 in write\n\
    fired 0 in timer\n\
    fired 0 in event:0f\n\
    asked 0 in free 9 out ok\n\
    asked 0 in enable 0 in read notlive\n\
    asked 0 in disable 0 in write nogroup\n\
    asked 0 in marks 0 in read 2 1 badvalue\n\
    asked 0 in timeouts 0 in 1 18446744073709551615 toomanyrefs\n\
    asked 0 in rate 0 in none memory\n\
    asked 0 in rate 0 in 1 2 3 4 5 ok\n\
    asked 0 in join 0 in 4294967295 ok\n\
    asked 0 in leave 0 in ok\n\
    asked 0 in trigger 0 in write ok\n\
    asked 0 in timer 0 in 100 ok\n\
    asked 0 in cancel 0 in ok\n\
    asked 0 in incref 0 in ok\n\
    asked 0 in decref 0 in ok\n\
    asked 0 in stop ok\n\
    freed 0 in hook 1 2\n\
    freed 0 in done 1 2\n\
    freed 0 in peergone 1 2\n\
    freed 0 in failed 1 2\n\
    freed 0 in timeout 1 2\n\
    freed 0 in filter:7 1 2\n\
    closewrite 0 out\n\
    close 0 in\n";

/// Texts, each with its first bad line.
const TEXTS: &[(&str, Option<u32>)] = &[
    ("", None),
    ("turn 1", None),
    ("turn  1 \n", None),
    ("\n", Some(1)),
    ("turn 1\n\nturn 1\n", Some(2)),
    ("# turn\n", Some(1)),
    ("turn 01\n", Some(1)),
    ("turn 18446744073709551616\n", Some(1)),
    ("turn\t1\n", Some(1)),
    ("turn\n", Some(1)),
    ("Turn 1\n", Some(1)),
    ("poll\n", Some(1)),
    ("poll None\n", Some(1)),
    ("want 0 in\n", Some(1)),
    ("want 0 in none\n", Some(1)),
    ("want 0 in wr\n", Some(1)),
    ("want 4294967296 in r\n", Some(1)),
    ("ready 0 up r\n", Some(1)),
    ("pollfail 1\n", Some(1)),
    ("open\n", Some(1)),
    ("open 0 now\n", Some(1)),
    ("conn 0 in ok\n", Some(1)),
    ("conn 0 out made\n", Some(1)),
    ("read 0 in 9 got\n", Some(1)),
    ("read 0 in 9 got 6\n", Some(1)),
    ("read 0 in 9 got 6A\n", Some(1)),
    ("read 0 in 9 took 61\n", Some(1)),
    ("read 0 in 9 end 61\n", Some(1)),
    ("read 0 in end\n", Some(1)),
    ("write 0 out 9 got 61\n", Some(1)),
    ("write 0 out 9 end\n", Some(1)),
    ("write 0 out 9 nomemory\n", Some(1)),
    ("write 0 out 9 took 6g\n", Some(1)),
    ("fired 0 in\n", Some(1)),
    ("fired 0 in event\n", Some(1)),
    ("fired 0 in event:\n", Some(1)),
    ("fired 0 in event:0F\n", Some(1)),
    ("fired 0 in event:010\n", Some(1)),
    ("fired 0 in event:0102\n", Some(1)),
    ("asked 0 in ok\n", Some(1)),
    ("asked 0 in stop\n", Some(1)),
    ("asked 0 in stop maybe\n", Some(1)),
    ("asked 0 in stop 0 in ok\n", Some(1)),
    ("asked 0 in nop ok\n", Some(1)),
    ("asked 0 in free 0 in in ok\n", Some(1)),
    ("asked 0 in enable 0 in both ok\n", Some(1)),
    ("asked 0 in marks 0 in read 1 ok\n", Some(1)),
    ("asked 0 in rate 0 in 0 2 3 4 5 ok\n", Some(1)),
    ("asked 0 in rate 0 in 1 2 3 4 ok\n", Some(1)),
    ("asked 0 in join 0 in 4294967296 ok\n", Some(1)),
    ("freed 0 in hook 1\n", Some(1)),
    ("freed 0 in filter 1 2\n", Some(1)),
    ("freed 0 in filter: 1 2\n", Some(1)),
    ("freed 0 in filter:07 1 2\n", Some(1)),
    ("freed 0 in freed 1 2\n", Some(1)),
    ("close 0\n", Some(1)),
    ("closewrite 0 in 1\n", Some(1)),
    ("opened 0\n", Some(1)),
];

/// How many entries the whole text has, and whether they are written as they were read.
fn written_again(alloc: Global) -> Result<(usize, bool), Fail> {
    let tape = read_trace(alloc, WHOLE.as_bytes())?;
    let mut text = Vec::new(alloc);
    write_trace(&tape, &mut text)?;
    Ok((tape.parts().0.len(), text.as_slice() == WHOLE.as_bytes()))
}

#[test]
fn what_was_read_is_written_again(rt: HostRuntime) -> Result<(), Fail> {
    assert_eq!(rt; written_again(rt.alloc())?, (48, true));
    Ok(())
}

const SIDE: SideId = SideId {
    link: 3,
    side: Side::In,
};

const MOVING: &[u8] = b"read 3 in 9 got 6869\nturn 4\nwrite 3 in 2 took 0a\n";

fn moved() -> [Entry; 3] {
    let read = Entry::Read {
        side: SIDE,
        room: 9,
        answer: ReadAnswer::Got(2),
    };
    let write = Entry::Write {
        side: SIDE,
        offered: 2,
        answer: WriteAnswer::Took(1),
    };
    [read, Entry::Turn { ms: 4 }, write]
}

#[test]
fn bytes_stand_beside_the_entries_that_moved_them(rt: HostRuntime) -> Result<(), Fail> {
    let tape = read_trace(rt.alloc(), MOVING)?;
    let are_owed = tape.parts() == (moved().as_slice(), b"hi\n".as_slice());
    drop(tape);
    assert!(rt; are_owed);
    Ok(())
}

#[test]
fn the_first_line_that_is_none_of_a_trace_is_told(rt: HostRuntime) {
    for (text, line) in TEXTS {
        let fault = read_trace(rt.alloc(), text.as_bytes()).err();
        assert_eq!(rt; fault, line.map(ScriptFault::BadLine), "{text}");
    }
}
