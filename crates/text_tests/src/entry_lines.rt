// Traces and reports: the line of each entry and of each link.
use ev_types::{
    Act, AskAnswer, Cause, ConnAnswer, Dir, Entry, Flags, LimitCfg, LinkState, ReadAnswer, Side,
    SideId, Tape, Why, WriteAnswer,
};
use script_text::{LinkCount, read_trace, write_report, write_trace};
use std::alloc::Global;
use std::test::Fail;

const IN: SideId = SideId {
    link: 0,
    side: Side::In,
};

const OUT: SideId = SideId {
    link: 7,
    side: Side::Out,
};

/// An entry with its bytes and its line.
type Row = (Entry, &'static str, &'static str);

fn wanted(side: SideId, read: bool, write: bool) -> Entry {
    Entry::Want { side, read, write }
}

fn opened(connected: bool) -> Entry {
    Entry::Opened { link: 3, connected }
}

fn conn(answer: ConnAnswer) -> Entry {
    Entry::Conn { side: OUT, answer }
}

fn read(room: u64, answer: ReadAnswer) -> Entry {
    let side = IN;
    Entry::Read { side, room, answer }
}

fn written(answer: WriteAnswer) -> Entry {
    Entry::Write {
        side: OUT,
        offered: 2,
        answer,
    }
}

fn fired(why: Why) -> Entry {
    Entry::Fired { side: IN, why }
}

fn freed(side: SideId, cause: Cause, moved: u64, given: u64) -> Entry {
    Entry::Freed {
        side,
        cause,
        moved,
        given,
    }
}

fn asked(act: Act, answer: AskAnswer) -> Entry {
    Entry::Asked {
        side: IN,
        act,
        answer,
    }
}

/// What begins a turn.
fn polled() -> [Row; 9] {
    let ready = Entry::Ready {
        side: OUT,
        read: true,
        write: true,
    };
    [
        (Entry::Turn { ms: 1 << 40 }, "", "turn 1099511627776\n"),
        (Entry::Poll { timeout: None }, "", "poll none\n"),
        (Entry::Poll { timeout: Some(0) }, "", "poll 0\n"),
        (wanted(IN, true, false), "", "want 0 in r\n"),
        (wanted(OUT, false, true), "", "want 7 out w\n"),
        (ready, "", "ready 7 out rw\n"),
        (Entry::PollFailed, "", "pollfail\n"),
        (opened(true), "", "open 3\n"),
        (opened(false), "", "open 3 wait\n"),
    ]
}

/// What ends are asked.
fn called() -> [Row; 10] {
    [
        (conn(ConnAnswer::Connected), "", "conn 7 out ok\n"),
        (conn(ConnAnswer::Pending), "", "conn 7 out wait\n"),
        (conn(ConnAnswer::Failed), "", "conn 7 out fail\n"),
        (
            read(16384, ReadAnswer::Got(2)),
            "A\n",
            "read 0 in 16384 got 410a\n",
        ),
        (read(9, ReadAnswer::Ended), "", "read 0 in 9 end\n"),
        (read(9, ReadAnswer::NotYet), "", "read 0 in 9 notyet\n"),
        (read(9, ReadAnswer::Failed), "", "read 0 in 9 fail\n"),
        (
            written(WriteAnswer::Took(1)),
            "~",
            "write 7 out 2 took 7e\n",
        ),
        (written(WriteAnswer::NotYet), "", "write 7 out 2 notyet\n"),
        (written(WriteAnswer::Failed), "", "write 7 out 2 fail\n"),
    ]
}

/// What becomes of a side.
fn ended() -> [Row; 14] {
    let close_write = Entry::CloseWrite { side: OUT };
    let close = Entry::Close { side: IN };
    [
        (fired(Why::Connected), "", "fired 0 in connected\n"),
        (fired(Why::Read), "", "fired 0 in read\n"),
        (fired(Why::Write), "", "fired 0 in write\n"),
        (fired(Why::Timer), "", "fired 0 in timer\n"),
        (fired(Why::Event(Flags(0x02))), "", "fired 0 in event:02\n"),
        (fired(Why::Event(Flags(0xf1))), "", "fired 0 in event:f1\n"),
        (
            freed(IN, Cause::Filter(1), 2, 3),
            "",
            "freed 0 in filter:1 2 3\n",
        ),
        (
            freed(IN, Cause::PeerGone, 8, 0),
            "",
            "freed 0 in peergone 8 0\n",
        ),
        (close_write, "", "closewrite 7 out\n"),
        (close, "", "close 0 in\n"),
        (freed(OUT, Cause::Hook, 1, 0), "", "freed 7 out hook 1 0\n"),
        (freed(OUT, Cause::Done, 1, 0), "", "freed 7 out done 1 0\n"),
        (
            freed(OUT, Cause::Failed, 1, 0),
            "",
            "freed 7 out failed 1 0\n",
        ),
        (
            freed(OUT, Cause::Timeout, 1, 0),
            "",
            "freed 7 out timeout 1 0\n",
        ),
    ]
}

/// Asks with their answers, and the end of the line of each.
fn asks() -> [(Entry, &'static str); 14] {
    let ok = AskAnswer::Ok;
    [
        (asked(Act::Free(OUT), ok), "free 7 out ok"),
        (
            asked(Act::Enable(IN, Dir::Read), AskAnswer::NotLive),
            "enable 0 in read notlive",
        ),
        (
            asked(Act::Disable(IN, Dir::Write), ok),
            "disable 0 in write ok",
        ),
        (
            asked(Act::Marks(IN, Dir::Read, 2, 1), AskAnswer::BadValue),
            "marks 0 in read 2 1 badvalue",
        ),
        (asked(Act::Timeouts(IN, 1, 2), ok), "timeouts 0 in 1 2 ok"),
        (asked(Act::Rate(IN, None), ok), "rate 0 in none ok"),
        (
            asked(Act::Join(IN, 4), AskAnswer::NoGroup),
            "join 0 in 4 nogroup",
        ),
        (asked(Act::Leave(IN), ok), "leave 0 in ok"),
        (
            asked(Act::Trigger(OUT, Dir::Read), ok),
            "trigger 7 out read ok",
        ),
        (
            asked(Act::Timer(IN, 100), AskAnswer::Memory),
            "timer 0 in 100 memory",
        ),
        (asked(Act::Cancel(IN), ok), "cancel 0 in ok"),
        (
            asked(Act::Incref(IN), AskAnswer::TooManyRefs),
            "incref 0 in toomanyrefs",
        ),
        (asked(Act::Decref(IN), ok), "decref 0 in ok"),
        (asked(Act::Stop, ok), "stop ok"),
    ]
}

/// Whether the text of a trace of this entry alone is this one. The bytes are those of the entry.
fn is_written(alloc: Global, entry: Entry, bytes: &[u8], owed: &[u8]) -> Result<bool, Fail> {
    let mut text = Vec::new(alloc);
    let mut tape = Tape::new(alloc);
    tape.reserve(1, bytes.len())?;
    if entry.byte_count() != bytes.len() {
        return Ok(false);
    }
    tape.put(entry, bytes);
    write_trace(&tape, &mut text)?;
    Ok(text.as_slice() == owed)
}

fn is_read(alloc: Global, text: &[u8], entry: Entry, bytes: &[u8]) -> Result<bool, Fail> {
    let tape = read_trace(alloc, text)?;
    let (entries, kept) = tape.parts();
    Ok(entries == [entry].as_slice() && kept == bytes)
}

/// The place of the first entry whose line is another, or is read as another.
fn first_other_entry(alloc: Global, rows: &[Row]) -> Result<Option<usize>, Fail> {
    for (place, (entry, bytes, text)) in rows.iter().enumerate() {
        let (bytes, text) = (bytes.as_bytes(), text.as_bytes());
        if !is_written(alloc, *entry, bytes, text)? || !is_read(alloc, text, *entry, bytes)? {
            return Ok(Some(place));
        }
    }
    Ok(None)
}

/// The first other of each kind.
fn first_of_each(alloc: Global) -> Result<[Option<usize>; 3], Fail> {
    Ok([
        first_other_entry(alloc, &polled())?,
        first_other_entry(alloc, &called())?,
        first_other_entry(alloc, &ended())?,
    ])
}

#[test]
fn each_entry_has_its_line(rt: HostRuntime) -> Result<(), Fail> {
    assert_eq!(rt; first_of_each(rt.alloc())?, [None; 3]);
    Ok(())
}

fn first_other_ask(alloc: Global) -> Result<Option<usize>, Fail> {
    for (place, (entry, text)) in asks().iter().enumerate() {
        let owed = format!(in alloc; "asked 0 in {text}\n")?;
        if !is_written(alloc, *entry, b"", owed.as_bytes())? {
            return Ok(Some(place));
        }
    }
    Ok(None)
}

#[test]
fn each_ask_has_its_line(rt: HostRuntime) -> Result<(), Fail> {
    assert_eq!(rt; first_other_ask(rt.alloc())?, None);
    Ok(())
}

#[test]
fn a_limit_is_spelled_by_its_numbers(rt: HostRuntime) -> Result<(), Fail> {
    let entry = asked(
        Act::Rate(OUT, Some(LimitCfg::new(1, 2, 3, 4, 5)?)),
        AskAnswer::Ok,
    );
    let owed = b"asked 0 in rate 7 out 1 2 3 4 5 ok\n";
    assert!(rt; is_written(rt.alloc(), entry, b"", owed)?);
    Ok(())
}

/// A link of each state.
const LINKS: &[LinkCount] = &[
    LinkCount {
        state: LinkState::Done,
        in_read: 5,
        in_given: 0,
        out_read: 0,
        out_given: 5,
    },
    LinkCount {
        state: LinkState::Live,
        in_read: 1,
        in_given: 2,
        out_read: 3,
        out_given: 4,
    },
    LinkCount {
        state: LinkState::Gone,
        in_read: 0,
        in_given: 0,
        out_read: 0,
        out_given: 0,
    },
    LinkCount {
        state: LinkState::Gone,
        in_read: 0,
        in_given: 0,
        out_read: 9,
        out_given: 0,
    },
];

const BEHIND: &[u8] = b"\
before
turn 0
pollfail
link 0 done in 5 0 out 0 5
link 1 open in 1 2 out 3 4
link 2 gone in 0 0 out 0 0
link 3 gone in 0 0 out 9 0
done 1 open 1 gone 2
";

fn put_behind(alloc: Global) -> Result<bool, Fail> {
    let mut text = b"before\n".to_vec(alloc)?;
    let mut tape = Tape::new(alloc);
    tape.reserve(2, 0)?;
    tape.put(Entry::Turn { ms: 0 }, &[]);
    tape.put(Entry::PollFailed, &[]);
    write_trace(&tape, &mut text)?;
    write_report(LINKS, &mut text)?;
    Ok(text.as_slice() == BEHIND)
}

#[test]
fn a_trace_and_a_report_stand_behind_what_was_there(rt: HostRuntime) -> Result<(), Fail> {
    assert!(rt; put_behind(rt.alloc())?);
    Ok(())
}
