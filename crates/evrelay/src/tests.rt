// What no clause says: that runs over a port of a script come to their reports, and what stands on standard error.
use crate::program::relay_program;
use crate::ring::Ring;
use ev_port::{MemSink, Port, Scribe, WantTable};
use ev_types::{Entry, ReadAnswer, Side, SideId};
use script_port::ScriptPort;
use script_text::read_script;
use std::alloc::{AllocGlobal, Global};
use std::sync::Wait;
use std::test::Fail;

mod failed_calls;
mod hooks;
mod sockets;

/// What a run of the program is owed to come to: the status of the process, its report, and what it says on standard error.
type Owed = (u8, &'static str, &'static str);

fn words(alloc: Global, links: &str) -> Result<Vec<String>, Fail> {
    let mut words = Vec::new(alloc);
    for word in [
        "--listen=127.0.0.1:8080",
        "--to",
        "127.0.0.1:80",
        "--links",
        links,
    ] {
        words.push(String::from_str(alloc, word)?)?;
    }
    Ok(words)
}

/// Whether a run with so many links over this port comes to that, where this write of the report fails, counted from 1; 0 is none.
fn comes_to<R: Wait + AllocGlobal, P: Port>(
    rt: &R,
    links: &str,
    port: &mut P,
    failing_write: u64,
    owed: &Owed,
) -> Result<bool, Fail> {
    let alloc = rt.alloc();
    let words = words(alloc, links)?;
    let failing = vec![in alloc; failing_write]?;
    let mut sink = MemSink::new(alloc, 5, failing);
    let mut errors = MemSink::new(alloc, 64, Vec::new(alloc));
    let number = relay_program(rt, alloc, Ok(words), port, &mut sink, &mut errors);
    let (status, report, said) = owed;
    Ok(number == *status && sink.bytes() == report.as_bytes() && errors.bytes() == said.as_bytes())
}

fn port_of(alloc: Global, script: &str) -> Result<ScriptPort, Fail> {
    Ok(ScriptPort::new(alloc, read_script(alloc, script.as_bytes())?)?)
}

/// Both ways end by themselves.
const BOTH_WAYS: &str =
    "at 0\nopen\nat 1\nr 0 in 474554\neof 0 in\nw 0 in all\nw 0 out all\nat 2\nr 0 out 323030\neof 0 out\nat 3\n";

/// One link ends by itself, and the connection of the other fails.
const ONE_GONE: &str =
    "at 0\nopen\nopen wait\neof 0 in\neof 0 out\nat 1\nr 1 in 61\nconn 1 fail\nat 2\n";

/// Scripts, each with how many links are asked for, the status, the report and the line that it comes to.
const RUNS: &[(&str, &str, Owed)] = &[
    (
        BOTH_WAYS,
        "1",
        (0, "link 0 done in 3 3 out 3 3\ndone 1 open 0 gone 0\n", ""),
    ),
    (
        ONE_GONE,
        "2",
        (
            0,
            "link 0 done in 0 0 out 0 0\nlink 1 gone in 1 0 out 0 0\ndone 1 open 0 gone 1\n",
            "",
        ),
    ),
    // The second link isn't asked for.
    (
        ONE_GONE,
        "1",
        (0, "link 0 done in 0 0 out 0 0\ndone 1 open 0 gone 0\n", ""),
    ),
    (BOTH_WAYS, "0", (1, "", "usage\n")),
    (BOTH_WAYS, "65536", (1, "", "usage\n")),
];

/// The place of the first run that comes to something else.
fn first_other_run<R: Wait + AllocGlobal>(rt: &R) -> Result<Option<usize>, Fail> {
    for (place, (script, links, owed)) in RUNS.iter().enumerate() {
        let mut port = port_of(rt.alloc(), script)?;
        if !comes_to(rt, links, &mut port, 0, owed)? {
            return Ok(Some(place));
        }
    }
    Ok(None)
}

#[test]
fn runs_come_to_their_reports(rt: HostRuntime) -> Result<(), Fail> {
    assert_eq!(rt; first_other_run(&rt)?, None);
    Ok(())
}

#[test]
fn a_report_that_is_cut_off_is_told(rt: HostRuntime) -> Result<(), Fail> {
    let mut port = port_of(rt.alloc(), BOTH_WAYS)?;
    let told = comes_to(&rt, "1", &mut port, 2, &(4, "link ", "write fault\n"));
    drop(port);
    assert!(rt; told?);
    Ok(())
}

const READ: Entry = Entry::Read {
    side: SideId {
        link: 7,
        side: Side::Out,
    },
    room: 16_384,
    answer: ReadAnswer::Got(2),
};

fn put_71(ring: &mut Ring) -> Result<(), Fail> {
    for ms in 0..70u64 {
        ring.reserve(1, 0)?;
        ring.put(Entry::Turn { ms }, &[]);
    }
    ring.reserve(1, 2)?;
    ring.put(READ, b"hi");
    Ok(())
}

/// Whether the text of a ring of 71 entries begins with the eighth one and ends with the last.
fn keeps_64(alloc: Global) -> Result<[bool; 2], Fail> {
    let mut ring = Ring::new(alloc)?;
    put_71(&mut ring)?;
    ring.spell();
    let text = &ring.text;
    Ok([
        text.starts_with(b"turn 7\nturn 8\n"),
        text.ends_with(b"turn 69\nread 7 out 16384 got 2\n"),
    ])
}

#[test]
fn the_ring_keeps_the_last_64_entries(rt: HostRuntime) -> Result<(), Fail> {
    assert_eq!(rt; keeps_64(rt.alloc())?, [true; 2]);
    Ok(())
}

/// A table of so many links, whose In sides want to read and whose Out sides want both.
fn table_of(alloc: Global, links: u32) -> Result<WantTable, Fail> {
    let mut table = WantTable::new(alloc);
    for link in 0..links {
        table.push_link()?;
        if link < table.links() {
            let side = Side::In;
            table.set(SideId { link, side }, true, false);
            let side = Side::Out;
            table.set(SideId { link, side }, true, true);
        }
    }
    Ok(table)
}

/// Whether the text of a ring of 100 wants and a read begins with the 38th want, and ends with the last one and the read.
fn keeps_63_wants(alloc: Global) -> Result<[bool; 2], Fail> {
    let table = table_of(alloc, 50)?;
    let mut ring = Ring::new(alloc)?;
    if table.count() == 100 {
        ring.put_wants(&table);
    }
    ring.reserve(1, 2)?;
    ring.put(READ, b"hi");
    ring.spell();
    let text = &ring.text;
    Ok([
        text.starts_with(b"want 18 out rw\nwant 19 in r\n"),
        text.ends_with(b"want 49 out rw\nread 7 out 16384 got 2\n"),
    ])
}

#[test]
fn the_ring_keeps_the_last_of_many_wants(rt: HostRuntime) -> Result<(), Fail> {
    assert_eq!(rt; keeps_63_wants(rt.alloc())?, [true; 2]);
    Ok(())
}
