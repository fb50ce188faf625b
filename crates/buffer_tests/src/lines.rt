// Lines out of a buffer: calls in a row, each with what it answers.

use Act::{Add, FreezeFront, Len, Peek, ReadLine, Search, SearchEnd};
use Answer::{Count, Done, End, No, Other, Refused, Shown};
use ev_types::NoMemory;
use evbuf::{BufFault, Evbuffer, Place};
use evbuf_scan::{Eol, peek, readln, search, search_eol};
use std::alloc::Global;

/// A call on a buffer, with its arguments. What shows bytes has the bytes that it must show.
#[derive(Clone, Copy)]
enum Act {
    Add(&'static [u8]),
    FreezeFront,
    ReadLine(Eol, &'static [u8]),
    Peek(usize, &'static [u8]),
    Search(&'static [u8], usize),
    SearchEnd(Eol, usize),
    Len,
}

/// What a call answers: a length or a place is a count, and a line end has its place and its length.
#[derive(Clone, Copy, PartialEq)]
enum Answer {
    Done,
    Count(usize),
    End(usize, usize),
    /// The bytes that the call has, or other bytes.
    Shown,
    Other,
    No,
    Refused(BufFault),
}

type Row = (Act, Answer);

fn shown(found: &[u8], bytes: &[u8]) -> Answer {
    if found == bytes { Shown } else { Other }
}

fn read_line(buf: &mut Evbuffer, style: Eol, bytes: &[u8]) -> Result<Answer, BufFault> {
    match readln(buf.allocator(), buf, style)? {
        Some(line) => Ok(shown(&line, bytes)),
        None => Ok(No),
    }
}

fn peeked(buf: &Evbuffer, n: usize, bytes: &[u8]) -> Result<Answer, NoMemory> {
    let found = peek(buf.allocator(), buf, n)?;
    Ok(shown(&found, bytes))
}

fn searched(buf: &Evbuffer, needle: &[u8], from: usize) -> Result<Answer, NoMemory> {
    Ok(search(buf.allocator(), buf, needle, from)?.map_or(No, Count))
}

fn without_memory(_: NoMemory) -> Answer {
    Refused(BufFault::Memory)
}

fn play(buf: &mut Evbuffer, act: Act) -> Answer {
    match act {
        Add(bytes) => buf.add(bytes).map_or_else(Refused, |()| Done),
        FreezeFront => {
            buf.freeze(Place::Front);
            Done
        }
        ReadLine(style, bytes) => read_line(buf, style, bytes).unwrap_or_else(Refused),
        Peek(n, bytes) => peeked(buf, n, bytes).unwrap_or_else(without_memory),
        Search(needle, from) => searched(buf, needle, from).unwrap_or_else(without_memory),
        SearchEnd(style, from) => {
            search_eol(buf, style, from).map_or(No, |(place, length)| End(place, length))
        }
        Len => Count(buf.len()),
    }
}

/// The place of the first row that a buffer answers otherwise.
fn first_wrong(buf: &mut Evbuffer, rows: &[Row]) -> Option<usize> {
    for (place, (act, wanted)) in rows.iter().enumerate() {
        if play(buf, *act) != *wanted {
            return Some(place);
        }
    }
    None
}

/// The same for a new buffer.
fn first_wrong_of(alloc: Global, rows: &[Row]) -> Option<usize> {
    let mut buf = Evbuffer::new(alloc);
    first_wrong(&mut buf, rows)
}

const LINES: &[Row] = &[
    (Add(b"one\r\ntwo\n\nrest"), Done),
    (ReadLine(Eol::Crlf, b"one"), Shown),
    (ReadLine(Eol::Crlf, b"two"), Shown),
    (ReadLine(Eol::Crlf, b""), Shown),
    (ReadLine(Eol::Crlf, b""), No),
    (Peek(9, b"rest"), Shown),
    (Peek(2, b"re"), Shown),
    (Len, Count(4)),
];

#[test]
fn lines_are_taken_without_their_ends(rt: HostRuntime) {
    assert_eq!(rt; first_wrong_of(rt.alloc(), LINES), None);
}

const FROZEN: &[Row] = &[
    (Add(b"a\nb"), Done),
    (FreezeFront, Done),
    (ReadLine(Eol::Lf, b"a"), Refused(BufFault::FrozenFront)),
    (ReadLine(Eol::Nul, b""), Refused(BufFault::FrozenFront)),
    (SearchEnd(Eol::Lf, 0), End(1, 1)),
    (Search(b"b", 0), Count(2)),
    (Peek(1, b"a"), Shown),
];

#[test]
fn a_frozen_front_refuses_lines_alone(rt: HostRuntime) {
    assert_eq!(rt; first_wrong_of(rt.alloc(), FROZEN), None);
}
