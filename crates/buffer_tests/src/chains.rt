// Runs of chains: calls in a row, each with what it answers, and many small pieces in a row.

use crate::slices::join;
use Act::{
    CopyOut, Drain, Extents, Len, Prepend, Pullup, PushCopy, PushRef, PushReserved, Slices, Ticket,
};
use Answer::{Count, Done, No, Other, Shown};
use Step::{AppendAll, First, Second, SplitFront};
use evbuf_chain::{Chain, ChainFault};
use std::alloc::Global;
use std::rc::RcSlice;
use std::test::Fail;

/// A call on a chain, with its arguments. What shows bytes has the bytes that it must show.
#[derive(Clone, Copy)]
enum Act {
    PushCopy(&'static [u8]),
    Prepend(&'static [u8]),
    /// In room that is made for the bytes.
    PushReserved(&'static [u8]),
    PushRef(&'static [u8], u64),
    Drain(usize),
    Len,
    CopyOut(usize, &'static [u8]),
    Pullup(usize, &'static [u8]),
    Extents(usize, &'static [u8]),
    /// In how many slices the first so many stand.
    Slices(usize),
    Ticket,
}

/// A call on the first or on the second of two chains, or one that moves bytes from the first to the second.
#[derive(Clone, Copy)]
enum Step {
    First(Act),
    Second(Act),
    SplitFront(usize),
    /// The whole second chain goes to the end of the first.
    AppendAll,
}

/// What a call answers.
#[derive(Clone, Copy, PartialEq)]
enum Answer {
    Done,
    Count(u64),
    /// The bytes that the call has, or other bytes.
    Shown,
    Other,
    No,
    Refused(ChainFault),
}

type Row = (Act, Answer);

fn shown(found: &[u8], bytes: &[u8]) -> Answer {
    if found == bytes { Shown } else { Other }
}

fn push_reserved(chain: &mut Chain, bytes: &[u8]) -> Result<(), ChainFault> {
    chain.reserve(bytes.len())?;
    chain.push_reserved(bytes);
    Ok(())
}

fn push_ref(chain: &mut Chain, bytes: &[u8], ticket: u64) -> Result<(), ChainFault> {
    let slice = RcSlice::from_slice(chain.allocator(), bytes)?;
    chain.push_ref(slice, ticket)
}

/// Of the bytes from a place on, 4 at most.
fn copy_out(chain: &Chain, from: usize, bytes: &[u8]) -> Answer {
    let mut into = [0u8; 4];
    let count = chain.copy_out(from, &mut into);
    shown(into.split_at(count).0, bytes)
}

fn extents(chain: &Chain, n: usize, bytes: &[u8]) -> Result<Answer, ChainFault> {
    let extents = chain.extents(n)?;
    let same = join(extents.as_slice(), bytes);
    drop(extents);
    Ok(if same { Shown } else { Other })
}

fn slices(chain: &Chain, n: usize) -> Result<Answer, ChainFault> {
    let extents = chain.extents(n)?;
    let many = extents.len();
    drop(extents);
    Ok(Count(many as u64))
}

fn play(chain: &mut Chain, act: Act) -> Result<Answer, ChainFault> {
    match act {
        PushCopy(bytes) => chain.push_copy(bytes)?,
        Prepend(bytes) => chain.prepend(bytes)?,
        PushReserved(bytes) => push_reserved(chain, bytes)?,
        PushRef(bytes, ticket) => push_ref(chain, bytes, ticket)?,
        Drain(n) => chain.drain(n),
        Len => return Ok(Count(chain.len() as u64)),
        CopyOut(from, bytes) => return Ok(copy_out(chain, from, bytes)),
        Pullup(n, bytes) => return Ok(chain.pullup(n)?.map_or(No, |found| shown(found, bytes))),
        Extents(n, bytes) => return extents(chain, n, bytes),
        Slices(n) => return slices(chain, n),
        Ticket => return Ok(chain.take_released().map_or(No, Count)),
    }
    Ok(Done)
}

fn play_step(first: &mut Chain, second: &mut Chain, step: Step) -> Result<Answer, ChainFault> {
    match step {
        First(act) => play(first, act),
        Second(act) => play(second, act),
        SplitFront(n) => Ok(Count(first.split_front(n, second)? as u64)),
        AppendAll => append_all(first, second),
    }
}

fn append_all(first: &mut Chain, second: &mut Chain) -> Result<Answer, ChainFault> {
    if second.len() > usize::MAX - first.len() {
        return Err(ChainFault::Spent);
    }
    first.append_all(second);
    Ok(Done)
}

/// The place of the first row that a chain answers otherwise.
fn first_wrong(chain: &mut Chain, rows: &[Row]) -> Option<usize> {
    for (place, (act, wanted)) in rows.iter().enumerate() {
        if play(chain, *act).unwrap_or_else(Answer::Refused) != *wanted {
            return Some(place);
        }
    }
    None
}

/// The same for a new chain.
fn first_wrong_of(alloc: Global, rows: &[Row]) -> Option<usize> {
    let mut chain = Chain::new(alloc);
    first_wrong(&mut chain, rows)
}

/// The place of the first row that two chains answer otherwise.
fn first_wrong_step(
    first: &mut Chain,
    second: &mut Chain,
    rows: &[(Step, Answer)],
) -> Option<usize> {
    for (place, (step, wanted)) in rows.iter().enumerate() {
        if play_step(first, second, *step).unwrap_or_else(Answer::Refused) != *wanted {
            return Some(place);
        }
    }
    None
}

const BOTH_ENDS: &[Row] = &[
    (PushCopy(b"cd"), Done),
    (Prepend(b"ab"), Done),
    (PushReserved(b"ef"), Done),
    (Len, Count(6)),
    (CopyOut(1, b"bcde"), Shown),
    (CopyOut(5, b"f"), Shown),
    (CopyOut(9, b""), Shown),
    (Drain(4), Done),
    (Pullup(3, b"ef"), No),
    (Pullup(2, b"ef"), Shown),
    (Drain(9), Done),
    (Len, Count(0)),
];

#[test]
fn bytes_come_in_at_both_ends_and_leave_in_order(rt: HostRuntime) {
    assert_eq!(rt; first_wrong_of(rt.alloc(), BOTH_ENDS), None);
}

const SLICES: &[Row] = &[(PushCopy(b"abcdef"), Done), (Extents(4, b"abcd"), Shown)];

#[test]
fn slices_of_the_first_bytes_joined_are_these_bytes(rt: HostRuntime) {
    assert_eq!(rt; first_wrong_of(rt.alloc(), SLICES), None);
}

const CHUNKS: &[Row] = &[
    (PushCopy(b"ab"), Done),
    (PushRef(b"cd", 1), Done),
    (PushRef(b"e", 2), Done),
    (PushCopy(b"fg"), Done),
    (Extents(7, b"abcdefg"), Shown),
    (Extents(4, b"abcd"), Shown),
    (CopyOut(0, b"abcd"), Shown),
    (CopyOut(1, b"bcde"), Shown),
    (CopyOut(4, b"efg"), Shown),
    (Drain(1), Done),
    (Prepend(b"A"), Done),
    (Extents(6, b"Abcdef"), Shown),
    (CopyOut(2, b"cdef"), Shown),
    (Pullup(4, b"Abcd"), Shown),
    (Ticket, Count(1)),
    (Ticket, No),
    (Pullup(3, b"Abc"), Shown),
    (CopyOut(3, b"defg"), Shown),
    (Drain(4), Done),
    (Pullup(3, b"efg"), Shown),
    (Ticket, Count(2)),
    (Extents(9, b"efg"), Shown),
];

#[test]
fn bytes_are_read_across_chunks(rt: HostRuntime) {
    assert_eq!(rt; first_wrong_of(rt.alloc(), CHUNKS), None);
}

const TICKETS: &[Row] = &[
    (PushRef(b"abcde", 7), Done),
    (PushRef(b"", 8), Done),
    (PushRef(b"f", 7), Done),
    (Ticket, Count(8)),
    (Drain(4), Done),
    (Ticket, No),
    (Pullup(1, b"e"), Shown),
    (Ticket, Count(7)),
    (Drain(2), Done),
    (Ticket, Count(7)),
    (Ticket, No),
];

#[test]
fn a_ticket_comes_once_when_the_last_byte_leaves(rt: HostRuntime) {
    assert_eq!(rt; first_wrong_of(rt.alloc(), TICKETS), None);
}

const CUT: &[(Step, Answer)] = &[
    (First(PushRef(b"abc", 1)), Done),
    (First(PushRef(b"def", 2)), Done),
    (SplitFront(4), Count(4)),
    (First(Drain(9)), Done),
    (First(Ticket), Count(2)),
    (Second(Ticket), No),
    (Second(Pullup(4, b"abcd")), Shown),
    (Second(Ticket), Count(1)),
    (AppendAll, Done),
    (First(Len), Count(4)),
    (Second(Len), Count(0)),
];

#[test]
fn a_cut_reference_stays_with_the_rest(rt: HostRuntime) {
    let mut first = Chain::new(rt.alloc());
    let mut second = Chain::new(rt.alloc());
    let wrong = first_wrong_step(&mut first, &mut second, CUT);
    drop(second);
    drop(first);
    assert_eq!(rt; wrong, None);
}

const MOVED: &[(Step, Answer)] = &[
    (First(PushCopy(b"a")), Done),
    (First(PushRef(b"bc", 1)), Done),
    (First(PushCopy(b"de")), Done),
    (Second(PushRef(b"fg", 2)), Done),
    (Second(PushCopy(b"h")), Done),
    (AppendAll, Done),
    (Second(Len), Count(0)),
    (First(Extents(8, b"abcdefgh")), Shown),
    (First(CopyOut(3, b"defg")), Shown),
    (First(PushCopy(b"i")), Done),
    (SplitFront(4), Count(4)),
    (First(Extents(9, b"efghi")), Shown),
    (Second(Extents(9, b"abcd")), Shown),
    (SplitFront(1), Count(1)),
    (SplitFront(2), Count(2)),
    (Second(Extents(9, b"abcdefg")), Shown),
    (Second(Drain(9)), Done),
    (Second(Ticket), Count(1)),
    (Second(Ticket), Count(2)),
    (Second(Ticket), No),
    (First(Ticket), No),
    (First(Extents(9, b"hi")), Shown),
];

#[test]
fn chunks_keep_their_order_as_they_move(rt: HostRuntime) {
    let mut first = Chain::new(rt.alloc());
    let mut second = Chain::new(rt.alloc());
    let wrong = first_wrong_step(&mut first, &mut second, MOVED);
    drop(second);
    drop(first);
    assert_eq!(rt; wrong, None);
}

/// Bytes of a reference that is too long to be copied.
const LONG: &[u8] = &[b'r'; 4_000];

const SHARED: &[(Step, Answer)] = &[
    (First(PushCopy(b"a")), Done),
    (Second(PushRef(LONG, 1)), Done),
    (Second(PushRef(LONG, 2)), Done),
    (AppendAll, Done),
    (First(Len), Count(8_001)),
    (First(Slices(8_001)), Count(3)),
    (First(Ticket), No),
    (First(Drain(4_001)), Done),
    (First(Ticket), Count(1)),
    (First(Ticket), No),
];

#[test]
fn references_are_moved_and_not_copied(rt: HostRuntime) {
    let mut first = Chain::new(rt.alloc());
    let mut second = Chain::new(rt.alloc());
    let wrong = first_wrong_step(&mut first, &mut second, SHARED);
    drop(second);
    drop(first);
    assert_eq!(rt; wrong, None);
}

/// How many references are let go at once.
const REFERENCES: u32 = 1_000_000;

fn refer_often(chain: &mut Chain, slice: &RcSlice<u8>) -> Result<(), ChainFault> {
    for _ in 0..REFERENCES {
        chain.push_ref(slice.clone()?, 1)?;
    }
    Ok(())
}

#[test]
fn a_long_chain_of_references_is_let_go(rt: HostRuntime) -> Result<(), Fail> {
    let slice = RcSlice::from_slice(rt.alloc(), b"ab")?;
    let mut chain = Chain::new(rt.alloc());
    let came = refer_often(&mut chain, &slice);
    let mut last = [0u8; 1];
    let read = chain.copy_out(1_999_999, &mut last);
    let length = chain.len();
    drop(chain);
    let left = RcSlice::strong_count(&slice);
    drop(slice);
    assert_eq!(rt;
        (came, length, read, last[0], left),
        (Ok(()), 2_000_000, 1, b'b', 1)
    );
    Ok(())
}

/// How many small pieces come in a row.
const MANY: u32 = 3_000;

fn prepend_many(chain: &mut Chain) -> Result<(), ChainFault> {
    for i in 0..MANY {
        chain.prepend(&[(i % 251) as u8])?;
    }
    Ok(())
}

/// How many bytes leave in order, the last that was prepended first, while others come in behind them.
fn leave_in_order(chain: &mut Chain) -> Result<u32, ChainFault> {
    for i in 0..MANY {
        let mut first = [0u8; 1];
        if chain.copy_out(0, &mut first) != 1 || u32::from(first[0]) != (MANY - 1 - i) % 251 {
            return Ok(i);
        }
        chain.drain(1);
        chain.push_copy(&[255])?;
    }
    Ok(MANY)
}

#[test]
fn many_small_pieces_keep_their_order(rt: HostRuntime) -> Result<(), Fail> {
    let mut chain = Chain::new(rt.alloc());
    let came = prepend_many(&mut chain);
    let left = leave_in_order(&mut chain);
    let length = chain.len();
    drop(chain);
    assert_eq!(rt; (came, left, length), (Ok(()), Ok(MANY), 3_000));
    Ok(())
}
