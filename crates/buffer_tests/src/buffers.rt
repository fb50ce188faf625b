// Runs of evbuffers: calls in a row, each with what it answers.

use crate::slices::join;
use Act::{
    Add, AddCb, AddReference, CopyOut, DisableCb, Drain, Extents, Freeze, Len, Prepend, Pullup,
    PullupAll, PushReserved, Remove, RemoveCb, TakeReport, Ticket, Unfreeze,
};
use Answer::{Count, Done, No, Other, Refused, Reported, Shown};
use Step::{At, MoveAll, MoveSome};
use evbuf::{BufFault, Buffers, Evbuffer, Place, Report};
use std::alloc::Global;
use std::rc::RcSlice;
use std::test::Fail;

/// A call on an evbuffer, with its arguments. What shows bytes has the bytes that it must show.
#[derive(Clone, Copy)]
enum Act {
    Add(&'static [u8]),
    Prepend(&'static [u8]),
    /// In room that is made for the bytes.
    PushReserved(&'static [u8]),
    AddReference(&'static [u8], u64),
    Drain(usize),
    Len,
    /// Two bytes at most.
    Remove(&'static [u8]),
    /// Two bytes at most.
    CopyOut(usize, &'static [u8]),
    Pullup(usize, &'static [u8]),
    PullupAll(&'static [u8]),
    Extents(usize, &'static [u8]),
    Freeze(Place),
    Unfreeze(Place),
    AddCb,
    RemoveCb(u32),
    DisableCb(u32),
    TakeReport,
    Ticket,
}

/// A call on one of two evbuffers, or one that moves bytes between them.
#[derive(Clone, Copy)]
enum Step {
    At(usize, Act),
    /// All bytes go to the first of the two numbers, from the second.
    MoveAll(usize, usize),
    /// From the first of the two numbers to the second.
    MoveSome(usize, usize, usize),
}

/// What a call answers. A report has the callback, the length before, and how many bytes came and went.
#[derive(Clone, Copy, PartialEq)]
enum Answer {
    Done,
    Count(u64),
    /// The bytes that the call has, or other bytes.
    Shown,
    Other,
    No,
    Reported(u32, u64, u64, u64),
    Refused(BufFault),
}

type Row = (Act, Answer);

fn shown(found: &[u8], bytes: &[u8]) -> Answer {
    if found == bytes { Shown } else { Other }
}

fn reported(report: Report) -> Answer {
    Reported(report.cb, report.old, report.added, report.deleted)
}

fn push_reserved(buf: &mut Evbuffer, bytes: &[u8]) -> Result<(), BufFault> {
    buf.reserve(bytes.len())?;
    buf.push_reserved(bytes)
}

fn add_reference(buf: &mut Evbuffer, bytes: &[u8], ticket: u64) -> Result<(), BufFault> {
    let slice = RcSlice::from_slice(buf.allocator(), bytes)?;
    buf.add_reference(slice, ticket)
}

fn remove(buf: &mut Evbuffer, bytes: &[u8]) -> Result<Answer, BufFault> {
    let mut into = [0u8; 2];
    let count = buf.remove(&mut into)?;
    Ok(shown(into.split_at(count).0, bytes))
}

fn copy_out(buf: &Evbuffer, from: usize, bytes: &[u8]) -> Answer {
    let mut into = [0u8; 2];
    let count = buf.copy_out(from, &mut into);
    shown(into.split_at(count).0, bytes)
}

fn extents(buf: &Evbuffer, n: usize, bytes: &[u8]) -> Result<Answer, BufFault> {
    let extents = buf.extents(n)?;
    let same = join(extents.as_slice(), bytes);
    drop(extents);
    Ok(if same { Shown } else { Other })
}

fn play(buf: &mut Evbuffer, act: Act) -> Result<Answer, BufFault> {
    match act {
        Add(bytes) => buf.add(bytes)?,
        Prepend(bytes) => buf.prepend(bytes)?,
        PushReserved(bytes) => push_reserved(buf, bytes)?,
        AddReference(bytes, ticket) => add_reference(buf, bytes, ticket)?,
        Drain(n) => buf.drain(n)?,
        Len => return Ok(Count(buf.len() as u64)),
        Remove(bytes) => return remove(buf, bytes),
        CopyOut(from, bytes) => return Ok(copy_out(buf, from, bytes)),
        Pullup(n, bytes) => return Ok(buf.pullup(n)?.map_or(No, |found| shown(found, bytes))),
        PullupAll(bytes) => return Ok(shown(buf.pullup_all()?, bytes)),
        Extents(n, bytes) => return extents(buf, n, bytes),
        Freeze(place) => buf.freeze(place),
        Unfreeze(place) => buf.unfreeze(place),
        AddCb => return Ok(Count(u64::from(buf.add_cb()?))),
        RemoveCb(number) => buf.remove_cb(number)?,
        DisableCb(number) => buf.set_cb_enabled(number, false)?,
        TakeReport => return Ok(buf.take_report().map_or(No, reported)),
        Ticket => return Ok(buf.take_released().map_or(No, Count)),
    }
    Ok(Done)
}

fn play_step(buffers: &mut Buffers, step: Step) -> Result<Answer, BufFault> {
    let there = buffers.len();
    match step {
        At(i, act) if i < there => play(buffers.at(i), act),
        MoveAll(to, from) if to < there && from < there => {
            buffers.move_all(to, from)?;
            Ok(Done)
        }
        MoveSome(from, to, n) if to < there && from < there => {
            Ok(Count(buffers.move_some(from, to, n)? as u64))
        }
        _ => Ok(No),
    }
}

/// The place of the first row that an evbuffer answers otherwise.
fn first_wrong(buf: &mut Evbuffer, rows: &[Row]) -> Option<usize> {
    for (place, (act, wanted)) in rows.iter().enumerate() {
        if play(buf, *act).unwrap_or_else(Refused) != *wanted {
            return Some(place);
        }
    }
    None
}

/// The same for a new evbuffer.
fn first_wrong_of(alloc: Global, rows: &[Row]) -> Option<usize> {
    let mut buf = Evbuffer::new(alloc);
    first_wrong(&mut buf, rows)
}

/// The place of the first row that two evbuffers answer otherwise.
fn first_wrong_step(buffers: &mut Buffers, rows: &[(Step, Answer)]) -> Option<usize> {
    for (place, (step, wanted)) in rows.iter().enumerate() {
        if play_step(buffers, *step).unwrap_or_else(Refused) != *wanted {
            return Some(place);
        }
    }
    None
}

/// The same for two new evbuffers.
fn first_wrong_step_of(alloc: Global, rows: &[(Step, Answer)]) -> Result<Option<usize>, BufFault> {
    let mut buffers = Buffers::new(alloc, 2)?;
    let wrong = first_wrong_step(&mut buffers, rows);
    drop(buffers);
    Ok(wrong)
}

const FROZEN: &[(Step, Answer)] = &[
    (At(0, Add(b"abc")), Done),
    (At(0, Freeze(Place::Front)), Done),
    (At(1, Freeze(Place::End)), Done),
    (At(0, Drain(0)), Refused(BufFault::FrozenFront)),
    (At(1, Add(b"")), Refused(BufFault::FrozenEnd)),
    (MoveAll(1, 0), Refused(BufFault::FrozenEnd)),
    (MoveAll(1, 1), Refused(BufFault::FrozenEnd)),
    (At(1, Unfreeze(Place::End)), Done),
    (MoveSome(0, 1, 3), Refused(BufFault::FrozenFront)),
    (MoveAll(1, 1), Refused(BufFault::SameBuffer)),
];

#[test]
fn a_frozen_end_is_told_before_all_else(rt: HostRuntime) -> Result<(), Fail> {
    assert_eq!(rt; first_wrong_step_of(rt.alloc(), FROZEN)?, None);
    Ok(())
}

const MOVES: &[(Step, Answer)] = &[
    (At(0, Add(b"abc")), Done),
    (MoveSome(0, 1, 2), Count(2)),
    (MoveAll(0, 1), Done),
    (At(1, Len), Count(0)),
    (At(0, PullupAll(b"cab")), Shown),
];

#[test]
fn bytes_go_from_one_buffer_to_another(rt: HostRuntime) -> Result<(), Fail> {
    assert_eq!(rt; first_wrong_step_of(rt.alloc(), MOVES)?, None);
    Ok(())
}

const REFERENCE: &[Row] = &[
    (AddReference(b"abcde", 7), Done),
    (Drain(4), Done),
    (Ticket, No),
    (Drain(1), Done),
    (Ticket, Count(7)),
    (Ticket, No),
];

#[test]
fn a_reference_is_told_once_when_its_last_byte_is_drained(rt: HostRuntime) {
    assert_eq!(rt; first_wrong_of(rt.alloc(), REFERENCE), None);
}

const REPORT: &[Row] = &[
    (Add(b"ab"), Done),
    (AddCb, Count(0)),
    (Add(b"cde"), Done),
    (Drain(1), Done),
    (TakeReport, Reported(0, 2, 3, 1)),
    (TakeReport, No),
];

#[test]
fn a_report_has_the_length_before_and_the_sums(rt: HostRuntime) {
    assert_eq!(rt; first_wrong_of(rt.alloc(), REPORT), None);
}

const DISABLED: &[Row] = &[
    (Add(b"ab"), Done),
    (AddCb, Count(0)),
    (AddCb, Count(1)),
    (Add(b"c"), Done),
    (DisableCb(0), Done),
    (Add(b"d"), Done),
    (TakeReport, Reported(1, 2, 2, 0)),
    (TakeReport, Reported(0, 2, 1, 0)),
];

#[test]
fn a_disabled_callback_reports_what_it_has_summed(rt: HostRuntime) {
    assert_eq!(rt; first_wrong_of(rt.alloc(), DISABLED), None);
}

const NUMBERS: &[Row] = &[
    (Add(b""), Done),
    (AddCb, Count(0)),
    (RemoveCb(0), Done),
    (RemoveCb(0), Refused(BufFault::NoSuchCallback)),
    (AddCb, Count(1)),
];

#[test]
fn a_number_is_not_used_again(rt: HostRuntime) {
    assert_eq!(rt; first_wrong_of(rt.alloc(), NUMBERS), None);
}

const IN_AND_OUT: &[Row] = &[
    (Add(b"cd"), Done),
    (PushReserved(b"e"), Done),
    (Prepend(b"ab"), Done),
    (Remove(b"ab"), Shown),
    (CopyOut(1, b"de"), Shown),
];

#[test]
fn bytes_come_in_and_go_out(rt: HostRuntime) {
    assert_eq!(rt; first_wrong_of(rt.alloc(), IN_AND_OUT), None);
}

const SHOWN: &[Row] = &[
    (Add(b"abcd"), Done),
    (Extents(3, b"abc"), Shown),
    (Pullup(5, b"abcd"), No),
    (Len, Count(4)),
];

#[test]
fn bytes_are_shown_and_stay(rt: HostRuntime) {
    assert_eq!(rt; first_wrong_of(rt.alloc(), SHOWN), None);
}
