// Runs of timers: calls in a row, each with what it answers, and many timers at once.

use Act::{Add, AreApart, AreDue, Cancel, NextDeadline, TakeDue};
use Answer::{Done, Holds, Is, No, Refused, Took};
use min_timer::{TimerFault, TimerKey, Timers};
use std::alloc::Global;

/// A call on timers, with its arguments. A handle is told by the place of its timer among those that were added.
#[derive(Clone, Copy)]
enum Act {
    Add(u64, u64),
    Cancel(usize),
    NextDeadline,
    TakeDue(u64),
    /// Are these the keys that are due at a time, in their order?
    AreDue(u64, &'static [u64]),
    /// Are two handles different?
    AreApart(usize, usize),
}

/// What a call answers.
#[derive(Clone, Copy, PartialEq)]
enum Answer {
    Done,
    Is(u64),
    Took(u64, u64),
    Holds,
    No,
    Refused(TimerFault),
}

type Row = (Act, Answer);

fn holds(fact: bool) -> Answer {
    if fact { Holds } else { No }
}

fn play(timers: &mut Timers, handles: &mut Vec<TimerKey>, act: Act) -> Result<Answer, TimerFault> {
    Ok(match act {
        Add(deadline, key) => {
            handles.push(timers.add(deadline, key)?)?;
            Done
        }
        Cancel(place) => match handles.get(place) {
            Some(handle) => Is(timers.cancel(*handle)?),
            None => No,
        },
        NextDeadline => timers.next_deadline().map_or(No, Is),
        TakeDue(now) => match timers.take_due(now) {
            Some((key, deadline)) => Took(key, deadline),
            None => No,
        },
        AreDue(time, keys) => holds(timers.due(*handles.allocator(), time)?.as_slice() == keys),
        AreApart(first, second) => holds(handles.get(first) != handles.get(second)),
    })
}

/// The place of the first row that timers answer otherwise.
fn first_wrong(timers: &mut Timers, handles: &mut Vec<TimerKey>, rows: &[Row]) -> Option<usize> {
    for (place, (act, wanted)) in rows.iter().enumerate() {
        if play(timers, handles, *act).unwrap_or_else(Refused) != *wanted {
            return Some(place);
        }
    }
    None
}

/// The same for new timers.
fn first_wrong_of(alloc: Global, rows: &[Row]) -> Option<usize> {
    let mut timers = Timers::new(alloc);
    let mut handles = Vec::new(alloc);
    first_wrong(&mut timers, &mut handles, rows)
}

const EQUAL_DEADLINES: &[Row] = &[
    (NextDeadline, No),
    (Add(20, 1), Done),
    (Add(10, 2), Done),
    (Add(10, 3), Done),
    (NextDeadline, Is(10)),
    (TakeDue(9), No),
    (AreDue(10, &[2, 3]), Holds),
    (TakeDue(10), Took(2, 10)),
    (TakeDue(30), Took(3, 10)),
    (TakeDue(30), Took(1, 20)),
    (TakeDue(30), No),
];

#[test]
fn equal_deadlines_come_in_the_order_of_adding(rt: HostRuntime) {
    assert_eq!(rt; first_wrong_of(rt.alloc(), EQUAL_DEADLINES), None);
}

const HANDLES: &[Row] = &[
    (Add(5, 1), Done),
    (Cancel(0), Is(1)),
    (Cancel(0), Refused(TimerFault::NotPending)),
    (Add(5, 2), Done),
    (AreApart(0, 1), Holds),
    (Cancel(0), Refused(TimerFault::NotPending)),
    (TakeDue(5), Took(2, 5)),
    (Cancel(1), Refused(TimerFault::NotPending)),
];

#[test]
fn a_handle_outlives_its_timer_and_cancels_no_other(rt: HostRuntime) {
    assert_eq!(rt; first_wrong_of(rt.alloc(), HANDLES), None);
}

/// How many timers stay usable.
const MANY: u64 = 20_000;

/// Adds many timers in mixed order: the deadline of a key is `mixed` of it.
fn add_many(timers: &mut Timers) -> Result<(), TimerFault> {
    for key in 0..MANY {
        timers.add(mixed(key), key)?;
    }
    Ok(())
}

fn mixed(key: u64) -> u64 {
    (key % MANY) * 7_919 % MANY
}

/// How many of the timers that were added come in order, each with its own deadline.
fn come_in_order(timers: &mut Timers) -> u64 {
    let mut last = 0;
    for count in 0..MANY {
        let Some((key, deadline)) = timers.take_due(MANY) else {
            return count;
        };
        if deadline < last || key >= MANY || mixed(key) != deadline {
            return count;
        }
        last = deadline;
    }
    MANY
}

#[test]
fn many_timers_come_in_order(rt: HostRuntime) {
    let mut timers = Timers::new(rt.alloc());
    let added = add_many(&mut timers);
    let count = come_in_order(&mut timers);
    let rest = timers.next_deadline();
    drop(timers);
    assert_eq!(rt; (added, count, rest), (Ok(()), MANY, None));
}
