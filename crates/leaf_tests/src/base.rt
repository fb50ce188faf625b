// Runs of an event base: calls in a row, each with what it answers.

use Act::{
    Activate, Add, AddFor, BeginTurn, DelEvent, Ended, FreeEvent, IsPending, LoopBreak, LoopExit,
    NewEvent, NextActive, PollTimeout, SetPriority, Signal,
};
use Answer::{Done, Event, Fire, Holds, No, Refused, Wait};
use event_base::{Base, BaseFault, READ, SIGNAL, TIMEOUT, WRITE};
use std::alloc::Global;

/// A call on a base, with its arguments.
#[derive(Clone, Copy)]
enum Act {
    NewEvent(bool, Option<u32>),
    SetPriority(u32, u32),
    Add(u32),
    AddFor(u32, u64),
    DelEvent(u32),
    FreeEvent(u32),
    IsPending(u32),
    Activate(u32, u8),
    Signal(u32, u32),
    BeginTurn(u64),
    NextActive,
    PollTimeout,
    Ended,
    LoopExit,
    LoopBreak,
}

/// What a call answers.
#[derive(Clone, Copy, PartialEq)]
enum Answer {
    Done,
    Event(u32),
    Fire(u32, u8),
    Wait(u64),
    Holds,
    No,
    Refused(BaseFault),
}

type Row = (Act, Answer);

/// The longest timeout.
const LONGEST: u64 = 1 << 62;

fn play(base: &mut Base, act: Act) -> Result<Answer, BaseFault> {
    match act {
        NewEvent(persist, signal) => return Ok(Event(base.new_event(persist, signal)?)),
        SetPriority(event, priority) => base.set_priority(event, priority)?,
        Add(event) => base.add_event(event, None)?,
        AddFor(event, timeout) => base.add_event(event, Some(timeout.min(LONGEST)))?,
        DelEvent(event) => base.del_event(event)?,
        FreeEvent(event) => base.free_event(event)?,
        IsPending(event) => return Ok(if base.is_pending(event)? { Holds } else { No }),
        Activate(event, flags) => base.activate(event, flags)?,
        Signal(number, count) => base.signal(number, count)?,
        BeginTurn(now) => base.begin_turn(now)?,
        NextActive => {
            return Ok(match base.next_active()? {
                Some((event, flags)) => Fire(event, flags),
                None => No,
            });
        }
        PollTimeout => return Ok(base.poll_timeout().map_or(No, Wait)),
        Ended => return Ok(if base.ended() { Holds } else { No }),
        LoopExit => base.loop_exit(),
        LoopBreak => base.loop_break(),
    }
    Ok(Done)
}

/// The place of the first row that a base answers otherwise.
fn first_wrong(base: &mut Base, rows: &[Row]) -> Option<usize> {
    for (place, (act, wanted)) in rows.iter().enumerate() {
        if play(base, *act).unwrap_or_else(Refused) != *wanted {
            return Some(place);
        }
    }
    None
}

/// The same for a new base of so many priorities.
fn first_wrong_of(
    alloc: Global,
    priorities: u32,
    rows: &[Row],
) -> Result<Option<usize>, BaseFault> {
    let mut base = Base::new(alloc, priorities)?;
    let wrong = first_wrong(&mut base, rows);
    drop(base);
    Ok(wrong)
}

const BEAT: &[Row] = &[
    (NewEvent(true, None), Event(0)),
    (AddFor(0, 100), Done),
    (BeginTurn(100), Done),
    (NextActive, Fire(0, 1)),
    (NextActive, No),
    (PollTimeout, Wait(100)),
    (BeginTurn(150), Done),
    (NextActive, No),
    (PollTimeout, Wait(50)),
    (BeginTurn(230), Done),
    (NextActive, Fire(0, 1)),
    (NextActive, No),
    (PollTimeout, Wait(70)),
    (BeginTurn(430), Done),
    (NextActive, Fire(0, 1)),
    (NextActive, No),
    (PollTimeout, Wait(100)),
];

#[test]
fn a_persistent_timer_keeps_its_beat(rt: HostRuntime) {
    assert_eq!(rt; first_wrong_of(rt.alloc(), 1, BEAT), Ok(None));
}

const SIGNALS: &[Row] = &[
    (NewEvent(true, Some(5)), Event(0)),
    (SetPriority(0, 0), Done),
    (Add(0), Done),
    (Signal(5, 3), Done),
    (Signal(6, 1), Done),
    (BeginTurn(0), Done),
    (NextActive, Fire(0, 8)),
    (NextActive, Fire(0, 8)),
    (NextActive, Fire(0, 8)),
    (NextActive, No),
    (Signal(5, 3), Done),
    (BeginTurn(0), Done),
    (NextActive, Fire(0, 8)),
    (DelEvent(0), Done),
    (NextActive, No),
    (PollTimeout, No),
];

#[test]
fn a_signal_is_called_once_for_each_count_until_it_is_deleted(rt: HostRuntime) {
    assert_eq!(rt; first_wrong_of(rt.alloc(), 2, SIGNALS), Ok(None));
}

const EQUAL_DEADLINES: &[Row] = &[
    (NewEvent(false, None), Event(0)),
    (NewEvent(false, None), Event(1)),
    (NewEvent(false, None), Event(2)),
    (NewEvent(false, None), Event(3)),
    (NewEvent(false, None), Event(4)),
    (AddFor(3, 7), Done),
    (AddFor(1, 7), Done),
    (AddFor(4, 7), Done),
    (AddFor(0, 7), Done),
    (AddFor(2, 7), Done),
    (SetPriority(4, 0), Done),
    (BeginTurn(7), Done),
    (SetPriority(4, 1), Refused(BaseFault::IsActive)),
    (NextActive, Fire(4, 1)),
    (NextActive, No),
    (Activate(4, READ), Done),
    (NextActive, No),
    (BeginTurn(7), Done),
    (NextActive, Fire(4, 2)),
    (NextActive, No),
    (BeginTurn(7), Done),
    (NextActive, Fire(3, 1)),
    (NextActive, Fire(1, 1)),
    (NextActive, Fire(0, 1)),
    (NextActive, Fire(2, 1)),
    (NextActive, No),
];

#[test]
fn equal_deadlines_fire_as_they_were_added_and_the_most_urgent_first(rt: HostRuntime) {
    assert_eq!(rt; first_wrong_of(rt.alloc(), 3, EQUAL_DEADLINES), Ok(None));
}

const ENDS: &[Row] = &[
    (NewEvent(false, None), Event(0)),
    (Activate(0, WRITE), Done),
    (NewEvent(false, None), Event(1)),
    (Activate(1, WRITE), Done),
    (BeginTurn(0), Done),
    (LoopExit, Done),
    (Ended, No),
    (NextActive, Fire(0, 4)),
    (NextActive, Fire(1, 4)),
    (NextActive, No),
    (Ended, Holds),
    (Activate(0, WRITE), Done),
    (BeginTurn(1), Done),
    (NextActive, No),
    (PollTimeout, Wait(0)),
    (LoopBreak, Done),
    (Ended, Holds),
];

#[test]
fn a_loop_ends_at_once_or_with_its_batch(rt: HostRuntime) {
    assert_eq!(rt; first_wrong_of(rt.alloc(), 1, ENDS), Ok(None));
}

const REFUSALS: &[Row] = &[
    (SetPriority(0, 256), Refused(BaseFault::NoEvent)),
    (NewEvent(false, None), Event(0)),
    (Activate(0, SIGNAL), Done),
    (SetPriority(0, 256), Refused(BaseFault::BadPriority)),
    (SetPriority(0, 255), Refused(BaseFault::IsActive)),
    (AddFor(1, 1), Refused(BaseFault::NoEvent)),
    (DelEvent(1), Refused(BaseFault::NoEvent)),
    (Activate(1, 0), Refused(BaseFault::NoEvent)),
];

#[test]
fn refusals_come_in_their_order(rt: HostRuntime) {
    for priorities in [0u32, 257] {
        let refused = first_wrong_of(rt.alloc(), priorities, &[]);
        assert_eq!(rt; refused, Err(BaseFault::BadPriority), "{priorities}");
    }
    assert_eq!(rt; first_wrong_of(rt.alloc(), 256, REFUSALS), Ok(None));
}

const FREED: &[Row] = &[
    (NewEvent(true, Some(5)), Event(0)),
    (NewEvent(false, None), Event(1)),
    (AddFor(0, 10), Done),
    (AddFor(1, 10), Done),
    (Signal(5, 2), Done),
    (BeginTurn(10), Done),
    (NextActive, Fire(0, 9)),
    (FreeEvent(0), Done),
    (NextActive, Fire(1, 1)),
    (NextActive, No),
    (IsPending(0), Refused(BaseFault::NoEvent)),
    (SetPriority(0, 0), Refused(BaseFault::NoEvent)),
    (Add(0), Refused(BaseFault::NoEvent)),
    (AddFor(0, 5), Refused(BaseFault::NoEvent)),
    (DelEvent(0), Refused(BaseFault::NoEvent)),
    (FreeEvent(0), Refused(BaseFault::NoEvent)),
    (Activate(0, READ), Refused(BaseFault::NoEvent)),
    (Signal(5, 1), Done),
    (BeginTurn(1000), Done),
    (NextActive, No),
    (PollTimeout, No),
    (NewEvent(false, Some(5)), Event(2)),
];

#[test]
fn a_freed_event_is_gone_for_good(rt: HostRuntime) {
    assert_eq!(rt; first_wrong_of(rt.alloc(), 1, FREED), Ok(None));
}

const PENDING: &[Row] = &[
    (IsPending(0), Refused(BaseFault::NoEvent)),
    (NewEvent(false, None), Event(0)),
    (NewEvent(true, None), Event(1)),
    (IsPending(0), No),
    (Activate(0, READ), Done),
    (IsPending(0), No),
    (AddFor(0, 5), Done),
    (Add(1), Done),
    (IsPending(0), Holds),
    (BeginTurn(5), Done),
    (IsPending(0), Holds),
    (NextActive, Fire(0, 3)),
    (IsPending(0), No),
    (Activate(1, READ), Done),
    (BeginTurn(5), Done),
    (NextActive, Fire(1, 2)),
    (IsPending(1), Holds),
    (DelEvent(1), Done),
    (IsPending(1), No),
];

#[test]
fn an_event_is_pending_from_its_adding_on(rt: HostRuntime) {
    assert_eq!(rt; first_wrong_of(rt.alloc(), 1, PENDING), Ok(None));
}

const LATEST: &[Row] = &[
    (NewEvent(true, Some(1)), Event(0)),
    (AddFor(0, LONGEST), Done),
    (Signal(1, 9), Done),
    (Activate(0, TIMEOUT), Done),
    (BeginTurn(u64::MAX), Done),
    (NextActive, Fire(0, 9)),
    (NextActive, Fire(0, 9)),
    (NextActive, Refused(BaseFault::Spent)),
];

#[test]
fn a_deadline_past_all_numbers_is_refused(rt: HostRuntime) {
    assert_eq!(rt; first_wrong_of(rt.alloc(), 1, LATEST), Ok(None));
}
