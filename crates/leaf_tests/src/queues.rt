// Runs of active queues: calls in a row, each with what it answers.

use Act::{Activate, FirstQueue, Front, Pop, PopLast, Priorities, Remove};
use Answer::{Done, Holds, Is, No, Refused};
use prio_queue::{Active, MAX_PRIORITIES, PrioFault};
use std::alloc::Global;

/// A call on active queues, with its arguments.
#[derive(Clone, Copy)]
enum Act {
    Priorities,
    Activate(u32, u64),
    FirstQueue,
    Front(u32),
    Pop(u32),
    PopLast(u32),
    Remove(u64),
}

/// What a call answers.
#[derive(Clone, Copy, PartialEq)]
enum Answer {
    Done,
    Is(u64),
    Holds,
    No,
    Refused(PrioFault),
}

type Row = (Act, Answer);

fn play(active: &mut Active, act: Act) -> Answer {
    match act {
        Priorities => Is(u64::from(active.priorities())),
        Activate(priority, key) => active
            .activate(priority, key)
            .map_or_else(Refused, |()| Done),
        FirstQueue => match active.first_queue() {
            Some(priority) => Is(u64::from(priority)),
            None => No,
        },
        Front(priority) => active.front(priority).map_or(No, Is),
        Pop(priority) => active.pop(priority).map_or(No, Is),
        PopLast(priority) => active.pop_last(priority).map_or(No, Is),
        Remove(key) => { if active.remove(key) { Holds } else { No } }
    }
}

/// The place of the first row that the queues answer otherwise.
fn first_wrong(active: &mut Active, rows: &[Row]) -> Option<usize> {
    for (place, (act, wanted)) in rows.iter().enumerate() {
        if play(active, *act) != *wanted {
            return Some(place);
        }
    }
    None
}

/// The same for so many new queues.
fn first_wrong_of(
    alloc: Global,
    priorities: u32,
    rows: &[Row],
) -> Result<Option<usize>, PrioFault> {
    let mut active = Active::new(alloc, priorities)?;
    let wrong = first_wrong(&mut active, rows);
    drop(active);
    Ok(wrong)
}

const BY_PRIORITY: &[Row] = &[
    (Activate(2, 7), Done),
    (Activate(1, 8), Done),
    (Activate(2, 9), Done),
    (Activate(0, 9), Done),
    (FirstQueue, Is(1)),
    (Pop(1), Is(8)),
    (Remove(7), Holds),
    (Remove(7), No),
    (Pop(2), Is(9)),
    (Pop(3), No),
    (FirstQueue, No),
];

#[test]
fn keys_come_by_priority_and_activation(rt: HostRuntime) {
    assert_eq!(rt; first_wrong_of(rt.alloc(), 3, BY_PRIORITY), Ok(None));
}

const BOTH_ENDS: &[Row] = &[
    (Priorities, Is(256)),
    (Activate(255, 1), Done),
    (Activate(255, 2), Done),
    (Activate(255, 3), Done),
    (Front(255), Is(1)),
    (PopLast(255), Is(3)),
    (Pop(255), Is(1)),
    (Pop(255), Is(2)),
    (PopLast(255), No),
    (Front(256), No),
];

#[test]
fn both_ends_of_a_queue_can_be_taken(rt: HostRuntime) {
    assert_eq!(rt;
        first_wrong_of(rt.alloc(), MAX_PRIORITIES, BOTH_ENDS),
        Ok(None)
    );
}

const OTHER_PRIORITIES: &[Row] = &[
    (Activate(1, 7), Done),
    (Activate(2, 7), Refused(PrioFault::BadPriority)),
    (FirstQueue, Is(1)),
];

#[test]
fn other_priorities_are_refused(rt: HostRuntime) {
    assert_eq!(rt; first_wrong_of(rt.alloc(), 2, OTHER_PRIORITIES), Ok(None));
}
