// Timers beside a plain list of those that wait, which is searched from end to end, over generated calls.

ghost use Rattle.std.specs.Prelude.{◌≤◌};

use min_timer::{TimerFault, TimerKey, Timers};
use std::alloc::Global;

/// How many calls are made.
const CALLS: u32 = 4_000;

/// The delays that are registered.
const LONG: u64 = 40;

const SHORT: u64 = 7;

/// A timer that waits.
#[derive(Clone, Copy)]
struct Waiting {
    deadline: u64,
    number: u64,
    key: u64,
}

/// Does the first timer come before the second?
fn is_before(first: Waiting, second: Waiting) -> bool {
    first.deadline < second.deadline
        || (first.deadline == second.deadline && first.number < second.number)
}

fn first_of(waiting: &[Waiting]) -> Option<Waiting> {
    let mut first = None;
    for timer in waiting {
        first = match first {
            Some(other) if is_before(other, *timer) => Some(other),
            _ => Some(*timer),
        };
    }
    first
}

fn take_due(waiting: &mut Vec<Waiting>, now: u64) -> Option<(u64, u64)> {
    let first = first_of(waiting)?;
    if first.deadline > now {
        return None;
    }
    waiting.retain(|timer| timer.number != first.number);
    Some((first.key, first.deadline))
}

/// The keys of those that are due, in order.
fn due_keys(alloc: Global, waiting: &[Waiting], now: u64) -> Result<Vec<u64>, TimerFault> {
    let mut rest = Vec::new(alloc);
    for timer in waiting {
        rest.push(*timer)?;
    }
    let mut keys = Vec::new(alloc);
    for _ in 0..waiting.len() {
        let Some((key, _)) = take_due(&mut rest, now) else {
            break;
        };
        keys.push(key)?;
    }
    Ok(keys)
}

fn cancel(waiting: &mut Vec<Waiting>, number: u64) -> Result<u64, TimerFault> {
    let mut found = Err(TimerFault::NotPending);
    for timer in waiting.iter() {
        if timer.number == number {
            found = Ok(timer.key);
        }
    }
    waiting.retain(|timer| timer.number != number);
    found
}

/// A timer that was added: its handle, and its number.
#[derive(Clone, Copy)]
struct Added {
    handle: TimerKey,
    number: u64,
}

/// Timers, the plain list of those that wait, and all that were added.
#[derive(Drop)]
struct Both {
    timers: Timers,
    waiting: Vec<Waiting>,
    added: Vec<Added>,
}

/// Adds a timer a delay after now, and to the plain list.
fn add_after(both: &mut Both, now: u32, delay: u64, key: u64) -> Result<(), TimerFault>
    requires { delay ≤ 100 }
{
    let now = u64::from(now);
    let handle = both.timers.add_after(now, delay, key)?;
    keep(both, handle, now + delay, key)
}

/// Adds a timer at a deadline, and to the plain list.
fn add_at(both: &mut Both, deadline: u64, key: u64) -> Result<(), TimerFault> {
    let handle = both.timers.add(deadline, key)?;
    keep(both, handle, deadline, key)
}

fn keep(both: &mut Both, handle: TimerKey, deadline: u64, key: u64) -> Result<(), TimerFault> {
    let number = both.timers.last();
    both.added.push(Added { handle, number })?;
    both.waiting.push(Waiting {
        deadline,
        number,
        key,
    })?;
    Ok(())
}

/// Cancels a timer that was added, pending or not; do both answer the same?
fn cancels_alike(both: &mut Both, place: usize) -> bool {
    match both.added.get(place) {
        Some(added) => {
            both.timers.cancel(added.handle) == cancel(&mut both.waiting, added.number)
        }
        None => true,
    }
}

/// Do both tell the same as due?
fn tells_alike(both: &Both, now: u64) -> Result<bool, TimerFault> {
    let alloc = *both.waiting.allocator();
    Ok(both.timers.due(alloc, now)? == due_keys(alloc, &both.waiting, now)?)
}

/// Makes one call, at a moment and by a random number; do both answer the same?
fn is_alike(both: &mut Both, now: u32, random: u64) -> Result<bool, TimerFault> {
    let some = random / 8;
    match random % 8 {
        0 => add_at(both, u64::from(now) + some % 64, some)?,
        1 | 2 => add_after(both, now, LONG, some)?,
        3 => add_after(both, now, SHORT, some)?,
        4 => add_after(both, now, some % 64, some)?,
        5 => {
            let place = (some % 4_096) as usize;
            return Ok(cancels_alike(both, place));
        }
        6 if some % 4 == 0 => {
            let now = u64::from(now / 2 + 10);
            return tells_alike(both, now);
        }
        _ => {
            let now = u64::from(now / 2);
            return Ok(both.timers.take_due(now) == take_due(&mut both.waiting, now));
        }
    }
    Ok(both.timers.next_deadline() == first_of(&both.waiting).map(|timer| timer.deadline))
}

/// The first call that they answer otherwise.
fn first_difference(both: &mut Both) -> Result<Option<u32>, TimerFault> {
    both.timers.common(LONG)?;
    both.timers.common(SHORT)?;
    let mut random = 1u64;
    for now in 0..CALLS {
        random = random
            .wrapping_mul(6_364_136_223_846_793_005)
            .wrapping_add(1_442_695_040_888_963_407);
        if !is_alike(both, now, random >> 33)? {
            return Ok(Some(now));
        }
    }
    Ok(None)
}

fn difference(alloc: Global) -> Result<Option<u32>, TimerFault> {
    let mut both = Both {
        timers: Timers::new(alloc),
        waiting: Vec::new(alloc),
        added: Vec::new(alloc),
    };
    first_difference(&mut both)
}

#[test]
fn timers_answer_as_a_plain_list(rt: HostRuntime) {
    assert_eq!(rt; difference(rt.alloc()), Ok(None));
}
