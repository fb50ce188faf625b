// Rounds of timers of an event base. `bench/calls.sh` counts what a round costs, beside the same calls of libevent.

use event_base::{Base, BaseFault};
use std::alloc::Global;

/// How many events are pending beside those of a round.
const WAITING: u64 = 1_000;

/// The delay of a round's events, in milliseconds.
const DELAY: u64 = 10;

/// In each round three events are added, one is deleted, and two are called, beside a thousand that wait; how many were
/// called. Where the delay is common, they stand in its queue.
pub fn rounds_of_events(alloc: Global, is_common: bool, rounds: u32) -> Result<u64, BaseFault> {
    let mut base = Base::new(alloc, 1)?;
    let calls = rounds_on(&mut base, is_common, rounds);
    drop(base);
    calls
}

// The base is lent, so that it is let go at one place.
fn rounds_on(base: &mut Base, is_common: bool, rounds: u32) -> Result<u64, BaseFault> {
    if is_common {
        base.common(DELAY)?;
    }
    wait_long(base)?;
    let events = [
        base.new_event(false, None)?,
        base.new_event(false, None)?,
        base.new_event(false, None)?,
    ];
    let mut calls = 0u64;
    let mut now = 0u64;
    for _ in 0..rounds {
        now = now.saturating_add(DELAY);
        calls = calls.saturating_add(round(base, events, now)?);
    }
    Ok(calls)
}

/// Events that wait longer than the rounds take.
fn wait_long(base: &mut Base) -> Result<(), BaseFault> {
    for number in 0..WAITING {
        let event = base.new_event(false, None)?;
        base.add_event(event, Some(10_000_000 + number * 7))?;
    }
    Ok(())
}

/// Adds three, deletes one, and calls those that are due at a time; how many were called.
fn round(base: &mut Base, events: [u32; 3], now: u64) -> Result<u64, BaseFault> {
    for event in events {
        base.add_event(event, Some(DELAY))?;
    }
    base.del_event(events[1])?;
    base.begin_turn(now)?;
    let mut calls = 0u64;
    for _ in 0..3u32 {
        if base.next_active()?.is_some() {
            calls = calls.saturating_add(1);
        }
    }
    Ok(calls)
}
