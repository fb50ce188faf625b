// Events that get a flag one after another.
ghost use Rattle.std.specs.Prelude.{◌≡◌, ◌<◌, ◌≤◌, ◌+◌, ◌^◌, false, if◌then◌else◌, IfOk, IfErr, OnOk, OnErr, All, length, slice_set};
ghost use Rattle.std.specs.Prelude.{Err, true, count_by, not};
ghost use Rattle.std.specs.Option.{option_map};
ghost use Rattle.event_base.specs.Events.{again, set_again};
ghost use Rattle.event_base.specs.Calls.{fit};
ghost use Rattle.event_base.specs.Tied.{moment_at};
ghost use Rattle.std.specs.List.{list_any};
ghost use Rattle.event_base.specs.Fires.{hearing, is_woken_by, overflows, is_past_numbers, is_set_again};
ghost use Rattle.event_base.specs.Turns.{wakes};
ghost use Rattle.event_base.specs.Rousing.{risen, wakers, CanRise};

use crate::BaseFault;
use crate::deadlines::Deadlines;
use crate::event::{Event, Timeout};
use crate::ready::Waking;
use std::alloc::{AllocError, Global};

/// Puts those of the events with these numbers that become active into a list, in place of what it held. Takes memory where it
/// has less room.
pub fn wakers(waking: &mut Vec<Waking>, events: &[Event], numbers: &[u64]) -> Result<(), AllocError>
    requires { All (λ k. k < length events.now) numbers.now }
    ensures list { OnOk result (waking.new.items ≡ wakers events.now numbers.now) }
    ensures some { OnErr result (0 < length (wakers events.now numbers.now)) }
{
    waking.clear();
    for number in numbers {
        let event = &events[*number as usize];
        if !event.is_active() {
            waking.push(Waking {
                event: *number,
                priority: event.priority,
            })?;
        }
    }
    Ok(())
}

/// Gives the events with these numbers a flag, those that become active from this order number on. Takes no memory.
pub fn raise_all(
    events: &mut Vec<Event>,
    numbers: &[u64],
    flag: u8,
    next: u64,
    first: u64,
    more: u64,
)
    requires { CanRise flag first more events.old.items next numbers.now }
    ensures { events.new.items ≡ risen flag first more events.old.items next numbers.now }
{
    let mut order = next;
    for number in numbers {
        let event = &mut events[*number as usize];
        let needed = event.needed();
        event.activate(flag, order, first, more);
        order += needed;
    }
}

/// The numbers of the pending events of a signal. Takes memory where there are any.
pub fn hearing(alloc: Global, events: &[Event], signal: u32) -> Result<Vec<u64>, AllocError>
    ensures list { IfOk result (λ numbers. numbers.items ≡ hearing signal 0 events.now) }
    ensures some { OnErr result (0 < length (hearing signal 0 events.now)) }
{
    let mut numbers = Vec::new(alloc);
    for at in 0..events.len() {
        if events[at].hears(signal) {
            numbers.push(at as u64)?;
        }
    }
    Ok(numbers)
}

/// How many events become active by a signal.
pub fn woken_by(events: &[Event], signal: u32) -> u64
    ensures { result ≡ count_by (is_woken_by signal) events.now }
{
    events.iter().filter(|e| e.is_woken_by(signal)).count() as u64
}

/// Would the calls that an event owes pass what is counted?
pub fn any_overflows(events: &[Event], signal: u32, count: u32) -> bool
    ensures { result ≡ list_any (overflows signal count) events.now }
{
    events.iter().any(|e| e.overflows(signal, count))
}

/// How many events become active by their timeouts.
fn woken_at(events: &[Event], time: u64) -> u64
    ensures { result ≡ count_by (wakes time) events.now }
{
    events.iter().filter(|e| e.wakes(time)).count() as u64
}

/// Would more events become active by their timeouts than there are order numbers from this one on? They are counted only
/// where fewer numbers are left than there are events.
pub fn runs_out_at(events: &[Event], time: u64, next: u64) -> bool
    ensures { result ≡ not (fit next (count_by (wakes time) events.now)) }
{
    let left = u64::MAX - next;
    left < events.len() as u64 && left < woken_at(events, time)
}

/// Sets the timeout of an event again as its callback starts with these flags, or takes it away. Takes memory where it sets it.
pub fn set_again(
    deadlines: &mut Deadlines,
    event: u32,
    kept: &Event,
    time: u64,
    flags: u8,
) -> Result<Option<Timeout>, BaseFault>
    requires there { event < length deadlines.old.moments }
    requires early { time ≤ 2 ^ 62 }
    ensures timeout { IfOk result (λ timeout. timeout ≡ option_map (set_again time (deadlines.old.last + 1) flags) (again kept.now)) }
    ensures moments { IfOk result (λ timeout. deadlines.new.moments ≡ slice_set deadlines.old.moments event (option_map moment_at timeout)) }
    ensures delays { deadlines.new.delays ≡ deadlines.old.delays }
    ensures last { OnOk result (deadlines.new.last ≡ deadlines.old.last + (if is_set_again kept.now then 1 else 0)) }
    ensures fits { OnOk result (is_past_numbers time (deadlines.old.last + 1) flags kept.now ≡ false) }
    ensures refused { IfErr result (λ fault. fault
        ≡ (if is_past_numbers time (deadlines.old.last + 1) flags kept.now then BaseFault.Spent else BaseFault.Memory)) }
    ensures memory { result ≡ Err BaseFault.Memory → is_set_again kept.now ≡ true }
    ensures stays { OnErr result (deadlines.new ≡ deadlines.old) }
{
    let Some(timeout) = kept.again() else {
        deadlines.clear(event);
        return Ok(None);
    };
    let Some(deadline) = timeout.next_deadline(time, flags) else {
        return Err(BaseFault::Spent);
    };
    deadlines.set(event, deadline, timeout.delay)?;
    Ok(Some(Timeout {
        deadline,
        delay: timeout.delay,
        order: deadlines.last(),
    }))
}
