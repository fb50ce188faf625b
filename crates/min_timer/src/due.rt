// The timers of a heap that are due. Below a timer that isn't due there is none, so no others are looked at than those that are
// due and the ones directly below them.
ghost use Rattle.std.specs.Prelude.{◌≡◌, ◌<◌, ◌++◌, length, IfOk, OnOk};
ghost use Rattle.min_timer.specs.DueTimers.{found_at, found_below, AreAllDue};
ghost use Rattle.min_timer.specs.Order.{in_order, IsHeap, HaveOwnStamps};
ghost use Rattle.min_timer.specs.Queue.{due_keys};

use crate::timer::Timer;
use std::alloc::{AllocError, Global};

/// A timer that is due, and its place in the heap.
#[derive(Clone, Copy, PartialEq, Eq, PartialOrd, Ord)]
struct Due {
    deadline: u64,
    stamp: u64,
    key: u64,
    place: usize,
}

/// The keys of the timers that are due, in the order in which they come due.
pub(crate) fn due_keys(timers: &[Timer], alloc: Global, time: u64) -> Result<Vec<u64>, AllocError>
    requires heap { IsHeap timers.now }
    requires own_stamps { HaveOwnStamps timers.now }
    ensures { IfOk result (λ keys. keys.items ≡ due_keys time (in_order timers.now)) }
{
    let mut due = due_timers(timers, alloc, time)?;
    due.sort_unstable();
    let mut keys = Vec::new(alloc);
    for timer in &due {
        keys.push(timer.key)?;
    }
    Ok(keys)
}

/// The timers that are due, by their places.
fn due_timers(timers: &[Timer], alloc: Global, time: u64) -> Result<Vec<Due>, AllocError>
    requires { IsHeap timers.now }
    ensures { IfOk result (λ due. AreAllDue timers.now time due.items) }
{
    let mut due = Vec::new(alloc);
    push_due(&mut due, timers, 0, time)?;
    let mut next = 0;
    while next < due.len() {
        let place = due[next].place;
        push_due_below(&mut due, timers, place, time)?;
        next += 1;
    }
    Ok(due)
}

/// Puts the timers directly below a place behind those that are due, if they are due.
fn push_due_below(
    due: &mut Vec<Due>,
    timers: &[Timer],
    place: usize,
    time: u64,
) -> Result<(), AllocError>
    requires { place < length timers.now }
    ensures { OnOk result (due.new.items ≡ due.old.items ++ found_below timers.now time place) }
{
    push_due(due, timers, 4 * place + 1, time)?;
    push_due(due, timers, 4 * place + 2, time)?;
    push_due(due, timers, 4 * place + 3, time)?;
    push_due(due, timers, 4 * place + 4, time)?;
    Ok(())
}

/// Puts the timer of a place behind those that are due, if there is one and it is due.
fn push_due(due: &mut Vec<Due>, timers: &[Timer], place: usize, time: u64) -> Result<(), AllocError>
    ensures { OnOk result (due.new.items ≡ due.old.items ++ found_at timers.now time place) }
{
    match timers.get(place) {
        Some(timer) if timer.deadline <= time => due.push(Due {
            deadline: timer.deadline,
            stamp: timer.handle.stamp,
            key: timer.key,
            place,
        })?,
        _ => {}
    }
    Ok(())
}
