// Timers at random deadlines, in rounds.

use min_timer::{TimerFault, TimerKey, Timers};
use std::alloc::Global;

/// In each round so many timers are added at random deadlines, a third of them is cancelled, and the others fire; how many
/// fired.
pub fn rounds_of_timers(alloc: Global, count: u64, rounds: u32) -> Result<u64, TimerFault> {
    let mut fires = 0u64;
    for _ in 0..rounds {
        let mut timers = Timers::new(alloc);
        let mut handles = Vec::new(alloc);
        add_all(&mut timers, &mut handles, count)?;
        cancel_some(&mut timers, &handles);
        fires = fires.saturating_add(fired(&mut timers, count));
    }
    Ok(fires)
}

/// Adds timers within some 17 minutes.
fn add_all(timers: &mut Timers, handles: &mut Vec<TimerKey>, count: u64) -> Result<(), TimerFault> {
    let mut random = 1u64;
    for key in 0..count {
        random = random
            .wrapping_mul(6_364_136_223_846_793_005)
            .wrapping_add(1_442_695_040_888_963_407);
        handles.push(timers.add(random >> 44, key)?)?;
    }
    Ok(())
}

/// Cancels every third timer.
fn cancel_some(timers: &mut Timers, handles: &[TimerKey]) {
    for (place, handle) in handles.iter().enumerate() {
        if place % 3 == 0 {
            let _ = timers.cancel(*handle);
        }
    }
}

/// Fires all timers, at most so many; how many fired.
fn fired(timers: &mut Timers, count: u64) -> u64 {
    let mut fires = 0u64;
    for _ in 0..count {
        if timers.take_due(u64::MAX).is_none() {
            break;
        }
        fires = fires.saturating_add(1);
    }
    fires
}
