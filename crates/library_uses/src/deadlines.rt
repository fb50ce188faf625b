// Timers: deadlines in order, and a handle that cancels.

use min_timer::Timers;
use std::alloc::Global;
use std::io::Print;

/// Three jobs, of which one is cancelled and two are due at 120 ms.
pub fn due_jobs(rt: &impl Print, alloc: Global) -> anyhow::Result<()> {
    let mut timers = Timers::new(alloc);
    let answer = two_of_three(rt, &mut timers);
    drop(timers);
    answer
}

// The timers are lent, so that they are let go at one place.
fn two_of_three(rt: &impl Print, timers: &mut Timers) -> anyhow::Result<()> {
    timers.add(100, 1)?;
    let backup = timers.add(110, 2)?;
    timers.add(120, 3)?;
    timers.cancel(backup)?;
    println!(rt; "first deadline: {:?}", timers.next_deadline())?;
    for _ in 0..3u32 {
        let Some((job, deadline)) = timers.take_due(120) else {
            break;
        };
        println!(rt; "job {job} was due at {deadline}")?;
    }
    Ok(())
}
