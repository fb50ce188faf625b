// An event base with a clock: an event a connection, which is freed as its connection goes.

use event_base::Base;
use std::alloc::Global;
use std::io::Print;
use std::time::{Clock, Instant};

/// How long each connection may be idle, in milliseconds. That of the last one doesn't pass here.
const IDLE: [u32; 3] = [0, 0, 3_600_000];

/// Three connections, two of which are idle for too long.
pub fn idle_connections<R: Print + Clock>(rt: &R, alloc: Global) -> anyhow::Result<()> {
    let mut base = Base::new(alloc, 1)?;
    let answer = close_idle_ones(rt, &mut base);
    drop(base);
    answer
}

// The base is lent, so that it is let go at one place.
fn close_idle_ones<R: Print + Clock>(rt: &R, base: &mut Base) -> anyhow::Result<()> {
    let start = Instant::now(rt)?;
    for idle in IDLE {
        let event = base.new_event(false, None)?;
        base.add_event(event, Some(u64::from(idle)))?;
    }
    for _ in 0..2u32 {
        one_turn(rt, base, start)?;
    }
    for event in 0..3u32 {
        println!(rt;
            "connection {event} is pending: {:?}",
            base.is_pending(event)
        )?;
    }
    Ok(())
}

// A turn at the clock's time. A real loop then waits for `poll_timeout`.
fn one_turn<R: Print + Clock>(rt: &R, base: &mut Base, start: Instant) -> anyhow::Result<()> {
    let passed = start.elapsed(rt)?.as_millis();
    base.begin_turn(passed.min(u64::MAX as u128) as u64)?;
    for _ in 0..IDLE.len() {
        let Some((event, _)) = base.next_active()? else {
            break;
        };
        println!(rt; "connection {event} was idle, and is closed")?;
        base.free_event(event)?;
    }
    Ok(())
}
