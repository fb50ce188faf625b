// An event base: the caller hands in the time and the signals, and asks for the callbacks one by one.

use event_base::Base;
use std::alloc::Global;
use std::io::Print;

/// A beat of 100 ms and a hangup signal, over three turns.
pub fn a_beat_and_a_signal(rt: &impl Print, alloc: Global) -> anyhow::Result<()> {
    let mut base = Base::new(alloc, 2)?;
    let answer = three_turns(rt, &mut base);
    drop(base);
    answer
}

// The base is lent, so that it is let go at one place.
fn three_turns(rt: &impl Print, base: &mut Base) -> anyhow::Result<()> {
    let beat = base.new_event(true, None)?;
    let hangup = base.new_event(true, Some(1))?;
    base.add_event(beat, Some(100))?;
    base.add_event(hangup, None)?;
    base.signal(1, 2)?;
    for now in [0u64, 100, 250] {
        base.begin_turn(now)?;
        for _ in 0..8u32 {
            let Some((event, flags)) = base.next_active()? else {
                break;
            };
            let name = if event == beat { "beat" } else { "hangup" };
            println!(rt; "at {now}: {name}, flags {flags}")?;
        }
        println!(rt; "at {now}: wait {:?}", base.poll_timeout())?;
    }
    Ok(())
}
