// Active queues: keys by priority, and among equal ones in the order of activation.

use prio_queue::Active;
use std::alloc::Global;
use std::io::Print;

/// What is served first: the most urgent, and among equals who came first.
pub fn most_urgent_first(rt: &impl Print, alloc: Global) -> anyhow::Result<()> {
    let mut active = Active::new(alloc, 3)?;
    let answer = serve(rt, &mut active);
    drop(active);
    answer
}

// The queues are lent, so that they are let go at one place.
fn serve(rt: &impl Print, active: &mut Active) -> anyhow::Result<()> {
    active.activate(2, 70)?;
    active.activate(1, 80)?;
    active.activate(2, 90)?;
    active.remove(90);
    for _ in 0..3u32 {
        let Some(priority) = active.first_queue() else {
            break;
        };
        if let Some(key) = active.pop(priority) {
            println!(rt; "priority {priority}: key {key}")?;
        }
    }
    Ok(())
}
