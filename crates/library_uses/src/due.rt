// Due callbacks: the reasons of an owner are joined, and a batch is called one reason at a time.

use deferred_cb::{Due, Why};
use std::alloc::Global;
use std::io::Print;

/// One owner, due by its timer, by bytes that came, and again while it is called.
pub fn joined_reasons(rt: &impl Print, alloc: Global) -> anyhow::Result<()> {
    let mut due = Due::new(alloc);
    due.reserve(1)?;
    due.schedule(7, Why::Timer);
    due.schedule(7, Why::Read);
    due.begin();
    let answer = call_all(rt, &mut due);
    drop(due);
    answer
}

// What is due is lent, so that it is let go at one place.
fn call_all(rt: &impl Print, due: &mut Due) -> anyhow::Result<()> {
    for _ in 0..4u32 {
        let Some((owner, why)) = due.take_turn() else {
            break;
        };
        println!(rt; "call {owner}: {why:?}")?;
    }
    due.forget(7);
    println!(rt; "nothing is due: {}", due.is_empty())?;
    Ok(())
}
