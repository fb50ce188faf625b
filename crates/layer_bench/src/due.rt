// Due callbacks of many owners, in rounds.
ghost use Rattle.std.specs.Prelude.{◌≡◌, [], OnOk};

use deferred_cb::{Due, NoMemory, Why};
use std::alloc::Global;

/// In each round every owner becomes due twice, and the batch is called; how many calls there were.
pub fn rounds_of_due(alloc: Global, owners: u64, rounds: u32) -> Result<u64, NoMemory> {
    let mut due = Due::new(alloc);
    let mut calls = 0u64;
    for _ in 0..rounds {
        schedule_all(&mut due, owners)?;
        due.begin();
        calls = calls.saturating_add(called(&mut due));
    }
    Ok(calls)
}

/// Every owner becomes due by two reasons.
fn schedule_all(due: &mut Due, owners: u64) -> Result<(), NoMemory>
    ensures { OnOk result (due.new.batch ≡ due.old.batch) }
{
    for owner in 0..owners {
        due.reserve(1)?;
        due.schedule(owner, Why::Read);
        due.reserve(1)?;
        due.schedule(owner, Why::Timer);
    }
    Ok(())
}

/// Calls the batch to its end; how many calls there were.
fn called(due: &mut Due) -> u64
    ensures { due.new.batch ≡ [] }
{
    let mut calls = 0u64;
    while let Some(_) = due.take_turn() {
        calls = calls.saturating_add(1);
    }
    calls
}
