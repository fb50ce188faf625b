// Which of many jobs have something to do.

use number_set::NumberSet;
use std::alloc::Global;
use std::io::Print;

/// Of 200 jobs three have something to do, and one of these is done.
pub fn busy_jobs(rt: &impl Print, alloc: Global) -> anyhow::Result<()> {
    let mut busy = NumberSet::new(alloc);
    for job in 0..200u32 {
        busy.push(job % 64 == 63)?;
    }
    busy.remove(63);
    let (first, behind) = (busy.next(0), busy.next(128));
    println!(rt; "busy first: {first:?}, from 128 on: {behind:?}")?;
    Ok(())
}
