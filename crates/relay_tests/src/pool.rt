// Links of a pool that are over, whose bays the next ones get: what is known of them stays.
ghost use Rattle.std.specs.Prelude.{◌≡◌, None};

use ev_types::{FilterKind, Marks, NoMemory, Side, SideId, Timeouts};
use relay_pool::LinkPool;
use relay_sides::{NewSide, SpareLimits};
use std::alloc::Global;

/// What a side is opened with that has nothing set.
fn plain_side() -> NewSide
    ensures { result.limit ≡ None }
{
    NewSide {
        marks: Marks::none(),
        timeouts: Timeouts::none(),
        read: FilterKind::None,
        write: FilterKind::None,
        limit: None,
        group: None,
        connected: true,
    }
}

fn open(pool: &mut LinkPool, spare: &mut SpareLimits) -> Result<(), NoMemory> {
    pool.reserve_link()?;
    pool.open(plain_side(), plain_side(), 0, 1, spare);
    Ok(())
}

/// Bytes are read at In, and Out takes them.
fn carry(
    alloc: Global,
    pool: &mut LinkPool,
    near: SideId,
    bytes: &[u8],
) -> Result<usize, NoMemory> {
    if near.link >= pool.opened() || bytes.is_empty() || !pool.is_live(near) {
        return Ok(0);
    }
    pool.reserve_read(near, bytes.len())?;
    let mut block = Vec::new(alloc);
    block.extend_from_slice(bytes)?;
    pool.got(near, &mut block, bytes.len(), 7);
    pool.pass_link(near.link, 100)?;
    Ok(take(pool, near.peer()))
}

/// An end takes all that waits for it, if its side is live.
fn take(pool: &mut LinkPool, to: SideId) -> usize {
    if to.link >= pool.opened() || !pool.is_live(to) {
        return 0;
    }
    let count = pool.waiting_for(to).len();
    pool.took(to, count, 9);
    count
}

/// Both sides are freed and shut, and the bay is given back.
fn end(pool: &mut LinkPool, near: SideId) {
    if near.link >= pool.opened() {
        return;
    }
    let far = near.peer();
    pool.free(near);
    pool.free(far);
    pool.shut(near);
    pool.shut(far);
    pool.leave(near.link);
}

/// What was read at In, and given at Out; and whether In was closed.
fn seen(pool: &LinkPool, near: SideId) -> (u64, u64, bool) {
    if near.link >= pool.opened() {
        return (0, 0, false);
    }
    let far = near.peer();
    (
        pool.counts(near).read,
        pool.counts(far).given,
        pool.flags(near).closed,
    )
}

/// Each link carries one byte more than the one before, and is over before the next is opened.
fn one_after_the_other(
    alloc: Global,
    pool: &mut LinkPool,
    spare: &mut SpareLimits,
) -> Result<bool, NoMemory> {
    let bytes = b"bytes";
    for link in 0..5u32 {
        open(pool, spare)?;
        let near = SideId {
            link,
            side: Side::In,
        };
        let (first, _) = bytes.split_at((link as usize + 1).min(bytes.len()));
        if carry(alloc, pool, near, first)? != first.len() {
            return Ok(false);
        }
        end(pool, near);
    }
    Ok(true)
}

/// What is seen of the links that were one after the other, where each is seen so to the last.
fn seen_of_all(alloc: Global) -> Option<u32> {
    let mut pool = LinkPool::new(alloc);
    let mut spare = SpareLimits::new(alloc);
    if one_after_the_other(alloc, &mut pool, &mut spare) != Ok(true) {
        return None;
    }
    first_other(&pool)
}

/// The first link of which something else is seen, or how many there are.
fn first_other(pool: &LinkPool) -> Option<u32> {
    for link in 0..5u32 {
        let near = SideId {
            link,
            side: Side::In,
        };
        let count = link as u64 + 1;
        if seen(pool, near) != (count, count, true) {
            return Some(link);
        }
    }
    Some(5)
}

#[test]
fn what_is_known_of_an_ended_link_stays(rt: HostRuntime) {
    assert_eq!(rt; seen_of_all(rt.alloc()), Some(5));
}
