// A filter of one's own in a world: it stands beside the world and is lent to each step, as a roster keeps the boxes of callbacks.

use crate::own_filter::NoZeros;
use bev_world::{BevId, Dir, FilterKind, Mode, StreamFilter, World};
use std::alloc::Global;
use std::io::Print;

/// Takes the zeros out of what a socket brings, into an input that takes 3 bytes at a time.
pub fn zeros_of_a_socket(rt: &impl Print, alloc: Global) -> anyhow::Result<()> {
    let mut world = World::new(alloc);
    let answer = bring(rt, &mut world);
    drop(world);
    answer
}

// The world is lent, so that it is let go at one place. The bufferevent over the socket hands every byte on by itself.
fn bring(rt: &impl Print, world: &mut World) -> anyhow::Result<()> {
    let socket = world.new_socket()?;
    let over = world.new_filter(socket, FilterKind::None, FilterKind::None)?;
    let mut filter = NoZeros::new();
    world.feed(socket, b"\0a\0\0bc\0d\0", 5)?;
    show(rt, world, over, &mut filter, 3)?;
    show(rt, world, over, &mut filter, 9)?;
    world.feed(socket, b"e\0", 6)?;
    show(rt, world, over, &mut filter, 9)
}

// One step up through the filter.
fn show(
    rt: &impl Print,
    world: &mut World,
    over: BevId,
    filter: &mut NoZeros,
    limit: usize,
) -> anyhow::Result<()> {
    if filter.is_finished() {
        return Ok(());
    }
    let step = world.pass_by(over, Dir::Read, filter, limit, Mode::Normal)?;
    let mut into = [b'.'; 6];
    let _count = world.peek(over, &mut into);
    let seen = str::from_utf8(&into)?;
    println!(rt; "{} bytes used, the input is {seen}", step.used)?;
    Ok(())
}
