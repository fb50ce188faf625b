// Bulky ends over loopback: they are read in turns, and while their peer drains and can be written only at the last poll of a turn.
use crate::acts::{IN_0, OUT_0, READING, WRITING, want};
use crate::loopback::{RealPort, World, is_marked, new_world};
use crate::steps::{empties, fills};
use ev_port::{Polled, Port, ReadAnswer, Want, WantTable, WriteAnswer};
use ev_types::SideId;
use std::alloc::Global;
use std::io::Write;
use std::test::Fail;

/// An end keeps its turn for so many polls.
const POLLS: u32 = 64;

const READS_IN: Want = Want {
    side: IN_0,
    read: true,
    write: false,
    can_read: true,
    can_write: false,
};

const READS_OUT: Want = Want {
    side: OUT_0,
    ..READS_IN
};

/// What comes to an end is more than the room of a read.
fn reads_full(port: &mut RealPort<'_>, end: SideId) -> bool {
    is_marked(port, end, READING) && port.read(end, &mut [0; 8]) == ReadAnswer::Got(8)
}

/// Each of so many polls lists these wants and no other.
fn lists(port: &mut RealPort<'_>, table: &mut WantTable, owed: &[Want], polls: u32) -> bool {
    for _ in 0..polls {
        let polled = port.poll_table(table, false, Some(0));
        if polled != (Polled::Ready { accept: false }) || table.list() != owed {
            return false;
        }
    }
    true
}

/// How many of so many polls list these wants. The others list what is usual; None where one lists something else.
fn count_lists(
    port: &mut RealPort<'_>,
    table: &mut WantTable,
    counted: &[Want],
    usual: &[Want],
) -> Option<u32> {
    let mut count = 0u32;
    for _ in 0..POLLS {
        if lists(port, table, counted, 1) {
            count = count.saturating_add(1);
        } else if table.list() != usual {
            return None;
        }
    }
    Some(count)
}

/// A table of a link of which both sides want to read.
fn reading(alloc: Global) -> Result<WantTable, Fail> {
    let mut table = WantTable::new(alloc);
    table.push_link()?;
    table.set(IN_0, true, false);
    table.set(OUT_0, true, false);
    Ok(table)
}

/// Both ends get more than they are read for.
fn sends_both(world: &mut World<'_>) -> Result<bool, Fail> {
    let Some(far) = &mut world.far else {
        return Err(Fail::new("the far end went"));
    };
    world.near.write_all(&[0; 20])?;
    far.write_all(&[0; 20])?;
    Ok(reads_full(&mut world.port, IN_0) && reads_full(&mut world.port, OUT_0))
}

/// The table says what a side wants, where it has its link.
fn wants(table: &mut WantTable, side: SideId, read: bool, write: bool) {
    if side.link < table.links() {
        table.set(side, read, write);
    }
}

/// Whether each of two bulky ends has its turn, one alone has all, and an end whose read came short needs none.
fn takes_turns(port: &mut RealPort<'_>, table: &mut WantTable) -> [bool; 5] {
    let first = lists(port, table, &[READS_OUT], POLLS);
    let second = lists(port, table, &[READS_IN], POLLS);
    let again = lists(port, table, &[READS_OUT], 1);
    wants(table, OUT_0, false, false);
    let alone = lists(port, table, &[READS_IN], 2 * POLLS);
    wants(table, OUT_0, true, false);
    port.read(OUT_0, &mut [0; 16]);
    let short = lists(port, table, &[READS_IN], 2 * POLLS);
    [first, second, again, alone, short]
}

/// Eight bytes come to the Out end, and it is ready to be read.
fn eight_come(world: &mut World<'_>) -> Result<bool, Fail> {
    let Some(far) = &mut world.far else {
        return Err(Fail::new("the far end went"));
    };
    far.write_all(&[0; 8])?;
    Ok(is_marked(&mut world.port, OUT_0, READING))
}

/// Whether an end takes turns behind one read that came short, and none behind two.
fn stays_bulky(world: &mut World<'_>, table: &mut WantTable) -> Result<[bool; 4], Fail> {
    let came = eight_come(world)?;
    let once = lists(&mut world.port, table, &[READS_OUT], POLLS);
    let other = lists(&mut world.port, table, &[READS_IN], POLLS);
    let read = world.port.read(OUT_0, &mut [0; 16]) == ReadAnswer::Got(8);
    let twice = eight_come(world)? && lists(&mut world.port, table, &[READS_IN, READS_OUT], POLLS);
    Ok([came && read, once, other, twice])
}

/// The far end reads so many bytes, and the Out end can be written again.
fn drains(world: &mut World<'_>, count: usize) -> Result<bool, Fail> {
    let Some(far) = &mut world.far else {
        return Err(Fail::new("the far end went"));
    };
    Ok(empties(far, count)? && is_marked(&mut world.port, OUT_0, WRITING))
}

/// Whether what has the turn is read beside a write to its peer: before the first one; behind one that came short at one of the
/// polls of a turn, or where the peer is full or nothing waits for it; no more often behind one that took all while something
/// waits still; and again behind a poll at which nothing did.
fn drains_first(world: &mut World<'_>, table: &mut WantTable) -> Result<[bool; 7], Fail> {
    let writes = want((OUT_0, WRITING, WRITING));
    wants(table, OUT_0, false, true);
    let both = [READS_IN, writes];
    let first = lists(&mut world.port, table, &both, POLLS);
    let Some(taken) = fills(&mut world.port, OUT_0) else {
        return Err(Fail::new("the end was never full"));
    };
    let full = lists(&mut world.port, table, &[READS_IN], 1);
    let drained = drains(world, taken)?;
    let drains = drained && count_lists(&mut world.port, table, &both, &[writes]) == Some(1);
    wants(table, OUT_0, false, false);
    let unwanted = lists(&mut world.port, table, &[READS_IN], 1);
    wants(table, OUT_0, false, true);
    let short = lists(&mut world.port, table, &[writes], 1);
    let took = world.port.write(OUT_0, b"x") == WriteAnswer::Took(1);
    let more = took && count_lists(&mut world.port, table, &both, &[writes]) == Some(1);
    wants(table, OUT_0, false, false);
    let given = lists(&mut world.port, table, &[READS_IN], 1);
    wants(table, OUT_0, false, true);
    let again = given && lists(&mut world.port, table, &both, POLLS);
    Ok([first, full, drains, unwanted, short, more, again])
}

fn plays(
    world: &mut World<'_>,
    table: &mut WantTable,
) -> Result<(bool, [bool; 5], [bool; 4], [bool; 7]), Fail> {
    let is_bulky = sends_both(world)?;
    let turns = takes_turns(&mut world.port, table);
    let stays = stays_bulky(world, table)?;
    Ok((is_bulky, turns, stays, drains_first(world, table)?))
}

#[test]
fn bulky_ends_are_read_in_turns(rt: HostRuntime) -> Result<(), Fail> {
    let mut table = reading(rt.alloc())?;
    let mut world = new_world(&rt)?;
    let played = plays(&mut world, &mut table);
    drop(world);
    drop(table);
    assert_eq!(rt; played?, (true, [true; 5], [true; 4], [true; 7]));
    Ok(())
}
