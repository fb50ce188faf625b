// A table of wants beside plain lists. What each side wants and which ends are ready follows from the number of the link.
ghost use Rattle.std.specs.Prelude.{false};

use ev_port::{MarkWant, Want, WantTable};
use ev_types::{Side, SideId};
use number_set::NumberSet;
use std::alloc::Global;
use std::test::Fail;

const LINKS: u32 = 100;

const HALVES: [Side; 2] = [Side::In, Side::Out];

/// Marks what is read.
#[derive(Drop)]
struct Readers;

impl MarkWant for Readers {
    ghost marked = { λ m w. record w { can_read = w.read; can_write = false } };

    ghost after = { λ m w. m };

    fn mark(&mut self, want: Want) -> Want {
        Want {
            can_read: want.read,
            can_write: false,
            ..want
        }
    }
}

/// Each fifth link wants to read, and each seventh to write at these sides.
fn row(side: SideId, writers: &[Side]) -> Want {
    Want {
        side,
        read: side.link % 5 == 0,
        write: side.link % 7 == 0 && writers.contains(&side.side),
        can_read: false,
        can_write: false,
    }
}

/// What a list has: all wants without marks, those to read marked for it, or those marked for which the end is ready.
#[derive(Clone, Copy)]
enum Listed {
    Wanted,
    Read,
    Ready,
}

/// Each second link can be read.
fn can_be_read(link: u32) -> bool {
    link % 2 == 0
}

/// Each third link can be written.
fn can_be_written(link: u32) -> bool {
    link % 3 == 0
}

fn entry(listed: Listed, row: Want) -> Option<Want> {
    let link = row.side.link;
    let want = match listed {
        Listed::Wanted => row,
        Listed::Read => Want {
            can_read: row.read,
            ..row
        },
        Listed::Ready => Want {
            can_read: row.read && can_be_read(link),
            can_write: row.write && can_be_written(link),
            ..row
        },
    };
    let is_in = match listed {
        Listed::Wanted => want.read || want.write,
        Listed::Read | Listed::Ready => want.can_read || want.can_write,
    };
    is_in.then_some(want)
}

/// The list that is owed.
fn list(alloc: Global, listed: Listed, writers: &[Side]) -> Result<Vec<Want>, Fail> {
    let mut wants = Vec::new(alloc);
    for link in 0..LINKS {
        for side in HALVES {
            if let Some(want) = entry(listed, row(SideId { link, side }, writers)) {
                wants.push(want)?;
            }
        }
    }
    Ok(wants)
}

/// Adds each link and sets its rows, twice: the last setting stands.
fn fill(table: &mut WantTable, writers: &[Side]) -> Result<(), Fail> {
    for link in 0..LINKS {
        table.push_link()?;
        for half in HALVES {
            if link >= table.links() {
                return Err(Fail::new("a link that was added has no row"));
            }
            let side = SideId { link, side: half };
            let row = row(side, writers);
            table.set(side, !row.read, true);
            table.set(side, row.read, row.write);
        }
    }
    Ok(())
}

fn marks_each(alloc: Global) -> Result<bool, Fail> {
    let owed = list(alloc, Listed::Read, &HALVES)?;
    let mut table = WantTable::new(alloc);
    fill(&mut table, &HALVES)?;
    table.mark_each(&mut Readers);
    Ok(table.list() == owed.as_slice())
}

#[test]
fn a_table_has_each_want_marked(rt: HostRuntime) -> Result<(), Fail> {
    assert!(rt; marks_each(rt.alloc())?);
    Ok(())
}

fn fill_ready(readable: &mut NumberSet, writable: &mut NumberSet) -> Result<(), Fail> {
    for link in 0..LINKS {
        for _half in HALVES {
            readable.push(can_be_read(link))?;
            writable.push(can_be_written(link))?;
        }
    }
    Ok(())
}

/// Whether the count, the list of all, that some end is ready, and the list of the marked are as owed.
fn names_and_marks(alloc: Global) -> Result<[bool; 4], Fail> {
    let named = list(alloc, Listed::Wanted, &[Side::Out])?;
    let marked = list(alloc, Listed::Ready, &[Side::Out])?;
    let mut readable = NumberSet::new(alloc);
    let mut writable = NumberSet::new(alloc);
    fill_ready(&mut readable, &mut writable)?;
    let mut table = WantTable::new(alloc);
    fill(&mut table, &[Side::Out])?;

    let is_counted = table.count() == named.len();
    table.name_all();
    let is_named = table.list() == named.as_slice();
    let is_ready = table.is_any_ready(&readable, &writable);
    table.mark_ready(&readable, &writable);
    let is_marked = table.list() == marked.as_slice();
    Ok([is_counted, is_named, is_ready, is_marked])
}

#[test]
fn a_table_names_and_marks_the_wants_of_a_plain_list(rt: HostRuntime) -> Result<(), Fail> {
    assert_eq!(rt; names_and_marks(rt.alloc())?, [true; 4]);
    Ok(())
}

/// The wants of a table by its words, from the last on downwards.
fn down_by_words(alloc: Global, table: &WantTable) -> Result<Vec<Want>, Fail> {
    let mut wants = Vec::new(alloc);
    let mut before = (2 * table.links() as usize + 63) / 64;
    for _ in 0..LINKS {
        let Some(word) = table.previous_word(before) else {
            break;
        };
        for bit in (0..64usize).rev() {
            let row = word.row(bit);
            if row.read || row.write {
                wants.push(row)?;
            }
        }
        before = word.at;
    }
    Ok(wants)
}

fn words_have_each_want(alloc: Global) -> Result<bool, Fail> {
    let mut owed = list(alloc, Listed::Wanted, &HALVES)?;
    owed.reverse();
    let mut table = WantTable::new(alloc);
    fill(&mut table, &HALVES)?;
    let wants = down_by_words(alloc, &table)?;
    Ok(wants.as_slice() == owed.as_slice())
}

#[test]
fn a_table_gives_its_wants_by_words(rt: HostRuntime) -> Result<(), Fail> {
    assert!(rt; words_have_each_want(rt.alloc())?);
    Ok(())
}
