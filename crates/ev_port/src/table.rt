// A table of what each side wants, which lives on between polls and is kept up by changes, and the list of what the last
// poll marked. What is ready is left to the port.
ghost use Rattle.std.specs.Prelude.{◌≡◌, ℕ, ◌+◌, ◌*◌, ◌<◌, ◌≤◌, ◌^◌, ◌==◌, ◌||◌, ◌++◌, ◌∷◌, [], true, false, cond, if◌then◌else◌, length};
ghost use Rattle.std.specs.Prelude.{map, filter, vec_len, vec_capacity, OnOk, OnErr};
ghost use Rattle.std.specs.List.{list_any};
ghost use Rattle.ev_types.specs.Sides.{number};
ghost use Rattle.ev_port.specs.Marking.{marks_by, after_marks};
ghost use Rattle.ev_port.specs.Table.{side_of, row_by, rows_before, named, wants_some, is_marked, is_ready_by, marked_by, RowsStay};
ghost use Rattle.ev_port.specs.Table.{IsNextWanted, IsPreviousWanted};
ghost use Rattle.ev_port.specs.WantWords.{IsPreviousWordWanted};
ghost use Rattle.number_set.specs.Next.{in_either, IsPrevious};

use crate::want_word::last_word;
use crate::{MarkWant, Want, WantWord};
use ev_types::{NoMemory, Side, SideId};
use number_set::NumberSet;
use std::alloc::Global;
use std::marker::Model;

/// What each side wants of the next poll, as rows that are changed one by one, and the list of the wants that the last poll
/// marked. It keeps two bits for each side, and room for each side in the list.
///
/// Own.
#[derive(Drop)]
pub struct WantTable {
    read: NumberSet,
    write: NumberSet,
    links: u32,
    count: usize,
    pub(crate) list: Vec<Want>,
}

impl Model for WantTable {
    ghost use Rattle.ev_port.specs.Table.{WantsValue};
    ghost use Rattle.ev_port.specs.TableCode.{table_code};

    ghost Value = { WantsValue };

    ghost coded = { table_code };

    ghost use Rattle.ev_port.specs.TableView.{table_of, IsTable};

    ghost view = { table_of };

    ghost invariant = { IsTable };
}

pub(crate) fn side_of(number: usize) -> SideId
    requires { number < 2 ^ 33 }
    ensures { result ≡ side_of number }
{
    let side = if number % 2 == 0 { Side::In } else { Side::Out };
    SideId {
        link: (number / 2) as u32,
        side,
    }
}

fn row_of(read: &NumberSet, write: &NumberSet, number: usize) -> Want
    requires { number < 2 ^ 33 }
    ensures { result ≡ row_by read.now.has write.now.has number }
{
    Want {
        side: side_of(number),
        read: read.contains(number),
        write: write.contains(number),
        can_read: false,
        can_write: false,
    }
}

fn marked_row(
    rows: (&NumberSet, &NumberSet),
    ready: (&NumberSet, &NumberSet),
    number: usize,
) -> Want
    requires { number < 2 ^ 33 }
    ensures { result ≡ marked_by ready.entry.0.now ready.entry.1.now (row_by rows.entry.0.now.has rows.entry.1.now.has number) }
{
    let want = row_of(rows.0, rows.1, number);
    Want {
        can_read: want.read && ready.0.contains(number),
        can_write: want.write && ready.1.contains(number),
        ..want
    }
}

fn has_want(read: &NumberSet, write: &NumberSet, number: usize) -> bool
    ensures { result ≡ wants_some (row_by read.now.has write.now.has number) }
{
    read.contains(number) || write.contains(number)
}

// The last number before another of a side that wants something. The one directly before it is looked at first.
fn last_number(read: &NumberSet, write: &NumberSet, before: usize) -> Option<usize>
    ensures { IsPrevious (in_either read.now.has read.now.has write.now.has write.now.has) before result }
{
    if before > 0 && has_want(read, write, before - 1) {
        return Some(before - 1);
    }
    NumberSet::previous_in_either((read, read), (write, write), before)
}

// How many want something, once one did or not and now does or not.
fn recount(count: usize, did: bool, does: bool) -> usize
    requires there { did ≡ true → 0 < count }
    requires few { count < 2 ^ 63 }
    ensures { result + cond did 1 0 ≡ count + cond does 1 0 }
{
    match (did, does) {
        (true, false) => count - 1,
        (false, true) => count + 1,
        _ => count,
    }
}

// Lists all rows that want something.
fn list_rows(list: &mut Vec<Want>, read: &NumberSet, write: &NumberSet, sides: usize)
    requires few { sides ≤ 2 ^ 33 }
    requires room { sides ≤ vec_capacity list.old }
    requires reads { (n : ℕ) → sides ≤ n → read.now.has n ≡ false }
    requires writes { (n : ℕ) → sides ≤ n → write.now.has n ≡ false }
    ensures list { list.new.items ≡ rows_before read.now.has write.now.has sides }
    ensures room { vec_capacity list.old ≤ vec_capacity list.new }
{
    list.clear();
    let mut walk = NumberSet::walk_either((read, read), (write, write));
    while let Some(number) = walk.next() {
        list.push(row_of(read, write, number)).unwrap();
    }
}

// Lists a want if it has a mark.
fn put_marked(list: &mut Vec<Want>, want: Want)
    requires { vec_len list.old < vec_capacity list.old }
    ensures list { list.new.items ≡ list.old.items ++ filter is_marked (want ∷ []) }
    ensures room { vec_capacity list.old ≤ vec_capacity list.new }
{
    if want.can_read || want.can_write {
        list.push(want).unwrap();
    }
}

// Marks all rows that want something one by one, and lists those with a mark.
fn mark_rows<M: MarkWant>(
    list: &mut Vec<Want>,
    read: &NumberSet,
    write: &NumberSet,
    sides: usize,
    marker: &mut M,
)
    requires few { sides ≤ 2 ^ 33 }
    requires room { sides ≤ vec_capacity list.old }
    requires reads { (n : ℕ) → sides ≤ n → read.now.has n ≡ false }
    requires writes { (n : ℕ) → sides ≤ n → write.now.has n ≡ false }
    ensures list { list.new.items
        ≡ filter is_marked (marks_by M.marked M.after marker.old (rows_before read.now.has write.now.has sides)) }
    ensures after { marker.new ≡ after_marks M.after marker.old (rows_before read.now.has write.now.has sides) }
    ensures room { vec_capacity list.old ≤ vec_capacity list.new }
{
    list.clear();
    let mut walk = NumberSet::walk_either((read, read), (write, write));
    while let Some(number) = walk.next() {
        put_marked(list, marker.mark(row_of(read, write, number)));
    }
}

// Lists the rows that want something that can be done, with their marks.
fn list_ready(
    list: &mut Vec<Want>,
    rows: (&NumberSet, &NumberSet),
    ready: (&NumberSet, &NumberSet),
    sides: usize,
)
    requires few { sides ≤ 2 ^ 33 }
    requires room { sides ≤ vec_capacity list.old }
    requires reads { (n : ℕ) → sides ≤ n → rows.0.now.has n ≡ false }
    requires writes { (n : ℕ) → sides ≤ n → rows.1.now.has n ≡ false }
    ensures list { list.new.items ≡ filter is_marked (map (marked_by ready.entry.0.now ready.entry.1.now)
        (rows_before rows.entry.0.now.has rows.entry.1.now.has sides)) }
    ensures room { vec_capacity list.old ≤ vec_capacity list.new }
{
    list.clear();
    let mut walk = NumberSet::walk_either((rows.0, ready.0), (rows.1, ready.1));
    while let Some(number) = walk.next() {
        list.push(marked_row(rows, ready, number)).unwrap();
    }
}

impl WantTable {
    /// A table without a link, and with an empty list. Takes no memory; constant cost.
    ///
    /// Own.
    pub fn new(alloc: Global) -> WantTable
        ensures links { result.links ≡ 0 }
        ensures list { result.list ≡ [] }
    {
        WantTable {
            read: NumberSet::new(alloc),
            write: NumberSet::new(alloc),
            links: 0,
            count: 0,
            list: Vec::new(alloc),
        }
    }

    /// How many links have rows. Takes no memory; constant cost.
    ///
    /// Own.
    pub fn links(&self) -> u32
        ensures { result ≡ self.now.links }
    {
        self.links
    }

    /// Adds a link, whose sides want nothing. It may take memory; constant cost, but for the links at which the list or a set
    /// moves. Out of memory, and at 2^32 - 1 links, the table is as it was.
    ///
    /// Own.
    pub fn push_link(&mut self) -> Result<(), NoMemory>
        ensures links { OnOk result (self.new.links ≡ self.old.links + 1) }
        ensures refused { OnErr result (self.new ≡ self.old) }

        // Whether it was added or not, what was wanted and listed stays.
        ensures reads { self.new.reads ≡ self.old.reads }
        ensures writes { self.new.writes ≡ self.old.writes }
        ensures list { self.new.list ≡ self.old.list }
    {
        if self.links == u32::MAX {
            return Err(NoMemory);
        }
        let sides = 2 * (self.links as usize) + 2;
        self.read.lengthen(sides)?;
        self.write.lengthen(sides)?;
        self.list.reserve(sides)?;
        self.links += 1;
        Ok(())
    }

    /// Sets what a side wants. Takes no memory; constant cost.
    ///
    /// Own.
    pub fn set(&mut self, side: SideId, read: bool, write: bool)
        requires { side.link < self.old.links }
        ensures reads { (n : ℕ) → self.new.reads n ≡ (if n == number side then read else self.old.reads n) }
        ensures writes { (n : ℕ) → self.new.writes n ≡ (if n == number side then write else self.old.writes n) }
        ensures links { self.new.links ≡ self.old.links }
        ensures list { self.new.list ≡ self.old.list }
    {
        let number = side.number();
        let did = has_want(&self.read, &self.write, number);
        self.read.put(number, read);
        self.write.put(number, write);
        let does = has_want(&self.read, &self.write, number);
        self.count = recount(self.count, did, does);
    }

    /// How many sides want something. Takes no memory; constant cost.
    ///
    /// Own.
    pub fn count(&self) -> usize
        ensures { result ≡ length (named self.now) }
    {
        self.count
    }

    /// The wants that the last poll marked, in the order of their sides. Takes no memory; constant cost.
    ///
    /// Own.
    pub fn list(&self) -> &[Want]
        ensures { result.now ≡ self.now.list }
    {
        &self.list
    }

    /// Lists all wants, without marks. Takes no memory; linear in the wants, and in the sides, of which it passes over 4,096 at
    /// a time.
    ///
    /// Own.
    pub fn name_all(&mut self)
        ensures rows { RowsStay self.old self.new }
        ensures list { self.new.list ≡ named self.old }
    {
        let sides = 2 * (self.links as usize);
        list_rows(&mut self.list, &self.read, &self.write, sides);
    }

    /// Takes the wants without a mark out of the list. Takes no memory; linear in the list.
    ///
    /// Own.
    pub(crate) fn keep_marked(&mut self)
        ensures rows { RowsStay self.old self.new }
        ensures list { self.new.list ≡ filter is_marked self.old.list }
    {
        self.list.retain(|want| want.can_read || want.can_write);
    }

    /// Whether something that is wanted can be done, by the numbers of the sides that can be read and of those that can be
    /// written. Takes no memory; linear in the sides before the first, of which it passes over 4,096 at a time.
    ///
    /// Own.
    pub fn is_any_ready(&self, readable: &NumberSet, writable: &NumberSet) -> bool
        ensures { result ≡ list_any (is_ready_by readable.now writable.now) (named self.now) }
    {
        NumberSet::next_in_either((&self.read, readable), (&self.write, writable), 0).is_some()
    }

    /// Lists the wants for what can be done, with their marks, by the numbers of the sides that can be read and of those that
    /// can be written. Takes no memory; linear in the marked wants, and in the sides, of which it passes over 4,096 at a time.
    ///
    /// Own.
    pub fn mark_ready(&mut self, readable: &NumberSet, writable: &NumberSet)
        ensures rows { RowsStay self.old self.new }
        ensures list { self.new.list ≡ filter is_marked (map (marked_by readable.now writable.now) (named self.old)) }
    {
        let sides = 2 * (self.links as usize);
        list_ready(
            &mut self.list,
            (&self.read, &self.write),
            (readable, writable),
            sides,
        );
    }

    /// Has each want marked, in the order of their sides, and lists those with a mark. Takes no memory; linear in the wants,
    /// and in the sides, of which it passes over 4,096 at a time.
    ///
    /// Own.
    pub fn mark_each<M: MarkWant>(&mut self, marker: &mut M)
        ensures rows { RowsStay self.old self.new }
        ensures list { self.new.list ≡ filter is_marked (marks_by M.marked M.after marker.old (named self.old)) }
        ensures after { marker.new ≡ after_marks M.after marker.old (named self.old) }
    {
        let sides = 2 * (self.links as usize);
        mark_rows(&mut self.list, &self.read, &self.write, sides, marker);
    }

    /// Empties the list. Takes no memory; constant cost.
    ///
    /// Own.
    pub fn unmark(&mut self)
        ensures rows { RowsStay self.old self.new }
        ensures list { self.new.list ≡ [] }
    {
        self.list.clear();
    }

    /// The want of the first side that wants something, from a number on, or None where no such side does. Takes no memory;
    /// linear in the sides that it passes over, 4,096 at a time.
    ///
    /// Own.
    pub fn next_wanted(&self, from: usize) -> Option<Want>
        ensures { IsNextWanted self.now from result }
    {
        let number = NumberSet::next_in_either(
            (&self.read, &self.read),
            (&self.write, &self.write),
            from,
        )?;
        Some(row_of(&self.read, &self.write, number))
    }

    /// The want of the last side that wants something, before a number, or None where no such side does. Takes no memory;
    /// linear in the sides that it passes over, 4,096 at a time.
    ///
    /// Own.
    pub fn previous_wanted(&self, before: usize) -> Option<Want>
        ensures { IsPreviousWanted self.now before result }
    {
        let number = last_number(&self.read, &self.write, before)?;
        Some(row_of(&self.read, &self.write, number))
    }

    /// What the last 64 sides before a place want of which one wants something: those numbered from 64 times a place on, where
    /// this is below `before`. None where no side numbered below 64 * `before` wants something. A table of so many links has no
    /// side from the place (2 * links + 63) / 64 on. Takes no memory; linear in the sides that it passes over, 4,096 at a time.
    ///
    /// Own.
    pub fn previous_word(&self, before: usize) -> Option<WantWord>
        ensures { IsPreviousWordWanted self.now before result }
    {
        last_word(&self.read, &self.write, before)
    }
}
