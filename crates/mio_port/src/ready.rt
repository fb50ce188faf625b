// The sets of the numbers of the ends that are ready: how they follow the ends, and what a poll lists by them.
ghost use Rattle.std.specs.Prelude.{◌≡◌, ◌<◌, ◌==◌, ℕ, None, map, filter, slice_index_or, if◌then◌else◌};
ghost use Rattle.ev_port.specs.Table.{RowsStay, is_marked, named};
ghost use Rattle.mio_port.specs.EndPlaces.{is_bulky, is_prompt, is_write_ready};
ghost use Rattle.mio_port.specs.ReadTurns.{marked_with};

use crate::end::End;
use ev_port::WantTable;
use number_set::NumberSet;

/// Puts a number into a set or takes it out, where it isn't so already, which costs one look.
fn set_to(set: &mut NumberSet, number: usize, is_in: bool)
    requires { number < set.old.len }
    ensures len { set.new.len ≡ set.old.len }
    ensures has { (n : ℕ) → set.new.has n ≡ (if n == number then is_in else set.old.has n) }
{
    if set.contains(number) != is_in {
        set.put(number, is_in);
    }
}

/// The numbers of the ends that are ready: for reading, the bulky ones in a set of their own, and for writing.
///
/// Own.
#[derive(Drop)]
pub(crate) struct Ready {
    pub(crate) prompt: NumberSet,
    pub(crate) bulky: NumberSet,
    pub(crate) writable: NumberSet,
}

impl Ready {
    /// The end with this number may have changed: each set has it where the end is ready now.
    pub(crate) fn keep_up(&mut self, ends: &[Option<End>], number: usize)
        requires prompt_room { number < self.old.prompt.len }
        requires bulky_room { number < self.old.bulky.len }
        requires write_room { number < self.old.writable.len }
        ensures prompt_len { self.new.prompt.len ≡ self.old.prompt.len }
        ensures bulky_len { self.new.bulky.len ≡ self.old.bulky.len }
        ensures write_len { self.new.writable.len ≡ self.old.writable.len }
        ensures prompts { (n : ℕ) → self.new.prompt.has n
            ≡ (if n == number then is_prompt (slice_index_or ends.now number None) else self.old.prompt.has n) }
        ensures bulks { (n : ℕ) → self.new.bulky.has n
            ≡ (if n == number then is_bulky (slice_index_or ends.now number None) else self.old.bulky.has n) }
        ensures writes { (n : ℕ) → self.new.writable.has n
            ≡ (if n == number then is_write_ready (slice_index_or ends.now number None) else self.old.writable.has n) }
    {
        let (can_read, is_bulky, can_write) = match ends.get(number) {
            Some(Some(end)) => (end.is_read_ready(), end.is_bulky(), end.is_write_ready()),
            _ => (false, false, false),
        };
        set_to(&mut self.prompt, number, can_read && !is_bulky);
        set_to(&mut self.bulky, number, can_read && is_bulky);
        set_to(&mut self.writable, number, can_write);
    }

    /// Lists what can be done, as if the end with this number could be read too.
    pub(crate) fn mark_with(&mut self, who: usize, wants: &mut WantTable)
        requires { who < self.old.prompt.len }
        ensures len { self.new.prompt.len ≡ self.old.prompt.len }
        ensures has { (n : ℕ) → self.new.prompt.has n ≡ self.old.prompt.has n }
        ensures bulky { self.new.bulky ≡ self.old.bulky }
        ensures writable { self.new.writable ≡ self.old.writable }
        ensures rows { RowsStay wants.old wants.new }
        ensures list { wants.new.list
            ≡ filter is_marked (map (marked_with self.old.prompt self.old.writable who) (named wants.old)) }
    {
        let was = self.prompt.contains(who);
        self.prompt.insert(who);
        wants.mark_ready(&self.prompt, &self.writable);
        self.prompt.put(who, was);
    }
}
