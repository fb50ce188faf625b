// Who keeps the trace of a run.
ghost use Rattle.std.specs.Prelude.{◌≡◌, ◌≤◌, ◌<◌, ◌+◌, [], ◌∷◌, ℕ, Option, Some, OnOk, length};
ghost use Rattle.ev_types.specs.Trace.{bytes_beside, Trace};
ghost use Rattle.ev_types.specs.Growth.{Grew};
ghost use Rattle.ev_port.specs.Polling.{want_events};
ghost use Rattle.ev_port.specs.Table.{named};

use crate::WantTable;
use ev_types::{Entry, NoMemory, Tape};

/// Who keeps the trace of a run. Room is made first, so that a step that was made is always recorded.
///
/// Own.
pub trait Scribe {
    /// The trace, where it tells.
    ghost trace: { Self → Option Trace };

    /// For how many entries there is room.
    ghost spare_entries: { Self → ℕ };

    /// For how many bytes there is room.
    ghost spare_bytes: { Self → ℕ };

    /// Makes room for so many entries with so many bytes in all.
    fn reserve(&mut self, entries: usize, bytes: usize) -> Result<(), NoMemory>
        ensures trace { Grew (trace self.old) (trace self.new) [] }
        ensures entries { OnOk result (entries ≤ spare_entries self.new) }
        ensures bytes { OnOk result (bytes ≤ spare_bytes self.new) };

    /// Appends an entry with its bytes, in room that was made before. Takes no memory.
    fn put(&mut self, entry: Entry, bytes: &[u8])
        requires room { 0 < spare_entries self.old }
        requires bytes_room { length bytes.now ≤ spare_bytes self.old }
        requires beside { length bytes.now ≡ bytes_beside entry }
        ensures trace { Grew (trace self.old) (trace self.new) ((entry, bytes.now) ∷ []) }
        ensures entries { spare_entries self.old ≤ spare_entries self.new + 1 }
        ensures bytes { spare_bytes self.old ≤ spare_bytes self.new + length bytes.now };

    /// Appends an entry for each want of a table, in room that was made before. Takes no memory. This body puts them one by
    /// one; a scribe that tells nothing can do less.
    fn put_wants(&mut self, wants: &WantTable)
        requires room { length (named wants.now) ≤ spare_entries self.old }
        ensures trace { Grew (trace self.old) (trace self.new) (want_events (named wants.now)) }
        ensures entries { spare_entries self.old ≤ spare_entries self.new + length (named wants.now) }
        ensures bytes { spare_bytes self.old ≤ spare_bytes self.new }
    {
        let mut from = 0;
        while let Some(want) = wants.next_wanted(from) {
            self.put(
                Entry::Want {
                    side: want.side,
                    read: want.read,
                    write: want.write,
                },
                &[],
            );
            from = want.side.number() + 1;
        }
    }
}

/// A tape tells everything.
impl Scribe for Tape {
    ghost trace = { λ t. Some t.trace };

    ghost spare_entries = { λ t. t.spare_entries };

    ghost spare_bytes = { λ t. t.spare_bytes };

    fn reserve(&mut self, entries: usize, bytes: usize) -> Result<(), NoMemory> {
        Tape::reserve(self, entries, bytes)
    }

    fn put(&mut self, entry: Entry, bytes: &[u8]) {
        Tape::put(self, entry, bytes)
    }
}
