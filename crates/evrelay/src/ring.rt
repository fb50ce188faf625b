// The last entries of a run, to be shown where it ends with a fault of its port.
ghost use Rattle.std.specs.Prelude.{◌≡◌, ◌≤◌, ◌∷◌, [], ◌++◌, Some, IfOk, IsOk, OnOk, length, vec_capacity};
ghost use Rattle.ev_types.specs.Growth.{Grew};
ghost use Rattle.ev_port.specs.Polling.{want_events};
ghost use Rattle.ev_port.specs.Table.{named};
ghost use Rattle.script_text.specs.Room.{room_of};
ghost use Rattle.evrelay.specs.RingText.{ring_text};
ghost use Rattle.evrelay.specs.RingWants.{last_entries, kept_last};

use crate::last::{KEPT, LastEntries};
use ev_port::{LogStep, Scribe, TraceLog, WantTable};
use ev_types::{Entry, NoMemory};
use script_text::make_room;
use std::alloc::Global;

/// A scribe that keeps the last 64 entries of a run, without their bytes. All its room, that of their text too, is made at
/// once. Clauses see the whole trace, which is kept nowhere.
///
/// Own.
#[derive(Drop)]
pub struct Ring {
    entries: LastEntries,
    pub(crate) text: Vec<u8>,
    told: TraceLog,
    ghost room: { room_of 64 0 ≤ vec_capacity text },
    ghost kept: { kept_last entries.words.items entries.older.items entries.newer.items ≡ last_entries told.trace },
}

impl Ring {
    /// A ring of no entry. It is refused for want of memory alone.
    pub fn new(alloc: Global) -> Result<Ring, NoMemory>
        ensures { IfOk result (λ ring. ring.told.trace ≡ []) }
    {
        let mut text = Vec::new(alloc);
        make_room(&mut text, KEPT, 0)?;
        Ok(Ring {
            entries: LastEntries::new(alloc)?,
            text,
            told: TraceLog::new(),
        })
    }

    /// Makes its text the lines of the entries, the oldest first, with the number of the bytes in place of the bytes. Takes no
    /// memory.
    pub fn spell(&mut self)
        ensures text { self.new.text.items ≡ ring_text (last_entries self.old.told.trace) }
        ensures told { self.new.told.trace ≡ self.old.told.trace }
    {
        self.text.clear();
        self.entries.put_text(&mut self.text);
    }
}

/// It tells the trace, and has room for every number of entries and bytes that can be asked for.
impl Scribe for Ring {
    ghost use Rattle.std.specs.Prelude.{◌^◌, ◌+◌};

    ghost trace = { λ r. Some r.told.trace };

    ghost spare_entries = { λ _. 2 ^ 64 };

    ghost spare_bytes = { λ _. 2 ^ 64 };

    fn reserve(&mut self, entries: usize, bytes: usize) -> Result<(), NoMemory>
        ensures ok { IsOk result }
        ensures same { self.new ≡ self.old }

        // What every scribe says.
        ensures trace { Grew (Some self.old.told.trace) (Some self.new.told.trace) [] }
        ensures entries { OnOk result (entries ≤ 2 ^ 64) }
        ensures bytes { OnOk result (bytes ≤ 2 ^ 64) }
    {
        Ok(())
    }

    fn put(&mut self, entry: Entry, bytes: &[u8])
        ensures told { self.new.told.trace ≡ self.old.told.trace ++ (entry, bytes.now) ∷ [] }

        // What every scribe says.
        ensures trace { Grew (Some self.old.told.trace) (Some self.new.told.trace) ((entry, bytes.now) ∷ []) }
        ensures entries { 2 ^ 64 ≤ 2 ^ 64 + 1 }
        ensures bytes { 2 ^ 64 ≤ 2 ^ 64 + length bytes.now }
    {
        self.entries.push(entry);
        self.told = self.told.then(&LogStep { entry, bytes });
    }

    fn put_wants(&mut self, wants: &WantTable)
        ensures told { self.new.told.trace ≡ self.old.told.trace ++ want_events (named wants.now) }

        // What every scribe says.
        ensures trace { Grew (Some self.old.told.trace) (Some self.new.told.trace) (want_events (named wants.now)) }
        ensures entries { 2 ^ 64 ≤ 2 ^ 64 + length (named wants.now) }
        ensures bytes { 2 ^ 64 ≤ 2 ^ 64 }
    {
        self.entries.push_wants(wants);
        self.told = self.told.then_wants(wants);
    }
}
