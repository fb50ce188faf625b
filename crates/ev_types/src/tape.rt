// A trace that is kept in memory: the entries, and all their bytes one after another.
ghost use Rattle.std.specs.Prelude.{◌≡◌, ◌≤◌, ◌<◌, ◌+◌, ◌++◌, ◌∷◌, [], length, OnOk, sum_by};
ghost use Rattle.ev_types.specs.Trace.{bytes_beside, paired};

use crate::{Entry, NoMemory};
use std::alloc::Global;
use std::marker::Model;

/// The whole trace of a run. Contracts see the list of its entries, each with its bytes, and the room that is left.
///
/// Own.
#[derive(Drop)]
pub struct Tape {
    entries: Vec<Entry>,
    bytes: Vec<u8>,
}

impl Model for Tape {
    ghost use Rattle.ev_types.specs.Taped.{Taped};

    ghost Value = { Taped };

    ghost use Rattle.ev_types.specs.TapeView.{taped, IsTape};

    ghost view = { taped };

    ghost invariant = { IsTape };
}

impl Tape {
    /// A tape with no entry. Takes no memory; constant cost.
    pub fn new(alloc: Global) -> Tape
        ensures { result.trace ≡ [] }
    {
        Tape {
            entries: Vec::new(alloc),
            bytes: Vec::new(alloc),
        }
    }

    /// The entries, and all their bytes one after another. Constant cost.
    pub fn parts(&self) -> (&[Entry], &[u8])
        ensures trace { paired result.0.now result.1.now ≡ self.now.trace }
        ensures bytes { sum_by bytes_beside result.0.now ≡ length result.1.now }
    {
        (&self.entries, &self.bytes)
    }

    /// Makes room for so many entries with so many bytes in all. After a refusal some of the room may be there. Constant
    /// cost where there is room, else linear in what is on the tape.
    pub fn reserve(&mut self, entries: usize, bytes: usize) -> Result<(), NoMemory>
        ensures trace { self.new.trace ≡ self.old.trace }
        ensures entries { OnOk result (entries ≤ self.new.spare_entries) }
        ensures bytes { OnOk result (bytes ≤ self.new.spare_bytes) }
        ensures entries_kept { self.old.spare_entries ≤ self.new.spare_entries }
        ensures bytes_kept { self.old.spare_bytes ≤ self.new.spare_bytes }
    {
        self.entries.reserve(entries)?;
        self.bytes.reserve(bytes)?;
        Ok(())
    }

    /// Appends an entry with its bytes, in room that was made before. Takes no memory; linear in the bytes.
    pub fn put(&mut self, entry: Entry, bytes: &[u8])
        requires room { 0 < self.old.spare_entries }
        requires bytes_room { length bytes.now ≤ self.old.spare_bytes }
        requires beside { length bytes.now ≡ bytes_beside entry }
        ensures trace { self.new.trace ≡ self.old.trace ++ (entry, bytes.now) ∷ [] }
        ensures entries { self.old.spare_entries ≤ self.new.spare_entries + 1 }
        ensures bytes { self.old.spare_bytes ≤ self.new.spare_bytes + length bytes.now }
    {
        self.entries.push(entry).unwrap();
        self.bytes.extend_from_slice(bytes).unwrap();
    }
}
