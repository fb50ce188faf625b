// A scribe that keeps four numbers of the trace.
ghost use Rattle.std.specs.Prelude.{◌≡◌, ◌≤◌, ◌^◌, ◌-◌, [], Some, IsOk, OnOk, min};
ghost use Rattle.ev_types.specs.Growth.{Grew};
ghost use Rattle.sum_scribe.specs.Sums.{turns_in, read_in, written_in, sum_of};

use crate::add::{read_with, sum_with, turns_with, written_with};
use ev_port::{LogStep, Scribe, TraceLog};
use ev_types::{Entry, NoMemory};
use std::marker::Model;

/// Sums the trace of a run: how many turns it has, how many bytes were read and written in it, and a sum of those that were
/// written. Contracts see the trace, as they do of a `Tape`, and room for every number of entries and bytes that can be
/// asked for. It takes no memory.
///
/// Own.
#[derive(Drop)]
pub struct SumScribe {
    turns: u64,
    read: u64,
    written: u64,
    sum: u64,
    told: TraceLog,
}

impl Model for SumScribe {
    ghost use Rattle.ev_types.specs.Taped.{Taped};

    ghost Value = { Taped };

    ghost use Rattle.sum_scribe.specs.SumScribeView.{summed, IsSummed};

    ghost view = { summed };

    ghost invariant = { IsSummed };
}

impl SumScribe {
    /// A scribe of no entry. Constant cost.
    pub fn new() -> SumScribe
        ensures { result.trace ≡ [] }
    {
        SumScribe {
            turns: 0,
            read: 0,
            written: 0,
            sum: 0,
            told: TraceLog::new(),
        }
    }

    /// How many turns the trace has, and 2^64 - 1 where there are more. Constant cost.
    pub fn turns(&self) -> u64
        ensures { result ≡ min (turns_in self.now.trace) (2 ^ 64 - 1) }
    {
        self.turns
    }

    /// How many bytes were read in the trace, and 2^64 - 1 where there are more. Constant cost.
    pub fn read(&self) -> u64
        ensures { result ≡ min (read_in self.now.trace) (2 ^ 64 - 1) }
    {
        self.read
    }

    /// How many bytes were written in the trace, and 2^64 - 1 where there are more. Constant cost.
    pub fn written(&self) -> u64
        ensures { result ≡ min (written_in self.now.trace) (2 ^ 64 - 1) }
    {
        self.written
    }

    /// The sum of all bytes that were written, in the order of the trace: 0 at first, and 31 times the sum and the byte, modulo
    /// 2^32, for each byte. Constant cost.
    pub fn sum(&self) -> u64
        ensures { result ≡ sum_of self.now.trace }
    {
        self.sum
    }
}

/// It tells everything, and there is always room. To put is linear in the bytes of a write, and constant otherwise.
impl Scribe for SumScribe {
    ghost trace = { λ s. Some s.trace };

    ghost spare_entries = { λ _. 2 ^ 64 };

    ghost spare_bytes = { λ _. 2 ^ 64 };

    fn reserve(&mut self, entries: usize, bytes: usize) -> Result<(), NoMemory>
        ensures ok { IsOk result }

        // What every scribe says.
        ensures trace { Grew (Some self.old.trace) (Some self.new.trace) [] }
        ensures entries { OnOk result (entries ≤ 2 ^ 64) }
        ensures bytes { OnOk result (bytes ≤ 2 ^ 64) }
    {
        Ok(())
    }

    fn put(&mut self, entry: Entry, bytes: &[u8]) {
        self.turns = turns_with(self.turns, &entry, bytes);
        self.read = read_with(self.read, &entry, bytes);
        self.written = written_with(self.written, &entry, bytes);
        self.sum = sum_with(self.sum, &entry, bytes);
        self.told = self.told.then(&LogStep { entry, bytes });
    }
}
