// A scribe that writes each entry as its line.
ghost use Rattle.std.specs.Prelude.{◌≡◌, ◌≤◌, ◌<◌, ◌+◌, [], ◌∷◌, ◌++◌, Some, OnOk, length};
ghost use Rattle.ev_types.specs.Trace.{bytes_beside};
ghost use Rattle.script_text.specs.TraceText.{trace_text};

use ev_port::{LogStep, Scribe, TraceLog};
use ev_types::{Entry, NoMemory};
use script_text::{make_room, put_entry};
use std::alloc::Global;
use std::marker::Model;

/// Writes the trace of a run as text, the line of each entry as it is put. Contracts see the trace and the room that is
/// left, as they do of a `Tape`; the text is the text of that trace.
///
/// Own.
#[derive(Drop)]
pub struct TextScribe {
    text: Vec<u8>,
    /// For how many entries room is left, and for how many bytes in all.
    entries: usize,
    bytes: usize,
    told: TraceLog,
}

impl Model for TextScribe {
    ghost use Rattle.ev_types.specs.Taped.{Taped};

    ghost Value = { Taped };

    ghost use Rattle.text_scribe.specs.TextScribeView.{taped, IsWritten};

    ghost view = { taped };

    ghost invariant = { IsWritten };
}

impl TextScribe {
    /// A scribe of no entry. Takes no memory; constant cost.
    pub fn new(alloc: Global) -> TextScribe
        ensures { result.trace ≡ [] }
    {
        TextScribe {
            text: Vec::new(alloc),
            entries: 0,
            bytes: 0,
            told: TraceLog::new(),
        }
    }

    /// The text of the trace. Takes no memory; constant.
    pub fn into_text(self) -> Vec<u8>
        ensures { result.items ≡ trace_text self.trace }
    {
        self.text
    }
}

/// It tells everything. Room for an entry is room for the longest line, and two bytes for each byte beside it.
impl Scribe for TextScribe {
    ghost trace = { λ s. Some s.trace };

    ghost spare_entries = { λ s. s.spare_entries };

    ghost spare_bytes = { λ s. s.spare_bytes };

    fn reserve(&mut self, entries: usize, bytes: usize) -> Result<(), NoMemory> {
        make_room(&mut self.text, entries, bytes)?;
        self.entries = entries;
        self.bytes = bytes;
        Ok(())
    }

    fn put(&mut self, entry: Entry, bytes: &[u8]) {
        put_entry(&mut self.text, entry, bytes);
        self.entries -= 1;
        self.bytes -= bytes.len();
        self.told = self.told.then(&LogStep { entry, bytes });
    }
}
