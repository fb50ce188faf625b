// A scribe that logs how each side of a link ended.
ghost use Rattle.std.specs.Prelude.{◌≡◌, ◌≤◌, ◌∷◌, [], ◌++◌, vec_capacity, IfOk};
ghost use Rattle.script_text.specs.Lines.{line_of};
ghost use Rattle.script_text.specs.TraceText.{entry_words};
ghost use Rattle.ev_types.specs.Growth.{Grew};
ghost use Rattle.ev_port.specs.Polling.{want_events};
ghost use Rattle.ev_port.specs.Table.{named};
ghost use Rattle.logging_relay.specs.EndLines.{IsLogOf, IsNewSink, LogsEnd, TakesLine};

use ev_port::{LogStep, Scribe, Sink, TraceLog, WantTable};
use ev_types::{Entry, NoMemory};
use program_end::write_text;
use script_text::{make_room, put_entry};
use std::alloc::Global;

/// A scribe that writes a line to a sink for each side that is freed, with its cause, how many bytes were moved from it and how many its
/// end was given. It keeps no entry, and room for one line, so no step of the relay ever waits for memory of it. A line that the sink
/// doesn't take is lost: the relay goes on. At every moment the sink has the log of all entries so far.
///
/// Own.
#[derive(Drop)]
pub struct EndLog<K: Sink> {
    out: K,
    line: Vec<u8>,
    told: TraceLog,
    ghost room: { 192 ≤ vec_capacity line },
    ghost logged: { ∥ IsLogOf K.Sink told.trace out ∥₁ },
}

impl<K: Sink + Drop> EndLog<K> {
    /// A log of no line, which writes to this sink. It is refused for want of memory alone.
    ///
    /// Own.
    pub fn new(alloc: Global, out: K) -> Result<EndLog<K>, NoMemory>
        requires fresh { IsNewSink K.Sink out }
        ensures out { IfOk result (λ log. log.out ≡ out) }
        ensures nothing_yet { IfOk result (λ log. log.told.trace ≡ []) }
    {
        let mut line = Vec::new(alloc);
        make_room(&mut line, 1, 0)?;
        Ok(EndLog {
            out,
            line,
            told: TraceLog::new(),
        })
    }
}

/// Writes the line of an entry without bytes.
fn log<K: Sink>(out: &mut K, line: &mut Vec<u8>, entry: Entry)
    requires { 192 ≤ vec_capacity line.old }
    ensures logged { TakesLine K.Sink (line_of (entry_words entry [])) out.old out.new }
    ensures room { 192 ≤ vec_capacity line.new }
{
    line.clear();
    put_entry(line, entry, &[]);
    let _ = write_text(out, line);
}

/// Writes the line of the free of a side, and of no other entry.
fn log_end<K: Sink>(out: &mut K, line: &mut Vec<u8>, entry: Entry)
    requires { 192 ≤ vec_capacity line.old }
    ensures logged { LogsEnd K.Sink entry out.old out.new }
    ensures room { 192 ≤ vec_capacity line.new }
{
    if let Entry::Freed { .. } = entry {
        log(out, line, entry);
    }
}

/// It tells the trace, and has room for every number of entries and bytes that can be asked for.
impl<K: Sink + Drop> Scribe for EndLog<K> {
    ghost use Rattle.std.specs.Prelude.{◌^◌, ◌+◌, Some, length, IsOk, OnOk};

    ghost trace = { λ l. Some l.told.trace };

    ghost spare_entries = { λ _. 2 ^ 64 };

    ghost spare_bytes = { λ _. 2 ^ 64 };

    fn reserve(&mut self, entries: usize, bytes: usize) -> Result<(), NoMemory>
        ensures ok { IsOk result }
        ensures same { self.new ≡ self.old }

        // What every scribe says.
        ensures trace { Grew (Some self.old.told.trace) (Some self.new.told.trace) [] }
        ensures entries { OnOk result (entries ≤ 2 ^ 64) }
        ensures bytes { OnOk result (bytes ≤ 2 ^ 64) }
    {
        Ok(())
    }

    fn put(&mut self, entry: Entry, bytes: &[u8])
        ensures logged { LogsEnd K.Sink entry self.old.out self.new.out }

        // What every scribe says.
        ensures trace { Grew (Some self.old.told.trace) (Some self.new.told.trace) ((entry, bytes.now) ∷ []) }
        ensures entries { 2 ^ 64 ≤ 2 ^ 64 + 1 }
        ensures bytes { 2 ^ 64 ≤ 2 ^ 64 + length bytes.now }
    {
        log_end(&mut self.out, &mut self.line, entry);
        self.told = self.told.then(&LogStep { entry, bytes });
    }

    fn put_wants(&mut self, wants: &WantTable)
        ensures unlogged { self.new.out ≡ self.old.out }

        // What every scribe says.
        ensures trace { Grew (Some self.old.told.trace) (Some self.new.told.trace) (want_events (named wants.now)) }
        ensures entries { 2 ^ 64 ≤ 2 ^ 64 + length (named wants.now) }
        ensures bytes { 2 ^ 64 ≤ 2 ^ 64 }
    {
        self.told = self.told.then_wants(wants);
    }
}
