// A source and a sink over the toolchain's readers and writers, as standard input and output. They tell of their
// bytes what the reader or writer tells; those of standard input and output tell nothing.
ghost use Rattle.std.specs.Prelude.{◌≡◌, ◌<◌, ◌≤◌, [], length, IfSome, if◌then◌else◌};
ghost use Rattle.std.specs.IoError.{error_kind};
ghost use Rattle.ev_port.specs.Counting.{counted};
ghost use Rattle.ev_port.specs.FaultCounts.{Counted};
ghost use Rattle.ev_port.specs.StreamBytes.{Gave, TookOn};
ghost use Rattle.ev_port.specs.Stream.{bytes_got, GotWithin, is_read_fault, bytes_taken, TookWithin, is_write_fault};
ghost use Rattle.ev_port.specs.Standard.{TellsRead, TellsWrite};

use crate::{Given, Sink, Source, Taken};
use std::io;
use std::io::{ErrorKind, Read, Write};

/// Reads from a reader. A read of no bytes is the end, an interrupted read is made again, and every other error is
/// a fault.
///
/// Own.
#[derive(Drop)]
pub struct StdSource<R> {
    reader: R,
    faults: u64,
}

impl<R: Read> StdSource<R> {
    /// A source that reads from this reader, with no fault so far. Takes no memory; constant cost.
    pub fn new(reader: R) -> StdSource<R>
        ensures reader { result.reader ≡ reader }
        ensures faults { result.faults ≡ 0 }
    {
        StdSource { reader, faults: 0 }
    }
}

impl<R: Read> Source for StdSource<R> {
    ghost left = { λ s. R.remaining s.reader };

    ghost faults = { λ s. s.faults };

    fn read(&mut self, into: &mut [u8]) -> Taken
        requires { 0 < length into.old }

        // Only a read that failed is counted, as one fault.
        ensures faults { self.new.faults ≡ (if is_read_fault result then counted self.old.faults 1 else self.old.faults) }

        // What every source says.
        ensures count { GotWithin result (length into.new) }
        ensures bytes { Gave (R.remaining self.old.reader) (R.remaining self.new.reader) (bytes_got result into.new) }
        ensures ended { result ≡ Taken.Ended → IfSome (R.remaining self.old.reader) (λ bytes. bytes ≡ []) }
        ensures cause { Counted self.old.faults self.new.faults (is_read_fault result) }
    {
        for _try in 0..u64::MAX {
            match taken_of(self.reader.read(into)) {
                Some(Taken::Failed) => break,
                Some(taken) => return taken,
                None => {}
            }
        }
        self.faults = self.faults.saturating_add(1);
        Taken::Failed
    }
}

/// Writes to a writer. A write that takes no bytes is a fault, an interrupted write is made again, and every other
/// error is a fault.
///
/// Own.
#[derive(Drop)]
pub struct StdSink<W> {
    writer: W,
    faults: u64,
}

impl<W: Write> StdSink<W> {
    /// A sink that writes to this writer, with no fault so far. Takes no memory; constant cost.
    pub fn new(writer: W) -> StdSink<W>
        ensures writer { result.writer ≡ writer }
        ensures faults { result.faults ≡ 0 }
    {
        StdSink { writer, faults: 0 }
    }
}

impl<W: Write> Sink for StdSink<W> {
    ghost taken = { λ s. W.contents s.writer };

    ghost faults = { λ s. s.faults };

    fn write(&mut self, from: &[u8]) -> Given
        requires { 0 < length from.now }

        // Only a write that failed is counted, as one fault.
        ensures faults { self.new.faults ≡ (if is_write_fault result then counted self.old.faults 1 else self.old.faults) }

        // What every sink says.
        ensures count { TookWithin result (length from.now) }
        ensures bytes { TookOn (W.contents self.old.writer) (W.contents self.new.writer) (bytes_taken result from.now) }
        ensures cause { Counted self.old.faults self.new.faults (is_write_fault result) }
    {
        for _try in 0..u64::MAX {
            match given_of(self.writer.write(from)) {
                Some(Given::Failed) => break,
                Some(given) => return given,
                None => {}
            }
        }
        self.faults = self.faults.saturating_add(1);
        Given::Failed
    }
}

// What a reader's answer tells. None, where the read was interrupted.
fn taken_of(answer: io::Result<usize>) -> Option<Taken>
    ensures { TellsRead error_kind ErrorKind.Interrupted answer result }
{
    match answer {
        Ok(0) => Some(Taken::Ended),
        Ok(count) => Some(Taken::Got(count)),
        Err(error) if error.kind() == ErrorKind::Interrupted => None,
        Err(_) => Some(Taken::Failed),
    }
}

// What a writer's answer tells. None, where the write was interrupted.
fn given_of(answer: io::Result<usize>) -> Option<Given>
    ensures { TellsWrite error_kind ErrorKind.Interrupted answer result }
{
    match answer {
        Ok(0) => Some(Given::Failed),
        Ok(count) => Some(Given::Took(count)),
        Err(error) if error.kind() == ErrorKind::Interrupted => None,
        Err(_) => Some(Given::Failed),
    }
}
