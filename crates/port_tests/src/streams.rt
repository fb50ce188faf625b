// Sources and sinks, call by call: over memory, with calls that fail by a list, and over readers and writers that are
// interrupted many times in a row, and that fail.
ghost use Rattle.std.specs.Prelude.{◌≤◌, IfOk};

use ev_port::{Given, MemSink, MemSource, Mute, Scribe, Sink, Source, StdSink, StdSource, Taken};
use ev_types::Entry;
use std::alloc::Global;
use std::io;
use std::io::{ErrorKind, Read, Write};
use std::test::Fail;

/// How many calls are interrupted before each one that is answered.
const INTERRUPTIONS: u32 = 1_000;

/// Interrupts so many calls in a row, and answers the next one. The first answer moves at most two bytes, and so does the third;
/// the second fails, and every other moves none.
#[derive(Drop)]
struct Shaky {
    interrupted: u32,
    answers: u32,
}

impl Shaky {
    fn new() -> Shaky {
        Shaky {
            interrupted: 0,
            answers: 0,
        }
    }

    fn moved(&mut self, room: usize) -> io::Result<usize>
        ensures { IfOk result (λ count. count ≤ room) }
    {
        if self.interrupted < INTERRUPTIONS {
            self.interrupted += 1;
            return Err(io::Error::from(ErrorKind::Interrupted));
        }
        self.interrupted = 0;
        self.answers = self.answers.saturating_add(1);
        match self.answers {
            1 | 3 => Ok(room.min(2)),
            2 => Err(io::Error::from(ErrorKind::BrokenPipe)),
            _ => Ok(0),
        }
    }
}

impl Read for Shaky {
    fn read(&mut self, buf: &mut [u8]) -> io::Result<usize> {
        buf.fill(7);
        self.moved(buf.len())
    }
}

impl Write for Shaky {
    fn write(&mut self, buf: &[u8]) -> io::Result<usize> {
        self.moved(buf.len())
    }

    fn flush(&mut self) -> io::Result<()> {
        Ok(())
    }
}

/// The place of the first read that answers otherwise, or leaves other bytes in its room than stand beside its answer.
fn first_other_read(
    source: &mut impl Source,
    into: &mut [u8],
    owed: &[(Taken, &[u8])],
) -> Option<usize> {
    if into.is_empty() {
        return Some(0);
    }
    for (place, (answer, bytes)) in owed.iter().enumerate() {
        if source.read(into) != *answer || &*into != *bytes {
            return Some(place);
        }
    }
    None
}

/// The place of the first write of these bytes that answers otherwise.
fn first_other_write(sink: &mut impl Sink, owed: &[(&[u8], Given)]) -> Option<usize> {
    for (place, (bytes, answer)) in owed.iter().enumerate() {
        if bytes.is_empty() || sink.write(bytes) != *answer {
            return Some(place);
        }
    }
    None
}

const READS: &[(Taken, &[u8])] = &[
    (Taken::Got(2), b"ab"),
    (Taken::Failed, b"ab"),
    (Taken::Got(2), b"cd"),
    (Taken::Got(1), b"ed"),
    (Taken::Failed, b"ed"),
    (Taken::Ended, b"ed"),
];

fn reads_memory(alloc: Global) -> Result<Option<usize>, Fail> {
    let bytes = b"abcde".to_vec(alloc)?;
    let failing = vec![in alloc; 2, 5]?;
    let mut source = MemSource::new(bytes, failing);
    Ok(first_other_read(&mut source, &mut [0; 2], READS))
}

#[test]
fn a_source_gives_its_bytes_and_fails_by_its_list(rt: HostRuntime) -> Result<(), Fail> {
    assert_eq!(rt; reads_memory(rt.alloc())?, None);
    Ok(())
}

const WRITES: &[(&[u8], Given)] = &[
    (b"abcd", Given::Took(3)),
    (b"x", Given::Failed),
    (b"de", Given::Took(2)),
];

/// The first write that answers otherwise, and whether these bytes were taken in all.
fn writes_memory(alloc: Global) -> Result<(Option<usize>, bool), Fail> {
    let failing = vec![in alloc; 2]?;
    let mut sink = MemSink::new(alloc, 3, failing);
    let other = first_other_write(&mut sink, WRITES);
    Ok((other, sink.bytes() == b"abcde".as_slice()))
}

#[test]
fn a_sink_takes_so_many_bytes_a_call_and_fails_by_its_list(rt: HostRuntime) -> Result<(), Fail> {
    assert_eq!(rt; writes_memory(rt.alloc())?, (None, true));
    Ok(())
}

#[test]
fn a_mute_scribe_has_room_for_all(rt: HostRuntime) {
    let mut mute = Mute::new();
    assert!(rt; mute.reserve(usize::MAX, usize::MAX).is_ok());
    mute.put(Entry::PollFailed, &[]);
}

const INTERRUPTED_READS: &[(Taken, &[u8])] = &[
    (Taken::Got(2), &[7; 3]),
    (Taken::Failed, &[7; 3]),
    (Taken::Got(2), &[7; 3]),
    (Taken::Ended, &[7; 3]),
];

#[test]
fn an_interrupted_read_is_made_again_and_again(rt: HostRuntime) {
    let mut source = StdSource::new(Shaky::new());
    assert_eq!(rt;
        first_other_read(&mut source, &mut [0; 3], INTERRUPTED_READS),
        None
    );
}

const INTERRUPTED_WRITES: &[(&[u8], Given)] = &[
    (b"abc", Given::Took(2)),
    (b"abc", Given::Failed),
    (b"abc", Given::Took(2)),
    (b"abc", Given::Failed),
];

#[test]
fn an_interrupted_write_is_made_again_and_again(rt: HostRuntime) {
    let mut sink = StdSink::new(Shaky::new());
    assert_eq!(rt; first_other_write(&mut sink, INTERRUPTED_WRITES), None);
}
