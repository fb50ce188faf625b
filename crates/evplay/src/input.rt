// Reads a source to its end.
ghost use Rattle.std.specs.Prelude.{◌≡◌, ◌≤◌, ◌+◌, ◌^◌, length, Some, IfOk, IsErrOf};
ghost use Rattle.ev_port.specs.FaultCounts.{Rose};
ghost use Rattle.ev_port.specs.StreamBytes.{GaveAll, GaveCount, GaveAtMost};
ghost use Rattle.evplay.specs.Play.{GaveText, ReadsNothing};

use command_words::ScriptKind;
use ev_port::{Source, Taken};
use std::alloc::Global;

/// The most bytes that a text may have.
pub const MAX_TEXT: usize = 1 << 24;

/// The most bytes that one read asks for.
const MAX_READ: usize = 16_384;

/// Why no text was read.
#[derive(Clone, Copy, Debug, PartialEq, Eq)]
pub enum ReadStop {
    Fault,
    TooLong,
    Memory,
}

/// The bytes of a source, read to its end. Of a text that is too long one byte past the limit is read and no more.
fn read_text<S: Source>(alloc: Global, source: &mut S) -> Result<Vec<u8>, ReadStop>
    ensures text { IfOk result (λ text. GaveAll (S.left source.old) (S.left source.new) text.items) }
    ensures short { IfOk result (λ text. length text.items ≤ 2 ^ 24) }

    ensures too_long { IsErrOf result ReadStop.TooLong → GaveCount (S.left source.old) (S.left source.new) (2 ^ 24 + 1) }
    ensures not_too_long { ¬ IsErrOf result ReadStop.TooLong → GaveAtMost (S.left source.old) (S.left source.new) (2 ^ 24) }

    ensures fault { IsErrOf result ReadStop.Fault → Rose (S.faults source.old) (S.faults source.new) }
    ensures no_fault { ¬ IsErrOf result ReadStop.Fault → S.faults source.new ≡ S.faults source.old }
{
    let mut text = Vec::new(alloc);
    let mut buffer = [0u8; MAX_READ];
    while text.len() <= MAX_TEXT {
        let room = (MAX_TEXT + 1 - text.len()).min(MAX_READ);
        if text.reserve(room).is_err() {
            return Err(ReadStop::Memory);
        }
        let (into, _) = buffer.split_at_mut(room);
        match source.read(into) {
            Taken::Got(count) => {
                let (got, _) = into.split_at(count);
                text.extend_from_slice(got).unwrap();
            }
            Taken::Ended => return Ok(text),
            Taken::Failed => return Err(ReadStop::Fault),
        }
    }
    Err(ReadStop::TooLong)
}

/// The text of a script of this kind: the bytes of the source, read to its end; none for the generated script, which has no source.
pub fn text_for<S: Source>(
    alloc: Global,
    mode: ScriptKind,
    source: &mut S,
) -> Result<Vec<u8>, ReadStop>
    ensures text { IfOk result (λ text. GaveText mode (S.left source.old) (S.left source.new) text.items) }
    ensures short { IfOk result (λ text. length text.items ≤ 2 ^ 24) }
    ensures reads_nothing { ReadsNothing (Some mode) → source.new ≡ source.old }

    ensures too_long { IsErrOf result ReadStop.TooLong → GaveCount (S.left source.old) (S.left source.new) (2 ^ 24 + 1) }
    ensures not_too_long { ¬ IsErrOf result ReadStop.TooLong → GaveAtMost (S.left source.old) (S.left source.new) (2 ^ 24) }

    ensures fault { IsErrOf result ReadStop.Fault → Rose (S.faults source.old) (S.faults source.new) }
    ensures no_fault { ¬ IsErrOf result ReadStop.Fault → S.faults source.new ≡ S.faults source.old }
{
    match mode {
        ScriptKind::Big(_) => Ok(Vec::new(alloc)),
        ScriptKind::Relay(_) | ScriptKind::Buffers | ScriptKind::Base | ScriptKind::Pairs => {
            read_text(alloc, source)
        }
    }
}
