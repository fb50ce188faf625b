// Reads a trace line by line. What a line says is told elsewhere.
ghost use Rattle.std.specs.Prelude.{◌≡◌, IfOk, IfErr, if◌then◌else◌};
ghost use Rattle.script_text.specs.Spelled.{IsTold};
ghost use Rattle.script_text.specs.TraceSpelled.{trace_line_read, trace_of};

use crate::ScriptFault;
use crate::entry_words::event_of;
use crate::words::{first_piece, told, words_of};
use ev_types::{NoMemory, Tape};
use std::alloc::Global;

/// Puts what a line of a trace says at the end, and tells whether it is one.
fn put_line(alloc: Global, tape: &mut Tape, line: &[u8]) -> Result<bool, NoMemory>
    ensures { IfOk result (λ fits. (if fits then Some tape.new.trace else None)
        ≡ trace_line_read tape.old.trace line.now) }
{
    let words = words_of(alloc, line)?;
    let Some((entry, list)) = event_of(alloc, &words)? else {
        return Ok(false);
    };
    tape.reserve(1, list.bytes.len())?;
    tape.put(entry, &list.bytes);
    Ok(true)
}

/// Reads the text of a trace, as `write_trace` spells it: a line for each entry, of which no number has a leading
/// zero and hex digits are lower case. No line is skipped, so an empty one is bad. Numbers may be any of their field's
/// type; those of a `rate` ask make a limit. Takes memory for the trace and for the words of a line. A text is
/// refused at its first line that is no line of a trace, counted from 1; a number above 2^32 - 1 is told as that number.
/// Linear in the text.
///
/// Own.
pub fn read_trace(alloc: Global, text: &[u8]) -> Result<Tape, ScriptFault>
    ensures trace { IfOk result (λ tape. trace_of text.now ≡ Ok tape.trace) }
    ensures fault { IfErr result (λ fault. IsTold fault (trace_of text.now)) }
{
    let mut tape = Tape::new(alloc);
    let mut before: usize = 0;
    let mut rest = text;
    while !rest.is_empty() {
        let (line, after) = first_piece(rest, b'\n');
        before += 1;
        if !put_line(alloc, &mut tape, line)? {
            return Err(ScriptFault::BadLine(told(before)));
        }
        rest = after;
    }
    Ok(tape)
}
