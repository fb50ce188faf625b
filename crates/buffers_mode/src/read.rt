// Reads a script line by line.
ghost use Rattle.std.specs.Prelude.{◌≡◌, All, [], true, false, length, map, vec_len, IfOk, IfErr, Some, None, if◌then◌else◌, Ok};
ghost use Rattle.buffers_mode.specs.Grammar.{NamesBuffers};
ghost use Rattle.buffers_mode.specs.Spelled.{is_skipped, with_line, script_of, IsTold};

use crate::ModeFault;
use crate::line::{Line, line_of};
use ev_types::NoMemory;
use script_text::{first_piece, is_plain_text, told, words_of};
use std::alloc::Global;

/// Is it a line of no words, or a comment?
fn is_skipped(words: &[&[u8]]) -> bool
    ensures { result ≡ is_skipped (map (λ w. w.now) words.now) }
{
    match words {
        [] => true,
        [first, ..] => matches!(first, [b'#', ..]),
    }
}

/// What the text of one line says: nothing where it is skipped. `Err` is for want of memory, and `Ok(None)` for a line
/// that is not in the grammar.
fn read_line(alloc: Global, text: &[u8], into: &mut Vec<Line>) -> Result<bool, NoMemory>
    ensures value { IfOk result (λ fits. (if fits then Some into.new.items else None)
        ≡ with_line into.old.items text.now) }
    ensures within { All NamesBuffers into.old.items → All NamesBuffers into.new.items }
{
    if !is_plain_text(text) {
        return Ok(false);
    }
    let words = words_of(alloc, text)?;
    if is_skipped(&words) {
        return Ok(true);
    }
    match line_of(alloc, &words)? {
        Some(line) => {
            into.push(line)?;
            Ok(true)
        }
        None => Ok(false),
    }
}

/// Reads a whole script. Takes memory for it and for the words of a line. A text is refused at its first line that is
/// not in the grammar, counted from 1; a number above 2^32 - 1 is told as that number.
pub(crate) fn read_script(alloc: Global, text: &[u8]) -> Result<Vec<Line>, ModeFault>
    ensures script { IfOk result (λ lines. script_of text.now ≡ Ok lines.items) }
    ensures within { IfOk result (λ lines. All NamesBuffers lines.items) }
    ensures fault { IfErr result (λ fault. IsTold fault (script_of text.now)) }
{
    let mut lines = Vec::new(alloc);
    let mut before: usize = 0;
    let mut rest = text;
    while !rest.is_empty() {
        let (line, after) = first_piece(rest, b'\n');
        before += 1;
        if !read_line(alloc, line, &mut lines)? {
            return Err(ModeFault::BadLine(told(before)));
        }
        rest = after;
    }
    Ok(lines)
}
