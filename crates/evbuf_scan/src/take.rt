// The first bytes of a buffer, and its first line.
ghost use Rattle.std.specs.Prelude.{◌≡◌, min, length, take, drop, IfOk, IfErr, OnOk, OnErr, option_map};
ghost use Rattle.byte_queue.specs.MemoryAnswers.{AnswersOr};
ghost use Rattle.evbuf.specs.Refusals.{front_refusal};
ghost use Rattle.evbuf.specs.Steps.{after_drain};
ghost use Rattle.evbuf.specs.declared.fault.BufFault.TheVariants.{Memory};
ghost use Rattle.evbuf_scan.specs.Lines.{first_line, AfterLine};

use crate::eol::Eol;
use crate::look::search_eol;
use ev_types::NoMemory;
use evbuf::{BufFault, Evbuffer, Place};
use std::alloc::{AllocError, Global};

/// The first n bytes, or all where there are fewer. Takes memory for them.
fn first_bytes(alloc: Global, buf: &Evbuffer, n: usize) -> Result<Vec<u8>, AllocError>
    ensures { IfOk result (λ bytes. bytes.items ≡ take n buf.now.bytes) }
{
    let mut bytes = vec![in alloc; 0; n.min(buf.len())]?;
    buf.copy_out(0, &mut bytes);
    Ok(bytes)
}

/// The first n bytes of a buffer, or all where there are fewer; they stay where they are. Takes memory for them. Frozen
/// ends don't refuse it. Linear in what it copies.
///
/// Libevent: event2/buffer.h, `evbuffer_peek`; Evbuffers, "Inspecting data without copying it".
/// Differs: the bytes are copied.
pub fn peek(alloc: Global, buf: &Evbuffer, n: usize) -> Result<Vec<u8>, NoMemory>
    ensures { IfOk result (λ bytes. bytes.items ≡ take n buf.now.bytes) }
{
    Ok(first_bytes(alloc, buf, n)?)
}

/// Takes the first line out of a buffer, with its end, and answers the line without its end. None exactly where no line
/// end of the style stands in the buffer; then nothing is taken. Refused as FrozenFront first, also where there is no
/// line, and then for want of memory for the line; a refused call has changed nothing. Linear in the line, or in the
/// buffer where there is none.
///
/// Libevent: event2/buffer.h, `evbuffer_readln`; Evbuffers, "Reading lines from a buffer".
/// Differs: a size callback is told of the line and its end as one change.
pub fn readln(alloc: Global, buf: &mut Evbuffer, style: Eol) -> Result<Option<Vec<u8>>, BufFault>
    ensures answer { AnswersOr Memory result (front_refusal buf.old) }
    ensures line { IfOk result (λ line. option_map (λ l. l.items) line ≡ first_line style buf.old.bytes) }
    ensures after { OnOk result (AfterLine style buf.old buf.new) }
    ensures err { OnErr result (buf.new ≡ buf.old) }
{
    if buf.is_frozen(Place::Front) {
        return Err(BufFault::FrozenFront);
    }
    let Some((place, length)) = search_eol(buf, style, 0) else {
        return Ok(None);
    };
    let _whole = buf.len();
    let line = first_bytes(alloc, buf, place)?;
    buf.drain(place + length)?;
    Ok(Some(line))
}
