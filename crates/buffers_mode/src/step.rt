// What a line asks of one buffer alone, done on it.
ghost use Rattle.std.specs.Prelude.{◌≡◌, Some, None};
ghost use Rattle.buffers_mode.specs.Steps.{shown};
ghost use Rattle.buffers_mode.specs.Played.{own_step, Took, IsRefusedFor, found_answer, end_answer};

use crate::ModeFault;
use crate::answer::{Answer, Refusal};
use crate::line::Op;
use evbuf::{BufFault, Evbuffer};
use evbuf_scan::{Eol, peek, readln, search, search_eol};
use script_text::ByteList;
use std::alloc::Global;
use std::rc::RcSlice;

/// Does on a buffer what a line asks of it.
pub(crate) fn take_step(alloc: Global, buf: &mut Evbuffer, op: &Op) -> Result<Answer, ModeFault>
    ensures { Took result (shown buf.new) (own_step op.now (shown buf.old)) }
{
    match op {
        Op::Add(list) => add(buf, &list.bytes),
        Op::Prepend(list) => prepend(buf, &list.bytes),
        Op::AddReference(list, ticket) => add_reference(alloc, buf, &list.bytes, *ticket),
        Op::Drain(n) => drain(buf, *n),
        Op::Remove(n) => remove(alloc, buf, *n),
        Op::Pullup(n) => pullup(alloc, buf, *n),
        Op::PullupAll => pullup_all(alloc, buf),
        Op::Search(list, from) => Ok(found(search(alloc, buf, &list.bytes, *from)?)),
        Op::SearchEol(style, from) => Ok(found_end(search_eol(buf, *style, *from))),
        Op::Readln(style) => read_line(alloc, buf, *style),
        Op::Peek(n) => Ok(bytes(peek(alloc, buf, *n)?)),
        Op::Len => Ok(Answer::Count(buf.len())),
        Op::Freeze(place) => {
            buf.freeze(*place);
            Ok(Answer::Done)
        }
        Op::Unfreeze(place) => {
            buf.unfreeze(*place);
            Ok(Answer::Done)
        }
        Op::AddCb => add_cb(buf),
        Op::RemoveCb(cb) => remove_cb(buf, *cb),
        Op::SetCbEnabled(cb, on) => set_cb_enabled(buf, *cb, *on),
    }
}

/// What a refused call is answered, where the run goes on.
pub(crate) fn refused(fault: BufFault) -> Result<Answer, ModeFault>
    ensures { IsRefusedFor fault result }
{
    match fault {
        BufFault::Memory => Err(ModeFault::Memory),
        BufFault::FrozenFront => Ok(Answer::Refused(Refusal::FrozenFront)),
        BufFault::FrozenEnd => Ok(Answer::Refused(Refusal::FrozenEnd)),
        BufFault::SameBuffer => Ok(Answer::Refused(Refusal::SameBuffer)),
        BufFault::NoSuchCallback => Ok(Answer::Refused(Refusal::NoSuchCallback)),
        BufFault::Spent => Err(ModeFault::Spent),
    }
}

fn bytes(bytes: Vec<u8>) -> Answer
    ensures { result ≡ Answer.Bytes bytes.items }
{
    Answer::Bytes(ByteList { bytes })
}

fn found(place: Option<usize>) -> Answer
    ensures { result ≡ found_answer place }
{
    match place {
        Some(place) => Answer::Count(place),
        None => Answer::Nothing,
    }
}

fn found_end(end: Option<(usize, usize)>) -> Answer
    ensures { result ≡ end_answer end }
{
    match end {
        Some((place, length)) => Answer::LineEnd(place, length),
        None => Answer::Nothing,
    }
}

fn add(buf: &mut Evbuffer, bytes: &[u8]) -> Result<Answer, ModeFault>
    ensures { Took result (shown buf.new) (own_step (Op.Add bytes.now) (shown buf.old)) }
{
    match buf.add(bytes) {
        Ok(()) => Ok(Answer::Done),
        Err(fault) => refused(fault),
    }
}

fn prepend(buf: &mut Evbuffer, bytes: &[u8]) -> Result<Answer, ModeFault>
    ensures { Took result (shown buf.new) (own_step (Op.Prepend bytes.now) (shown buf.old)) }
{
    match buf.prepend(bytes) {
        Ok(()) => Ok(Answer::Done),
        Err(fault) => refused(fault),
    }
}

fn add_reference(
    alloc: Global,
    buf: &mut Evbuffer,
    bytes: &[u8],
    ticket: u64,
) -> Result<Answer, ModeFault>
    ensures { Took result (shown buf.new)
        (own_step (Op.AddReference bytes.now ticket) (shown buf.old)) }
{
    let shared = RcSlice::from_vec(bytes.to_vec(alloc)?)?;
    match buf.add_reference(shared, ticket) {
        Ok(()) => Ok(Answer::Done),
        Err(fault) => refused(fault),
    }
}

fn drain(buf: &mut Evbuffer, n: usize) -> Result<Answer, ModeFault>
    ensures { Took result (shown buf.new) (own_step (Op.Drain n) (shown buf.old)) }
{
    match buf.drain(n) {
        Ok(()) => Ok(Answer::Done),
        Err(fault) => refused(fault),
    }
}

fn remove(alloc: Global, buf: &mut Evbuffer, n: usize) -> Result<Answer, ModeFault>
    ensures { Took result (shown buf.new) (own_step (Op.Remove n) (shown buf.old)) }
{
    let mut room = vec![in alloc; 0; n.min(buf.len())]?;
    match buf.remove(&mut room) {
        Ok(_) => Ok(bytes(room)),
        Err(fault) => refused(fault),
    }
}

fn pullup(alloc: Global, buf: &mut Evbuffer, n: usize) -> Result<Answer, ModeFault>
    ensures { Took result (shown buf.new) (own_step (Op.Pullup n) (shown buf.old)) }
{
    match buf.pullup(n) {
        Ok(Some(front)) => Ok(bytes(front.to_vec(alloc)?)),
        Ok(None) => Ok(Answer::Nothing),
        Err(fault) => refused(fault),
    }
}

fn pullup_all(alloc: Global, buf: &mut Evbuffer) -> Result<Answer, ModeFault>
    ensures { Took result (shown buf.new) (own_step Op.PullupAll (shown buf.old)) }
{
    match buf.pullup_all() {
        Ok(all) => Ok(bytes(all.to_vec(alloc)?)),
        Err(fault) => refused(fault),
    }
}

fn read_line(alloc: Global, buf: &mut Evbuffer, style: Eol) -> Result<Answer, ModeFault>
    ensures { Took result (shown buf.new) (own_step (Op.Readln style) (shown buf.old)) }
{
    match readln(alloc, buf, style) {
        Ok(Some(line)) => Ok(bytes(line)),
        Ok(None) => Ok(Answer::Nothing),
        Err(fault) => refused(fault),
    }
}

fn add_cb(buf: &mut Evbuffer) -> Result<Answer, ModeFault>
    ensures { Took result (shown buf.new) (own_step Op.AddCb (shown buf.old)) }
{
    match buf.add_cb() {
        Ok(cb) => Ok(Answer::Count(cb as usize)),
        Err(fault) => refused(fault),
    }
}

fn remove_cb(buf: &mut Evbuffer, cb: u32) -> Result<Answer, ModeFault>
    ensures { Took result (shown buf.new) (own_step (Op.RemoveCb cb) (shown buf.old)) }
{
    match buf.remove_cb(cb) {
        Ok(()) => Ok(Answer::Done),
        Err(fault) => refused(fault),
    }
}

fn set_cb_enabled(buf: &mut Evbuffer, cb: u32, on: bool) -> Result<Answer, ModeFault>
    ensures { Took result (shown buf.new) (own_step (Op.SetCbEnabled cb on) (shown buf.old)) }
{
    match buf.set_cb_enabled(cb, on) {
        Ok(()) => Ok(Answer::Done),
        Err(fault) => refused(fault),
    }
}
