// The bytes that go from one half of a pair to the other.
ghost use Rattle.std.specs.Prelude.{◌≡◌, ◌≤◌, min, length, [], None, OnOk, OnErr, IfOk, option_map};
ghost use Rattle.byte_queue.specs.MemoryAnswers.{AnswersOr, fault_of};
ghost use Rattle.token_bucket.specs.declared.limit.Dir.TheVariants as dir_of;
ghost use Rattle.bev_core.specs.Moves.{BytesGo};
ghost use Rattle.bev_pair.specs.Transfer.{moved_by, count_of, transfer_refusal, flush_flags};
ghost use Rattle.bev_pair.specs.declared.fault.PairFault.TheVariants.{Memory};

use crate::fault::PairFault;
use bev_core::{Bev, BevFault, BevState, Dir, EOF, READING};
use ev_types::{Flags, Mode};

/// Moves the first bytes of one half's output to the end of the other's input, and answers how many. In normal mode these are
/// none unless the writer has writing and the other half reading enabled, and else as many as there are and as the other half
/// takes up to its read high mark. In the other modes it is the whole output, whatever the marks and flags. Spent comes where
/// the length of the input would not fit a usize. Takes memory, but not where all goes into an empty input; linear in what it
/// copies.
///
/// Libevent: event2/bufferevent.h, `bufferevent_pair_new` and `bufferevent_flush`; "Bufferevents: advanced topics".
/// Differs: a flush does not look at marks and flags.
pub fn transfer(from: &mut Bev, to: &mut Bev, mode: Mode) -> Result<usize, PairFault>
    ensures answer { AnswersOr Memory result (transfer_refusal from.old to.old mode) }
    ensures count { IfOk result (λ moved. moved ≡ moved_by from.old to.old mode) }
    ensures ok { OnOk result (BytesGo (moved_by from.old to.old mode) dir_of.Write dir_of.Read from.old to.old from.new to.new) }
    ensures err { OnErr result (from.new ≡ from.old) }
    ensures to_err { OnErr result (to.new ≡ to.old) }
    ensures exchanged { transfer_refusal from.old to.old mode ≡ None → length from.old.output.bytes ≤ moved_by from.old to.old mode →
        to.old.input.bytes ≡ [] → from.old.chunked ≡ to.old.chunked → fault_of result ≡ None }
{
    let (writer, reader) = (from.state(), to.state());
    if !writer.live || !reader.live {
        return Err(PairFault::NoPartner);
    }
    match from.cross(Dir::Write, to, count(&writer, &reader, mode)) {
        Ok(moved) => Ok(moved),
        Err(BevFault::Spent) => Err(PairFault::Spent),
        Err(_) => Err(PairFault::Memory),
    }
}

/// What a flush raises at the other half: reading and end of file where the mode is finished, and else nothing. It marks and
/// disables nothing there. Takes no memory; constant cost.
///
/// Libevent: event2/bufferevent.h, `bufferevent_flush`; "Bufferevents: advanced topics".
pub fn flush_event(mode: Mode) -> Option<Flags>
    ensures { result ≡ flush_flags mode }
{
    match mode {
        Mode::Finished => Some(Flags(READING + EOF)),
        Mode::Normal | Mode::Flush => None,
    }
}

/// How many bytes `transfer` moves, by the plain values of both halves, whether they are live or not. Takes no memory; constant
/// cost.
///
/// Own.
pub fn count(writer: &BevState, reader: &BevState, mode: Mode) -> usize
    ensures { result ≡ count_of writer.now reader.now mode }
{
    let output = writer.output as usize;
    match mode {
        Mode::Flush | Mode::Finished => output,
        Mode::Normal if !writer.writing || !reader.reading => 0,
        Mode::Normal if reader.read_high == 0 => output,
        Mode::Normal => output.min(reader.read_high.saturating_sub(reader.input) as usize),
    }
}
