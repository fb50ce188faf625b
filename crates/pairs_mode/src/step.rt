// What a line asks of a half, done on it and the other one.
ghost use Rattle.std.specs.Prelude.{◌≡◌, ◌≤◌, ◌^◌, OnOk, IfOk, None, Some};
ghost use Rattle.pairs_mode.specs.Grammar.{IsAskWithin};
ghost use Rattle.pairs_mode.specs.Pair.{shown, asked, moved, flushed, refusal_of, partner_refusal, raises_end};

use crate::answer::Refusal;
use crate::line::PairAsk;
use bev_core::Bev;
use bev_pair::{PairFault, transfer};
use ev_types::{Dir, Mode, NoMemory};

/// Why a line is refused, if it is.
pub(crate) fn refusal_of(ask: &PairAsk, half: &Bev, other: &Bev) -> Option<Refusal>
    ensures { result ≡ refusal_of ask.now (shown half.now) (shown other.now) }
{
    if !half.state().live {
        return Some(Refusal::NotLive);
    }
    match ask {
        PairAsk::Flush(Mode::Flush | Mode::Finished) if !other.state().live => Some(
            Refusal::NoPartner,
        ),
        _ => None,
    }
}

/// Whether a line raises end of file at the other half.
pub(crate) fn raises_end(ask: &PairAsk) -> bool
    ensures { result ≡ raises_end ask.now }
{
    matches!(ask, PairAsk::Flush(Mode::Finished))
}

/// Does what a line asks that isn't refused.
pub(crate) fn take_step(half: &mut Bev, other: &mut Bev, ask: &PairAsk) -> Result<(), NoMemory>
    requires within { IsAskWithin ask.now }
    requires open { refusal_of ask.now (shown half.old) (shown other.old) ≡ None }
    ensures half { OnOk result (shown half.new ≡ (asked ask.now (shown half.old) (shown other.old)).0) }
    ensures other { OnOk result (shown other.new ≡ (asked ask.now (shown half.old) (shown other.old)).1) }
{
    match ask {
        PairAsk::Write(list) => half.write(&list.bytes).map_err(|_| NoMemory),
        PairAsk::Drain(n) => {
            half.drain(Dir::Read, *n);
            Ok(())
        }
        PairAsk::Enable(dir) => half.enable(*dir).map_err(|_| NoMemory),
        PairAsk::Disable(dir) => half.disable(*dir).map_err(|_| NoMemory),
        PairAsk::High(mark) => half
            .set_watermark(Dir::Read, 0, *mark)
            .map_err(|_| NoMemory),
        PairAsk::Flush(mode) => flush(half, other, *mode),
        PairAsk::Free => half.free().map_err(|_| NoMemory),
    }
}

fn flush(half: &mut Bev, other: &mut Bev, mode: Mode) -> Result<(), NoMemory>
    ensures half { OnOk result (shown half.new ≡ (flushed mode (shown half.old) (shown other.old)).0) }
    ensures other { OnOk result (shown other.new ≡ (flushed mode (shown half.old) (shown other.old)).1) }
{
    match mode {
        Mode::Normal => Ok(()),
        Mode::Flush | Mode::Finished => match transfer(half, other, mode) {
            Ok(_) => Ok(()),
            Err(_) => Err(NoMemory),
        },
    }
}

/// Moves the bytes that go of themselves from one half to the other.
pub(crate) fn settle(half: &mut Bev, other: &mut Bev) -> Result<(), NoMemory>
    ensures half { OnOk result (shown half.new ≡ (moved (shown half.old) (shown other.old)).0) }
    ensures other { OnOk result (shown other.new ≡ (moved (shown half.old) (shown other.old)).1) }
{
    match transfer(half, other, Mode::Normal) {
        Ok(_) | Err(PairFault::NoPartner) => Ok(()),
        Err(_) => Err(NoMemory),
    }
}
