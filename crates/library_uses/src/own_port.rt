// The relay over a port of one's own: a call that waits, says hello and ends, and the other end that hears it.
ghost use Rattle.std.specs.Prelude.{◌≡◌, ◌<◌, ⊤, false, map, length};
ghost use Rattle.ev_port.specs.Ends.{ReadWithin, is_failed_read};
ghost use Rattle.ev_port.specs.Silent.{silent_port, silent_end};
ghost use Rattle.library_uses.specs.OwnPort.{marked, no_fault};
ghost use Rattle.library_uses.specs.Turning.{MayTurn};

use ev_port::{
    Accepted, Addr, ConnAnswer, Mute, Polled, Port, ReadAnswer, Started, Want, WriteAnswer,
};
use ev_types::{Side, SideId};
use relay_core::Settings;
use relay_drive::{Drive, RateGroups, Seats};
use std::alloc::Global;
use std::io::Print;

/// One call: whether it waits, what its In end has still to say, how many bytes its Out end heard and whether it heard the end.
#[derive(Drop)]
struct OneCall {
    waits: bool,
    left: &'static [u8],
    heard: usize,
    ended: bool,
    turns: u64,
}

/// It promises what every port does. Of itself it tells nothing, so that it has no more to prove.
impl Port for OneCall {
    ghost Plan = { ⊤ };

    ghost vouches = { λ _ _ _. ⊤ };

    ghost none_waits = { λ _ _. ⊤ };

    ghost faults = { λ _. no_fault };

    ghost ends = { λ _. silent_end };

    ghost told = { λ _. silent_port };

    fn start(&mut self, _listen: Addr, _to: Addr) -> Started {
        Started::Started
    }

    fn now(&mut self) -> u64 {
        self.turns = self.turns.saturating_add(1);
        self.turns
    }

    fn poll(&mut self, wants: &mut [Want], accept: bool, _timeout: Option<u64>) -> Polled {
        mark_all(wants);
        Polled::Ready {
            accept: accept && self.waits,
        }
    }

    fn accept(&mut self, _link: u32) -> Accepted {
        if !self.waits {
            return Accepted::NotYet;
        }
        self.waits = false;
        Accepted::Link { connected: true }
    }

    fn connect_state(&mut self, _end: SideId) -> ConnAnswer {
        ConnAnswer::Connected
    }

    fn read(&mut self, end: SideId, into: &mut [u8]) -> ReadAnswer {
        match end.side {
            Side::In => self.say(into),
            Side::Out if self.ended => ReadAnswer::Ended,
            Side::Out => ReadAnswer::NotYet,
        }
    }

    fn write(&mut self, _end: SideId, from: &[u8]) -> WriteAnswer {
        self.heard = self.heard.saturating_add(from.len());
        WriteAnswer::Took(from.len())
    }

    fn close_write(&mut self, _end: SideId) {
        self.ended = true;
    }

    fn close(&mut self, _end: SideId) {}

    fn stop_accepting(&mut self) {}

    ghost waits_no_more = { λ plan t u quiet waits. waits };

    ghost unheard = { λ p e unheard plan t vouched. vouched };
}

impl OneCall {
    fn say(&mut self, into: &mut [u8]) -> ReadAnswer
        requires { 0 < length into.old }
        ensures within { ReadWithin result (length into.new) }
        ensures well { is_failed_read result ≡ false }
    {
        let said = self.left.len().min(into.len());
        if said == 0 {
            return ReadAnswer::Ended;
        }
        let (first, rest) = self.left.split_at(said);
        into.split_at_mut(said).0.copy_from_slice(first);
        self.left = rest;
        ReadAnswer::Got(said)
    }
}

// All that is wanted can be done.
fn mark_all(wants: &mut [Want])
    ensures { wants.new ≡ map marked wants.old }
{
    for want in wants.iter_mut() {
        *want = marked(*want);
    }
}

fn marked(want: Want) -> Want
    ensures { result ≡ marked want }
{
    Want {
        can_read: want.read,
        can_write: want.write,
        ..want
    }
}

/// Four turns of the relay over it.
pub fn one_call(rt: &impl Print, alloc: Global) -> anyhow::Result<()> {
    let mut port = OneCall {
        waits: true,
        left: b"hello",
        heard: 0,
        ended: false,
        turns: 0,
    };
    let mut seats = Seats::new(alloc, Vec::new(alloc))?;
    let groups = RateGroups::none(alloc);
    let mut drive = Drive::new(alloc, Settings::usual(), groups, &seats)?;
    let answer = four_turns(rt, &mut drive, &mut seats, &mut port);
    drop(drive);
    drop(seats);
    answer
}

// The drive is lent, so that it is let go at one place.
fn four_turns(
    rt: &impl Print,
    drive: &mut Drive,
    seats: &mut Seats,
    port: &mut OneCall,
) -> anyhow::Result<()>
    requires { MayTurn drive.old seats.old.hooks.items seats.old.gone.items }
{
    for turn in 1..5u32 {
        drive.turn(seats, port, &mut Mute::new())?;
        println!(rt;
            "turn {turn}: {} open, {} bytes wait, {} were heard",
            drive.open_links(),
            drive.buffered(),
            port.heard
        )?;
    }
    Ok(())
}
