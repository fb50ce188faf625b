// A port that tells all that it is asked and answers, over one that may tell nothing.
ghost use Rattle.std.specs.Prelude.{◌≡◌, ◌<◌, true, false, length, [], ◌∷◌};
ghost use Rattle.ev_port.specs.Vouching.{LongerBy, NothingWaits};
ghost use Rattle.ev_port.specs.EndSteps.{EndsWent, AllWent, PortStays, no_step};
ghost use Rattle.ev_port.specs.Faults.{FaultsStay, EndFaults, PollFaults, ListenerFaults};
ghost use Rattle.ev_port.specs.Calls.{Ticked, ClockRead, is_failed_start, StartedAt, is_failed_accept, accept_events, accept_step};
ghost use Rattle.ev_port.specs.Calls.{AcceptedLink};
ghost use Rattle.ev_port.specs.Polling.{is_failed_poll, opens_accepting, AllMarked, poll_events, poll_step, PolledWith};
ghost use Rattle.ev_port.specs.Table.{RowsStay, TablePolled, named};
ghost use Rattle.ev_port.specs.Ends.{is_failed_conn, conn_step, conn_events, ReadWithin, is_failed_read, read_step, read_events};
ghost use Rattle.ev_port.specs.Ends.{WriteWithin, is_failed_write, write_step, write_events, close_write_events, close_events};
ghost use Rattle.ev_port.specs.Ends.{close_write_step, close_step};
ghost use Rattle.told_port.specs.Calls.{told_by, ends_by};

use crate::{Call, CallLog, CallWith, TablePoll};
use ev_port::{Accepted, Polled, Port, Started, Want, WantTable};
use ev_types::{Addr, ConnAnswer, ReadAnswer, SideId, WriteAnswer};

/// A port that hands each call on to another, and tells everything: which bytes its reads gave and its writes took, how often each
/// was made, what was wanted and marked, which links were made, when it was started and with which addresses. Its faults are those of
/// the inner port, and it vouches for what that one vouches for. What it tells exists in proofs alone: it takes no memory beside the
/// inner port's, and a call costs what that port's call costs.
///
/// Own.
#[derive(Drop)]
pub struct TellingPort<P> {
    inner: P,
    log: CallLog,
}

impl<P: Port> TellingPort<P> {
    /// Over this port. It tells that nothing was done yet, whatever was done with the inner port before. Constant cost.
    ///
    /// Own.
    pub fn new(inner: P) -> TellingPort<P>
        ensures inner { result.inner ≡ inner }
        ensures nothing_yet { result.log.calls ≡ [] }
    {
        TellingPort {
            inner,
            log: CallLog::new(),
        }
    }
}

// A call with no slice.
fn plain(call: Call) -> CallWith<'static>
    ensures call { result.call ≡ call }
    ensures bytes { result.bytes.now ≡ [] }
    ensures wants { result.wants.now ≡ [] }
{
    CallWith {
        call,
        bytes: &[],
        wants: &[],
    }
}

/// Each call is the inner port's: what every port says of it, it says of the inner one and of what this one tells.
impl<P: Port> Port for TellingPort<P> {
    ghost Plan = { P.Plan };

    ghost vouches = { λ p. P.vouches p.inner };

    ghost none_waits = { P.none_waits };

    ghost faults = { λ p. P.faults p.inner };

    ghost ends = { λ p. ends_by p.log.calls };

    ghost told = { λ p. told_by p.log.calls };

    ghost stops = { λ old new. P.stops old.inner new.inner };

    fn start(&mut self, listen: Addr, to: Addr) -> Started
        ensures ends_within { AllWent (P.ends self.old.inner) (P.ends self.new.inner) (λ _. no_step) }
        ensures told_within { StartedAt (P.told self.old.inner) (P.told self.new.inner) listen to }
        ensures logged { self.new.log.calls ≡ (Call.Start listen to, [], [], []) ∷ self.old.log.calls }

        // What every port says.
        ensures cause { ListenerFaults (P.faults self.old.inner) (P.faults self.new.inner) (is_failed_start result) }
        ensures ends { AllWent (ends_by self.old.log.calls) (ends_by self.new.log.calls) (λ _. no_step) }
        ensures told { StartedAt (told_by self.old.log.calls) (told_by self.new.log.calls) listen to }
        ensures vouched { LongerBy (P.vouches self.old.inner) (P.vouches self.new.inner) [] }
    {
        let answer = self.inner.start(listen, to);
        self.log = self.log.then(&plain(Call::Start(listen, to)));
        answer
    }

    fn now(&mut self) -> u64
        ensures ends_within { AllWent (P.ends self.old.inner) (P.ends self.new.inner) (λ _. no_step) }
        ensures told_within { ClockRead (P.told self.old.inner) (P.told self.new.inner) result }
        ensures logged { self.new.log.calls ≡ (Call.Now result, [], [], []) ∷ self.old.log.calls }

        // What every port says.
        ensures cause { FaultsStay (P.faults self.old.inner) (P.faults self.new.inner) }
        ensures ends { AllWent (ends_by self.old.log.calls) (ends_by self.new.log.calls) (λ _. no_step) }
        ensures told { ClockRead (told_by self.old.log.calls) (told_by self.new.log.calls) result }
        ensures vouched { Ticked (P.vouches self.old.inner) (P.vouches self.new.inner) result }
    {
        let reading = self.inner.now();
        self.log = self.log.then(&plain(Call::Now(reading)));
        reading
    }

    fn poll(&mut self, wants: &mut [Want], accept: bool, timeout: Option<u64>) -> Polled
        ensures ends_within { AllWent (P.ends self.old.inner) (P.ends self.new.inner) (poll_step wants.new result) }
        ensures told_within { PolledWith (P.told self.old.inner) (P.told self.new.inner) accept timeout result }
        ensures logged { self.new.log.calls ≡ (Call.Poll accept timeout result, [], wants.new, wants.new) ∷ self.old.log.calls }

        // What every port says.
        ensures marked { AllMarked wants.old wants.new }
        ensures asked { opens_accepting result ≡ true → accept ≡ true }
        ensures cause { PollFaults (P.faults self.old.inner) (P.faults self.new.inner) (is_failed_poll result) }
        ensures ends { AllWent (ends_by self.old.log.calls) (ends_by self.new.log.calls) (poll_step wants.new result) }
        ensures told { PolledWith (told_by self.old.log.calls) (told_by self.new.log.calls) accept timeout result }
        ensures vouched { LongerBy (P.vouches self.old.inner) (P.vouches self.new.inner) (poll_events timeout wants.new result) }
        ensures waiting { accept ≡ true → result ≡ Polled.Ready false → NothingWaits (P.vouches self.new.inner) P.none_waits }
    {
        let answer = self.inner.poll(wants, accept, timeout);
        let call = Call::Poll(accept, timeout, answer);
        self.log = self.log.then(&CallWith {
            call,
            bytes: &[],
            wants: &*wants,
        });
        answer
    }

    fn poll_table(&mut self, wants: &mut WantTable, accept: bool, timeout: Option<u64>) -> Polled
        ensures went_within { TablePolled wants.old wants.new timeout result (P.ends self.old.inner) (P.ends self.new.inner)
            (P.vouches self.old.inner) (P.vouches self.new.inner) }
        ensures told_within { PolledWith (P.told self.old.inner) (P.told self.new.inner) accept timeout result }
        ensures logged { self.new.log.calls ≡ (Call.Poll accept timeout result, [], named wants.new, wants.new.list) ∷ self.old.log.calls }

        // What every port says.
        ensures rows { RowsStay wants.old wants.new }
        ensures asked { opens_accepting result ≡ true → accept ≡ true }
        ensures cause { PollFaults (P.faults self.old.inner) (P.faults self.new.inner) (is_failed_poll result) }
        ensures told { PolledWith (told_by self.old.log.calls) (told_by self.new.log.calls) accept timeout result }
        ensures went { TablePolled wants.old wants.new timeout result (ends_by self.old.log.calls) (ends_by self.new.log.calls)
            (P.vouches self.old.inner) (P.vouches self.new.inner) }
        ensures waiting { accept ≡ true → result ≡ Polled.Ready false → NothingWaits (P.vouches self.new.inner) P.none_waits }
    {
        let answer = self.inner.poll_table(wants, accept, timeout);
        let call = Call::Poll(accept, timeout, answer);
        self.log = self.log.then_table(&TablePoll {
            call,
            table: &*wants,
        });
        answer
    }

    fn accept(&mut self, link: u32) -> Accepted
        ensures ends_within { AllWent (P.ends self.old.inner) (P.ends self.new.inner) (accept_step link result) }
        ensures told_within { AcceptedLink (P.told self.old.inner) (P.told self.new.inner) result }
        ensures logged { self.new.log.calls ≡ (Call.Accept link result, [], [], []) ∷ self.old.log.calls }

        // What every port says.
        ensures cause { ListenerFaults (P.faults self.old.inner) (P.faults self.new.inner) (is_failed_accept result) }
        ensures ends { AllWent (ends_by self.old.log.calls) (ends_by self.new.log.calls) (accept_step link result) }
        ensures told { AcceptedLink (told_by self.old.log.calls) (told_by self.new.log.calls) result }
        ensures vouched { LongerBy (P.vouches self.old.inner) (P.vouches self.new.inner) (accept_events link result) }
        ensures waiting { result ≡ Accepted.NotYet → NothingWaits (P.vouches self.new.inner) P.none_waits }
    {
        let answer = self.inner.accept(link);
        self.log = self.log.then(&plain(Call::Accept(link, answer)));
        answer
    }

    fn connect_state(&mut self, end: SideId) -> ConnAnswer
        ensures ends_within { EndsWent (P.ends self.old.inner) (P.ends self.new.inner) end (conn_step result) }
        ensures told_within { PortStays (P.told self.old.inner) (P.told self.new.inner) }
        ensures logged { self.new.log.calls ≡ (Call.ConnectState end result, [], [], []) ∷ self.old.log.calls }

        // What every port says.
        ensures cause { EndFaults (P.faults self.old.inner) (P.faults self.new.inner) end (is_failed_conn result) }
        ensures ends { EndsWent (ends_by self.old.log.calls) (ends_by self.new.log.calls) end (conn_step result) }
        ensures told { PortStays (told_by self.old.log.calls) (told_by self.new.log.calls) }
        ensures vouched { LongerBy (P.vouches self.old.inner) (P.vouches self.new.inner) (conn_events end result) }
    {
        let answer = self.inner.connect_state(end);
        self.log = self.log.then(&plain(Call::ConnectState(end, answer)));
        answer
    }

    fn read(&mut self, end: SideId, into: &mut [u8]) -> ReadAnswer
        requires { 0 < length into.old }
        ensures ends_within { EndsWent (P.ends self.old.inner) (P.ends self.new.inner) end (read_step result into.new) }
        ensures told_within { PortStays (P.told self.old.inner) (P.told self.new.inner) }
        ensures logged { self.new.log.calls ≡ (Call.Read end result, into.new, [], []) ∷ self.old.log.calls }

        // What every port says.
        ensures within { ReadWithin result (length into.new) }
        ensures cause { EndFaults (P.faults self.old.inner) (P.faults self.new.inner) end (is_failed_read result) }
        ensures ends { EndsWent (ends_by self.old.log.calls) (ends_by self.new.log.calls) end (read_step result into.new) }
        ensures told { PortStays (told_by self.old.log.calls) (told_by self.new.log.calls) }
        ensures vouched { LongerBy (P.vouches self.old.inner) (P.vouches self.new.inner) (read_events end into.new result) }
    {
        let answer = self.inner.read(end, into);
        let call = Call::Read(end, answer);
        self.log = self.log.then(&CallWith {
            call,
            bytes: &*into,
            wants: &[],
        });
        answer
    }

    fn write(&mut self, end: SideId, from: &[u8]) -> WriteAnswer
        requires { 0 < length from.now }
        ensures ends_within { EndsWent (P.ends self.old.inner) (P.ends self.new.inner) end (write_step result from.now) }
        ensures told_within { PortStays (P.told self.old.inner) (P.told self.new.inner) }
        ensures logged { self.new.log.calls ≡ (Call.Write end result, from.now, [], []) ∷ self.old.log.calls }

        // What every port says.
        ensures within { WriteWithin result (length from.now) }
        ensures cause { EndFaults (P.faults self.old.inner) (P.faults self.new.inner) end (is_failed_write result) }
        ensures ends { EndsWent (ends_by self.old.log.calls) (ends_by self.new.log.calls) end (write_step result from.now) }
        ensures told { PortStays (told_by self.old.log.calls) (told_by self.new.log.calls) }
        ensures vouched { LongerBy (P.vouches self.old.inner) (P.vouches self.new.inner) (write_events end from.now result) }
    {
        let answer = self.inner.write(end, from);
        let call = Call::Write(end, answer);
        self.log = self.log.then(&CallWith {
            call,
            bytes: from,
            wants: &[],
        });
        answer
    }

    fn close_write(&mut self, end: SideId)
        ensures ends_within { EndsWent (P.ends self.old.inner) (P.ends self.new.inner) end close_write_step }
        ensures told_within { PortStays (P.told self.old.inner) (P.told self.new.inner) }
        ensures logged { self.new.log.calls ≡ (Call.CloseWrite end, [], [], []) ∷ self.old.log.calls }

        // What every port says.
        ensures cause { FaultsStay (P.faults self.old.inner) (P.faults self.new.inner) }
        ensures ends { EndsWent (ends_by self.old.log.calls) (ends_by self.new.log.calls) end close_write_step }
        ensures told { PortStays (told_by self.old.log.calls) (told_by self.new.log.calls) }
        ensures vouched { LongerBy (P.vouches self.old.inner) (P.vouches self.new.inner) (close_write_events end) }
    {
        self.inner.close_write(end);
        self.log = self.log.then(&plain(Call::CloseWrite(end)));
    }

    fn close(&mut self, end: SideId)
        ensures ends_within { EndsWent (P.ends self.old.inner) (P.ends self.new.inner) end close_step }
        ensures told_within { PortStays (P.told self.old.inner) (P.told self.new.inner) }
        ensures logged { self.new.log.calls ≡ (Call.Close end, [], [], []) ∷ self.old.log.calls }

        // What every port says.
        ensures cause { FaultsStay (P.faults self.old.inner) (P.faults self.new.inner) }
        ensures ends { EndsWent (ends_by self.old.log.calls) (ends_by self.new.log.calls) end close_step }
        ensures told { PortStays (told_by self.old.log.calls) (told_by self.new.log.calls) }
        ensures vouched { LongerBy (P.vouches self.old.inner) (P.vouches self.new.inner) (close_events end) }
    {
        self.inner.close(end);
        self.log = self.log.then(&plain(Call::Close(end)));
    }

    fn stop_accepting(&mut self)
        ensures stops { P.stops self.old.inner self.new.inner }
        ensures ends_within { AllWent (P.ends self.old.inner) (P.ends self.new.inner) (λ _. no_step) }
        ensures told_within { PortStays (P.told self.old.inner) (P.told self.new.inner) }
        ensures logged { self.new.log.calls ≡ (Call.StopAccepting, [], [], []) ∷ self.old.log.calls }

        // What every port says.
        ensures cause { FaultsStay (P.faults self.old.inner) (P.faults self.new.inner) }
        ensures ends { AllWent (ends_by self.old.log.calls) (ends_by self.new.log.calls) (λ _. no_step) }
        ensures told { PortStays (told_by self.old.log.calls) (told_by self.new.log.calls) }
        ensures vouched { LongerBy (P.vouches self.old.inner) (P.vouches self.new.inner) [] }
    {
        self.inner.stop_accepting();
        self.log = self.log.then(&plain(Call::StopAccepting));
    }

    ghost waits_no_more = { P.waits_no_more };

    ghost unheard = { λ p. P.unheard p.inner };
}
