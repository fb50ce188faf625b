// A port that fails at one call of one kind, and else answers as the script port that it wraps. It keeps all that it is
// told, the failed call too.
ghost use Rattle.std.specs.Prelude.{◌≡◌, ◌<◌, ◌≤◌, [], ◌∷◌, true, false, length, take, drop, map, if◌then◌else◌};
ghost use Rattle.ev_port.specs.Vouching.{LongerBy, NothingWaits};
ghost use Rattle.ev_port.specs.EndSteps.{EndsWent, AllWent, PortStays, no_step};
ghost use Rattle.ev_port.specs.Faults.{FaultsStay, EndFaults, PollFaults, ListenerFaults};
ghost use Rattle.ev_port.specs.Calls.{Ticked, ClockRead, is_failed_start, StartedAt, is_failed_accept, accept_events, accept_step};
ghost use Rattle.ev_port.specs.Calls.{AcceptedLink};
ghost use Rattle.ev_port.specs.Polling.{is_failed_poll, opens_accepting, AllMarked, poll_events, poll_step, PolledWith};
ghost use Rattle.ev_port.specs.Ends.{is_failed_conn, conn_step, conn_events, ReadWithin, is_failed_read, got_bytes, read_step, read_events};
ghost use Rattle.ev_port.specs.Ends.{WriteWithin, is_failed_write, write_step, write_events, close_write_events, close_events};
ghost use Rattle.ev_port.specs.Ends.{close_write_step, close_step};
ghost use Rattle.script_port.specs.ScriptEnds.{after_read, after_check, after_close_write, after_close};
ghost use Rattle.script_port.specs.FailedCalls.{failed_read, failed_check};
ghost use Rattle.script_port.specs.ScriptLinks.{at_end, unmarked, accept_answer, read_answer_at, pending_at, conn_answer_at};
ghost use Rattle.script_port.specs.ScriptPort.{clock_answer, after_now, after_start, poll_answer, poll_marks, after_poll, failed_poll};
ghost use Rattle.script_port.specs.ScriptPort.{accept_tally, after_accept};
ghost use Rattle.script_port.specs.ScriptTold.{ends_told, port_told};
ghost use Rattle.script_port.specs.ScriptVouched.{NoneWaits};
ghost use Rattle.script_port.specs.FailPort.{same_call, is_failing, after_call, passed, failed_at, WroteOrFailed, fail_faults};
ghost use Rattle.script_port.specs.FailPort.{vouches_nothing};

use crate::ScriptPort;
use ev_port::{Accepted, Polled, Port, Started, Want};
use ev_types::{Addr, ConnAnswer, ReadAnswer, SideId, WriteAnswer};

/// The calls of a port that may fail once it is started.
///
/// Own.
#[derive(Clone, Copy, Debug, PartialEq, Eq)]
pub enum PortCall {
    Poll,
    Accept,
    ConnectState,
    Read,
    Write,
}

impl PortCall {
    fn is(self, call: PortCall) -> bool
        ensures { result ≡ same_call self call }
    {
        matches!(
            (self, call),
            (PortCall::Poll, PortCall::Poll)
                | (PortCall::Accept, PortCall::Accept)
                | (PortCall::ConnectState, PortCall::ConnectState)
                | (PortCall::Read, PortCall::Read)
                | (PortCall::Write, PortCall::Write)
        )
    }
}

/// So many calls are left up to the one that fails, that one too, or none ever fails where that is 0. Or the call
/// failed, there.
///
/// Own.
#[derive(Clone, Copy)]
pub(crate) enum FailPlan {
    Left(u64),
    AtPoll,
    AtAccept,
    AtEnd(SideId),
}

/// A port that fails at one call of one kind, and else answers as the script port that it wraps.
///
/// Own.
#[derive(Drop)]
pub struct FailPort {
    inner: ScriptPort,
    kind: PortCall,
    plan: FailPlan,
}

impl FailPort {
    /// The k-th call of this kind, counted from 1 and from here on, is answered `Failed` without asking the inner port,
    /// so that nothing of what that would answer is lost. Where k is 0 no call fails. Takes no memory; constant cost.
    pub fn new(inner: ScriptPort, kind: PortCall, k: u64) -> FailPort
        ensures { result ≡ record { inner = inner; kind = kind; plan = FailPlan.Left k } }
    {
        FailPort {
            inner,
            kind,
            plan: FailPlan::Left(k),
        }
    }

    fn is_failing(&self, call: PortCall) -> bool
        ensures { result ≡ is_failing self.now call }
    {
        self.kind.is(call) && matches!(self.plan, FailPlan::Left(1))
    }

    fn count(&mut self, call: PortCall)
        ensures { self.new ≡ after_call self.old call }
    {
        if self.kind.is(call) {
            if let FailPlan::Left(calls) = self.plan {
                self.plan = FailPlan::Left(calls.saturating_sub(1));
            }
        }
    }
}

/// It tells everything of itself and of the ends of the script's links, and nothing of other ends. It vouches for no
/// trace.
impl Port for FailPort {
    ghost use Rattle.script_port.specs.ScriptPlan.{ScriptPlan};
    ghost use Rattle.script_port.specs.PortLaws.{waits_no_more};

    ghost Plan = { ScriptPlan };

    ghost vouches = { vouches_nothing };

    ghost none_waits = { NoneWaits };

    ghost faults = { fail_faults };

    ghost ends = { λ p. ends_told p.inner.links };

    ghost told = { λ p. port_told p.inner };

    fn start(&mut self, listen: Addr, to: Addr) -> Started
        ensures answer { result ≡ Started.Started }
        ensures after { self.new ≡ record self.old { inner = after_start self.old.inner listen to } }

        // What every port says.
        ensures cause { ListenerFaults (fail_faults self.old) (fail_faults self.new) (is_failed_start result) }
        ensures ends { AllWent (ends_told self.old.inner.links) (ends_told self.new.inner.links) (λ _. no_step) }
        ensures told { StartedAt (port_told self.old.inner) (port_told self.new.inner) listen to }
        ensures vouched { LongerBy (vouches_nothing self.old) (vouches_nothing self.new) [] }
    {
        self.inner.start(listen, to)
    }

    fn now(&mut self) -> u64
        ensures answer { result ≡ clock_answer self.old.inner }
        ensures after { self.new ≡ record self.old { inner = after_now self.old.inner } }

        // What every port says.
        ensures cause { FaultsStay (fail_faults self.old) (fail_faults self.new) }
        ensures ends { AllWent (ends_told self.old.inner.links) (ends_told self.new.inner.links) (λ _. no_step) }
        ensures told { ClockRead (port_told self.old.inner) (port_told self.new.inner) result }
        ensures vouched { Ticked (vouches_nothing self.old) (vouches_nothing self.new) result }
    {
        self.inner.now()
    }

    fn poll(&mut self, wants: &mut [Want], accept: bool, timeout: Option<u64>) -> Polled
        ensures answer { result ≡ (if is_failing self.old PortCall.Poll then Polled.Failed else poll_answer self.old.inner accept) }
        ensures marks { wants.new ≡ (if is_failing self.old PortCall.Poll then map unmarked wants.old else poll_marks self.old.inner.links wants.old) }
        ensures after { self.new ≡ (if is_failing self.old PortCall.Poll then record self.old { inner = failed_poll self.old.inner wants.new accept timeout; plan = FailPlan.AtPoll } else passed self.old PortCall.Poll (after_poll self.old.inner wants.new accept timeout (poll_answer self.old.inner accept))) }

        // What every port says.
        ensures marked { AllMarked wants.old wants.new }
        ensures asked { opens_accepting result ≡ true → accept ≡ true }
        ensures cause { PollFaults (fail_faults self.old) (fail_faults self.new) (is_failed_poll result) }
        ensures ends { AllWent (ends_told self.old.inner.links) (ends_told self.new.inner.links) (poll_step wants.new result) }
        ensures told { PolledWith (port_told self.old.inner) (port_told self.new.inner) accept timeout result }
        ensures vouched { LongerBy (vouches_nothing self.old) (vouches_nothing self.new) (poll_events timeout wants.new result) }
        ensures waiting { accept ≡ true → result ≡ Polled.Ready false → NothingWaits (vouches_nothing self.new) NoneWaits }
    {
        if self.is_failing(PortCall::Poll) {
            self.plan = FailPlan::AtPoll;
            self.inner.fail_poll(wants, accept, timeout);
            return Polled::Failed;
        }
        self.count(PortCall::Poll);
        self.inner.poll(wants, accept, timeout)
    }

    fn accept(&mut self, link: u32) -> Accepted
        ensures answer { result ≡ (if is_failing self.old PortCall.Accept then Accepted.Failed else accept_answer self.old.inner.links.waiting) }
        ensures after { self.new ≡ (if is_failing self.old PortCall.Accept then record self.old { inner = record self.old.inner { tally = accept_tally Accepted.Failed self.old.inner.tally }; plan = FailPlan.AtAccept } else passed self.old PortCall.Accept (after_accept self.old.inner link)) }

        // What every port says.
        ensures cause { ListenerFaults (fail_faults self.old) (fail_faults self.new) (is_failed_accept result) }
        ensures ends { AllWent (ends_told self.old.inner.links) (ends_told self.new.inner.links) (accept_step link result) }
        ensures told { AcceptedLink (port_told self.old.inner) (port_told self.new.inner) result }
        ensures vouched { LongerBy (vouches_nothing self.old) (vouches_nothing self.new) (accept_events link result) }
        ensures waiting { result ≡ Accepted.NotYet → NothingWaits (vouches_nothing self.new) NoneWaits }
    {
        if self.is_failing(PortCall::Accept) {
            self.plan = FailPlan::AtAccept;
            self.inner.fail_accept();
            return Accepted::Failed;
        }
        self.count(PortCall::Accept);
        self.inner.accept(link)
    }

    fn connect_state(&mut self, end: SideId) -> ConnAnswer
        ensures answer { result ≡ (if is_failing self.old PortCall.ConnectState then ConnAnswer.Failed else conn_answer_at self.old.inner.links end) }
        ensures after { self.new ≡ (if is_failing self.old PortCall.ConnectState then failed_at self.old end failed_check else passed self.old PortCall.ConnectState (record self.old.inner { links = at_end end after_check self.old.inner.links })) }

        // What every port says.
        ensures cause { EndFaults (fail_faults self.old) (fail_faults self.new) end (is_failed_conn result) }
        ensures ends { EndsWent (ends_told self.old.inner.links) (ends_told self.new.inner.links) end (conn_step result) }
        ensures told { PortStays (port_told self.old.inner) (port_told self.new.inner) }
        ensures vouched { LongerBy (vouches_nothing self.old) (vouches_nothing self.new) (conn_events end result) }
    {
        if self.is_failing(PortCall::ConnectState) {
            self.plan = FailPlan::AtEnd(end);
            self.inner.fail_check(end);
            return ConnAnswer::Failed;
        }
        self.count(PortCall::ConnectState);
        self.inner.connect_state(end)
    }

    fn read(&mut self, end: SideId, into: &mut [u8]) -> ReadAnswer
        requires { 0 < length into.old }
        ensures answer { result ≡ (if is_failing self.old PortCall.Read then ReadAnswer.Failed else read_answer_at self.old.inner.links end (length into.old)) }
        ensures bytes { got_bytes result into.new ≡ (if is_failing self.old PortCall.Read then [] else take (length into.old) (pending_at self.old.inner.links end)) }
        ensures rest { drop (length (got_bytes result into.new)) into.new ≡ drop (length (got_bytes result into.new)) into.old }
        ensures after { self.new ≡ (if is_failing self.old PortCall.Read then failed_at self.old end (failed_read (length into.old)) else passed self.old PortCall.Read (record self.old.inner { links = at_end end (λ s. after_read s (length into.old)) self.old.inner.links })) }

        // What every port says.
        ensures within { ReadWithin result (length into.new) }
        ensures cause { EndFaults (fail_faults self.old) (fail_faults self.new) end (is_failed_read result) }
        ensures ends { EndsWent (ends_told self.old.inner.links) (ends_told self.new.inner.links) end (read_step result into.new) }
        ensures told { PortStays (port_told self.old.inner) (port_told self.new.inner) }
        ensures vouched { LongerBy (vouches_nothing self.old) (vouches_nothing self.new) (read_events end into.new result) }
    {
        if self.is_failing(PortCall::Read) {
            self.plan = FailPlan::AtEnd(end);
            self.inner.fail_read(end, into.len());
            return ReadAnswer::Failed;
        }
        self.count(PortCall::Read);
        self.inner.read(end, into)
    }

    fn write(&mut self, end: SideId, from: &[u8]) -> WriteAnswer
        requires { 0 < length from.now }
        ensures wrote { WroteOrFailed (is_failing self.old PortCall.Write) self.old self.new end from.now result }

        // What every port says.
        ensures within { WriteWithin result (length from.now) }
        ensures cause { EndFaults (fail_faults self.old) (fail_faults self.new) end (is_failed_write result) }
        ensures ends { EndsWent (ends_told self.old.inner.links) (ends_told self.new.inner.links) end (write_step result from.now) }
        ensures told { PortStays (port_told self.old.inner) (port_told self.new.inner) }
        ensures vouched { LongerBy (vouches_nothing self.old) (vouches_nothing self.new) (write_events end from.now result) }
    {
        if self.is_failing(PortCall::Write) {
            self.plan = FailPlan::AtEnd(end);
            self.inner.fail_write(end, from.len());
            return WriteAnswer::Failed;
        }
        self.count(PortCall::Write);
        self.inner.write(end, from)
    }

    fn close_write(&mut self, end: SideId)
        ensures after { self.new ≡ record self.old { inner = record self.old.inner { links = at_end end after_close_write self.old.inner.links } } }

        // What every port says.
        ensures cause { FaultsStay (fail_faults self.old) (fail_faults self.new) }
        ensures ends { EndsWent (ends_told self.old.inner.links) (ends_told self.new.inner.links) end close_write_step }
        ensures told { PortStays (port_told self.old.inner) (port_told self.new.inner) }
        ensures vouched { LongerBy (vouches_nothing self.old) (vouches_nothing self.new) (close_write_events end) }
    {
        self.inner.close_write(end);
    }

    fn close(&mut self, end: SideId)
        ensures after { self.new ≡ record self.old { inner = record self.old.inner { links = at_end end after_close self.old.inner.links } } }

        // What every port says.
        ensures cause { FaultsStay (fail_faults self.old) (fail_faults self.new) }
        ensures ends { EndsWent (ends_told self.old.inner.links) (ends_told self.new.inner.links) end close_step }
        ensures told { PortStays (port_told self.old.inner) (port_told self.new.inner) }
        ensures vouched { LongerBy (vouches_nothing self.old) (vouches_nothing self.new) (close_events end) }
    {
        self.inner.close(end);
    }

    fn stop_accepting(&mut self)
        ensures after { self.new ≡ self.old }

        // What every port says.
        ensures cause { FaultsStay (fail_faults self.old) (fail_faults self.new) }
        ensures ends { AllWent (ends_told self.old.inner.links) (ends_told self.new.inner.links) (λ _. no_step) }
        ensures told { PortStays (port_told self.old.inner) (port_told self.new.inner) }
        ensures vouched { LongerBy (vouches_nothing self.old) (vouches_nothing self.new) [] }
    {}

    ghost waits_no_more = { waits_no_more };

    ghost unheard = { λ p e unheard turns t h. h };
}
