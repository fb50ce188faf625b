// The port: it reaches the connections. An end is the outside connection of a side.
ghost use Rattle.std.specs.Prelude.{◌≡◌, ◌<◌, ◌++◌, length, [], ◌∷◌, true, false, ⊤};
ghost use Rattle.ev_types.specs.Trace.{Trace};
ghost use Rattle.ev_port.specs.Vouching.{LongerBy, NothingWaits, TellsNoLinks};
ghost use Rattle.ev_types.specs.declared.side.SideId.{SideId};
ghost use Rattle.ev_types.specs.Told.{EndTold, PortTold};
ghost use Rattle.ev_port.specs.Faults.{Faults, FaultsStay, EndFaults, PollFaults, ListenerFaults};
ghost use Rattle.ev_port.specs.EndSteps.{EndsWent, AllWent, PortStays, no_step};
ghost use Rattle.ev_port.specs.Calls.{Ticked, ClockRead, is_failed_start, StartedAt, is_failed_accept, accept_events, accept_step};
ghost use Rattle.ev_port.specs.Calls.{AcceptedLink, IsUnheard};
ghost use Rattle.ev_port.specs.Polling.{is_failed_poll, opens_accepting, AllMarked, poll_events, poll_step, PolledWith};
ghost use Rattle.ev_port.specs.Table.{RowsStay, TablePolled};
ghost use Rattle.ev_port.specs.Ends.{is_failed_conn, conn_step, conn_events, ReadWithin, is_failed_read, read_step, read_events};
ghost use Rattle.ev_port.specs.Ends.{WriteWithin, is_failed_write, write_step, write_events, close_write_events, close_events};
ghost use Rattle.ev_port.specs.Ends.{close_write_step, close_step};

use crate::WantTable;
use ev_types::{Addr, ConnAnswer, ReadAnswer, SideId, WriteAnswer};

/// What came of starting a port.
///
/// Own.
#[derive(Clone, Copy, Debug, PartialEq, Eq)]
pub enum Started {
    Started,
    Failed,
    NoMemory,
}

/// What came of a poll; `accept` tells whether a link waits to be accepted.
///
/// Own.
#[derive(Clone, Copy, Debug, PartialEq, Eq)]
pub enum Polled {
    Ready { accept: bool },
    Failed,
}

/// What came of an accept; `connected` tells whether the Out end is connected already.
///
/// Own.
#[derive(Clone, Copy, Debug, PartialEq, Eq)]
pub enum Accepted {
    Link { connected: bool },
    NotYet,
    Failed,
    NoMemory,
}

/// What a side wants of a poll, and what the poll marked of that.
///
/// Own.
#[derive(Clone, Copy, Debug, PartialEq, Eq)]
pub struct Want {
    pub side: SideId,
    pub read: bool,
    pub write: bool,
    pub can_read: bool,
    pub can_write: bool,
}

/// The outside connections of all links.
///
/// Own.
pub trait Port {
    ghost use Rattle.ev_types.specs.declared.entry.Entry.{Entry};

    /// By what it answers, as the turns of a script. Of a plan a caller knows nothing but what is said below. A port that
    /// answers by none says the same of all.
    ghost Plan: { Type 0 };

    /// The traces of which this port can say: I answer by this plan, each answer in it is mine, and I stand where it
    /// ends.
    ghost vouches: { Self → Self.Plan → Trace → Type 0 };

    /// By this plan no link waits to be accepted behind this trace.
    ghost none_waits: { Self.Plan → Trace → Type 0 };

    /// How often each kind of fault was met, up to the end of a u64.
    ghost faults: { Self → Faults };

    /// What it tells of each end.
    ghost ends: { Self → SideId → EndTold };

    /// What it tells of itself.
    ghost told: { Self → PortTold };

    /// What `stop_accepting` does, by the port before it and after it. A caller that knows no more of the port has it from that call
    /// alone.
    ghost stops: { Self → Self → Type 0 } = { λ _ _. ⊤ };

    /// Listens at one address, and makes connections to the other.
    fn start(&mut self, listen: Addr, to: Addr) -> Started
        ensures cause { ListenerFaults (faults self.old) (faults self.new) (is_failed_start result) }
        ensures ends { AllWent (ends self.old) (ends self.new) (λ _. no_step) }
        ensures told { StartedAt (told self.old) (told self.new) listen to }
        ensures vouched { LongerBy (vouches self.old) (vouches self.new) [] };

    /// A reading of the clock, in milliseconds. Any number may come.
    fn now(&mut self) -> u64
        ensures cause { FaultsStay (faults self.old) (faults self.new) }
        ensures ends { AllWent (ends self.old) (ends self.new) (λ _. no_step) }
        ensures told { ClockRead (told self.old) (told self.new) result }
        ensures vouched { Ticked (vouches self.old) (vouches self.new) result };

    /// Waits until something that is wanted can be done, at most so many milliseconds, and marks what can.
    fn poll(&mut self, wants: &mut [Want], accept: bool, timeout: Option<u64>) -> Polled
        ensures marked { AllMarked wants.old wants.new }
        ensures asked { opens_accepting result ≡ true → accept ≡ true }
        ensures cause { PollFaults (faults self.old) (faults self.new) (is_failed_poll result) }
        ensures ends { AllWent (ends self.old) (ends self.new) (poll_step wants.new result) }
        ensures told { PolledWith (told self.old) (told self.new) accept timeout result }
        ensures vouched { LongerBy (vouches self.old) (vouches self.new) (poll_events timeout wants.new result) }

        // Where it was asked for links and is ready for none, no link waits.
        ensures waiting { accept ≡ true → result ≡ Polled.Ready false → NothingWaits (vouches self.new) none_waits };

    /// Polls for all wants of a table, which lists those that were marked. This body lists all wants, polls for them and keeps
    /// the marked ones; a port that keeps which ends are ready can do it without a look at each want. Takes no memory but
    /// what the port's poll takes.
    fn poll_table(&mut self, wants: &mut WantTable, accept: bool, timeout: Option<u64>) -> Polled
        ensures rows { RowsStay wants.old wants.new }
        ensures asked { opens_accepting result ≡ true → accept ≡ true }
        ensures cause { PollFaults (faults self.old) (faults self.new) (is_failed_poll result) }
        ensures told { PolledWith (told self.old) (told self.new) accept timeout result }

        // What was marked, listed, counted and vouched for.
        ensures went { TablePolled wants.old wants.new timeout result (ends self.old) (ends self.new)
            (vouches self.old) (vouches self.new) }

        // Where it was asked for links and is ready for none, no link waits.
        ensures waiting { accept ≡ true → result ≡ Polled.Ready false → NothingWaits (vouches self.new) none_waits }
    {
        wants.name_all();
        let polled = self.poll(&mut wants.list, accept, timeout);
        wants.keep_marked();
        polled
    }

    /// Takes a waiting connection as the In end of this link, and makes its Out end.
    fn accept(&mut self, link: u32) -> Accepted
        ensures cause { ListenerFaults (faults self.old) (faults self.new) (is_failed_accept result) }
        ensures ends { AllWent (ends self.old) (ends self.new) (accept_step link result) }
        ensures told { AcceptedLink (told self.old) (told self.new) result }
        ensures vouched { LongerBy (vouches self.old) (vouches self.new) (accept_events link result) }

        // Where it found none, no link waits.
        ensures waiting { result ≡ Accepted.NotYet → NothingWaits (vouches self.new) none_waits };

    /// Whether an end that was not connected is connected by now.
    fn connect_state(&mut self, end: SideId) -> ConnAnswer
        ensures cause { EndFaults (faults self.old) (faults self.new) end (is_failed_conn result) }
        ensures ends { EndsWent (ends self.old) (ends self.new) end (conn_step result) }
        ensures told { PortStays (told self.old) (told self.new) }
        ensures vouched { LongerBy (vouches self.old) (vouches self.new) (conn_events end result) };

    /// Puts the next bytes of the end in front of `into`, at most as many as it has room for.
    fn read(&mut self, end: SideId, into: &mut [u8]) -> ReadAnswer
        requires { 0 < length into.old }
        ensures within { ReadWithin result (length into.new) }
        ensures cause { EndFaults (faults self.old) (faults self.new) end (is_failed_read result) }
        ensures ends { EndsWent (ends self.old) (ends self.new) end (read_step result into.new) }
        ensures told { PortStays (told self.old) (told self.new) }
        ensures vouched { LongerBy (vouches self.old) (vouches self.new) (read_events end into.new result) };

    /// Takes the first bytes of `from` for the end, at most all of them.
    fn write(&mut self, end: SideId, from: &[u8]) -> WriteAnswer
        requires { 0 < length from.now }
        ensures within { WriteWithin result (length from.now) }
        ensures cause { EndFaults (faults self.old) (faults self.new) end (is_failed_write result) }
        ensures ends { EndsWent (ends self.old) (ends self.new) end (write_step result from.now) }
        ensures told { PortStays (told self.old) (told self.new) }
        ensures vouched { LongerBy (vouches self.old) (vouches self.new) (write_events end from.now result) };

    /// Ends writing at the end.
    fn close_write(&mut self, end: SideId)
        ensures cause { FaultsStay (faults self.old) (faults self.new) }
        ensures ends { EndsWent (ends self.old) (ends self.new) end close_write_step }
        ensures told { PortStays (told self.old) (told self.new) }
        ensures vouched { LongerBy (vouches self.old) (vouches self.new) (close_write_events end) };

    /// Closes the end.
    fn close(&mut self, end: SideId)
        ensures cause { FaultsStay (faults self.old) (faults self.new) }
        ensures ends { EndsWent (ends self.old) (ends self.new) end close_step }
        ensures told { PortStays (told self.old) (told self.new) }
        ensures vouched { LongerBy (vouches self.old) (vouches self.new) (close_events end) };

    /// Says that no more links will be asked for, so that the port may stop listening.
    fn stop_accepting(&mut self)
        ensures stops { stops self.old self.new }
        ensures cause { FaultsStay (faults self.old) (faults self.new) }
        ensures ends { AllWent (ends self.old) (ends self.new) (λ _. no_step) }
        ensures told { PortStays (told self.old) (told self.new) }
        ensures vouched { LongerBy (vouches self.old) (vouches self.new) [] };

    /// Where no link waits, none does until a turn begins or a link is opened.
    ghost waits_no_more: { (plan : Self.Plan) (t u : Trace) → TellsNoLinks u → none_waits plan t → none_waits plan (t ++ u) };

    /// What no port answers changes nothing of what a port vouches for.
    ghost unheard: { (p : Self) (e : Entry) → IsUnheard e → LongerBy (vouches p) (vouches p) ((e, []) ∷ []) };
}
