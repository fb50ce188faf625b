// A port that answers by a script. Each reading of the clock begins the script's next turn and applies its lines; every
// other call is answered from what the lines so far left. It waits for nothing, fails where the script says so, and keeps
// all that it is told and all that it took.
ghost use Rattle.std.specs.Prelude.{◌≡◌, ℕ, ◌<◌, ◌≤◌, [], true, false, length, take, drop, map, filter, IfOk};
ghost use Rattle.ev_port.specs.Vouching.{LongerBy, NothingWaits};
ghost use Rattle.ev_port.specs.EndSteps.{EndsWent, AllWent, PortStays, no_step};
ghost use Rattle.ev_port.specs.Faults.{FaultsStay, EndFaults, PollFaults, ListenerFaults};
ghost use Rattle.ev_port.specs.Calls.{Ticked, ClockRead, is_failed_start, StartedAt, is_failed_accept, accept_events, accept_step};
ghost use Rattle.ev_port.specs.Calls.{AcceptedLink};
ghost use Rattle.ev_port.specs.Polling.{is_failed_poll, opens_accepting, AllMarked, poll_events, poll_step, PolledWith};
ghost use Rattle.ev_port.specs.Table.{RowsStay, TablePolled, is_marked, named};
ghost use Rattle.ev_port.specs.Ends.{is_failed_conn, conn_step, conn_events, ReadWithin, is_failed_read, got_bytes, read_step, read_events};
ghost use Rattle.ev_port.specs.Ends.{WriteWithin, is_failed_write, write_step, write_events, close_write_events, close_events};
ghost use Rattle.ev_port.specs.Ends.{close_write_step, close_step};
ghost use Rattle.script_port.specs.ScriptEnds.{after_read, after_check, after_close_write, after_close};
ghost use Rattle.script_port.specs.FailedCalls.{failed_read, failed_write, failed_check};
ghost use Rattle.script_port.specs.ScriptLinks.{at_end, unmarked, accept_answer, read_answer_at, pending_at, WroteAt, conn_answer_at};
ghost use Rattle.script_port.specs.ScriptPort.{new_port, next_turn, begin_behind, begin_turn, clock_answer, after_now, after_start};
ghost use Rattle.script_port.specs.ScriptPort.{poll_answer, poll_marks, after_poll, failed_poll, accept_tally, after_accept};
ghost use Rattle.script_port.specs.ScriptTold.{ends_told, port_told, script_faults};
ghost use Rattle.script_port.specs.ScriptVouched.{NoneWaits, ScriptVouches, VouchesOn};
ghost use Rattle.script_port.specs.ScriptPlan.{first_plan};
ghost use Rattle.script_port.specs.ScriptClosing.{MayClose, is_announced, announced, unread};

use crate::port_tally::PortTally;
use crate::script_links::{ScriptLinks, unmark};
use crate::script_turns::ScriptTurns;
use ev_port::{Accepted, Polled, Port, Started, Want, WantTable};
use ev_types::{Addr, ConnAnswer, NoMemory, ReadAnswer, SideId, WriteAnswer};
use script_text::Script;
use std::alloc::Global;
use std::marker::Model;

/// A port that answers by a script. Each reading of the clock begins its next turn, in milliseconds as the script has
/// them, and after the last turn gives that turn's again, or begins the closing turn that was announced by `closing`. Calls
/// fail where its lines say so, and an accept never does. A call on an end of no link of the script changes nothing; in
/// closing turns such an end takes every write, as all do, and the bytes are kept nowhere. Only `write` takes memory.
///
/// Own.
#[derive(Drop)]
pub struct ScriptPort {
    turns: ScriptTurns,
    begun: usize,
    clock: u64,
    closing: usize,
    step: u64,
    links: ScriptLinks,
    tally: PortTally,
}

impl Model for ScriptPort {
    ghost use Rattle.script_port.specs.ScriptState.{PortState};

    ghost Value = { PortState };

    ghost use Rattle.script_port.specs.ScriptPortView.{port_state, IsPort};

    ghost view = { port_state };

    ghost invariant = { IsPort };
}

impl ScriptPort {
    /// A port at the beginning of the script. The bytes of each line are copied to the end that it names before the line
    /// goes, so that no line takes memory when its turn begins and no byte is kept twice. Linear in the script.
    pub fn new(alloc: Global, script: Script) -> Result<ScriptPort, NoMemory>
        ensures at_first { IfOk result (λ port. port ≡ new_port script.turns) }
        ensures vouched { (step : ℕ) → IfOk result (λ port. ScriptVouches port (first_plan script.turns step) []) }
    {
        let mut links = ScriptLinks::new(alloc);
        for (_, lines) in &script.turns {
            links.add_links(alloc, lines)?;
        }
        let turns = ScriptTurns::keep(alloc, script, &mut links)?;
        Ok(ScriptPort {
            turns,
            begun: 0,
            clock: 0,
            closing: 0,
            step: 0,
            links,
            tally: PortTally::new(),
        })
    }

    /// Announces a closing turn, which the next reading of the clock begins, so many milliseconds after its last one. In
    /// closing turns every end takes every write, no write fails, and an end that the script leaves undecided is connected.
    /// All turns must have begun, and the step be that of the closing turns before. Constant; the closing turn itself is
    /// linear in the number of links.
    ///
    /// Own.
    pub fn closing(&mut self, step: u64)
        requires { MayClose self.old step }
        ensures after { self.new ≡ announced step self.old }
        ensures vouched { VouchesOn step self.old self.new }
    {
        self.closing += 1;
        self.step = step;
    }

    /// How many bytes came in that were not read yet, at the ends of all links; a number that does not fit stays at the
    /// greatest. Linear in the number of links.
    ///
    /// Own.
    pub fn pending(&self) -> u64
        ensures { result ≡ unread self.now.links }
    {
        self.links.unread()
    }

    /// How many links wait to be accepted. Constant.
    ///
    /// Own.
    pub fn waiting(&self) -> usize
        ensures { result ≡ length self.now.links.waiting }
    {
        self.links.waiting()
    }

    fn begin_turn(&mut self)
        ensures { self.new ≡ begin_turn (next_turn self.old) self.old }
    {
        if self.begun < self.turns.len() {
            self.clock = self.turns.moment(self.begun);
            self.links.enter(Some(self.begun));
            self.links.apply_all(self.turns.lines(self.begun));
            self.begun += 1;
        } else {
            self.begin_behind();
        }
    }

    // Behind the turns of the script a closing turn begins if one was announced.
    fn begin_behind(&mut self)
        requires { length self.old.turns ≤ self.old.begun }
        ensures { self.new ≡ begin_behind (is_announced self.old) self.old }
    {
        self.links.enter(None);
        if self.begun < self.turns.len() + self.closing {
            self.links.take_all();
            self.clock += self.step;
            self.begun += 1;
        }
    }

    fn answer_poll(&mut self, wants: &mut [Want], accept: bool, timeout: Option<u64>) -> Polled
        ensures answer { result ≡ poll_answer self.old accept }
        ensures marks { wants.new ≡ poll_marks self.old.links wants.old }
        ensures after { self.new ≡ after_poll self.old wants.new accept timeout (poll_answer self.old accept) }
    {
        if self.links.poll_fails() {
            self.fail_poll(wants, accept, timeout);
            self.tally.count_poll_fault();
            return Polled::Failed;
        }
        let ready = accept & self.links.has_waiting();
        self.links.poll(wants);
        self.tally.count_poll(accept, timeout, ready);
        Polled::Ready { accept: ready }
    }

    fn answer_table(&mut self, wants: &mut WantTable, accept: bool, timeout: Option<u64>) -> Polled
        ensures answer { result ≡ poll_answer self.old accept }
        ensures rows { RowsStay wants.old wants.new }
        ensures list { wants.new.list ≡ filter is_marked (poll_marks self.old.links (named wants.old)) }
        ensures after { self.new ≡ after_poll self.old (poll_marks self.old.links (named wants.old)) accept timeout (poll_answer self.old accept) }
    {
        let fails = self.links.poll_fails();
        let ready = accept & self.links.has_waiting();
        self.links.poll_table(wants);
        if fails {
            self.tally.count_poll(accept, timeout, false);
            self.tally.count_poll_fault();
            return Polled::Failed;
        }
        self.tally.count_poll(accept, timeout, ready);
        Polled::Ready { accept: ready }
    }

    /// A poll was answered with a fault that this port doesn't count. It marks nothing.
    pub(crate) fn fail_poll(&mut self, wants: &mut [Want], accept: bool, timeout: Option<u64>)
        ensures marks { wants.new ≡ map unmarked wants.old }
        ensures after { self.new ≡ failed_poll self.old wants.new accept timeout }
    {
        unmark(wants);
        self.links.count_wants(wants);
        self.tally.count_poll(accept, timeout, false);
    }

    /// An accept was answered with a fault that is none of this port.
    pub(crate) fn fail_accept(&mut self)
        ensures { self.new ≡ record self.old { tally = accept_tally Accepted.Failed self.old.tally } }
    {
        self.tally.count_accept(Accepted::Failed);
    }

    /// A connect check of the end was answered with a fault that is none of this port.
    pub(crate) fn fail_check(&mut self, end: SideId)
        ensures { self.new ≡ record self.old { links = at_end end failed_check self.old.links } }
    {
        self.links.fail_check(end);
    }

    /// A read of the end with this room was answered with a fault that is none of this port.
    pub(crate) fn fail_read(&mut self, end: SideId, room: usize)
        ensures { self.new ≡ record self.old { links = at_end end (failed_read room) self.old.links } }
    {
        self.links.fail_read(end, room);
    }

    /// A write to the end that was offered so many bytes was answered with a fault that is none of this port.
    pub(crate) fn fail_write(&mut self, end: SideId, offer: usize)
        ensures { self.new ≡ record self.old { links = at_end end (failed_write offer) self.old.links } }
    {
        self.links.fail_write(end, offer);
    }
}

/// It tells everything of itself and of the ends of the script's links, and nothing of other ends.
impl Port for ScriptPort {
    ghost use Rattle.script_port.specs.ScriptPlan.{ScriptPlan};
    ghost use Rattle.script_port.specs.PortLaws.{unheard_vouched, waits_no_more};

    ghost Plan = { ScriptPlan };

    ghost vouches = { ScriptVouches };

    ghost none_waits = { NoneWaits };

    ghost faults = { script_faults };

    ghost ends = { λ p. ends_told p.links };

    ghost told = { port_told };

    fn start(&mut self, listen: Addr, to: Addr) -> Started
        ensures answer { result ≡ Started.Started }
        ensures after { self.new ≡ after_start self.old listen to }
        ensures never_fails { is_failed_start result ≡ false }

        // What every port says.
        ensures cause { ListenerFaults (script_faults self.old) (script_faults self.new) (is_failed_start result) }
        ensures ends { AllWent (ends_told self.old.links) (ends_told self.new.links) (λ _. no_step) }
        ensures told { StartedAt (port_told self.old) (port_told self.new) listen to }
        ensures vouched { LongerBy (ScriptVouches self.old) (ScriptVouches self.new) [] }
    {
        self.tally.started = Some((listen, to));
        Started::Started
    }

    fn now(&mut self) -> u64
        ensures answer { result ≡ clock_answer self.old }
        ensures after { self.new ≡ after_now self.old }

        // What every port says.
        ensures cause { FaultsStay (script_faults self.old) (script_faults self.new) }
        ensures ends { AllWent (ends_told self.old.links) (ends_told self.new.links) (λ _. no_step) }
        ensures told { ClockRead (port_told self.old) (port_told self.new) result }
        ensures vouched { Ticked (ScriptVouches self.old) (ScriptVouches self.new) result }
    {
        self.begin_turn();
        self.tally.readings = self.tally.readings.saturating_add(1);
        self.tally.reading = self.clock;
        self.clock
    }

    fn poll(&mut self, wants: &mut [Want], accept: bool, timeout: Option<u64>) -> Polled
        ensures answer { result ≡ poll_answer self.old accept }
        ensures marks { wants.new ≡ poll_marks self.old.links wants.old }
        ensures after { self.new ≡ after_poll self.old wants.new accept timeout (poll_answer self.old accept) }

        // What every port says.
        ensures marked { AllMarked wants.old wants.new }
        ensures asked { opens_accepting result ≡ true → accept ≡ true }
        ensures cause { PollFaults (script_faults self.old) (script_faults self.new) (is_failed_poll result) }
        ensures ends { AllWent (ends_told self.old.links) (ends_told self.new.links) (poll_step wants.new result) }
        ensures told { PolledWith (port_told self.old) (port_told self.new) accept timeout result }
        ensures vouched { LongerBy (ScriptVouches self.old) (ScriptVouches self.new) (poll_events timeout wants.new result) }
        ensures waiting { accept ≡ true → result ≡ Polled.Ready false → NothingWaits (ScriptVouches self.new) NoneWaits }
    {
        self.answer_poll(wants, accept, timeout)
    }

    /// It looks at each want once.
    fn poll_table(&mut self, wants: &mut WantTable, accept: bool, timeout: Option<u64>) -> Polled
        ensures answer { result ≡ poll_answer self.old accept }
        ensures list { wants.new.list ≡ filter is_marked (poll_marks self.old.links (named wants.old)) }
        ensures after { self.new ≡ after_poll self.old (poll_marks self.old.links (named wants.old)) accept timeout (poll_answer self.old accept) }

        // What every port says.
        ensures rows { RowsStay wants.old wants.new }
        ensures asked { opens_accepting result ≡ true → accept ≡ true }
        ensures cause { PollFaults (script_faults self.old) (script_faults self.new) (is_failed_poll result) }
        ensures told { PolledWith (port_told self.old) (port_told self.new) accept timeout result }
        ensures went { TablePolled wants.old wants.new timeout result (ends_told self.old.links) (ends_told self.new.links)
            (ScriptVouches self.old) (ScriptVouches self.new) }
        ensures waiting { accept ≡ true → result ≡ Polled.Ready false → NothingWaits (ScriptVouches self.new) NoneWaits }
    {
        self.answer_table(wants, accept, timeout)
    }

    fn accept(&mut self, link: u32) -> Accepted
        ensures answer { result ≡ accept_answer self.old.links.waiting }
        ensures after { self.new ≡ after_accept self.old link }
        ensures never_fails { is_failed_accept result ≡ false }

        // What every port says.
        ensures cause { ListenerFaults (script_faults self.old) (script_faults self.new) (is_failed_accept result) }
        ensures ends { AllWent (ends_told self.old.links) (ends_told self.new.links) (accept_step link result) }
        ensures told { AcceptedLink (port_told self.old) (port_told self.new) result }
        ensures vouched { LongerBy (ScriptVouches self.old) (ScriptVouches self.new) (accept_events link result) }
        ensures waiting { result ≡ Accepted.NotYet → NothingWaits (ScriptVouches self.new) NoneWaits }
    {
        let answer = self.links.accept(link);
        self.tally.count_accept(answer);
        answer
    }

    fn connect_state(&mut self, end: SideId) -> ConnAnswer
        ensures answer { result ≡ conn_answer_at self.old.links end }
        ensures after { self.new ≡ record self.old { links = at_end end after_check self.old.links } }

        // What every port says.
        ensures cause { EndFaults (script_faults self.old) (script_faults self.new) end (is_failed_conn result) }
        ensures ends { EndsWent (ends_told self.old.links) (ends_told self.new.links) end (conn_step result) }
        ensures told { PortStays (port_told self.old) (port_told self.new) }
        ensures vouched { LongerBy (ScriptVouches self.old) (ScriptVouches self.new) (conn_events end result) }
    {
        self.links.connect_state(end)
    }

    fn read(&mut self, end: SideId, into: &mut [u8]) -> ReadAnswer
        requires { 0 < length into.old }
        ensures answer { result ≡ read_answer_at self.old.links end (length into.old) }
        ensures bytes { got_bytes result into.new ≡ take (length into.old) (pending_at self.old.links end) }
        ensures rest { drop (length (got_bytes result into.new)) into.new ≡ drop (length (got_bytes result into.new)) into.old }
        ensures after { self.new ≡ record self.old { links = at_end end (λ s. after_read s (length into.old)) self.old.links } }

        // What every port says.
        ensures within { ReadWithin result (length into.new) }
        ensures cause { EndFaults (script_faults self.old) (script_faults self.new) end (is_failed_read result) }
        ensures ends { EndsWent (ends_told self.old.links) (ends_told self.new.links) end (read_step result into.new) }
        ensures told { PortStays (port_told self.old) (port_told self.new) }
        ensures vouched { LongerBy (ScriptVouches self.old) (ScriptVouches self.new) (read_events end into.new result) }
    {
        self.links.read(end, into)
    }

    fn write(&mut self, end: SideId, from: &[u8]) -> WriteAnswer
        requires { 0 < length from.now }
        ensures wrote { WroteAt self.old.links self.new.links end from.now result }
        ensures after { self.new ≡ record self.old { links = self.new.links } }

        // What every port says.
        ensures within { WriteWithin result (length from.now) }
        ensures cause { EndFaults (script_faults self.old) (script_faults self.new) end (is_failed_write result) }
        ensures ends { EndsWent (ends_told self.old.links) (ends_told self.new.links) end (write_step result from.now) }
        ensures told { PortStays (port_told self.old) (port_told self.new) }
        ensures vouched { LongerBy (ScriptVouches self.old) (ScriptVouches self.new) (write_events end from.now result) }
    {
        self.links.write(end, from)
    }

    fn close_write(&mut self, end: SideId)
        ensures after { self.new ≡ record self.old { links = at_end end after_close_write self.old.links } }

        // What every port says.
        ensures cause { FaultsStay (script_faults self.old) (script_faults self.new) }
        ensures ends { EndsWent (ends_told self.old.links) (ends_told self.new.links) end close_write_step }
        ensures told { PortStays (port_told self.old) (port_told self.new) }
        ensures vouched { LongerBy (ScriptVouches self.old) (ScriptVouches self.new) (close_write_events end) }
    {
        self.links.close_write(end);
    }

    fn close(&mut self, end: SideId)
        ensures after { self.new ≡ record self.old { links = at_end end after_close self.old.links } }

        // What every port says.
        ensures cause { FaultsStay (script_faults self.old) (script_faults self.new) }
        ensures ends { EndsWent (ends_told self.old.links) (ends_told self.new.links) end close_step }
        ensures told { PortStays (port_told self.old) (port_told self.new) }
        ensures vouched { LongerBy (ScriptVouches self.old) (ScriptVouches self.new) (close_events end) }
    {
        self.links.close(end);
    }

    fn stop_accepting(&mut self)
        ensures after { self.new ≡ self.old }

        // What every port says.
        ensures cause { FaultsStay (script_faults self.old) (script_faults self.new) }
        ensures ends { AllWent (ends_told self.old.links) (ends_told self.new.links) (λ _. no_step) }
        ensures told { PortStays (port_told self.old) (port_told self.new) }
        ensures vouched { LongerBy (ScriptVouches self.old) (ScriptVouches self.new) [] }
    {}

    ghost waits_no_more = { waits_no_more };

    ghost unheard = { unheard_vouched };
}
