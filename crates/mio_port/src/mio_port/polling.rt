// What a poll does but for what every port says of it: how long it waits, what it hears, and what it marks.
ghost use Rattle.std.specs.Prelude.{◌≡◌, ◌≤◌, ◌-◌, true, false, None, is_none, option_map, ◌||◌, ◌&&◌};
ghost use Rattle.std.specs.List.{list_any};
ghost use Rattle.ev_port.specs.Faults.{FaultsStay, PollFaults};
ghost use Rattle.ev_port.specs.Polling.{is_failed_poll};
ghost use Rattle.ev_port.specs.Table.{RowsStay, named};
ghost use Rattle.mio_port.specs.Acceptor.{after_time, is_open};
ghost use Rattle.mio_port.specs.EndLeft.{AllHeard};
ghost use Rattle.mio_port.specs.EndPlaces.{wants_ready};
ghost use Rattle.mio_port.specs.Asking.{Looked, PollLooked};
ghost use Rattle.mio_port.specs.PollLeft.{PollLeft};
ghost use Rattle.mio_port.specs.PortCalls.{Marked, Accepts};
ghost use Rattle.mio_port.specs.PortFaults.{mio_faults};
ghost use Rattle.mio_port.specs.ReadTurns.{MarkedTable, SomeMarked};

use super::MioPort;
use crate::ends::unmark;
use crate::kernel::longest_wait;
use ev_port::{Polled, Want, WantTable};
use std::alloc::AllocGlobal;
use std::net::Net;
use std::time::Clock;

impl<R: Net + Clock + AllocGlobal> MioPort<'_, R> {
    // A poll, with what it marks.
    pub(super) fn ready_for(
        &mut self,
        wants: &mut [Want],
        accept: bool,
        timeout: Option<u64>,
    ) -> Polled
        ensures marked { Marked self.new.ends.ends.items wants.old wants.new result }
        ensures turn { self.new.turn ≡ self.old.turn }
        ensures left { PollLeft self.old self.new result }
        ensures asked { Accepts self.new.acceptor accept result }
        ensures cause { PollFaults (mio_faults self.old) (mio_faults self.new) (is_failed_poll result) }
        ensures looked { PollLooked (list_any (wants_ready self.old.ends.ends.items) wants.old) accept timeout self.old self.new result }
    {
        let is_any = self.ends.is_any_ready(wants);
        let polled = self.wait(is_any, accept, timeout);
        match polled {
            Polled::Ready { .. } => self.ends.mark(wants),
            Polled::Failed => unmark(wants),
        }
        polled
    }

    // A poll of a table, with what it lists.
    pub(super) fn table_ready_for(
        &mut self,
        wants: &mut WantTable,
        accept: bool,
        timeout: Option<u64>,
    ) -> Polled
        ensures marked { MarkedTable self.new.ends.ends.items self.old.turn self.new.turn wants.old wants.new result }
        ensures some { SomeMarked self.new.ends.ends.items wants.old wants.new result }
        ensures left { PollLeft self.old self.new result }
        ensures rows { RowsStay wants.old wants.new }
        ensures asked { Accepts self.new.acceptor accept result }
        ensures cause { PollFaults (mio_faults self.old) (mio_faults self.new) (is_failed_poll result) }
        ensures looked { PollLooked (list_any (wants_ready self.old.ends.ends.items) (named wants.old)) accept timeout self.old self.new result }
    {
        let is_any = self.ends.is_any_of_table_ready(wants);
        let polled = self.wait(is_any, accept, timeout);
        match polled {
            Polled::Ready { .. } => self.turn = self.ends.mark_table(self.turn, wants),
            Polled::Failed => wants.unmark(),
        }
        polled
    }

    // Something that is asked for can be done, at an end or at the listener.
    fn is_any_asked(&self, is_any_ready: bool, accept: bool) -> bool
        ensures { result ≡ (is_any_ready || (accept && is_open self.now.acceptor)) }
    {
        is_any_ready || accept && self.acceptor.is_open()
    }

    // What every poll does before anything is marked, and its answer. An end of writing that is pending is handed on before it waits. It
    // doesn't wait where something wanted is ready.
    fn wait(&mut self, is_any_ready: bool, accept: bool, timeout: Option<u64>) -> Polled
        ensures left { PollLeft self.old self.new result }
        ensures asked { Accepts self.new.acceptor accept result }
        ensures cause { PollFaults (mio_faults self.old) (mio_faults self.new) (is_failed_poll result) }
        ensures looked { PollLooked is_any_ready accept timeout self.old self.new result }
        ensures turn { self.new.turn ≡ self.old.turn }
    {
        self.ends.hand_on();
        let pause = self.pause_left();
        let is_any = self.is_any_asked(is_any_ready, accept);
        if !self.look(is_any, longest_wait(is_any, accept, timeout, pause)) {
            self.polling_faults = self.polling_faults.saturating_add(1);
            return Polled::Failed;
        }
        self.pause_left();
        Polled::Ready {
            accept: accept && self.acceptor.is_open(),
        }
    }

    // Whether the kernel could be asked, if it was. Nothing is pending while it is waited for.
    fn look(&mut self, is_any: bool, most: Option<u64>) -> bool
        requires all_handed_on { self.old.ends.pending ≡ None }
        ensures cause { FaultsStay (mio_faults self.old) (mio_faults self.new) }
        ensures heard { AllHeard self.old.ends.ends.items self.new.ends.ends.items }
        ensures listener { self.new.acceptor ≡ record self.old.acceptor { ready = self.new.acceptor.ready } }
        ensures waits { self.old.acceptor.ready ≡ true → self.new.acceptor.ready ≡ true }
        ensures clock { self.new.clock ≡ self.old.clock }
        ensures turn { self.new.turn ≡ self.old.turn }
        ensures unstarted { is_none self.old.kernel ≡ true → result ≡ false }

        // Whether it was asked, for how long at most, and exactly what it told.
        ensures looked { Looked is_any most self.old.kernel self.new.kernel self.old.ends.ends.items self.new.ends.ends.items
            self.old.acceptor.ready self.new.acceptor.ready result }
    {
        let Some(kernel) = &mut self.kernel else {
            return false;
        };
        if is_any && !kernel.is_due() {
            return true;
        }
        if kernel.wait(most).is_err() {
            return false;
        }
        kernel.tell(&mut self.ends, &mut self.acceptor);
        true
    }

    // Ends a pause that is over, and gives what is left of one that isn't.
    fn pause_left(&mut self) -> Option<u64>
        ensures listener { self.new.acceptor ≡ after_time self.old.acceptor self.new.clock.last }
        ensures left { result ≡ option_map (λ to. to - self.new.clock.last) self.new.acceptor.paused_to }
        ensures steady { self.old.clock.last ≤ self.new.clock.last }
        ensures kernel { self.new.kernel ≡ self.old.kernel }
        ensures faults { self.new.acceptor.faults ≡ self.old.acceptor.faults }
        ensures polling { self.new.polling_faults ≡ self.old.polling_faults }
        ensures ends { self.new.ends ≡ self.old.ends }
        ensures turn { self.new.turn ≡ self.old.turn }
    {
        let to = self.acceptor.pause_end()?;
        let time = self.clock.read(self.rt);
        self.acceptor.pass_time(time);
        self.acceptor.pause_end()?;
        Some(to.saturating_sub(time))
    }
}
