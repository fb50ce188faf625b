// What is counted of the calls on one end of a script port. A number that reached the end of a u64 stays there.
ghost use Rattle.std.specs.Prelude.{◌≡◌};
ghost use Rattle.script_port.specs.EndTallies.{no_calls, with_read, with_write, with_check, with_fault, with_want};

use ev_port::Want;
use ev_types::{ConnAnswer, ReadAnswer};

/// What calls on an end were made, and what they were answered.
///
/// Own.
#[derive(Clone, Copy)]
pub(crate) struct EndTally {
    pub made_connected: bool,
    pub ended: bool,
    pub connected: bool,
    pub write_ended: bool,
    pub closed: bool,
    pub reads: u64,
    pub writes: u64,
    pub checks: u64,
    pub rooms: u64,
    pub offers: u64,
    pub read_wants: u64,
    pub write_wants: u64,
    pub read_marks: u64,
    pub write_marks: u64,
    pub faults: u64,
}

impl EndTally {
    pub fn new() -> EndTally
        ensures { result ≡ no_calls }
    {
        EndTally {
            made_connected: false,
            ended: false,
            connected: false,
            write_ended: false,
            closed: false,
            reads: 0,
            writes: 0,
            checks: 0,
            rooms: 0,
            offers: 0,
            read_wants: 0,
            write_wants: 0,
            read_marks: 0,
            write_marks: 0,
            faults: 0,
        }
    }

    /// A read with this room was answered so.
    pub fn count_read(&mut self, room: usize, answer: ReadAnswer)
        ensures { self.new ≡ with_read answer room self.old }
    {
        self.reads = self.reads.saturating_add(1);
        self.rooms = self.rooms.saturating_add(room as u64);
        self.ended |= matches!(answer, ReadAnswer::Ended);
    }

    /// A write that was offered so many bytes was answered, not with want of memory.
    pub fn count_write(&mut self, offer: usize)
        ensures { self.new ≡ with_write offer self.old }
    {
        self.writes = self.writes.saturating_add(1);
        self.offers = self.offers.saturating_add(offer as u64);
    }

    /// A connect check was answered so.
    pub fn count_check(&mut self, answer: ConnAnswer)
        ensures { self.new ≡ with_check answer self.old }
    {
        self.checks = self.checks.saturating_add(1);
        self.connected |= matches!(answer, ConnAnswer::Connected);
    }

    /// The end met a fault, or none.
    pub fn count_fault(&mut self, is_fault: bool)
        ensures { self.new ≡ with_fault is_fault self.old }
    {
        self.faults = self.faults.saturating_add(u64::from(is_fault));
    }

    /// A poll was given this want, and left its marks.
    pub fn count_want(&mut self, want: &Want)
        ensures { self.new ≡ with_want want.now self.old }
    {
        self.read_wants = self.read_wants.saturating_add(u64::from(want.read));
        self.write_wants = self.write_wants.saturating_add(u64::from(want.write));
        self.read_marks = self.read_marks.saturating_add(u64::from(want.can_read));
        self.write_marks = self.write_marks.saturating_add(u64::from(want.can_write));
    }
}
