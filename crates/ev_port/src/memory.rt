// A source and a sink over memory, for tests: they tell their bytes, and their calls fail by a list.
ghost use Rattle.std.specs.Prelude.{◌≡◌, ◌≢◌, ◌≤◌, ◌<◌, ◌+◌, ◌++◌, [], true, false, drop, length, min, IfSome, if◌then◌else◌};
ghost use Rattle.ev_port.specs.FaultCounts.{Counted};
ghost use Rattle.ev_port.specs.StreamBytes.{Gave, TookOn};
ghost use Rattle.ev_port.specs.Stream.{bytes_got, GotWithin, is_read_fault, bytes_taken, TookWithin, is_write_fault};
ghost use Rattle.ev_port.specs.Counting.{counted};
ghost use Rattle.ev_port.specs.Memory.{is_failing, source_answer, source_after};

use crate::{Given, Sink, Source, Taken};
use std::alloc::Global;
use std::marker::Model;

// Counts a call, and tells whether it is one of those that fail.
fn counts_failing(failing: &[u64], calls: &mut u64) -> bool
    ensures failing { result ≡ is_failing failing.now calls.old }
    ensures calls { calls.new ≡ counted calls.old 1 }
{
    *calls = calls.saturating_add(1);
    failing.contains(calls)
}

/// Gives its bytes in their order, in each read as many as there is room for. The calls of a list fail.
///
/// Own.
#[derive(Drop)]
pub struct MemSource {
    bytes: Vec<u8>,
    given: usize,
    failing: Vec<u64>,
    calls: u64,
    faults: u64,
}

impl Model for MemSource {
    ghost use Rattle.std.specs.Prelude.{◌≤◌, vec_len};
    ghost use Rattle.ev_port.specs.Memory.{MemSourceState};

    ghost Value = { MemSourceState };

    ghost use Rattle.ev_port.specs.MemoryView.{source_state, IsSource};

    ghost view = { source_state };

    ghost invariant = { IsSource };
}

impl MemSource {
    /// A source of these bytes. The list has the numbers of the calls that fail, counted from 1. Takes no memory;
    /// constant cost.
    pub fn new(bytes: Vec<u8>, failing: Vec<u64>) -> MemSource
        ensures { result ≡ record { left = bytes.items; failing = failing.items; calls = 0; faults = 0 } }
    {
        MemSource {
            bytes,
            given: 0,
            failing,
            calls: 0,
            faults: 0,
        }
    }
}

/// It tells the bytes that are left.
impl Source for MemSource {
    ghost use Rattle.std.specs.Prelude.{Some};

    ghost left = { λ s. Some s.left };

    ghost faults = { λ s. s.faults };

    fn read(&mut self, into: &mut [u8]) -> Taken
        requires { 0 < length into.old }
        ensures answer { result ≡ source_answer self.old (length into.old) }
        ensures after { self.new ≡ source_after self.old (length into.old) }
        ensures rest { drop (length (bytes_got result into.new)) into.new ≡ drop (length (bytes_got result into.new)) into.old }

        // What every source says.
        ensures count { GotWithin result (length into.new) }
        ensures bytes { Gave (Some self.old.left) (Some self.new.left) (bytes_got result into.new) }
        ensures ended { result ≡ Taken.Ended → IfSome (Some self.old.left) (λ bytes. bytes ≡ []) }
        ensures cause { Counted self.old.faults self.new.faults (is_read_fault result) }
    {
        if counts_failing(&self.failing, &mut self.calls) {
            self.faults = self.faults.saturating_add(1);
            return Taken::Failed;
        }
        let (_, left) = self.bytes.split_at(self.given);
        let count = left.len().min(into.len());
        if count == 0 {
            return Taken::Ended;
        }
        let (next, _) = left.split_at(count);
        let (front, _) = into.split_at_mut(count);
        front.copy_from_slice(next);
        self.given += count;
        Taken::Got(count)
    }
}

/// Takes at most so many bytes in a write. The calls of a list fail, and so does one that finds no memory for its
/// bytes; it takes none.
///
/// Own.
#[derive(Drop)]
pub struct MemSink {
    bytes: Vec<u8>,
    most: usize,
    failing: Vec<u64>,
    calls: u64,
    faults: u64,
}

impl Model for MemSink {
    ghost use Rattle.ev_port.specs.Memory.{MemSinkState};

    ghost Value = { MemSinkState };

    ghost use Rattle.ev_port.specs.MemoryView.{sink_state, IsSink};

    ghost view = { sink_state };

    ghost invariant = { IsSink };
}

impl MemSink {
    /// A sink with no bytes, of which one write takes at most so many. The list has the numbers of the calls that
    /// fail, counted from 1. Takes no memory; constant cost.
    pub fn new(alloc: Global, most: usize, failing: Vec<u64>) -> MemSink
        requires { 0 < most }
        ensures bytes { result.bytes ≡ [] }
        ensures most { result.most ≡ most }
        ensures failing { result.failing ≡ failing.items }
        ensures calls { result.calls ≡ 0 }
        ensures faults { result.faults ≡ 0 }
    {
        MemSink {
            bytes: Vec::new(alloc),
            most,
            failing,
            calls: 0,
            faults: 0,
        }
    }

    /// The bytes that it took. Takes no memory; constant cost.
    pub fn bytes(&self) -> &[u8]
        ensures { result.now ≡ self.now.bytes }
    {
        &self.bytes
    }
}

/// It tells the bytes that it took.
impl Sink for MemSink {
    ghost use Rattle.std.specs.Prelude.{Some};

    ghost taken = { λ s. Some s.bytes };

    ghost faults = { λ s. s.faults };

    fn write(&mut self, from: &[u8]) -> Given
        requires { 0 < length from.now }
        ensures listed { is_failing self.old.failing self.old.calls ≡ true → result ≡ Given.Failed }
        ensures took { result ≢ Given.Failed → result ≡ Given.Took (min (length from.now) self.old.most) }
        ensures full { result ≡ Given.Failed → is_failing self.old.failing self.old.calls ≡ false →
            self.old.spare < min (length from.now) self.old.most }

        // What is kept, and what the call changes of it.
        ensures kept { self.new.bytes ≡ self.old.bytes ++ bytes_taken result from.now }
        ensures calls { self.new.calls ≡ counted self.old.calls 1 }
        ensures faults { self.new.faults ≡ (if is_write_fault result then counted self.old.faults 1 else self.old.faults) }
        ensures most { self.new.most ≡ self.old.most }
        ensures failing { self.new.failing ≡ self.old.failing }

        // Of the room that there was only the bytes that it took fill any.
        ensures spare { self.old.spare ≤ self.new.spare + length (bytes_taken result from.now) }

        // What every sink says.
        ensures count { TookWithin result (length from.now) }
        ensures bytes { TookOn (Some self.old.bytes) (Some self.new.bytes) (bytes_taken result from.now) }
        ensures cause { Counted self.old.faults self.new.faults (is_write_fault result) }
    {
        let count = from.len().min(self.most);
        let (front, _) = from.split_at(count);
        if counts_failing(&self.failing, &mut self.calls) {
            self.faults = self.faults.saturating_add(1);
            return Given::Failed;
        }
        if self.bytes.extend_from_slice(front).is_err() {
            self.faults = self.faults.saturating_add(1);
            return Given::Failed;
        }
        Given::Took(count)
    }
}
