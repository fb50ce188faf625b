// The deadlines of events: a timer for each event that has one. What a deadline means stands elsewhere.
ghost use Rattle.std.specs.Prelude.{◌≡◌, ◌≤◌, ◌<◌, ◌+◌, ◌^◌, ℕ, [], Ok, Err, Some, None, length, slice_set, IfOk, IfErr, OnOk, OnErr};
ghost use Rattle.std.specs.Prelude.{if◌then◌else◌, nat_lt, true, false, ◌≢◌, ◌↔◌, IsOk};
ghost use Rattle.min_timer.specs.Queue.{number_of, with_timer, with_delay, has_delay, are_too_many};
ghost use Rattle.event_base.specs.Rising.{at};
ghost use Rattle.event_base.specs.Ready.{IsLeast};
ghost use Rattle.event_base.specs.Deadlines.{Moment, IsDueOrder, due_at, deadlines};

use min_timer::{TimerFault, TimerKey, Timers};
use std::alloc::{AllocError, Global};
use std::marker::Model;

/// The timer of an event: its deadline and its handle.
#[derive(Clone, Copy)]
pub struct Waiting {
    pub deadline: u64,
    pub timer: TimerKey,
}

/// The deadlines of events, by the number of the event.
///
/// Libevent: event-internal.h, `timeheap`.
#[derive(Drop)]
pub struct Deadlines {
    timers: Timers,
    waiting: Vec<Option<Waiting>>,
}

impl Model for Deadlines {
    ghost use Rattle.event_base.specs.Deadlines.{DeadlinesValue};

    ghost Value = { DeadlinesValue };

    ghost use Rattle.event_base.specs.DeadlinesView.{deadlines_of, AreDeadlines};

    ghost view = { deadlines_of };

    ghost invariant = { AreDeadlines };
}

impl Deadlines {
    /// No event has a deadline. Takes no memory.
    pub fn new(alloc: Global) -> Deadlines
        ensures { result ≡ record { moments = []; last = 0; delays = [] } }
    {
        Deadlines {
            timers: Timers::new(alloc),
            waiting: Vec::new(alloc),
        }
    }

    /// The last order number of adding, or 0.
    pub fn last(&self) -> u64
        ensures { result ≡ self.now.last }
    {
        self.timers.last()
    }

    /// Makes room for so many events, none of the new ones with a deadline. Takes memory.
    pub fn grow(&mut self, count: usize) -> Result<(), AllocError>
        ensures moments { (k : ℕ) → at self.new.moments k ≡ at self.old.moments k }
        ensures room { OnOk result (count ≤ length self.new.moments) }
        ensures already { count ≤ length self.old.moments → IsOk result }
        ensures stays { length self.old.moments ≤ length self.new.moments }
        ensures last { self.new.last ≡ self.old.last }
        ensures delays { self.new.delays ≡ self.old.delays }
    {
        while self.waiting.len() < count {
            self.waiting.push(None)?;
        }
        Ok(())
    }

    /// Registers a delay that many events will have. TooManyDelays comes where 256 others are registered. Takes memory for one
    /// that is not registered.
    pub fn common(&mut self, delay: u64) -> Result<(), TimerFault>
        ensures ok { OnOk result (self.new ≡ record self.old { delays = with_delay delay self.old.delays }) }
        ensures fits { OnOk result (are_too_many delay self.old.delays ≡ false) }
        ensures refused { IfErr result (λ fault. fault
            ≡ (if are_too_many delay self.old.delays then TimerFault.TooManyDelays else TimerFault.Memory)) }
        ensures other { OnErr result (has_delay delay self.old.delays ≡ false) }
        ensures stays { OnErr result (self.new ≡ self.old) }
    {
        if self.timers.is_common(delay) {
            return Ok(());
        }
        self.timers.common(delay)
    }

    /// Gives an event a deadline, in place of any other: the end of a delay, where it is not below it. Spent comes where no
    /// order number is left. Takes memory.
    pub fn set(&mut self, event: u32, deadline: u64, delay: u64) -> Result<(), TimerFault>
        requires { event < length self.old.moments }
        ensures ok { OnOk result (self.new ≡ record self.old {
          moments = slice_set self.old.moments event (Some (record { deadline = deadline; order = self.old.last + 1 }));
          last = self.old.last + 1;
        }) }
        ensures refused { IfErr result (λ fault. fault
            ≡ (if nat_lt (self.old.last + 1) (2 ^ 64) then TimerFault.Memory else TimerFault.Spent)) }
        ensures fits { OnOk result (self.old.last + 1 < 2 ^ 64) }
        ensures stays { OnErr result (self.new ≡ self.old) }
    {
        let timer = add(&mut self.timers, deadline, delay, u64::from(event))?;
        let old = waiting_of(&self.waiting, event);
        self.waiting[event as usize] = Some(Waiting { deadline, timer });
        if let Some(old) = old {
            let _ = self.timers.cancel(old.timer);
        }
        Ok(())
    }

    /// Takes the deadline of an event away, if it has one. Takes no memory.
    pub fn clear(&mut self, event: u32)
        ensures { self.new ≡ record self.old { moments = slice_set self.old.moments event None } }
    {
        let Some(old) = waiting_of(&self.waiting, event) else {
            return;
        };
        self.waiting[event as usize] = None;
        let _ = self.timers.cancel(old.timer);
    }

    /// The least deadline.
    pub fn first(&self) -> Option<u64>
        ensures { IsLeast (deadlines self.now.moments) result }
    {
        self.timers.next_deadline()
    }

    /// Is a deadline at most this time?
    fn is_any_due(&self, time: u64) -> bool
        ensures some { result ≡ true → (k : ℕ) × (m : Moment) × (due_at time self.now.moments k ≡ Some m) }
        ensures none { result ≡ false → (k : ℕ) → due_at time self.now.moments k ≡ None }
    {
        match self.first() {
            Some(first) => first <= time,
            None => false,
        }
    }

    /// The events whose deadline is at most this time, by deadline and then by the order of adding. Takes memory where there
    /// are any.
    pub fn due(&self, alloc: Global, time: u64) -> Result<Vec<u64>, TimerFault>
        ensures events { IfOk result (λ events. IsDueOrder time self.now.moments events.items) }
        ensures refused { IfErr result (λ fault. fault ≡ TimerFault.Memory) }
        ensures some { OnErr result ((k : ℕ) × (m : Moment) × (due_at time self.now.moments k ≡ Some m)) }
    {
        if !self.is_any_due(time) {
            return Ok(Vec::new(alloc));
        }
        self.timers.due(alloc, time)
    }
}

/// Adds a timer whose deadline is the end of a delay, where it is not below it.
fn add(timers: &mut Timers, deadline: u64, delay: u64, key: u64) -> Result<TimerKey, TimerFault>
    ensures added { IfOk result (λ handle. timers.new.pending
        ≡ with_timer (record { deadline = deadline; key = key; handle = handle }) timers.old.pending) }
    ensures numbered { IfOk result (λ handle. number_of handle ≡ timers.old.last + 1) }
    ensures counted { OnOk result (timers.new.last ≡ timers.old.last + 1) }
    ensures spent { (result ≡ Err TimerFault.Spent) ↔ (2 ^ 64 ≤ timers.old.last + 1) }
    ensures pending { result ≢ Err TimerFault.NotPending }
    ensures many { result ≢ Err TimerFault.TooManyDelays }
    ensures err { OnErr result (timers.new ≡ timers.old) }
    ensures delays { timers.new.delays ≡ timers.old.delays }
{
    let begin = deadline.saturating_sub(delay);
    timers.add_after(begin, deadline - begin, key)
}

/// What is kept of the timer of an event.
fn waiting_of(waiting: &[Option<Waiting>], event: u32) -> Option<Waiting>
    ensures { result ≡ at waiting.now event }
{
    waiting.get(event as usize).copied().flatten()
}
