// The timers that wait, and the numbers that they have. The invariant: no stamp is above the last one that was given out.
ghost use Rattle.std.specs.Prelude.{◌≡◌, ◌≢◌, ◌+◌, ◌^◌, ◌<◌, ◌≤◌, ◌↔◌, [], true, false, if◌then◌else◌, length, IfOk, IfErr, OnOk, OnErr};
ghost use Rattle.std.specs.Option.{ok_or, option_map};

use crate::fault::TimerFault;
use crate::heap::Heap;
use crate::key::TimerKey;
use std::alloc::Global;
use std::marker::Model;

/// The most delays that are registered, as libevent has them.
const MAX_DELAYS: usize = 256;

/// Timers that wait, in the order in which they come due: by deadline, in milliseconds, and among
/// equal deadlines in the order in which they were added.
///
/// Libevent: event-internal.h, `timeheap`; "Working with events", events with timeouts.
/// Differs: equal deadlines keep the order of adding.
#[derive(Drop)]
pub struct Timers {
    heap: Heap,
    delays: Vec<u64>,
    last: u64,
}

impl Model for Timers {
    ghost use Rattle.min_timer.specs.Queue.{TimerQueue};

    ghost Value = { TimerQueue };

    ghost use Rattle.std.specs.Prelude.{◌≤◌, All};

    ghost view = { λ t. record { pending = t.heap; last = t.last; delays = t.delays.items } };

    ghost invariant = { λ t. All (λ timer. timer.handle.stamp ≤ t.last) t.heap };
}

impl Timers {
    ghost use Rattle.min_timer.specs.Queue.{number_of, timer_of, without, with_timer, first_deadline, first_due, after_due};
    ghost use Rattle.min_timer.specs.Queue.{due_keys, has_delay, with_delay, are_too_many};

    /// No timers. Takes no memory; constant cost.
    pub fn new(alloc: Global) -> Timers
        ensures none { result.pending ≡ [] }
        ensures last { result.last ≡ 0 }
        ensures delays { result.delays ≡ [] }
    {
        Timers {
            heap: Heap::new(alloc),
            delays: Vec::new(alloc),
            last: 0,
        }
    }

    /// The number of the last timer that was added, or 0. Takes no memory; constant cost.
    pub fn last(&self) -> u64
        ensures { result ≡ self.now.last }
    {
        self.last
    }

    /// Registers a delay, in milliseconds, that many timers will have. One that is registered
    /// changes nothing. Takes memory; linear in the number of registered delays.
    ///
    /// Refused where 256 other delays are registered, then for want of memory.
    ///
    /// Libevent: event2/event.h, `event_base_init_common_timeout`.
    pub fn common(&mut self, delay: u64) -> Result<(), TimerFault>
        ensures registered { OnOk result (self.new ≡ record self.old { delays = with_delay delay self.old.delays }) }
        ensures fits { OnOk result (are_too_many delay self.old.delays ≡ false) }

        // on refusal
        ensures refused { IfErr result (λ fault. fault
            ≡ (if are_too_many delay self.old.delays then TimerFault.TooManyDelays else TimerFault.Memory)) }
        ensures err { OnErr result (self.new ≡ self.old) }
    {
        if self.is_common(delay) {
            return Ok(());
        }
        if self.delays.len() >= MAX_DELAYS {
            return Err(TimerFault::TooManyDelays);
        }
        self.delays.push(delay)?;
        Ok(())
    }

    /// Is this delay registered? Takes no memory; linear in the number of registered delays.
    pub fn is_common(&self, delay: u64) -> bool
        ensures { result ≡ has_delay delay self.now.delays }
    {
        self.delays.contains(&delay)
    }

    /// Adds a timer with this deadline, in milliseconds, and hands out its handle. It comes after
    /// those with the same deadline. Its number, which is its stamp, is one above the last. Takes
    /// memory; logarithmic in the number of timers.
    ///
    /// Refused where no number is left, then for want of memory.
    pub fn add(&mut self, deadline: u64, key: u64) -> Result<TimerKey, TimerFault>
        // on success
        ensures added { IfOk result (λ handle. self.new.pending ≡ with_timer (record { deadline = deadline; key = key; handle = handle }) self.old.pending) }
        ensures numbered { IfOk result (λ handle. number_of handle ≡ self.old.last + 1) }
        ensures counted { OnOk result (self.new.last ≡ self.old.last + 1) }

        // on refusal
        ensures spent { (result ≡ Err TimerFault.Spent) ↔ (2 ^ 64 ≤ self.old.last + 1) }
        ensures pending { result ≢ Err TimerFault.NotPending }
        ensures many { result ≢ Err TimerFault.TooManyDelays }
        ensures err { OnErr result (self.new ≡ self.old) }

        // in both cases
        ensures delays { self.new.delays ≡ self.old.delays }
    {
        let stamp = self.last.checked_add(1).ok_or(TimerFault::Spent)?;
        let timer = self.heap.push(deadline, stamp, key)?;
        self.last = stamp;
        Ok(timer)
    }

    /// Adds a timer that comes due so long after now, both in milliseconds: what `add` does with their
    /// sum. Costs what `add` does.
    ///
    /// Refused as `add` is.
    ///
    /// Libevent: event2/event.h, `event_add`.
    pub fn add_after(&mut self, now: u64, delay: u64, key: u64) -> Result<TimerKey, TimerFault>
        requires { now + delay < 2 ^ 64 }
        // on success
        ensures added { IfOk result (λ handle. self.new.pending
            ≡ with_timer (record { deadline = now + delay; key = key; handle = handle }) self.old.pending) }
        ensures numbered { IfOk result (λ handle. number_of handle ≡ self.old.last + 1) }
        ensures counted { OnOk result (self.new.last ≡ self.old.last + 1) }

        // on refusal
        ensures spent { (result ≡ Err TimerFault.Spent) ↔ (2 ^ 64 ≤ self.old.last + 1) }
        ensures pending { result ≢ Err TimerFault.NotPending }
        ensures many { result ≢ Err TimerFault.TooManyDelays }
        ensures err { OnErr result (self.new ≡ self.old) }

        // in both cases
        ensures delays { self.new.delays ≡ self.old.delays }
    {
        self.add(now + delay, key)
    }

    /// Takes the timer of this handle out, and answers its key. Takes no memory; costs what `add`
    /// does.
    ///
    /// Refused exactly where the timer fired or was cancelled.
    pub fn cancel(&mut self, timer: TimerKey) -> Result<u64, TimerFault>
        ensures answer { result ≡ ok_or (option_map (λ found. found.key) (timer_of timer self.old.pending)) TimerFault.NotPending }
        ensures left { self.new.pending ≡ without timer self.old.pending }
        ensures last { self.new.last ≡ self.old.last }
        ensures delays { self.new.delays ≡ self.old.delays }
    {
        match self.heap.remove(timer) {
            Some(found) => Ok(found.key),
            None => Err(TimerFault::NotPending),
        }
    }

    /// The deadline of the first timer, or None where none waits. Takes no memory; constant cost.
    pub fn next_deadline(&self) -> Option<u64>
        ensures { result ≡ first_deadline self.now.pending }
    {
        Some(self.heap.first()?.deadline)
    }

    /// The keys of the timers whose deadline is at most this time, in milliseconds, in the order in which
    /// they come due. None of them is taken out. Takes memory; linear in the number of those keys, times its logarithm.
    pub fn due(&self, alloc: Global, time: u64) -> Result<Vec<u64>, TimerFault>
        ensures keys { IfOk result (λ keys. keys.items ≡ due_keys time self.now.pending) }
        ensures refused { IfErr result (λ fault. fault ≡ TimerFault.Memory) }
    {
        Ok(self.heap.due(alloc, time)?)
    }

    /// Takes out the first timer whose deadline is at most now, in milliseconds, and answers its key
    /// and its deadline: None where none is due. Takes no memory; costs what `add` does.
    pub fn take_due(&mut self, now: u64) -> Option<(u64, u64)>
        ensures first { result ≡ first_due now self.old.pending }
        ensures left { self.new.pending ≡ after_due now self.old.pending }
        ensures last { self.new.last ≡ self.old.last }
        ensures delays { self.new.delays ≡ self.old.delays }
    {
        if self.heap.first()?.deadline > now {
            return None;
        }
        let first = self.heap.pop()?;
        Some((first.key, first.deadline))
    }
}
