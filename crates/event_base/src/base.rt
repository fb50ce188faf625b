// A base, and what is done to its events one by one.
ghost use Rattle.std.specs.Prelude.{◌≡◌, true, ◌≤◌, ◌<◌, ◌+◌, ◌^◌, if◌then◌else◌, unwrap_or, length, Some, None, Ok, Err, IfOk, IfErr};
ghost use Rattle.std.specs.Prelude.{◌≢◌, OnOk, OnErr, false, is_some};
ghost use Rattle.std.specs.List.{list_any};
ghost use Rattle.std.specs.Option.{ForSome};
ghost use Rattle.event_base.specs.Calls.{IsAnswer, new_base, fit, new_event, set_priority, add_event, del_event, activate};
ghost use Rattle.event_base.specs.Calls.{signal, begin_turn, next_active, next_fire, poll_timeout, ended, loop_break, loop_exit};
ghost use Rattle.event_base.specs.SetsAgain.{sets_again};
ghost use Rattle.event_base.specs.Freeing.{free_event, is_pending};
ghost use Rattle.event_base.specs.Delays.{common};
ghost use Rattle.event_base.specs.Fires.{hearing};
ghost use Rattle.event_base.specs.Turns.{time_at, is_due, least, active_priority, next_event};
ghost use Rattle.event_base.specs.Rousing.{event_of, needed, risen, wakers, CanRise, AreApart};
ghost use Rattle.min_timer.specs.Queue.{has_delay};
ghost use Rattle.prio_queue.specs.Queues.{is_count};

use crate::BaseFault;
use crate::deadlines::Deadlines;
use crate::event::{Event, SIGNAL, TIMEOUT, Timeout, event_at, live_event};
use crate::ready::{Ready, Waking};
use crate::rousing::{any_overflows, hearing, raise_all, runs_out_at, set_again, wakers, woken_by};
use std::alloc::Global;
use std::marker::Model;

/// The most events of a base: each has a number of 32 bits.
const MAX_EVENTS: usize = 1 << 32;

/// The latest moment that a clock can tell, in milliseconds.
const MAX_TIME: u64 = 1 << 62;

/// Events, the time of their turns, and which of them fire next. The list of those that become active keeps its room for the next
/// turn.
///
/// Libevent: event2/event.h, `event_base`; "Creating an event_base" and "Working with an event loop".
#[derive(Drop)]
pub struct Base {
    events: Vec<Event>,
    deadlines: Deadlines,
    ready: Ready,
    waking: Vec<Waking>,
    time: u64,
    batch_priority: u32,
    batch_end: u64,
    broken: bool,
    exiting: bool,
}

impl Model for Base {
    ghost use Rattle.event_base.specs.Base.{BaseValue};

    ghost Value = { BaseValue };

    ghost use Rattle.event_base.specs.BaseView.{base_of, IsBase};

    ghost view = { base_of };

    ghost invariant = { IsBase };
}

impl Base {
    /// A base with so many priorities, 1 to 256, 0 being the most urgent. BadPriority comes for any other number. Takes
    /// memory; linear in the number of priorities.
    ///
    /// Libevent: event2/event.h, `event_base_priority_init`; "Creating an event_base".
    /// Differs: 256 priorities can be had.
    pub fn new(alloc: Global, priorities: u32) -> Result<Base, BaseFault>
        ensures ok { IfOk result (λ base. (is_count priorities ≡ true) × (base ≡ new_base priorities)) }
        ensures refused { IfErr result (λ fault. IsAnswer fault
            (if is_count priorities then Ok (new_base priorities) else Err BaseFault.BadPriority)) }
    {
        let ready = Ready::new(alloc, priorities)?;
        Ok(Base {
            events: Vec::new(alloc),
            deadlines: Deadlines::new(alloc),
            ready,
            waking: Vec::new(alloc),
            time: 0,
            batch_priority: 0,
            batch_end: 0,
            broken: false,
            exiting: false,
        })
    }

    /// Makes an event, not pending and not active, of the priority in the middle: half the number of priorities, rounded
    /// down. Answers its number, by the order of making from 0 on. Spent comes where that would not fit. Takes memory; constant
    /// cost.
    ///
    /// Libevent: event2/event.h, `event_new`; "Working with events".
    pub fn new_event(&mut self, persist: bool, signal: Option<u32>) -> Result<u32, BaseFault>
        ensures number { IfOk result (λ number. number ≡ length self.old.events) }
        ensures ok { OnOk result (new_event self.old persist signal ≡ Ok self.new) }
        ensures refused { IfErr result (λ fault. IsAnswer fault (new_event self.old persist signal)) }
        ensures stays { OnErr result (self.new ≡ self.old) }
    {
        let number = self.events.len();
        if number >= MAX_EVENTS {
            return Err(BaseFault::Spent);
        }
        self.ready.grow(number + 1)?;
        self.deadlines.grow(number + 1)?;
        let event = Event::made(persist, signal, self.ready.priorities() / 2);
        self.events.push(event)?;
        Ok(number as u32)
    }

    /// Sets the priority of an event. NoEvent comes first, then BadPriority, then IsActive. Takes no memory; constant cost.
    ///
    /// Libevent: event2/event.h, `event_priority_set`; "Working with events".
    pub fn set_priority(&mut self, event: u32, priority: u32) -> Result<(), BaseFault>
        ensures ok { OnOk result (set_priority self.old event priority ≡ Ok self.new) }
        ensures refused { IfErr result (λ fault. set_priority self.old event priority ≡ Err fault) }
        ensures stays { OnErr result (self.new ≡ self.old) }
    {
        let Some(kept) = live_event(&self.events, event as usize) else {
            return Err(BaseFault::NoEvent);
        };
        if priority >= self.ready.priorities() {
            return Err(BaseFault::BadPriority);
        }
        if kept.is_active() {
            return Err(BaseFault::IsActive);
        }
        self.events[event as usize] = Event { priority, ..kept };
        Ok(())
    }

    /// Adds an event: it is pending from then on. With a timeout, in milliseconds and at most 2^62, it has the deadline so
    /// long after the base's time, in place of any other, and stops being active where an older timeout made it so. Without
    /// one it keeps the deadline that it had. NoEvent comes first, then Spent. Takes memory for a timeout; logarithmic in
    /// the number of deadlines, and linear in that of active events at worst.
    ///
    /// Libevent: event2/event.h, `event_add`; "Working with events".
    pub fn add_event(&mut self, event: u32, timeout: Option<u64>) -> Result<(), BaseFault>
        requires { ForSome timeout (λ delay. delay ≤ 2 ^ 62) }
        ensures ok { OnOk result (add_event self.old event timeout ≡ Ok self.new) }
        ensures refused { IfErr result (λ fault. IsAnswer fault (add_event self.old event timeout)) }
        ensures memory { result ≡ Err BaseFault.Memory → is_some timeout ≡ true }
        ensures stays { OnErr result (self.new ≡ self.old) }
    {
        match timeout {
            Some(delay) => self.add_until(event, delay),
            None => self.add_for_ever(event),
        }
    }

    /// Adds an event without a timeout. Takes no memory.
    fn add_for_ever(&mut self, event: u32) -> Result<(), BaseFault>
        ensures ok { OnOk result (add_event self.old event None ≡ Ok self.new) }
        ensures refused { IfErr result (λ fault. add_event self.old event None ≡ Err fault) }
        ensures memory { result ≢ Err BaseFault.Memory }
        ensures stays { OnErr result (self.new ≡ self.old) }
    {
        let Some(kept) = live_event(&self.events, event as usize) else {
            return Err(BaseFault::NoEvent);
        };
        self.events[event as usize] = kept.added();
        Ok(())
    }

    /// Adds an event with a timeout. Takes memory.
    fn add_until(&mut self, event: u32, delay: u64) -> Result<(), BaseFault>
        requires { delay ≤ 2 ^ 62 }
        ensures ok { OnOk result (add_event self.old event (Some delay) ≡ Ok self.new) }
        ensures refused { IfErr result (λ fault. IsAnswer fault (add_event self.old event (Some delay))) }
        ensures stays { OnErr result (self.new ≡ self.old) }
    {
        let Some(_) = live_event(&self.events, event as usize) else {
            return Err(BaseFault::NoEvent);
        };
        let deadline = self.time + delay;
        self.deadlines.set(event, deadline, delay)?;
        let order = self.deadlines.last();
        let added = &mut self.events[event as usize];
        added.add_until(Timeout {
            deadline,
            delay,
            order,
        });
        let stays = added.is_active();
        self.ready.rest_unless(event, stays);
        Ok(())
    }

    /// Deletes an event: it is neither pending nor active, and no callback of it starts until it is active anew. Nothing
    /// happens to an event that is neither. Takes no memory; logarithmic in the number of deadlines, and
    /// linear in that of active events at worst.
    ///
    /// Libevent: event2/event.h, `event_del`; "Working with events".
    /// Differs: the rest of a signal's calls are gone, also where a callback deletes its own event.
    pub fn del_event(&mut self, event: u32) -> Result<(), BaseFault>
        ensures ok { OnOk result (del_event self.old event ≡ Ok self.new) }
        ensures refused { IfErr result (λ fault. del_event self.old event ≡ Err fault) }
        ensures stays { OnErr result (self.new ≡ self.old) }
    {
        let Some(kept) = live_event(&self.events, event as usize) else {
            return Err(BaseFault::NoEvent);
        };
        self.events[event as usize] = kept.deleted();
        self.deadlines.clear(event);
        self.ready.rest(event);
        Ok(())
    }

    /// Frees an event: it is deleted, and from then on each call with its number answers NoEvent. The number is not given
    /// again, and its record stays with the base. Takes no memory; logarithmic in the number of deadlines, and
    /// linear in that of active events at worst.
    ///
    /// Libevent: event2/event.h, `event_free`; "Working with events".
    /// Differs: an event is named by its number, so that a call on a freed one is refused.
    pub fn free_event(&mut self, event: u32) -> Result<(), BaseFault>
        ensures ok { OnOk result (free_event self.old event ≡ Ok self.new) }
        ensures refused { IfErr result (λ fault. free_event self.old event ≡ Err fault) }
        ensures stays { OnErr result (self.new ≡ self.old) }
    {
        let Some(kept) = live_event(&self.events, event as usize) else {
            return Err(BaseFault::NoEvent);
        };
        self.events[event as usize] = kept.into_freed();
        self.deadlines.clear(event);
        self.ready.rest(event);
        Ok(())
    }

    /// Registers a delay, in milliseconds, that many events will have. One that is registered changes nothing. TooManyDelays
    /// comes where 256 others are registered. Takes memory for one that is not registered; linear in the number of registered
    /// delays.
    ///
    /// Libevent: event2/event.h, `event_base_init_common_timeout`; "Working with events".
    /// Differs: events need no special timeout, only this delay.
    pub fn common(&mut self, delay: u64) -> Result<(), BaseFault>
        ensures ok { OnOk result (common self.old delay ≡ Ok self.new) }
        ensures refused { IfErr result (λ fault. IsAnswer fault (common self.old delay)) }
        ensures memory { result ≡ Err BaseFault.Memory → has_delay delay self.old.delays ≡ false }
        ensures stays { OnErr result (self.new ≡ self.old) }
    {
        self.deadlines.common(delay)?;
        Ok(())
    }

    /// Is an event pending: was it added, and since then neither deleted nor, where it is not persistent, called? Takes no
    /// memory; constant cost.
    ///
    /// Libevent: event2/event.h, `event_pending`; "Working with events".
    /// Differs: an event that is active alone is not pending, and no flags are told.
    pub fn is_pending(&self, event: u32) -> Result<bool, BaseFault>
        ensures { result ≡ is_pending self.now event }
    {
        match live_event(&self.events, event as usize) {
            Some(kept) => Ok(kept.pending),
            None => Err(BaseFault::NoEvent),
        }
    }

    /// Makes an event active with these flags, for one call of its callback. An event that is active already gets the flags
    /// beside its own, and no call more. NoEvent comes first, then Spent. Takes memory where it is not active yet; constant cost.
    ///
    /// Libevent: event2/event.h, `event_active`; "Working with events".
    pub fn activate(&mut self, event: u32, what: u8) -> Result<(), BaseFault>
        ensures ok { OnOk result (activate self.old event what ≡ Ok self.new) }
        ensures refused { IfErr result (λ fault. IsAnswer fault (activate self.old event what)) }
        ensures memory { result ≡ Err BaseFault.Memory → needed (event_of self.old.events event) ≡ 1 }
        ensures stays { OnErr result (self.new ≡ self.old) }
    {
        let Some(kept) = live_event(&self.events, event as usize) else {
            return Err(BaseFault::NoEvent);
        };
        if kept.needed() > u64::MAX - self.ready.next() {
            return Err(BaseFault::Spent);
        }
        self.rouse(&[u64::from(event)], what, 1, 0)
    }

    /// A signal came so many times: each pending event of it is called so many times more. Those that are not active yet
    /// become so in the order of their making. A count of 0 changes nothing. Spent comes first. Takes memory where a pending
    /// event of it is called; linear in the number of events.
    ///
    /// Libevent: event2/event.h, `evsignal_new`; "Working with events".
    /// Differs: a signal is handed in; counts that come while an event is active are added.
    pub fn signal(&mut self, number: u32, count: u32) -> Result<(), BaseFault>
        ensures ok { OnOk result (signal self.old number count ≡ Ok self.new) }
        ensures refused { IfErr result (λ fault. IsAnswer fault (signal self.old number count)) }
        ensures memory { result ≡ Err BaseFault.Memory → (0 < count) × (0 < length (hearing number 0 self.old.events)) }
        ensures stays { OnErr result (self.new ≡ self.old) }
    {
        if count == 0 {
            return Ok(());
        }
        if woken_by(&self.events, number) > u64::MAX - self.ready.next() {
            return Err(BaseFault::Spent);
        }
        if any_overflows(&self.events, number, count) {
            return Err(BaseFault::Spent);
        }
        let alloc = *self.events.allocator();
        let numbers = hearing(alloc, &self.events, number)?;
        let count = u64::from(count);
        self.rouse(&numbers, SIGNAL, count, count)
    }

    /// Begins a turn. The base's time becomes this clock reading, in milliseconds and cut at 2^62, unless it is later already.
    /// Each pending event whose deadline is at most that time becomes active; equal deadlines come in the order of adding.
    /// The batch is what is then active of the most urgent priority; that of a base whose loop ended is empty. Spent comes
    /// first. Takes memory where an event is due; linear in the number of events that are due and that of priorities.
    ///
    /// Libevent: event2/event.h, `event_base_loop` with `EVLOOP_ONCE`; "Working with an event loop".
    /// Differs: one turn runs one priority, and a clock that falls is not believed.
    pub fn begin_turn(&mut self, now: u64) -> Result<(), BaseFault>
        ensures ok { OnOk result (begin_turn self.old now ≡ Ok self.new) }
        ensures refused { IfErr result (λ fault. IsAnswer fault (begin_turn self.old now)) }
        ensures memory { result ≡ Err BaseFault.Memory → list_any (is_due (time_at self.old.time now)) self.old.events ≡ true }
        ensures stays { OnErr result (self.new ≡ self.old) }
    {
        let over = self.ended();
        let time = self.time.max(now.min(MAX_TIME));
        if runs_out_at(&self.events, time, self.ready.next()) {
            return Err(BaseFault::Spent);
        }
        let alloc = *self.events.allocator();
        let due = self.deadlines.due(alloc, time)?;
        self.rouse(&due, TIMEOUT, 1, 0)?;
        self.fix_batch(time, over);
        Ok(())
    }

    /// Takes the time of a turn, and what is active of the most urgent priority as its batch.
    fn fix_batch(&mut self, time: u64, over: bool)
        requires { time ≤ 2 ^ 62 }
        ensures { self.new ≡ record self.old {
          time = time;
          batch_priority = unwrap_or (least active_priority self.old.events) 0;
          batch_end = if over then 0 else self.old.next_activation;
        } }
    {
        let priority = self.ready.first_priority().unwrap_or(0);
        let end = batch_end(over, self.ready.next());
        self.time = time;
        self.batch_priority = priority;
        self.batch_end = end;
    }

    /// Starts the next callback of the batch: answers the event and the flags of its call. None comes where the batch has no
    /// call left, or the loop broke. A non-persistent event stops being pending; the timeout of a persistent one is set
    /// again, from the scheduled moment where it fired and else from now, and never before now. Spent comes where the new
    /// deadline or its order number would not fit. Takes memory where a timeout is set again, and is logarithmic in the number
    /// of deadlines there; else constant.
    ///
    /// Libevent: event2/event.h, `event_base_loop`; "Working with events".
    /// Differs: what becomes active while callbacks run waits for a later turn.
    pub fn next_active(&mut self) -> Result<Option<(u32, u8)>, BaseFault>
        ensures fire { IfOk result (λ fire. fire ≡ next_fire self.old) }
        ensures ok { OnOk result (next_active self.old ≡ Ok self.new) }
        ensures refused { IfErr result (λ fault. IsAnswer fault (next_active self.old)) }
        ensures memory { result ≡ Err BaseFault.Memory → sets_again self.old ≡ true }
        ensures stays { OnErr result (self.new ≡ self.old) }
    {
        if self.broken {
            return Ok(None);
        }
        let Some(number) = self.ready.next_before(self.batch_priority, self.batch_end) else {
            return Ok(None);
        };
        let event = number as u32;
        let Some(kept) = event_at(&self.events, event as usize) else {
            return Ok(None);
        };
        let Some(active) = kept.active else {
            return Ok(None);
        };
        let timeout = set_again(&mut self.deadlines, event, &kept, self.time, active.flags)?;
        let called = &mut self.events[event as usize];
        called.begin_call(active, timeout);
        let stays = called.is_active();
        self.ready
            .rest_front_unless(self.batch_priority, event, stays);
        Ok(Some((event, active.flags)))
    }

    /// How long to wait for the next turn, in milliseconds: 0 where an event is active, else until the least deadline. None
    /// where nothing is active and no deadline is pending. Takes no memory; linear in the number of priorities.
    ///
    /// Own.
    pub fn poll_timeout(&self) -> Option<u64>
        ensures { result ≡ poll_timeout self.now }
    {
        if self.ready.first_priority().is_some() {
            return Some(0);
        }
        match self.deadlines.first() {
            Some(first) => Some(first.saturating_sub(self.time)),
            None => None,
        }
    }

    /// Is the loop over? It is from `loop_break` on, or from the moment on at which `loop_exit` was called and the batch has
    /// no call left. Takes no memory; constant cost.
    ///
    /// Libevent: event2/event.h, `event_base_got_break` and `event_base_got_exit`.
    /// Differs: a base that ended stays so.
    pub fn ended(&self) -> bool
        ensures { result ≡ ended self.now }
    {
        self.broken || (self.exiting && self.next_event().is_none())
    }

    /// The event whose callback is next.
    fn next_event(&self) -> Option<u64>
        ensures { result ≡ next_event self.now }
    {
        self.ready.next_before(self.batch_priority, self.batch_end)
    }

    /// Gives events a flag one after another, or none of them.
    fn rouse(&mut self, numbers: &[u64], flag: u8, first: u64, more: u64) -> Result<(), BaseFault>
        requires can { CanRise flag first more self.old.events self.old.next_activation numbers.now }
        requires apart { AreApart numbers.now }
        requires fits { self.old.next_activation + length (wakers self.old.events numbers.now) < 2 ^ 64 }
        ensures ok { OnOk result (self.new ≡ record self.old {
          events = risen flag first more self.old.events self.old.next_activation numbers.now;
          next_activation = self.old.next_activation + length (wakers self.old.events numbers.now);
        }) }
        ensures refused { IfErr result (λ fault. fault ≡ BaseFault.Memory) }
        ensures some { OnErr result (0 < length (wakers self.old.events numbers.now)) }
        ensures stays { OnErr result (self.new ≡ self.old) }
    {
        wakers(&mut self.waking, &self.events, numbers)?;
        let next = self.ready.next();
        self.ready.wake_all(&self.waking)?;
        raise_all(&mut self.events, numbers, flag, next, first, more);
        Ok(())
    }

    /// Tells the loop to end after the running callback. Takes no memory; constant cost.
    ///
    /// Libevent: event2/event.h, `event_base_loopbreak`; "Working with an event loop".
    /// Differs: a base whose loop broke stays so.
    pub fn loop_break(&mut self)
        ensures { self.new ≡ loop_break self.old }
    {
        self.broken = true;
    }

    /// Tells the loop to end as the batch of the turn has no call left. Takes no memory; constant cost.
    ///
    /// Libevent: event2/event.h, `event_base_loopexit`; "Working with an event loop".
    /// Differs: the batch is run to its end whatever its priority.
    pub fn loop_exit(&mut self)
        ensures { self.new ≡ loop_exit self.old }
    {
        self.exiting = true;
    }
}

/// The first order number that does not belong to a batch: none does, where the loop is over.
fn batch_end(over: bool, next: u64) -> u64
    ensures { result ≡ (if over then 0 else next) }
{
    if over { 0 } else { next }
}
