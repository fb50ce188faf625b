// What waits in a relay.
ghost use Rattle.std.specs.Prelude.{◌≡◌, ◌≤◌, ◌∷◌, ◌==◌, [], true, map, length, IfNone, IfSome, IfOk, OnOk, OnErr};
ghost use Rattle.std.specs.List.{list_any};
ghost use Rattle.ev_types.specs.Sides.{same_end};
ghost use Rattle.relay_model.specs.Due.{with_reason, without_due, without_reasons, batch as batch_of};
ghost use Rattle.relay_model.specs.Plain.{placed, without_timer};
ghost use Rattle.relay_model.specs.Moments.{earliest};
ghost use Rattle.relay_waits.specs.WaitsValue.{hooks_of, due_by, due_after, IsFirstDue};

use crate::numbered::{number_of, side_with};
use crate::side_timers::SideTimers;
use deferred_cb::Due;
use ev_types::{NoMemory, SideId, Why};
use std::alloc::Global;
use std::marker::Model;
use std::mem;

/// What waits in a relay: the reasons for which hooks are to be called, and the timers of sides. It stands fixed which sides have
/// a hook; only they have reasons. A batch is what was pending when it began.
///
/// Own.
#[derive(Drop)]
pub struct Waits {
    /// By the numbers of sides.
    hooked: Vec<bool>,
    /// What is pending. It has no batch, so that it tells whether anything is pending.
    waiting: Due,
    /// What is left of the batch. Nothing is pending there.
    firing: Due,
    timers: SideTimers,
}

impl Model for Waits {
    ghost use Rattle.relay_waits.specs.WaitsValue.{WaitsValue};

    ghost Value = { WaitsValue };

    ghost use Rattle.relay_waits.specs.WaitsView.{waits_value, KeepsDue};

    ghost view = { waits_value };

    ghost invariant = { KeepsDue };
}

impl Waits {
    /// Nothing waits. The list says of each side, by its number, whether it has a hook; a side past its end has none. Takes memory
    /// for an entry of each, and none for an empty list; the cost is in the length of the list.
    ///
    /// Own.
    pub fn new(alloc: Global, hooked: Vec<bool>) -> Result<Waits, NoMemory>
        ensures { IfOk result (λ waits. waits ≡ record { hooks = hooks_of hooked.items; due = []; batch = []; timers = [] }) }
    {
        let mut waiting = Due::new(alloc);
        waiting.reserve(hooked.len())?;
        let mut firing = Due::new(alloc);
        firing.reserve(hooked.len())?;
        Ok(Waits {
            hooked,
            waiting,
            firing,
            timers: SideTimers::new(alloc),
        })
    }

    /// Whether a side has a hook. Takes no memory; constant cost.
    ///
    /// Own.
    pub fn has_hook(&self, side: SideId) -> bool
        ensures { result ≡ list_any (λ x. same_end x side) self.now.hooks }
    {
        let number = side.number();
        number < self.hooked.len() && self.hooked[number]
    }

    /// A reason becomes due for a side that has a hook. It joins the side's pending entry where it has one, and else makes a new
    /// one behind the others. Takes no memory; constant cost.
    ///
    /// Libevent: bufferevent-internal.h, deferred callbacks.
    pub fn raise(&mut self, side: SideId, why: Why)
        requires { list_any (λ x. same_end x side) self.old.hooks ≡ true }
        ensures { self.new ≡ record self.old { due = with_reason side why self.old.due } }
    {
        self.waiting.schedule(number_of(side), why);
    }

    /// Whether no reason is pending. What is left of the batch doesn't count. Takes no memory; constant cost.
    ///
    /// Own.
    pub fn is_quiet(&self) -> bool
        ensures { result ≡ (length self.now.due == 0) }
    {
        self.waiting.is_empty()
    }

    /// Makes what is pending the batch. It is asked that the batch is used up. No more sides have an entry than have a hook. Takes no memory; the cost is in the number of
    /// pending entries.
    ///
    /// Own.
    pub fn begin(&mut self)
        requires { self.old.batch ≡ [] }
        ensures begun { self.new ≡ record self.old { due = []; batch = batch_of self.old.due } }
        ensures few { length self.old.due ≤ length self.old.hooks }
    {
        mem::swap(&mut self.waiting, &mut self.firing);
        self.firing.begin();
    }

    /// Takes the next reason of the batch, with its side. None where the batch is used up. Takes no memory; constant cost.
    ///
    /// Own.
    pub fn next(&mut self) -> Option<(SideId, Why)>
        ensures used_up { IfNone result (self.old.batch ≡ []) }
        ensures unchanged { IfNone result (self.new ≡ self.old) }
        ensures next { IfSome result (λ reason. self.old.batch ≡ reason ∷ self.new.batch) }
        ensures rest { self.new ≡ record self.old { batch = self.new.batch } }
    {
        let (number, why) = self.firing.take_turn()?;
        Some((side_with(number), why))
    }

    /// Drops all that waits of a side: its pending entry, its reasons in the batch and its timer. Takes no memory. The cost is
    /// constant for a side without a hook and without a timer. A hook costs the number of entries of the batch, and of those that
    /// are pending where the side has one; a timer what cancelling it costs.
    ///
    /// Own.
    pub fn forget(&mut self, side: SideId)
        ensures { self.new ≡ record self.old {
          due = without_due side self.old.due;
          batch = without_reasons side self.old.batch;
          timers = without_timer side self.old.timers;
        } }
    {
        let hooked = self.has_hook(side);
        self.timers.cancel(side);
        if !hooked {
            return;
        }
        let number = number_of(side);
        self.waiting.forget(number);
        self.firing.forget(number);
    }

    /// Sets the timer of a side to a deadline, in milliseconds; it takes the place of the one that the side has. It comes behind
    /// those with the same deadline. Takes memory; logarithmic in the number of timers.
    ///
    /// Refused for want of memory, and once 2^64 - 1 timers were set; then nothing has changed.
    ///
    /// Own.
    pub fn set_timer(&mut self, side: SideId, deadline: u64) -> Result<(), NoMemory>
        ensures ok { OnOk result (self.new ≡ record self.old {
          timers = placed (record { side = side; deadline = deadline }) (without_timer side self.old.timers);
        }) }
        ensures err { OnErr result (self.new ≡ self.old) }
    {
        self.timers.set(side, deadline)
    }

    /// Takes the timer of a side out, where it has one. Takes no memory; constant cost where it has none, and else what setting
    /// one costs.
    ///
    /// Own.
    pub fn cancel_timer(&mut self, side: SideId)
        ensures { self.new ≡ record self.old { timers = without_timer side self.old.timers } }
    {
        self.timers.cancel(side)
    }

    /// Takes out the first timer whose deadline is at most now, in milliseconds, and answers its side: None where none is due.
    /// Takes no memory; logarithmic in the number of timers.
    ///
    /// Own.
    pub fn take_due(&mut self, now: u64) -> Option<SideId>
        ensures none_due { IfNone result (due_by now self.old.timers ≡ []) }
        ensures all_later { IfNone result (self.old.timers ≡ due_after now self.old.timers) }
        ensures unchanged { IfNone result (self.new ≡ self.old) }
        ensures first { IfSome result (λ e. IsFirstDue now e self.old.timers self.new.timers) }
        ensures later { due_after now self.new.timers ≡ due_after now self.old.timers }
        ensures rest { self.new ≡ record self.old { timers = self.new.timers } }
    {
        self.timers.take_due(now)
    }

    /// The earliest deadline of all timers, or None where none waits. Takes no memory; logarithmic in the number of timers.
    ///
    /// Own.
    pub fn next_deadline(&self) -> Option<u64>
        ensures { result ≡ earliest (map (λ x. x.deadline) self.now.timers) }
    {
        self.timers.next_deadline()
    }
}
