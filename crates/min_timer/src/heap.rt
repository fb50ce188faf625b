// The timers that wait, in a heap by when they come due: below each place are four, so that a timer goes down half as many steps as in
// a binary heap. The invariants:
// 1. no timer comes due before the one above it;
// 2. the slot of each timer holds its place;
// 3. there are as many slots in use as timers;
// 4. no two timers have the same stamp.
ghost use Rattle.std.specs.Prelude.{◌≡◌, ◌<◌, ◌++◌, ◌∷◌, [], All, drop, slice_get, IfOk, OnErr};

use crate::due::due_keys;
use crate::key::TimerKey;
use crate::sift::{place_of, push, take};
use crate::timer::Timer;
use slab::Slab;
use std::alloc::{AllocError, Global};
use std::marker::Model;

/// Timers that wait, in the order in which they come due.
#[derive(Drop)]
pub(crate) struct Heap {
    timers: Vec<Timer>,
    places: Slab<usize>,
}

impl Model for Heap {
    ghost use Rattle.std.specs.Prelude.{List};
    ghost use Rattle.min_timer.specs.declared.timer.Timer.{Timer};
    ghost use Rattle.min_timer.specs.Order.{in_order, IsKept};

    ghost Value = { List Timer };

    ghost view = { λ h. in_order h.timers.items };

    ghost invariant = { λ h. IsKept h.timers.items h.places };
}

impl Heap {
    ghost use Rattle.min_timer.specs.Queue.{timer_of, without, with_timer, due_keys};

    /// No timers.
    pub(crate) fn new(alloc: Global) -> Heap
        ensures { result ≡ [] }
    {
        Heap {
            timers: Vec::new(alloc),
            places: Slab::new(alloc),
        }
    }

    /// The timer that comes due first.
    pub(crate) fn first(&self) -> Option<Timer>
        ensures { result ≡ slice_get self.now 0 }
    {
        self.timers.first().copied()
    }

    /// Adds a timer whose stamp is above all others, and hands out its handle.
    pub(crate) fn push(
        &mut self,
        deadline: u64,
        stamp: u64,
        key: u64,
    ) -> Result<TimerKey, AllocError>
        requires newest { All (λ timer. timer.handle.stamp < stamp) self.old }
        ensures added { IfOk result (λ handle. self.new
            ≡ with_timer (record { deadline = deadline; key = key; handle = handle }) self.old) }
        ensures stamped { IfOk result (λ handle. handle.stamp ≡ stamp) }
        ensures err { OnErr result (self.new ≡ self.old) }
    {
        self.places.reserve(1)?;
        self.timers.reserve(1)?;
        Ok(push(&mut self.timers, &mut self.places, deadline, stamp, key))
    }

    /// Takes the timer of this handle out, if it waits.
    pub(crate) fn remove(&mut self, handle: TimerKey) -> Option<Timer>
        ensures found { result ≡ timer_of handle self.old }
        ensures left { self.new ≡ without handle self.old }
    {
        let at = place_of(&self.timers, &self.places, handle)?;
        Some(take(&mut self.timers, &mut self.places, at))
    }

    /// Takes the first timer out.
    pub(crate) fn pop(&mut self) -> Option<Timer>
        ensures first { result ≡ slice_get self.old 0 }
        ensures left { self.new ≡ drop 1 self.old }
    {
        if self.timers.is_empty() {
            return None;
        }
        Some(take(&mut self.timers, &mut self.places, 0))
    }

    /// The keys of the timers that are due, in the order in which they come due.
    pub(crate) fn due(&self, alloc: Global, time: u64) -> Result<Vec<u64>, AllocError>
        ensures { IfOk result (λ keys. keys.items ≡ due_keys time self.now) }
    {
        due_keys(&self.timers, alloc, time)
    }
}
