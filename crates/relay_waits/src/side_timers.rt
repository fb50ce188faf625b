// The timers of sides, at most one of each.
ghost use Rattle.std.specs.Prelude.{◌≡◌, [], map, IfNone, IfSome, OnOk, OnErr};
ghost use Rattle.relay_model.specs.Plain.{placed, without_timer};
ghost use Rattle.relay_model.specs.Moments.{earliest};
ghost use Rattle.relay_waits.specs.WaitsValue.{due_by, due_after, IsFirstDue};

use crate::numbered::{number_of, side_with};
use ev_types::{NoMemory, SideId};
use indexmap::IndexMap;
use min_timer::{TimerKey, Timers};
use std::alloc::Global;
use std::marker::Model;

/// The timers of sides. A side has at most one, whose handle is kept by the side's number.
#[derive(Drop)]
pub(crate) struct SideTimers {
    timers: Timers,
    handles: IndexMap<u64, TimerKey>,
}

impl Model for SideTimers {
    ghost use Rattle.std.specs.Prelude.{List};
    ghost use Rattle.relay_model.specs.Plain.{Timer};

    ghost Value = { List Timer };

    ghost use Rattle.relay_waits.specs.SideTimersView.{side_timers, KeepsTimers};

    ghost view = { side_timers };

    ghost invariant = { KeepsTimers };
}

impl SideTimers {
    /// No timers. Takes no memory; constant cost.
    pub(crate) fn new(alloc: Global) -> SideTimers
        ensures { result ≡ [] }
    {
        SideTimers {
            timers: Timers::new(alloc),
            handles: IndexMap::new(alloc),
        }
    }

    /// A timer of a side comes in the place of the one that it has. The room is made first, then the new timer is added, and
    /// then the old one is cancelled.
    pub(crate) fn set(&mut self, side: SideId, deadline: u64) -> Result<(), NoMemory>
        ensures ok { OnOk result (self.new ≡ placed (record { side = side; deadline = deadline }) (without_timer side self.old)) }
        ensures err { OnErr result (self.new ≡ self.old) }
    {
        let number = number_of(side);
        self.handles.reserve(1)?;
        let Ok(handle) = self.timers.add(deadline, number) else {
            return Err(NoMemory);
        };
        if let Some(before) = self.handles.insert(number, handle).unwrap() {
            let _ = self.timers.cancel(before);
        }
        Ok(())
    }

    /// The timer of a side, where it has one, is taken out.
    pub(crate) fn cancel(&mut self, side: SideId)
        ensures { self.new ≡ without_timer side self.old }
    {
        let number = number_of(side);
        if let Some(handle) = self.handles.swap_remove(&number) {
            let _ = self.timers.cancel(handle);
        }
    }

    /// The first timer, where it is due, is taken out; its side.
    pub(crate) fn take_due(&mut self, now: u64) -> Option<SideId>
        ensures none_due { IfNone result (due_by now self.old ≡ []) }
        ensures all_later { IfNone result (self.old ≡ due_after now self.old) }
        ensures unchanged { IfNone result (self.new ≡ self.old) }
        ensures first { IfSome result (λ e. IsFirstDue now e self.old self.new) }
        ensures later { due_after now self.new ≡ due_after now self.old }
    {
        let (number, _) = self.timers.take_due(now)?;
        let _ = self.handles.swap_remove(&number);
        Some(side_with(number))
    }

    /// The earliest deadline.
    pub(crate) fn next_deadline(&self) -> Option<u64>
        ensures { result ≡ earliest (map (λ x. x.deadline) self.now) }
    {
        self.timers.next_deadline()
    }
}
