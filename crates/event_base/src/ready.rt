// Which events are active: a queue for each priority, and the place of each event. Why an event is active, and what its
// callback changes, stands elsewhere.
ghost use Rattle.std.specs.Prelude.{◌≡◌, ◌≤◌, ◌<◌, ◌+◌, ◌^◌, ℕ, List, [], Ok, Err, Some, None, true, length, slice_set, IfOk, IfErr, OnOk};
ghost use Rattle.std.specs.Prelude.{OnErr, IsOk, if◌then◌else◌};
ghost use Rattle.event_base.specs.Rising.{at};
ghost use Rattle.event_base.specs.Ready.{IsFront, IsNext, IsLeast, CanWake, woken, CanAppend, appended_all, orders};
ghost use Rattle.event_base.specs.Ready.{priorities as priorities_of};
ghost use Rattle.prio_queue.specs.Queues.{is_count};

use prio_queue::{Active, PrioFault};
use std::alloc::{AllocError, Global};
use std::marker::Model;

/// Where an active event stands: its priority, and its order number of activation.
#[derive(Clone, Copy)]
pub struct Place {
    pub priority: u32,
    pub order: u64,
}

/// An event that is to become active, by its number, and its priority.
#[derive(Clone, Copy)]
pub struct Waking {
    pub event: u64,
    pub priority: u32,
}

/// The active events.
///
/// Libevent: event-internal.h, `activequeues`.
#[derive(Drop)]
pub struct Ready {
    active: Active,
    places: Vec<Option<Place>>,
    next: u64,
}

impl Model for Ready {
    ghost use Rattle.event_base.specs.Ready.{ReadyValue};

    ghost Value = { ReadyValue };

    ghost use Rattle.event_base.specs.ReadyView.{ready_of, IsReady};

    ghost view = { ready_of };

    ghost invariant = { IsReady };
}

impl Ready {
    /// No event is known. BadPriority comes for no priorities and for more than 256. Takes memory.
    pub fn new(alloc: Global, priorities: u32) -> Result<Ready, PrioFault>
        ensures ok { IfOk result (λ ready. (is_count priorities ≡ true)
            × (ready ≡ record { priorities = priorities; places = []; next = 0 })) }
        ensures refused { IfErr result (λ fault. fault ≡ (if is_count priorities then PrioFault.Memory else PrioFault.BadPriority)) }
    {
        let active = Active::new(alloc, priorities)?;
        Ok(Ready {
            active,
            places: Vec::new(alloc),
            next: 0,
        })
    }

    /// The number of priorities.
    pub fn priorities(&self) -> u32
        ensures { result ≡ self.now.priorities }
    {
        self.active.priorities()
    }

    /// The next order number of activation.
    pub fn next(&self) -> u64
        ensures { result ≡ self.now.next }
    {
        self.next
    }

    /// Makes room for so many events, none of the new ones active. Takes memory.
    pub fn grow(&mut self, count: usize) -> Result<(), AllocError>
        ensures places { (k : ℕ) → at self.new.places k ≡ at self.old.places k }
        ensures room { OnOk result (count ≤ length self.new.places) }
        ensures already { count ≤ length self.old.places → IsOk result }
        ensures stays { length self.old.places ≤ length self.new.places }
        ensures priorities { self.new.priorities ≡ self.old.priorities }
        ensures next { self.new.next ≡ self.old.next }
    {
        while self.places.len() < count {
            self.places.push(None)?;
        }
        Ok(())
    }

    /// The priority of the most urgent active event.
    pub fn first_priority(&self) -> Option<u32>
        ensures { IsLeast (priorities_of self.now.places) result }
    {
        self.active.first_queue()
    }

    /// The event of this priority that was made active first, if its order number is below the end.
    pub fn next_before(&self, priority: u32, end: u64) -> Option<u64>
        ensures { IsNext priority end self.now.places result }
    {
        let Some(first) = self.active.front(priority) else {
            return None;
        };
        match place_at(&self.places, first) {
            Some(place) if place.order < end => Some(first),
            _ => None,
        }
    }

    /// Makes an event inactive, if it is active. Takes no memory.
    pub fn rest(&mut self, event: u32)
        ensures { self.new ≡ record self.old { places = slice_set self.old.places event None } }
    {
        let Some(place) = self.places.get_mut(event as usize) else {
            return;
        };
        if place.is_some() {
            *place = None;
            self.active.remove(u64::from(event));
        }
    }

    /// Makes an event inactive unless it stays active. Takes no memory.
    pub fn rest_unless(&mut self, event: u32, stays: bool)
        ensures { self.new ≡ record self.old {
          places = if stays then self.old.places else slice_set self.old.places event None;
        } }
    {
        if !stays {
            self.rest(event);
        }
    }

    /// Makes the front of this priority inactive. Takes no memory.
    fn rest_front(&mut self, priority: u32, event: u32)
        requires { IsFront priority self.old.places (Some event) }
        ensures { self.new ≡ record self.old { places = slice_set self.old.places event None } }
    {
        let _ = self.active.pop(priority);
        self.places[event as usize] = None;
    }

    /// Makes the front of this priority inactive unless it stays active. Takes no memory.
    pub fn rest_front_unless(&mut self, priority: u32, event: u32, stays: bool)
        requires { IsFront priority self.old.places (Some event) }
        ensures { self.new ≡ record self.old {
          places = if stays then self.old.places else slice_set self.old.places event None;
        } }
    {
        if !stays {
            self.rest_front(priority, event);
        }
    }

    /// Makes events active one after another, or none of them. Takes memory.
    pub fn wake_all(&mut self, waking: &[Waking]) -> Result<(), PrioFault>
        requires can { CanWake self.old.priorities self.old.places self.old.next waking.now }
        requires fits { self.old.next + length waking.now < 2 ^ 64 }
        ensures ok { OnOk result (self.new ≡ record self.old {
          places = woken self.old.places self.old.next waking.now;
          next = self.old.next + length waking.now;
        }) }
        ensures refused { IfErr result (λ fault. (fault ≡ PrioFault.Memory) × (self.new ≡ self.old)) }
        ensures some { OnErr result (0 < length waking.now) }
    {
        append_all(&mut self.active, waking)?;
        for w in waking {
            self.places[w.event as usize] = Some(Place {
                priority: w.priority,
                order: self.next,
            });
            self.next += 1;
        }
        Ok(())
    }
}

/// Appends events one after another, or none of them. Takes memory.
fn append_all(active: &mut Active, waking: &[Waking]) -> Result<(), PrioFault>
    requires { CanAppend active.old waking.now }
    ensures ok { OnOk result (active.new ≡ appended_all active.old waking.now) }
    ensures refused { IfErr result (λ fault. (fault ≡ PrioFault.Memory) × (active.new ≡ active.old)) }
    ensures some { OnErr result (0 < length waking.now) }
{
    for at in 0..waking.len() {
        let w = waking[at];
        if let Err(fault) = active.append(w.priority, w.event) {
            take_back(active, &waking[..at]);
            return Err(fault);
        }
    }
    Ok(())
}

/// Takes back the events that were appended last. Takes no memory.
fn take_back(active: &mut Active, waking: &[Waking])
    ensures { (queues : List (List ℕ)) → CanAppend queues waking.now
        → active.old ≡ appended_all queues waking.now → active.new ≡ queues }
{
    let mut left = waking.len();
    while left > 0 {
        left -= 1;
        let _ = active.pop_last(waking[left].priority);
    }
}

/// The place of an event, if it is active.
fn place_at(places: &[Option<Place>], event: u64) -> Option<Place>
    ensures { result ≡ at places.now event }
{
    places.get(event as usize).copied().flatten()
}
