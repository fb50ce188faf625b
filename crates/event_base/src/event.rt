// What a base keeps of one event, and the flags of its callbacks.
ghost use Rattle.std.specs.Prelude.{◌≡◌, ◌<◌, ◌≤◌, ◌+◌, ◌^◌, Some, None, nat_lt, nat_le, if◌then◌else◌, ◌&&◌, slice_get};
ghost use Rattle.std.specs.Option.{ForSome};
ghost use Rattle.event_base.specs.Events.{made, is_active, activated, added, deleted, freed_event, unless_freed, again, next_deadline};
ghost use Rattle.event_base.specs.Events.{one_less};
ghost use Rattle.event_base.specs.Turns.{is_due, wakes};
ghost use Rattle.event_base.specs.Fires.{hears, is_woken_by, overflows};
ghost use Rattle.event_base.specs.Rousing.{needed};

/// The flag of an event whose timeout fired.
///
/// Libevent: event2/event.h, `EV_TIMEOUT`; "Working with events".
pub const TIMEOUT: u8 = 0x01;

/// The flag of an event that is ready for reading.
///
/// Libevent: event2/event.h, `EV_READ`; "Working with events".
pub const READ: u8 = 0x02;

/// The flag of an event that is ready for writing.
///
/// Libevent: event2/event.h, `EV_WRITE`; "Working with events".
pub const WRITE: u8 = 0x04;

/// The flag of an event whose signal came.
///
/// Libevent: event2/event.h, `EV_SIGNAL`; "Working with events".
pub const SIGNAL: u8 = 0x08;

// Each has its place, and no two have a bit in common: their sum is what they have together.
const _: () = prove!(TIMEOUT | READ | WRITE | SIGNAL == 0x0f);

const _: () = prove!(TIMEOUT + READ + WRITE + SIGNAL == 0x0f);

/// When the timeout of a pending event fires: a moment, the delay by which it is set again, both in
/// milliseconds, and its order number of adding.
///
/// Libevent: event2/event_struct.h, `ev_timeout` and `ev_io_timeout`.
#[derive(Clone, Copy)]
pub struct Timeout {
    pub deadline: u64,
    pub delay: u64,
    pub order: u64,
}

impl Timeout {
    /// The deadline to which the timeout is set again as a callback starts with these flags. None where it is too
    /// great to be kept.
    pub fn next_deadline(&self, time: u64, flags: u8) -> Option<u64>
        requires { time ≤ 2 ^ 62 }
        ensures { result ≡ (if nat_lt (next_deadline time flags self.now) (2 ^ 64)
            then Some (next_deadline time flags self.now) else None) }
    {
        let from = if flags & TIMEOUT == TIMEOUT {
            self.deadline
        } else {
            time
        };
        let next = from.checked_add(self.delay)?;
        if next < time {
            return Some(time + self.delay);
        }
        Some(next)
    }
}

/// Why an event is active: the joined flags, its order number of activation, and how many calls of its
/// callback are owed, at least one.
///
/// Libevent: event2/event_struct.h, `ev_res` and `ev_ncalls`.
#[derive(Clone, Copy)]
pub struct Activation {
    pub flags: u8,
    pub order: u64,
    pub count: u64,
}

/// An event: whether it is pending and until when, its priority, whether it stays pending as its callback
/// starts, its signal, why it is active, and whether it was freed. An event that is not pending has no timeout.
///
/// Libevent: event2/event_struct.h, `event`; "Working with events".
#[derive(Clone, Copy)]
pub struct Event {
    pub pending: bool,
    pub timeout: Option<Timeout>,
    pub priority: u32,
    pub persist: bool,
    pub signal: Option<u32>,
    pub active: Option<Activation>,
    pub freed: bool,
}

impl Event {
    /// A new event: not pending and not active. Takes no memory.
    pub fn made(persist: bool, signal: Option<u32>, priority: u32) -> Event
        ensures { result ≡ made persist signal priority }
    {
        Event {
            pending: false,
            timeout: None,
            priority,
            persist,
            signal,
            active: None,
            freed: false,
        }
    }

    /// Is the event active?
    pub fn is_active(&self) -> bool
        ensures { result ≡ is_active self.now }
    {
        self.active.is_some()
    }

    /// How many order numbers its activation takes: one, where it isn't active yet.
    pub fn needed(&self) -> u64
        ensures { result ≡ needed self.now }
    {
        if self.is_active() { 0 } else { 1 }
    }

    /// Does it become active by its timeout, which it is not yet?
    pub fn wakes(&self, time: u64) -> bool
        ensures { result ≡ wakes time self.now }
    {
        self.is_due(time) && !self.is_active()
    }

    /// Does it become active by the signal, which it is not yet?
    pub fn is_woken_by(&self, number: u32) -> bool
        ensures { result ≡ is_woken_by number self.now }
    {
        self.hears(number) && !self.is_active()
    }

    /// Is its deadline at most this time?
    pub fn is_due(&self, time: u64) -> bool
        ensures { result ≡ is_due time self.now }
    {
        match self.timeout {
            Some(timeout) => timeout.deadline <= time,
            None => false,
        }
    }

    /// Is it pending, and of this signal?
    pub fn hears(&self, number: u32) -> bool
        ensures { result ≡ hears number self.now }
    {
        match self.signal {
            Some(signal) => self.pending && signal == number,
            None => false,
        }
    }

    /// Would the calls that it owes pass what is counted?
    pub fn overflows(&self, number: u32, count: u32) -> bool
        ensures { result ≡ overflows number count self.now }
    {
        match self.active {
            Some(active) => self.hears(number) && active.count > u64::MAX - u64::from(count),
            None => false,
        }
    }

    /// Gives it a flag more; where it isn't active yet, this order number and so many first calls, else so many calls
    /// more.
    pub fn activate(&mut self, flag: u8, order: u64, first: u64, more: u64)
        requires { 0 < more → ForSome self.old.active (λ a. a.count + more < 2 ^ 64) }
        ensures { self.new ≡ activated flag order first more self.old }
    {
        let joined = match self.active {
            Some(active) => Activation {
                flags: active.flags | flag,
                order: active.order,
                count: active.count + more,
            },
            None => Activation {
                flags: flag,
                order,
                count: first,
            },
        };
        self.active = Some(joined);
    }

    /// The event as it is added without a timeout.
    pub fn added(self) -> Event
        ensures { result ≡ added None self }
    {
        Event {
            pending: true,
            ..self
        }
    }

    /// Adds it with a timeout.
    pub fn add_until(&mut self, timeout: Timeout)
        ensures { self.new ≡ added (Some timeout) self.old }
    {
        self.pending = true;
        self.timeout = Some(timeout);
        if let Some(active) = self.active {
            if active.flags & TIMEOUT == TIMEOUT {
                self.active = None;
            }
        }
    }

    /// The event as it is deleted.
    pub fn deleted(self) -> Event
        ensures { result ≡ deleted self }
    {
        Event {
            pending: false,
            timeout: None,
            active: None,
            ..self
        }
    }

    /// The event as it is freed.
    pub fn into_freed(self) -> Event
        ensures { result ≡ freed_event self }
    {
        Event {
            freed: true,
            ..self.deleted()
        }
    }

    /// The timeout that is set again as a callback of it starts.
    pub fn again(&self) -> Option<Timeout>
        ensures { result ≡ again self.now }
    {
        if self.persist { self.timeout } else { None }
    }

    /// A callback of it starts, and a timeout that it had is this one from then on.
    pub fn begin_call(&mut self, active: Activation, timeout: Option<Timeout>)
        ensures { self.new ≡ record self.old {
          pending = self.old.persist && self.old.pending;
          timeout = timeout;
          active = one_less active;
        } }
    {
        let left = if active.count <= 1 {
            None
        } else {
            Some(Activation {
                count: active.count - 1,
                ..active
            })
        };
        self.pending = self.persist && self.pending;
        self.timeout = timeout;
        self.active = left;
    }
}

/// The event with a number, where one was made and not freed.
pub fn live_event(events: &[Event], event: usize) -> Option<Event>
    ensures live { result ≡ unless_freed (slice_get events.now event) }
    ensures there { ForSome result (λ e. slice_get events.now event ≡ Some e) }
{
    match events.get(event) {
        Some(kept) if !kept.freed => Some(*kept),
        _ => None,
    }
}

/// The event with a number, where one was made.
pub fn event_at(events: &[Event], event: usize) -> Option<Event>
    ensures { result ≡ slice_get events.now event }
{
    events.get(event).copied()
}
