// What holds over any calls on a base, by what each call's clauses say.
ghost use Rattle.event_base.specs.BaseLaws.{DeletedIsQuiet, FreedIsGone, PersistentIsSetAgain, TimersFireInOrder};

/// A deleted event has no callback until it is added or made active by its number.
///
/// Libevent: event2/event.h, `event_del`.
pub fn deleted_events_are_quiet()
    ensures { DeletedIsQuiet }
{}

/// A freed event has no callback more, and no call finds it, whatever calls follow.
///
/// Libevent: event2/event.h, `event_free`.
pub fn freed_events_are_gone()
    ensures { FreedIsGone }
{}

/// A persistent timer is set again as its callback starts, a delay behind its deadline where that is not past.
///
/// Libevent: event2/event.h, `EV_PERSIST`.
pub fn persistent_timers_are_set_again()
    ensures { PersistentIsSetAgain }
{}

/// Of two timers of one priority that are due in a turn the one with the earlier deadline has its call first, and of equal
/// deadlines the one that was added before.
///
/// Libevent: event-internal.h, `timeheap`.
/// Differs: equal deadlines keep the order of adding.
pub fn timers_fire_in_order()
    ensures { TimersFireInOrder }
{}
