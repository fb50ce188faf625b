// The timers that wait by number are those that the model has by side.
ghost use Rattle.relay_waits.specs.TimerLaws.{TimersArePlaced, TimersAreCancelled, DueAreTheModels, RisingStays, FirstIsEarliest};

/// A timer that is added comes to stand where the model places it.
///
/// Own.
pub fn timers_are_placed()
    ensures { TimersArePlaced }
{}

/// Cancelling the timer of a side's handle takes the side's timer away.
///
/// Own.
pub fn timers_are_cancelled()
    ensures { TimersAreCancelled }
{}

/// Taking the due timers one by one takes the model's due timers, in their order.
///
/// Own.
pub fn due_timers_are_taken()
    ensures taken { DueAreTheModels }
    ensures rising { RisingStays }
{}

/// The first timer has the earliest deadline.
///
/// Own.
pub fn first_is_earliest()
    ensures { FirstIsEarliest }
{}
