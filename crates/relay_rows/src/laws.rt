// What a replay says of the relation on traces.
ghost use Rattle.relay_rows.specs.Laws.{ReplayedIsReached, RestIsReached, AllLiesAhead, RefusedIsIllegal};

/// A trace that is replayed is legal: it can lead to the state of the replay, and to the stage in which that comes to rest.
///
/// Own.
pub fn what_is_replayed_is_legal()
    ensures replayed { ReplayedIsReached }
    ensures rest { RestIsReached }
{}

/// A replayed trace leads nowhere but to the state of the replay and on from there by silent steps.
///
/// Own.
pub fn one_state_is_reached()
    ensures { AllLiesAhead }
{}

/// An event that the replay refuses behind a trace makes it illegal.
///
/// Own.
pub fn what_is_refused_is_illegal()
    ensures { RefusedIsIllegal }
{}
