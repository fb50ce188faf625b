// The laws that every legal trace obeys, each on a function whose contract it is.
ghost use Rattle.relay_model.specs.Causes.{AskedFreesAreNext, ClosingFreesFaulty, FailedAreFreedSo, FaultsAreAnswered, FaultsAreFreed};
ghost use Rattle.relay_model.specs.Causes.{FaultyAreFreed, FreesAreCalledFor, FreesHaveCauses, NothingIsLeft, PlacesAreFirst};
ghost use Rattle.relay_model.specs.Onward.{AllOnOneWay};
ghost use Rattle.relay_model.specs.Quiet.{LegalIsQuiet};
ghost use Rattle.relay_model.specs.Still.{FreedAreStill, FreedStandStill};
ghost use Rattle.relay_model.specs.Told.{FreesTellTotals, LinksInOrder, StateIsTold, TimeRises};

/// The counts of the plain state, and what it says of each side, are what the trace says that leads to it.
pub fn state_is_told()
    ensures { StateIsTold }
{}

/// The time of a turn is not below that of the turn before, and never above the latest.
pub fn time_rises()
    ensures { TimeRises }
{}

/// Links are opened in the order of their numbers, none left out.
pub fn links_in_order()
    ensures { LinksInOrder }
{}

/// The two numbers of a free are how many bytes were moved from the side and given to its end, also later.
pub fn frees_tell_totals()
    ensures { FreesTellTotals }
{}

/// Behind the free of a side stands nothing of it but its one close, and what its hook asks in the rest of that fire.
pub fn legal_is_quiet()
    ensures { LegalIsQuiet }
{}

/// Each free has the cause that it tells.
pub fn frees_have_causes()
    ensures { FreesHaveCauses }
{}

/// Behind an ask that freed a side stands the record of that free.
pub fn asked_frees_are_next()
    ensures { AskedFreesAreNext }
{}

/// Between turns no live side has failed, timed out or met a bad place: closing freed each of them.
pub fn faults_are_freed()
    ensures { FaultsAreFreed }
{}

/// Between turns closing has nothing left to do: whole directions were ended, done links and sides with no use were freed,
/// and each freed side's end was closed.
pub fn nothing_is_left()
    ensures { NothingIsLeft }
{}

/// The bad place that a side keeps is the first in time that its read filter or its write filter met.
pub fn places_are_first()
    ensures { PlacesAreFirst }
{}

/// Each free is put from a state that calls for it with that cause.
pub fn frees_are_called_for()
    ensures { FreesAreCalledFor }
{}

/// Where closing looks at a live side for its fault, the free with the cause that its faults call for is what follows.
pub fn faults_are_answered()
    ensures { FaultsAreAnswered }
{}

/// A live side with a fault is freed before its turn is over.
pub fn faulty_are_freed()
    ensures { FaultyAreFreed }
{}

/// From a state behind the free of a side on, what was moved from it and whether its direction's filters are finished stay.
pub fn freed_stand_still()
    ensures { FreedStandStill }
{}

/// A trace tells the way that a run took: of any two states to which it leads, one leads to the other with no entry.
pub fn all_on_one_way()
    ensures { AllOnOneWay }
{}

/// Wherever a free stands in a trace, they are the same in any state there and any that the whole leads to, and the free told
/// how many bytes were moved.
pub fn freed_are_still()
    ensures { FreedAreStill }
{}

/// A side that failed is freed for that, or by a hook, whatever else it is.
pub fn failed_are_freed_so()
    ensures { FailedAreFreedSo }
{}

/// A live side that is faulty as closing begins is freed in it with the cause that its faults call for.
pub fn closing_frees_faulty()
    ensures { ClosingFreesFaulty }
{}
