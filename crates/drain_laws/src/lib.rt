//! That closing turns bring every link of a script to its end, within a stated number of them. The laws stand on functions that do nothing.
#![tactic(auto)]

ghost use Rattle.drain_laws.specs.DrainBound.{ClosingTurnsAreFew, CountsAreAsTold, DrainedLinksAreDone};
ghost use Rattle.drain_laws.specs.DrainBound.{FreesAreOfDone, MostIsBounded, UnreadIsPending};

/// What a relay counts in buffers, and as open links, is what the words of the closing turns say.
pub fn counts_are_as_told()
    ensures { CountsAreAsTold }
{}

/// In a run over a script that can be drained each free is of a side that is done.
pub fn frees_are_of_done()
    ensures { FreesAreOfDone }
{}

/// Once all turns of a script were begun, the bytes that were not read are those that are pending at the ends of its links.
pub fn unread_is_pending()
    ensures { UnreadIsPending }
{}

/// The most closing turns of a run are no more than 4, and 32 for each byte that its script brings in, and 72 for each of its links.
pub fn most_is_bounded()
    ensures { MostIsBounded }
{}

/// Closing turns of which no two in a row pass without an event that moves on are few, by what was left to read, to pass and to close.
pub fn closing_turns_are_few()
    ensures { ClosingTurnsAreFew }
{}

/// Over a script that can be drained, closing turns bring every link to its end, before there are as many as the most.
pub fn drained_links_are_done()
    ensures { DrainedLinksAreDone }
{}
