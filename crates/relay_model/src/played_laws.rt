// Laws on what a relay stands for, on what ties a port to a trace, and on runs over scripts.
ghost use Rattle.relay_model.specs.Plays.{AnswersGoOn, ReadsWhatComes, TurnTakesAll};
ghost use Rattle.relay_model.specs.Polls.{PollsFailAsScripted};
ghost use Rattle.relay_model.specs.Stands.{NothingStands};
ghost use Rattle.relay_model.specs.StandsLaws.{BuffersHoldTheRest, BytesGivenBegin, ClosedIsWhole, FreeAccountsForTheRest};
ghost use Rattle.relay_model.specs.Tied.{EndTiesJoin, NothingIsTied};

/// Before the first turn a relay stands for the trace of no entries.
pub fn nothing_stands()
    ensures { NothingStands }
{}

/// Whatever happens, the bytes given to each side of each link begin what the filters make of the bytes read from its peer.
pub fn bytes_given_begin()
    ensures { BytesGivenBegin }
{}

/// Where writing was ended at a side, it was given all that the filters make of the bytes read from its peer.
pub fn closed_is_whole()
    ensures { ClosedIsWhole }
{}

/// While both sides of a link live, its buffers hold exactly the rest.
pub fn buffers_hold_the_rest()
    ensures { BuffersHoldTheRest }
{}

/// Once a side was freed, what was given to its peer and what waits there are what the free told as moved.
pub fn free_accounts_for_the_rest()
    ensures { FreeAccountsForTheRest }
{}

/// Before anything happened a port is tied to the trace of no entries, whatever it tells.
pub fn nothing_is_tied()
    ensures { NothingIsTied }
{}

/// What an end tells over two traces in a row, it tells over both as one.
pub fn end_ties_join()
    ensures { EndTiesJoin }
{}

/// What a script answers to one step more is answered by the script.
pub fn answers_go_on()
    ensures { AnswersGoOn }
{}

/// In a run over a script, what was read from an end and what is pending there is what the script brought in.
pub fn what_comes_is_read()
    ensures { ReadsWhatComes }
{}

/// A turn that took all links that waited, or as many as it may, keeps what a run over a script asks of all its turns.
pub fn turns_take_all()
    ensures { TurnTakesAll }
{}

/// A turn's poll fails exactly where a line of the script says so, and nothing follows it. So a run ends with a failed poll
/// exactly where a turn that was begun has such a line, but for want of memory before that poll.
pub fn polls_fail_as_scripted()
    ensures { PollsFailAsScripted }
{}
