// The laws that the definitions obey, each on a function whose contract it is.
ghost use Rattle.relay_model.specs.ConservedLaws.{AllIsThere, GivenBegins, RestAfterFree};
ghost use Rattle.relay_model.specs.PassLaws.{PassingEnds};

/// Whatever happens, the bytes given to an end begin what the filters make of the bytes read from its peer.
pub fn given_begins_the_whole()
    ensures { GivenBegins }
{}

/// While both sides live, what was given, what waits and what the filters will add for it are the whole.
pub fn all_is_there()
    ensures { AllIsThere }
{}

/// After the side was freed, what was given and what waits at its peer are what was moved before.
pub fn rest_is_there_after_a_free()
    ensures { RestAfterFree }
{}

/// Once a round of passing changes nothing, a direction that isn't held has its first three buffers empty, and behind the end of
/// its source both of its filters are finished; a held one has more than half of the hold mark in its raw output.
pub fn passing_leaves_only_what_is_held()
    ensures { PassingEnds }
{}
