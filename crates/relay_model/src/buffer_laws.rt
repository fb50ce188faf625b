// Laws on what the four buffers of a direction hold, each on a function whose contract it is.
ghost use Rattle.relay_model.specs.Bounds.{BuffersAreWithin};
ghost use Rattle.relay_model.specs.Fitting.{CountsFit};
ghost use Rattle.relay_model.specs.Passed.{AllIsPassed};
ghost use Rattle.relay_model.specs.SoFar.{BuffersAreWithinSoFar};

/// In every state that a trace leads to, no count of a direction passes what is there for it.
pub fn counts_fit()
    ensures { CountsFit }
{}

/// Between two turns, a direction between live sides that isn't held has its first three buffers empty, and where its source has
/// ended both of its filters are finished; a held one has more than half of the hold mark in its raw output.
pub fn all_is_passed()
    ensures { AllIsPassed }
{}

/// With no hooks, each of the four buffers of a direction stays within its mark, and one byte or none more, in every state
/// that a trace leads to; and so do all four together.
pub fn buffers_are_within()
    ensures { BuffersAreWithin }
{}

/// Whatever hooks ask, the buffers stay within the greatest read mark and the greatest hold mark that their sides had so far: those
/// of the settings, and those that hooks set.
pub fn buffers_are_within_so_far()
    ensures { BuffersAreWithinSoFar }
{}
