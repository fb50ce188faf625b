// The laws of scripts of buffers, each on a function whose contract it is.
ghost use Rattle.buffers_mode.specs.Laws.{ScriptsAreNeverSpent};

/// A text of at most 2^24 bytes is never spent: no length and no number of a callback comes to one that does not fit.
///
/// Own.
pub fn scripts_are_never_spent()
    ensures { ScriptsAreNeverSpent }
{}
