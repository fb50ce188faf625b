// What each step of a turn keeps, whatever the settings are, each law on a function whose contract it is.
ghost use Rattle.relay_model.specs.StepLaws.{EntriesKeepAccounts, NothingIsAccounted, SilentStepsKeepAccounts};

/// Before the first turn every direction is accounted for.
pub fn nothing_is_accounted()
    ensures { NothingIsAccounted }
{}

/// A silent step keeps every direction accounted for.
pub fn silent_steps_keep_accounts()
    ensures { SilentStepsKeepAccounts }
{}

/// An entry keeps every direction accounted for, where what a write took is the first of what waited.
pub fn entries_keep_accounts()
    ensures { EntriesKeepAccounts }
{}
