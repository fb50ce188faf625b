// The laws of a script port, each on a function whose contract it is.
ghost use Rattle.script_port.specs.ScriptLaws.{LinesBringBytes, ReadsLoseNothing};
ghost use Rattle.script_port.specs.ScriptPlays.{SpelledNamesOpened, VouchedIsPlayed, NoneWaitsOn, PendingIsScripted};

/// The lines of a script bring in exactly their bytes, in their order.
pub fn lines_bring_bytes()
    ensures { LinesBringBytes }
{}

/// What was given and what is pending is, over a read, one list that stays.
pub fn reads_lose_nothing()
    ensures { ReadsLoseNothing }
{}

/// What a script port vouches for is played from its script, by the run that took all links and told its turns.
pub fn vouched_is_played()
    ensures { VouchedIsPlayed }
{}

/// Where no link waits by a plan, none does once more closing turns are announced.
pub fn none_waits_on()
    ensures { NoneWaitsOn }
{}

/// What is pending at all ends of a script port is what the script has pending there.
pub fn pending_is_scripted()
    ensures { PendingIsScripted }
{}

/// In every script that a text spells a line names a link that was opened before it.
pub fn spelled_scripts_name_opened_links()
    ensures { SpelledNamesOpened }
{}
