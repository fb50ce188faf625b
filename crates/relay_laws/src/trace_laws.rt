// What the traces tell that a relay and a script have in common.
ghost use Rattle.relay_laws.specs.Frees.{FreesAreFor, NothingIsOfHooks};
ghost use Rattle.relay_laws.specs.Links.{DoneIsWhole, FreesAreRecordedAtOnce, LinksAreTold};
ghost use Rattle.relay_laws.specs.Plainly.{PlainlyHandsOn};
ghost use Rattle.relay_laws.specs.Spelling.{ReadsFitAsScripted, StoodIsSpellable};
ghost use Rattle.relay_laws.specs.Underway.{BufferedIsUnderway};

/// Wherever a turn may answer, every free is recorded; and where no side has a hook, everywhere.
pub fn frees_are_recorded_at_once()
    ensures { FreesAreRecordedAtOnce }
{}

/// Where no side has a hook, no hook is fired and none asks.
pub fn nothing_is_of_hooks()
    ensures { NothingIsOfHooks }
{}

/// A relay has the links that a trace opens. A link lives until both of its sides were freed; then it is done where both were
/// freed as done, and else it is gone. So it is where all frees are recorded.
pub fn links_are_told()
    ensures { LinksAreTold }
{}

/// Where a link is done, each side was given all that the filters make of what was read at the other, with their ends.
pub fn done_is_whole()
    ensures { DoneIsWhole }
{}

/// The buffers of live sides hold exactly the bytes that are under way: what was read or made by a filter and not moved, and what was
/// moved or made and not given. With no filters, where all frees are recorded and both sides of a link live, that is what was read at either and not given to
/// the other.
pub fn buffered_is_underway()
    ensures { BufferedIsUnderway }
{}

/// With no hooks, timeouts and filters a side is freed for one of three causes: writing was ended at both sides of its link, its
/// end failed in this turn, or its peer was freed and all that was moved from there was given to it.
pub fn frees_are_for()
    ensures { FreesAreFor }
{}

/// Where every answer is a script's, no more is read than the script brings in: what was read are bytes, of which there are not
/// too many to count.
pub fn reads_fit_as_scripted()
    ensures { ReadsFitAsScripted }
{}

/// A trace for which a relay stands can be spelled as text and read back, where what hooks ask can be: its numbers fit their fields, a
/// want and a mark name a direction, and beside each entry stand exactly the bytes that were got or taken.
pub fn stood_is_spellable()
    ensures { StoodIsSpellable }
{}

/// Where no filter is set, what the filters make of what was read is what was read.
pub fn plainly_hands_on()
    ensures { PlainlyHandsOn }
{}
