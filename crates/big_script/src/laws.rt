// Laws on generated scripts, each on a function whose contract it is.
ghost use Rattle.big_script.specs.BigLaws.{BigGroupsAreSet, BigScriptsAreBig, BigScriptsAreDrainable};

/// A generated script of so many links has 12 turns, opens that many links, names no other, and brings in 3,000 bytes for each.
pub fn big_scripts_are_big()
    ensures { BigScriptsAreBig }
{}

/// Each end of its links has its end in it, no read of one fails, and no link is refused.
pub fn big_scripts_are_drainable()
    ensures { BigScriptsAreDrainable }
{}

/// Its groups are in order: it has none, and no side is in one.
pub fn big_groups_are_set()
    ensures { BigGroupsAreSet }
{}
