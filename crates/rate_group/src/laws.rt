// Laws on groups, each on a function whose contract it is.
ghost use Rattle.rate_group.specs.GroupLaws.{GroupKeepsRate, GroupLevelIsLeast};
ghost use Rattle.rate_group.specs.LawsOverCalls.{LevelsByCalls, MembersByCalls, RatesByCalls, SharesByCalls, SuspensionsByCalls};

/// What a group has left is the least over the refills since it was made.
pub fn group_level_is_least()
    ensures { GroupLevelIsLeast }
{}

/// Over any stretch of calls a group's members together move at most one burst, what comes in the ticks that begin, and less than one
/// least share.
pub fn group_keeps_rate()
    ensures { GroupKeepsRate }
{}

/// After any list of calls a member's group is the one that it went to by the last of its joins, changes and leaves that was answered Ok.
/// A group that was not made has no members.
///
/// Own.
pub fn members_follow_from_calls()
    ensures { MembersByCalls }
{}

/// After any list of calls what a group has left is the least over the refills since it was made, by the bytes that its members moved
/// while they were members.
///
/// Own.
pub fn levels_follow_from_calls()
    ensures { LevelsByCalls }
{}

/// After any list of calls a group is suspended in a direction exactly where it once had nothing left, and had less than the least share
/// at each refill since.
///
/// Own.
pub fn suspensions_follow_from_calls()
    ensures { SuspensionsByCalls }
{}

/// After any list of calls a member's share is 0 where its group is suspended, else what is left of it divided by the number of its
/// members, and no less than the least share. None exactly for no member.
///
/// Own.
pub fn shares_follow_from_calls()
    ensures { SharesByCalls }
{}

/// Over any stretch of any list of calls a group's members together move at most one burst, what comes in the ticks that begin, and less
/// than one least share.
///
/// Own.
pub fn groups_keep_rates()
    ensures { RatesByCalls }
{}
