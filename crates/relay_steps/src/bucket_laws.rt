// Laws on buckets: the one number that a relay keeps of each tells what the model says that it holds. And on groups, of which a relay
// keeps what the model says.
ghost use Rattle.relay_steps.specs.BucketLaws.{GaugesTellLevels, GroupsTellLevels, GroupsTellShares, RunningIsLeast};

/// A bucket's running number, how many bytes it is short of full, is the least over all turns since its limit was set.
pub fn running_is_least()
    ensures { RunningIsLeast }
{}

/// Where a relay stands for a trace, what each bucket of a side holds by its gauge is what the trace says.
pub fn gauges_tell_levels()
    ensures { GaugesTellLevels }
{}

/// Where a relay stands for a trace, each group has as many members as the model counts, holds what the trace says, and is suspended
/// where the trace says so.
pub fn groups_tell_levels()
    ensures { GroupsTellLevels }
{}

/// Where a relay stands for a trace, what a group leaves to a side of it is what the trace says.
pub fn groups_tell_shares()
    ensures { GroupsTellShares }
{}
