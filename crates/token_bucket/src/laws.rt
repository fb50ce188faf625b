// Laws on buckets, each on a function whose contract it is.
ghost use Rattle.token_bucket.specs.BucketLaws.{ChangeKeepsLess, LetsThroughAtMost, LevelIsLeast};

/// What a bucket holds is the least over the refills since its limit was set.
pub fn level_is_least()
    ensures { LevelIsLeast }
{}

/// Another limit keeps the lesser of what the bucket holds and the new burst.
pub fn change_keeps_less()
    ensures { ChangeKeepsLess }
{}

/// Over any stretch of calls at most one burst is let through, and what comes in the ticks that begin.
pub fn lets_through_at_most()
    ensures { LetsThroughAtMost }
{}
