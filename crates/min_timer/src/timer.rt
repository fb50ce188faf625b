// A timer that waits.
ghost use Rattle.std.specs.Prelude.{◌≡◌};
ghost use Rattle.min_timer.specs.Order.{is_earlier};

use crate::key::TimerKey;

/// A timer that waits. Clauses speak of it; no call hands one out.
#[derive(Clone, Copy)]
pub struct Timer {
    pub(crate) deadline: u64,
    pub(crate) key: u64,
    pub(crate) handle: TimerKey,
}

impl Timer {
    /// Does it come due before the other?
    pub(crate) fn is_earlier(&self, other: &Timer) -> bool
        ensures { result ≡ is_earlier self.now other.now }
    {
        self.deadline < other.deadline
            || (self.deadline == other.deadline && self.handle.stamp < other.handle.stamp)
    }
}
