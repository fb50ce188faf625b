// The handle of a timer.

/// A handle of one timer: its slot, which a later timer may have again, and a stamp that no other
/// timer ever has. It outlives its timer, and then cancels nothing.
///
/// Own.
#[derive(Clone, Copy, Debug, PartialEq, Eq)]
pub struct TimerKey {
    pub(crate) slot: usize,
    pub(crate) stamp: u64,
}
