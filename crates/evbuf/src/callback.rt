// One size callback of a buffer. Which of them reports next is left to the list.
ghost use Rattle.std.specs.Prelude.{◌≡◌, ◌↔◌, ◌+◌, ◌-◌, ◌<◌, IsTrue, nat_lt, min};

/// One size callback: what it has summed since its last report.
///
/// Own.
#[derive(Clone, Copy, Debug, PartialEq, Eq)]
pub struct SizeCallback {
    pub(crate) number: u32,
    pub(crate) enabled: bool,
    pub(crate) before: u64,
    pub(crate) added: u64,
    pub(crate) deleted: u64,
}

/// What a size callback is told: its number, the length before the first change since its last report, and how many
/// bytes came and went since, each sum at most 2^64 - 1.
///
/// Libevent: event2/buffer.h, `evbuffer_cb_info`; "Evbuffers".
/// Differs: the sums are the callback's own and count what changed while it was enabled.
#[derive(Clone, Copy, Debug, PartialEq, Eq)]
pub struct Report {
    pub cb: u32,
    pub old: u64,
    pub added: u64,
    pub deleted: u64,
}

impl SizeCallback {
    ghost use Rattle.evbuf.specs.Callbacks.{waits, after_change, new_callback, report_of, reported, enabled_at};

    pub(crate) fn new(number: u32) -> SizeCallback
        ensures { result ≡ new_callback number }
    {
        SizeCallback {
            number,
            enabled: true,
            before: 0,
            added: 0,
            deleted: 0,
        }
    }

    // Whether it has a report to make.
    pub(crate) fn waits(&self) -> bool
        ensures { result ≡ waits self.now }
    {
        self.added > 0 || self.deleted > 0
    }

    // Sums a change from a length, while enabled.
    pub(crate) fn change(&mut self, before: u64, came: u64, went: u64)
        ensures { self.new ≡ after_change before came went self.old }
    {
        if !self.enabled || (came == 0 && went == 0) {
            return;
        }
        if !self.waits() {
            self.before = before;
        }
        self.added = self.added.saturating_add(came);
        self.deleted = self.deleted.saturating_add(went);
    }

    // Makes its report, after which nothing is summed.
    pub(crate) fn report(&mut self) -> Report
        ensures report { result ≡ report_of self.old }
        ensures after { self.new ≡ reported self.old }
    {
        let report = Report {
            cb: self.number,
            old: self.before,
            added: self.added,
            deleted: self.deleted,
        };
        self.before = 0;
        self.added = 0;
        self.deleted = 0;
        report
    }

    // Enables or disables it, where it has the number.
    pub(crate) fn enable_at(&mut self, cb: u32, on: bool)
        ensures { self.new ≡ enabled_at cb on self.old }
    {
        if self.number == cb {
            self.enabled = on;
        }
    }
}
