// One direction of a bucket. What ticks bring to it is left to the bucket.
ghost use Rattle.std.specs.Prelude.{◌≡◌, ◌≤◌, ◌+◌, ◌-◌, ◌^◌, pos, ◌-ℤ◌};

/// What a bucket holds in one direction: its burst, less the bytes that it is short of it. It is overdrawn where it is short of
/// more than its burst.
///
/// Libevent: ratelim-internal.h, `read_limit` and `write_limit` of `ev_token_bucket`.
/// Differs: kept as what is missing, so that no number is below 0.
#[derive(Clone, Copy, Debug, PartialEq, Eq)]
pub struct Level {
    pub(crate) burst: u64,
    pub(crate) short: u64,
}

impl Level {
    /// Bytes for one tick, of a burst.
    pub(crate) fn at_rate(rate: u64, burst: u64) -> Level
        requires { rate ≤ burst }
        ensures { result ≡ record { burst = burst; short = burst - rate } }
    {
        Level {
            burst,
            short: burst - rate,
        }
    }

    /// Takes a burst, which cuts a fuller level, after some bytes came.
    pub(crate) fn take_burst(&mut self, burst: u64, bytes: u64)
        requires burst { burst ≤ 2 ^ 40 }
        requires old { self.old.burst ≤ 2 ^ 40 }
        requires short { self.old.short ≤ self.old.burst + 2 ^ 40 }
        ensures { self.new ≡ record { burst = burst; short = (burst + self.old.short) - (self.old.burst + bytes) } }
    {
        let held = self.burst.saturating_add(bytes);
        self.short = (burst + self.short).saturating_sub(held);
        self.burst = burst;
    }

    /// The signed number of bytes.
    pub(crate) fn bytes(&self) -> i64
        requires burst { self.now.burst ≤ 2 ^ 40 }
        requires short { self.now.short ≤ self.now.burst + 2 ^ 40 }
        ensures { result ≡ (pos self.now.burst -ℤ pos self.now.short) }
    {
        self.burst as i64 - self.short as i64
    }
}
