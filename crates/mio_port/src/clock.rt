// The port's clock: milliseconds of the system's steady clock since the port was made.
ghost use Rattle.std.specs.Prelude.{◌≡◌, ◌≤◌};
ghost use Rattle.mio_port.specs.WholeMillis.{millis_of};
ghost use Rattle.mio_port.specs.Clock.{after_reading};

use std::time::{Clock, Duration, Instant};

/// Milliseconds since the origin. A reading is never less than an earlier one. Where the system's clock can't be read the
/// last reading is repeated, and the origin is the first one that could be.
///
/// Own.
#[derive(Drop)]
pub(crate) struct SteadyClock {
    origin: Option<Instant>,
    last: u64,
}

impl SteadyClock {
    pub(crate) fn new(rt: &impl Clock) -> SteadyClock
        ensures { result.last ≡ 0 }
    {
        SteadyClock {
            origin: Instant::now(rt).ok(),
            last: 0,
        }
    }

    /// Reads the system's clock, and passes on to what it tells.
    pub(crate) fn read(&mut self, rt: &impl Clock) -> u64
        ensures steady { self.old.last ≤ result }
        ensures kept { self.new.last ≡ result }
    {
        self.pass_to(Instant::now(rt).ok())
    }

    /// The system's clock told this, or could not be read.
    fn pass_to(&mut self, reading: Option<Instant>) -> u64
        ensures kept { self.new.last ≡ result }
        ensures after { self.new ≡ after_reading self.old reading }
    {
        if let Some(now) = reading {
            let origin = self.origin.unwrap_or(now);
            self.origin = Some(origin);
            self.last = self.last.max(whole_millis(now.duration_since(origin)));
        }
        self.last
    }
}

fn whole_millis(time: Duration) -> u64
    ensures { result ≡ millis_of time }
{
    time.as_millis().min(u64::MAX as u128) as u64
}
