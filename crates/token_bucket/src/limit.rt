// A limit on what may be moved: a rate and a burst per direction, and the length of a tick.
// What a limit of an end or of a group does with it is left to the buckets.
ghost use Rattle.std.specs.Prelude.{◌≡◌, ◌≤◌, ◌<◌, ◌^◌, Err, IfOk};
ghost use Rattle.token_bucket.specs.Limit.{limit_verdict, fault_of};

use thiserror::Error;

/// The direction of a byte at one end: it is read from the end, or written to it.
///
/// Libevent: event2/event.h, `EV_READ` and `EV_WRITE`; "Bufferevents: concepts and basics".
#[derive(Clone, Copy, Debug, PartialEq, Eq)]
pub enum Dir {
    Read,
    Write,
}

/// The greatest burst of a limit, in bytes.
pub const MAX_BURST: u64 = 1 << 40;

/// The longest tick of a limit, in milliseconds.
pub const MAX_TICK_MS: u64 = 1 << 20;

/// Why five numbers make no limit. The first that holds, in this order, is the answer.
#[derive(Clone, Copy, Debug, PartialEq, Eq, Error)]
pub enum LimitFault {
    #[error("a rate is 0")]
    RateZero,
    #[error("a rate is above its burst")]
    RateAboveBurst,
    #[error("a burst is above 2^40 bytes")]
    BurstTooLarge,
    #[error("the tick is 0 ms long")]
    TickZero,
    #[error("the tick is longer than 2^20 ms")]
    TickTooLong,
}

/// A limit: bytes per tick and the most bytes at once, for reading and for writing, and the length
/// of a tick in milliseconds.
///
/// Libevent: event2/bufferevent.h, `ev_token_bucket_cfg`; "Bufferevents: advanced topics".
/// Differs: a rate of 0, a burst above 2^40 and a tick above 2^20 ms are refused by name.
#[derive(Clone, Copy, Debug, PartialEq, Eq)]
pub struct LimitCfg {
    read_rate: u64,
    read_burst: u64,
    write_rate: u64,
    write_burst: u64,
    tick_ms: u64,
    ghost reads: { 0 < read_rate },
    ghost read_within: { read_rate ≤ read_burst },
    ghost writes: { 0 < write_rate },
    ghost write_within: { write_rate ≤ write_burst },
    ghost read_burst_within: { read_burst ≤ 2 ^ 40 },
    ghost write_burst_within: { write_burst ≤ 2 ^ 40 },
    ghost ticks: { 0 < tick_ms },
    ghost tick_within: { tick_ms ≤ 2 ^ 20 },
}

impl LimitCfg {
    /// Rates and bursts are in bytes per tick, the tick in milliseconds. Takes no memory; constant cost.
    pub fn new(
        read_rate: u64,
        read_burst: u64,
        write_rate: u64,
        write_burst: u64,
        tick_ms: u64,
    ) -> Result<LimitCfg, LimitFault>
        ensures verdict { fault_of result ≡ limit_verdict read_rate read_burst write_rate write_burst tick_ms }
        ensures read_rate { IfOk result (λ limit. limit.read_rate ≡ read_rate) }
        ensures read_burst { IfOk result (λ limit. limit.read_burst ≡ read_burst) }
        ensures write_rate { IfOk result (λ limit. limit.write_rate ≡ write_rate) }
        ensures write_burst { IfOk result (λ limit. limit.write_burst ≡ write_burst) }
        ensures tick_ms { IfOk result (λ limit. limit.tick_ms ≡ tick_ms) }
    {
        if read_rate == 0 || write_rate == 0 {
            return Err(LimitFault::RateZero);
        }
        if read_rate > read_burst || write_rate > write_burst {
            return Err(LimitFault::RateAboveBurst);
        }
        if read_burst > MAX_BURST || write_burst > MAX_BURST {
            return Err(LimitFault::BurstTooLarge);
        }
        if tick_ms == 0 {
            return Err(LimitFault::TickZero);
        }
        if tick_ms > MAX_TICK_MS {
            return Err(LimitFault::TickTooLong);
        }
        Ok(LimitCfg {
            read_rate,
            read_burst,
            write_rate,
            write_burst,
            tick_ms,
        })
    }

    /// Bytes that may be read per tick. Constant cost.
    pub fn read_rate(&self) -> u64
        ensures { result ≡ self.now.read_rate }
    {
        self.read_rate
    }

    /// The most bytes that may be read at once. Constant cost.
    pub fn read_burst(&self) -> u64
        ensures { result ≡ self.now.read_burst }
    {
        self.read_burst
    }

    /// Bytes that may be written per tick. Constant cost.
    pub fn write_rate(&self) -> u64
        ensures { result ≡ self.now.write_rate }
    {
        self.write_rate
    }

    /// The most bytes that may be written at once. Constant cost.
    pub fn write_burst(&self) -> u64
        ensures { result ≡ self.now.write_burst }
    {
        self.write_burst
    }

    /// The length of a tick in milliseconds. Constant cost.
    pub fn tick_ms(&self) -> u64
        ensures { result ≡ self.now.tick_ms }
    {
        self.tick_ms
    }
}
