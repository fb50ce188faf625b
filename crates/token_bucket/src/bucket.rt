// Buckets: what may be moved under a limit now, in each direction.
ghost use Rattle.std.specs.Prelude.{◌≡◌, ◌≤◌, ◌<◌, ◌+◌, ◌-◌, ◌*◌, ◌/◌, ◌^◌, max};

use crate::level::Level;
use crate::limit::{Dir, LimitCfg};

/// The most bytes that a bucket may be overdrawn by.
pub const MAX_DEBT: u64 = 1 << 40;

/// What may be moved under a limit now: a signed number of bytes for reading and one for writing. It starts at the rate, gains the
/// rate for each tick that begins, up to the burst, and loses what is moved. No call takes memory, and each takes constant time.
///
/// Libevent: ratelim-internal.h, `ev_token_bucket`; "Bufferevents: advanced topics", rate-limiting.
/// Differs: ticks are counted from time 0, and a clock that goes backwards brings nothing and is forgotten.
#[derive(Clone, Copy, Debug, PartialEq, Eq)]
pub struct Bucket {
    tick: u64,
    read: Level,
    write: Level,
    ghost read_burst: { read.burst ≤ 2 ^ 40 },
    ghost read_short: { read.short ≤ read.burst + 2 ^ 40 },
    ghost write_burst: { write.burst ≤ 2 ^ 40 },
    ghost write_short: { write.short ≤ write.burst + 2 ^ 40 },
}

impl Bucket {
    ghost use Rattle.token_bucket.specs.Levels.{limit_of, at_rate, with_ticks, refilled, held, signed};
    ghost use Rattle.token_bucket.specs.Buckets.{level_of, ticks_since, with_less};
    ghost use Rattle.token_bucket.specs.declared.limit.Dir.TheVariants as direction;

    /// The bucket of a limit that is set for the first time, at a moment in milliseconds. Constant.
    pub fn start(cfg: &LimitCfg, now: u64) -> Bucket
        ensures tick { result.tick ≡ now / cfg.now.tick_ms }
        ensures read { result.read ≡ at_rate (limit_of cfg.now direction.Read) }
        ensures write { result.write ≡ at_rate (limit_of cfg.now direction.Write) }
    {
        Bucket {
            tick: now / cfg.tick_ms(),
            read: Level::at_rate(cfg.read_rate(), cfg.read_burst()),
            write: Level::at_rate(cfg.write_rate(), cfg.write_burst()),
        }
    }

    /// Adds what the ticks bring that began since the bucket's tick, up to the burst. Nothing changes where none began. The limit is
    /// the one under which the bucket was started or last changed; another one counts as changed then, where a tick began. Constant.
    pub fn refill(&mut self, cfg: &LimitCfg, now: u64)
        ensures tick { self.new.tick ≡ max self.old.tick (now / cfg.now.tick_ms) }
        ensures read { self.new.read ≡ refilled (limit_of cfg.now direction.Read) (ticks_since self.old cfg.now now) self.old.read }
        ensures write { self.new.write ≡ refilled (limit_of cfg.now direction.Write) (ticks_since self.old cfg.now now) self.old.write }
    {
        let tick = now / cfg.tick_ms();
        if tick <= self.tick {
            return;
        }
        let ticks = tick - self.tick;
        self.tick = tick;
        self.read
            .take_burst(cfg.read_burst(), cfg.read_rate().saturating_mul(ticks));
        self.write
            .take_burst(cfg.write_burst(), cfg.write_rate().saturating_mul(ticks));
    }

    /// Puts the bucket under another limit: a level above the new burst is cut to it, a lower one stays as it is, and ticks count from
    /// that of the moment. Constant.
    pub fn change(&mut self, cfg: &LimitCfg, now: u64)
        ensures tick { self.new.tick ≡ now / cfg.now.tick_ms }
        ensures read { self.new.read ≡ with_ticks (limit_of cfg.now direction.Read) 0 self.old.read }
        ensures write { self.new.write ≡ with_ticks (limit_of cfg.now direction.Write) 0 self.old.write }
    {
        self.tick = now / cfg.tick_ms();
        self.read.take_burst(cfg.read_burst(), 0);
        self.write.take_burst(cfg.write_burst(), 0);
    }

    /// The bytes of a direction, below 0 where more was moved than there was. Constant.
    pub fn level(&self, dir: Dir) -> i64
        ensures { result ≡ signed (level_of self.now dir) }
    {
        match dir {
            Dir::Read => self.read.bytes(),
            Dir::Write => self.write.bytes(),
        }
    }

    /// The bytes that may be moved in a direction: the level, or 0 where it is below 0. Constant.
    pub fn allowance(&self, dir: Dir) -> u64
        ensures { result ≡ held (level_of self.now dir) }
    {
        match dir {
            Dir::Read => self.read.burst.saturating_sub(self.read.short),
            Dir::Write => self.write.burst.saturating_sub(self.write.short),
        }
    }

    /// Takes n bytes that were moved in a direction. More than the allowance may be taken; it is asked that the level stays at least
    /// -2^40. Constant.
    pub fn spend(&mut self, dir: Dir, n: u64)
        requires { (level_of self.old dir).short + n ≤ (level_of self.old dir).burst + 2 ^ 40 }
        ensures tick { self.new.tick ≡ self.old.tick }
        ensures read { self.new.read ≡ with_less dir direction.Read n self.old.read }
        ensures write { self.new.write ≡ with_less dir direction.Write n self.old.write }
    {
        match dir {
            Dir::Read => self.read.short += n,
            Dir::Write => self.write.short += n,
        }
    }
}
