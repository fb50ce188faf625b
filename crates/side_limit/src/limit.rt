// A side's limit with its buckets. The invariant: the bucket is one under this limit, it has what came up to the time that stands
// beside it, and it is not overdrawn.
ghost use Rattle.std.specs.Prelude.{◌≡◌, ◌≤◌, ◌^◌};
ghost use Rattle.std.specs.Option.{option_to_list};

use std::marker::Model;
use token_bucket::{Bucket, Dir, LimitCfg};

/// The latest time, in milliseconds, of which it is asked when a bucket gains again.
pub const MAX_TIME: u64 = 1 << 62;

/// The limit of a side: how it was set, and its two buckets, which are brought up to date when they are asked or spent from. They
/// are never overdrawn. No call takes memory, and each takes constant time.
///
/// Libevent: bufferevent-internal.h, `bufferevent_rate_limit`; "Bufferevents: advanced topics", rate-limiting.
/// Differs: no timer refills it.
#[derive(Drop)]
pub struct SideLimit {
    cfg: LimitCfg,
    bucket: Bucket,
    /// The time up to which the bucket has what came.
    time: u64,
    /// How it was set: the turn, its time, and what either bucket held then.
    set_turn: u64,
    set_time: u64,
    set_read: u64,
    set_write: u64,
}

impl Model for SideLimit {
    ghost use Rattle.side_limit.specs.LimitValue.{LimitValue};

    ghost Value = { LimitValue };

    ghost use Rattle.side_limit.specs.LimitView.{limit_value, KeepsBucket};

    ghost view = { limit_value };

    ghost invariant = { KeepsBucket };
}

impl SideLimit {
    ghost use Rattle.side_limit.specs.LimitValue.{first_value, bucket_holds, with_cfg, brought_up, with_spent, next_gains};

    /// A limit that is the first one of its side, set in a turn at its time in milliseconds. Either bucket holds the bytes of one
    /// tick. Takes no memory; constant cost.
    ///
    /// Libevent: `bufferevent_set_rate_limit`.
    pub fn first(cfg: LimitCfg, turn: u64, time: u64) -> SideLimit
        ensures { result ≡ first_value cfg turn time }
    {
        SideLimit {
            bucket: Bucket::start(&cfg, time),
            time,
            set_turn: turn,
            set_time: time,
            set_read: cfg.read_rate(),
            set_write: cfg.write_rate(),
            cfg,
        }
    }

    /// Some limit: a byte a tick and at once, of 1 ms, set in turn 0 at time 0. It stands in memory that is kept ready until a
    /// limit is put in its place. Takes no memory; constant cost.
    ///
    /// Own.
    pub fn spare() -> SideLimit
        ensures { result ≡ first_value result.standing.cfg 0 0 }
    {
        match LimitCfg::new(1, 1, 1, 1, 1) {
            Ok(cfg) => SideLimit::first(cfg, 0, 0),
            Err(_) => unreachable!(),
        }
    }

    /// Puts another limit in its place, in a turn at its time, which is not before that of the last change or spending. The buckets
    /// are first brought up to date; a fuller one than the new burst is cut to it, and ticks count from that of the time. Takes no
    /// memory; constant cost.
    ///
    /// Libevent: `bufferevent_set_rate_limit`.
    pub fn change(&mut self, cfg: LimitCfg, turn: u64, time: u64)
        requires { self.old.gauge.time ≤ time }
        ensures { self.new ≡ with_cfg cfg turn time self.old }
    {
        self.bring(time);
        self.bucket.change(&cfg, time);
        self.set_turn = turn;
        self.set_time = time;
        self.set_read = self.bucket.allowance(Dir::Read);
        self.set_write = self.bucket.allowance(Dir::Write);
        self.cfg = cfg;
    }

    /// The limit's numbers. Takes no memory; constant cost.
    ///
    /// Own.
    pub fn cfg(&self) -> LimitCfg
        ensures { result ≡ self.now.standing.cfg }
    {
        self.cfg
    }

    /// The bytes that a bucket holds at a time that is not before that of the last change or spending. Takes no memory; constant
    /// cost.
    ///
    /// Libevent: `bufferevent_get_max_to_read`, `bufferevent_get_max_to_write`.
    pub fn allowance(&self, dir: Dir, time: u64) -> u64
        requires { self.now.gauge.time ≤ time }
        ensures { result ≡ bucket_holds self.now dir time }
    {
        let mut bucket = self.bucket;
        bucket.refill(&self.cfg, time);
        bucket.allowance(dir)
    }

    /// Brings both buckets up to a time that is not before theirs.
    fn bring(&mut self, time: u64)
        requires { self.old.gauge.time ≤ time }
        ensures { self.new ≡ brought_up time self.old }
    {
        self.bucket.refill(&self.cfg, time);
        self.time = time;
    }

    /// Takes n bytes that were moved in a direction at a time, which is not before that of the last change or spending. It is asked
    /// that the bucket holds so many. Takes no memory; constant cost.
    ///
    /// Libevent: `bufferevent_decrement_read_buckets_`, `bufferevent_decrement_write_buckets_`.
    pub fn spend(&mut self, dir: Dir, n: u64, time: u64)
        requires time { self.old.gauge.time ≤ time }
        requires held { n ≤ bucket_holds self.old dir time }
        ensures { self.new ≡ with_spent dir n time self.old }
    {
        self.bring(time);
        self.bucket.spend(dir, n);
    }

    /// The moment at which a bucket gains again that holds nothing at a time: the start of the next tick, or None where both hold
    /// something. The time is not before that of the last change or spending, and at most `MAX_TIME`. Takes no memory; constant
    /// cost.
    ///
    /// Own.
    pub fn gains_at(&self, time: u64) -> Option<u64>
        requires time { self.now.gauge.time ≤ time }
        requires within { time ≤ 2 ^ 62 }
        ensures { option_to_list result ≡ next_gains self.now time }
    {
        if self.allowance(Dir::Read, time) > 0 && self.allowance(Dir::Write, time) > 0 {
            return None;
        }
        let tick_ms = self.cfg.tick_ms();
        Some((time / tick_ms + 1) * tick_ms)
    }
}
