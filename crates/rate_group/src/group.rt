// One group: its limit, its bucket, and in which directions it is suspended. Who is a member is left to the groups.
ghost use Rattle.std.specs.Prelude.{◌≡◌, ◌≤◌, ◌<◌, ◌+◌, ◌-◌, ◌^◌, false};
ghost use Rattle.std.specs.Option.{option_to_list};
ghost use Rattle.rate_group.specs.Gains.{waiting_gain, is_waiting, tick_behind};

use token_bucket::{Bucket, Dir, LimitCfg};

/// The moment at which the next tick of a limit begins.
fn tick_after(cfg: &LimitCfg, time: u64) -> u64
    requires { time ≤ 2 ^ 62 }
    ensures { result ≡ tick_behind cfg.now.tick_ms time }
{
    (time / cfg.tick_ms() + 1) * cfg.tick_ms()
}

/// A group, with how many members it has.
#[derive(Clone, Copy, Debug)]
pub struct Group {
    cfg: LimitCfg,
    /// The least share of a member, no more than either rate.
    least: u64,
    bucket: Bucket,
    read_suspended: bool,
    write_suspended: bool,
    count: u64,
    ghost least_is_some: { 0 < least },
    ghost least_within: { least ≤ 2 ^ 40 },
    ghost read_owes: { bucket.read.short < bucket.read.burst + least },
    ghost write_owes: { bucket.write.short < bucket.write.burst + least },
    ghost read_goes: { read_suspended ≡ false → bucket.read.short < bucket.read.burst },
    ghost write_goes: { write_suspended ≡ false → bucket.write.short < bucket.write.burst },
}

impl Group {
    ghost use Rattle.rate_group.specs.GroupList.{group_value};
    ghost use Rattle.rate_group.specs.Steps.{made, spent_in, refilled_to, share_of, lane_of};
    ghost use Rattle.token_bucket.specs.Levels.{signed};

    /// A group with no members, whose bucket starts at the rates.
    pub(crate) fn new(cfg: LimitCfg, share: u64, now: u64) -> Group
        requires { 0 < share }
        ensures value { group_value result ≡ made cfg share now }
        ensures count { result.count ≡ 0 }
    {
        Group {
            cfg,
            least: share.min(cfg.read_rate()).min(cfg.write_rate()),
            bucket: Bucket::start(&cfg, now),
            read_suspended: false,
            write_suspended: false,
            count: 0,
        }
    }

    /// Whether its members move nothing in a direction.
    pub(crate) fn is_suspended(&self, dir: Dir) -> bool
        ensures { result ≡ (lane_of (group_value self.now) dir).suspended }
    {
        match dir {
            Dir::Read => self.read_suspended,
            Dir::Write => self.write_suspended,
        }
    }

    /// What each member may move in a direction. It is asked that there is one.
    pub(crate) fn share(&self, dir: Dir) -> u64
        requires { 0 < self.now.count }
        ensures { result ≡ share_of (group_value self.now) dir self.now.count }
    {
        if self.is_suspended(dir) {
            return 0;
        }
        (self.bucket.allowance(dir) / self.count).max(self.least)
    }

    /// Takes what a member moved.
    pub(crate) fn spend(&mut self, dir: Dir, n: u64)
        requires { n ≤ share_of (group_value self.old) dir self.old.count }
        ensures value { group_value self.new ≡ spent_in dir n (group_value self.old) }
        ensures count { self.new.count ≡ self.old.count }
    {
        self.bucket.spend(dir, n);
        let is_empty = self.bucket.allowance(dir) == 0;
        match dir {
            Dir::Read => self.read_suspended |= is_empty,
            Dir::Write => self.write_suspended |= is_empty,
        }
    }

    /// Adds what ticks bring. A suspended direction that has the least share goes on.
    pub(crate) fn refill(&mut self, now: u64)
        ensures value { group_value self.new ≡ refilled_to now (group_value self.old) }
        ensures count { self.new.count ≡ self.old.count }
    {
        self.bucket.refill(&self.cfg, now);
        self.read_suspended &= self.bucket.allowance(Dir::Read) < self.least;
        self.write_suspended &= self.bucket.allowance(Dir::Write) < self.least;
    }

    /// The signed number of bytes in a direction.
    pub(crate) fn level(&self, dir: Dir) -> i64
        ensures { result ≡ signed (lane_of (group_value self.now) dir).level }
    {
        self.bucket.level(dir)
    }

    /// Whether it has members and is suspended in a direction.
    fn is_waiting(&self) -> bool
        ensures { result ≡ is_waiting self.now.count (group_value self.now) }
    {
        self.count >= 1 && (self.read_suspended || self.write_suspended)
    }

    /// When it gains again, where it has members and is suspended in a direction.
    pub(crate) fn gains_at(&self, time: u64) -> Option<u64>
        requires { time ≤ 2 ^ 62 }
        ensures { option_to_list result ≡ waiting_gain time self.now.count (group_value self.now) }
    {
        if !self.is_waiting() {
            return None;
        }
        Some(tick_after(&self.cfg, time))
    }

    /// Has one member more, of so many members of all groups.
    pub(crate) fn join(&mut self, all: u64)
        requires { self.old.count < all }
        ensures value { group_value self.new ≡ group_value self.old }
        ensures count { self.new.count ≡ self.old.count + 1 }
    {
        prove!(self.count < all);
        self.count += 1;
    }

    /// Has one member less.
    pub(crate) fn leave(&mut self)
        requires { 0 < self.old.count }
        ensures value { group_value self.new ≡ group_value self.old }
        ensures count { self.new.count ≡ self.old.count - 1 }
    {
        self.count -= 1;
    }
}
