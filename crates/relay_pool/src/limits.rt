// Limits of sides, and the groups that they are in.
ghost use Rattle.std.specs.Prelude.{◌≡◌, ◌<◌, ◌≤◌, ◌+◌, ◌^◌, true};
ghost use Rattle.std.specs.Option.{option_to_list};
ghost use Rattle.relay_sides.specs.Links.{side_at, gauge_at, change_side, allowance_at, limited, bucket_spent};
ghost use Rattle.relay_sides.specs.KeptLimits.{IsAllowed, limit_gains};
ghost use Rattle.relay_pool.specs.PoolValue.{KeepsBays, has_live_side};

use crate::bay::{at, bay};
use crate::change::Change;
use crate::left::change_left;
use crate::pool::LinkPool;
use bev_core::Dir;
use ev_types::{LimitCfg, SideId};
use relay_sides::SpareLimits;

impl LinkPool {
    /// What the side's own limit leaves it to move in a direction at a time. None where it has no limit. Constant; takes no memory.
    ///
    /// Libevent: event2/bufferevent.h, `bufferevent_get_read_limit` and `bufferevent_get_write_limit`; "Bufferevents: advanced topics".
    pub fn allowance(&self, side: SideId, dir: Dir, time: u64) -> Option<u64>
        requires opened { side.link < self.now.links.opened }
        requires open { has_live_side self.now.links side ≡ true }
        requires later { (gauge_at self.now.links side).time ≤ time }
        ensures { result ≡ allowance_at time self.now.links side dir }
    {
        self.sides.allowance(at(&self.links, side), dir, time)
    }

    /// The side moved so many bytes in a direction at a time. It is asked that its limit allows them. Constant; takes no memory.
    ///
    /// Libevent: event2/bufferevent.h, `bufferevent_decrement_read_limit` and `bufferevent_decrement_write_limit`; "Bufferevents: advanced
    /// topics".
    pub fn spend(&mut self, side: SideId, dir: Dir, count: u64, time: u64)
        requires opened { side.link < self.old.links.opened }
        requires later { (gauge_at self.old.links side).time ≤ time }
        requires within { IsAllowed count (allowance_at time self.old.links side dir) }
        ensures links { self.new.links ≡ bucket_spent time side dir count self.old.links }
        ensures bays { KeepsBays self.old self.new }
        ensures reads { self.new.spare_reads ≡ self.old.spare_reads }
    {
        match bay(&self.links, side) {
            Some(at) => self.sides.spend(at, dir, count, time),
            None => change_left(&mut self.links, side, Change::Spent(dir, count, time)),
        }
    }

    /// Gives the side another limit in a turn and at its time, or takes it away. It is asked that there is memory for one. Constant; takes
    /// no memory.
    ///
    /// Libevent: event2/bufferevent.h, `bufferevent_set_rate_limit`; "Bufferevents: advanced topics".
    pub fn set_limit(
        &mut self,
        side: SideId,
        cfg: Option<LimitCfg>,
        time: u64,
        turn: u64,
        spare: &mut SpareLimits,
    )
        requires opened { side.link < self.old.links.opened }
        requires open { has_live_side self.old.links side ≡ true }
        requires later { (gauge_at self.old.links side).time ≤ time }
        requires room { 0 < spare.old }
        ensures links { self.new.links ≡ limited time turn side cfg self.old.links }
        ensures bays { KeepsBays self.old self.new }
        ensures spare { spare.old ≤ spare.new + 1 }
    {
        self.sides
            .set_limit(at(&self.links, side), cfg, time, turn, spare);
    }

    /// When a bucket of the side's limit that holds nothing at a time gains again. None where both hold something, or there is no limit.
    /// Constant; takes no memory.
    ///
    /// Own; libevent has a timer event for it.
    pub fn gains_at(&self, side: SideId, time: u64) -> Option<u64>
        requires opened { side.link < self.now.links.opened }
        requires open { has_live_side self.now.links side ≡ true }
        requires later { (gauge_at self.now.links side).time ≤ time }
        requires near { time ≤ 2 ^ 62 }
        ensures { option_to_list result ≡ limit_gains time (gauge_at self.now.links side) (side_at self.now.links side).limit }
    {
        self.sides.gains_at(at(&self.links, side), time)
    }

    /// Puts a live side into a group, or takes it out of its own. Constant; takes no memory.
    ///
    /// Libevent: event2/bufferevent.h, `bufferevent_add_to_rate_limit_group` and `bufferevent_remove_from_rate_limit_group`;
    /// "Bufferevents: advanced topics".
    pub fn set_group(&mut self, side: SideId, group: Option<u32>)
        requires opened { side.link < self.old.links.opened }
        requires live { (side_at self.old.links side).live ≡ true }
        ensures links { self.new.links ≡ change_side side (λ x. record x { group = group }) self.old.links }
        ensures bays { KeepsBays self.old self.new }
    {
        self.sides.set_group(at(&self.links, side), group);
    }
}
