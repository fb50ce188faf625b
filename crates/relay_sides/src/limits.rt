// Limits of sides: memory for them is made before they are set.
ghost use Rattle.std.specs.Prelude.{◌≡◌, ◌<◌, ◌≤◌, ◌+◌, ◌-◌, ◌^◌, true, OnOk, IsOk, vec_len};
ghost use Rattle.std.specs.Option.{option_map, option_to_list};
ghost use Rattle.side_limit.specs.LimitValue.{bucket_holds, with_spent};
ghost use Rattle.relay_sides.specs.Links.{side_at, gauge_at, change_side, allowance_at, limited, bucket_spent};
ghost use Rattle.relay_sides.specs.KeptLimits.{IsAllowed, kept_value, first_kept, set_kept, gains_kept, limit_gains};
ghost use Rattle.relay_sides.specs.SideView.{gauge_by};
ghost use Rattle.relay_sides.specs.Opening.{limits_in};

use crate::sides::Sides;
use bev_core::Dir;
use ev_types::{LimitCfg, NoMemory, SideId};
use side_limit::SideLimit;
use std::alloc::Global;
use std::marker::Model;

/// Memory for limits that are set later, so that setting one takes none.
///
/// Own.
#[derive(Drop)]
pub struct SpareLimits {
    limits: Vec<Box<SideLimit>>,
}

impl Model for SpareLimits {
    ghost use Rattle.std.specs.Prelude.{ℕ, vec_len};

    ghost Value = { ℕ };

    ghost view = { λ r. vec_len r.limits };
}

impl SpareLimits {
    /// For no limit. Takes no memory; constant.
    ///
    /// Own.
    pub fn new(alloc: Global) -> SpareLimits
        ensures { result ≡ 0 }
    {
        SpareLimits {
            limits: Vec::new(alloc),
        }
    }

    /// Makes memory for so many limits in all. Takes memory for those that are lacking; linear in their number.
    ///
    /// Own.
    pub fn reserve(&mut self, count: usize) -> Result<(), NoMemory>
        ensures more { self.old ≤ self.new }
        ensures room { OnOk result (count ≤ self.new) }
        ensures there { count ≤ self.old → IsOk result }
    {
        let alloc = *self.limits.allocator();
        for _ in self.limits.len()..count {
            let limit = Box::new(alloc, SideLimit::spare())?;
            self.limits.push(limit)?;
        }
        Ok(())
    }

    /// A limit that is set for the first time in a turn and at its time, where there is to be one.
    pub(crate) fn take_first(
        &mut self,
        cfg: Option<LimitCfg>,
        time: u64,
        turn: u64,
    ) -> Option<Box<SideLimit>>
        requires { limits_in cfg ≤ self.old }
        ensures limit { kept_value result ≡ first_kept time turn cfg }
        ensures spare { self.new ≡ self.old - limits_in cfg }
    {
        let cfg = cfg?;
        let mut limit = self.limits.pop()?;
        *limit = SideLimit::first(cfg, turn, time);
        Some(limit)
    }
}

/// What a limit leaves to move in a direction at a time, where there is one.
fn allowance_of(limit: &Option<Box<SideLimit>>, dir: Dir, time: u64) -> Option<u64>
    requires { (gauge_by (kept_value limit.now)).time ≤ time }
    ensures { result ≡ option_map (λ x. bucket_holds x dir time) (kept_value limit.now) }
{
    let limit = limit.as_ref()?;
    Some(limit.allowance(dir, time))
}

/// Bytes were moved in a direction at a time, as many as the limit allows, where there is one.
fn spend_of(limit: &mut Option<Box<SideLimit>>, dir: Dir, count: u64, time: u64)
    requires later { (gauge_by (kept_value limit.old)).time ≤ time }
    requires within { IsAllowed count (option_map (λ x. bucket_holds x dir time) (kept_value limit.old)) }
    ensures { kept_value limit.new ≡ option_map (with_spent dir count time) (kept_value limit.old) }
{
    if let Some(limit) = limit.as_mut() {
        limit.spend(dir, count, time);
    }
}

/// Another limit, or none, in the place of this one, in a turn and at its time; a first one in memory that was kept ready.
fn set_of(
    limit: &mut Option<Box<SideLimit>>,
    spare: &mut SpareLimits,
    cfg: Option<LimitCfg>,
    time: u64,
    turn: u64,
)
    requires later { (gauge_by (kept_value limit.old)).time ≤ time }
    requires room { 0 < spare.old }
    ensures limit { kept_value limit.new ≡ set_kept time turn (kept_value limit.old) cfg }
    ensures spare { spare.old ≤ spare.new + 1 }
{
    let Some(cfg) = cfg else {
        *limit = None;
        return;
    };
    match limit.as_mut() {
        Some(limit) => limit.change(cfg, turn, time),
        None => *limit = spare.take_first(Some(cfg), time, turn),
    }
}

/// When a bucket of a limit that holds nothing at a time gains again.
fn gains_of(limit: &Option<Box<SideLimit>>, time: u64) -> Option<u64>
    requires later { (gauge_by (kept_value limit.now)).time ≤ time }
    requires near { time ≤ 2 ^ 62 }
    ensures { option_to_list result ≡ gains_kept time (kept_value limit.now) }
{
    limit.as_ref()?.gains_at(time)
}

impl Sides {
    /// What the side's own limit leaves it to move in a direction at a time. None where it has no limit. Constant; takes no memory.
    ///
    /// Libevent: event2/bufferevent.h, `bufferevent_get_read_limit` and `bufferevent_get_write_limit`; "Bufferevents: advanced topics".
    pub fn allowance(&self, side: SideId, dir: Dir, time: u64) -> Option<u64>
        requires opened { side.link < self.now.links.opened }
        requires later { (gauge_at self.now.links side).time ≤ time }
        ensures { result ≡ allowance_at time self.now.links side dir }
    {
        allowance_of(&self.sides[side.number()].limit, dir, time)
    }

    /// The side moved so many bytes in a direction at a time. It is asked that its limit allows them. Constant; takes no memory.
    ///
    /// Libevent: event2/bufferevent.h, `bufferevent_decrement_read_limit` and `bufferevent_decrement_write_limit`; "Bufferevents: advanced
    /// topics".
    pub fn spend(&mut self, side: SideId, dir: Dir, count: u64, time: u64)
        requires opened { side.link < self.old.links.opened }
        requires later { (gauge_at self.old.links side).time ≤ time }
        requires within { IsAllowed count (allowance_at time self.old.links side dir) }
        ensures links { self.new.links ≡ bucket_spent time side dir count self.old.links }
        ensures reads { self.new.spare_reads ≡ self.old.spare_reads }
    {
        let own = &mut self.sides[side.number()];
        spend_of(&mut own.limit, dir, count, time);
    }

    /// Gives the side another limit in a turn and at its time, or takes it away. It is asked that there is memory for one. Constant; takes
    /// no memory.
    ///
    /// Libevent: event2/bufferevent.h, `bufferevent_set_rate_limit`; "Bufferevents: advanced topics".
    pub fn set_limit(
        &mut self,
        side: SideId,
        cfg: Option<LimitCfg>,
        time: u64,
        turn: u64,
        spare: &mut SpareLimits,
    )
        requires opened { side.link < self.old.links.opened }
        requires later { (gauge_at self.old.links side).time ≤ time }
        requires room { 0 < spare.old }
        ensures links { self.new.links ≡ limited time turn side cfg self.old.links }
        ensures spare { spare.old ≤ spare.new + 1 }
    {
        self.readable = 0;
        let own = &mut self.sides[side.number()];
        set_of(&mut own.limit, spare, cfg, time, turn);
    }

    /// When a bucket of the side's limit that holds nothing at a time gains again. None where both hold something, or there is no limit.
    /// Constant; takes no memory.
    ///
    /// Own; libevent has a timer event for it.
    pub fn gains_at(&self, side: SideId, time: u64) -> Option<u64>
        requires opened { side.link < self.now.links.opened }
        requires later { (gauge_at self.now.links side).time ≤ time }
        requires near { time ≤ 2 ^ 62 }
        ensures { option_to_list result ≡ limit_gains time (gauge_at self.now.links side) (side_at self.now.links side).limit }
    {
        gains_of(&self.sides[side.number()].limit, time)
    }

    /// The number of the side's group. None where it is in none, and for a freed side. Constant; takes no memory.
    ///
    /// Own.
    pub fn group(&self, side: SideId) -> Option<u32>
        requires { side.link < self.now.links.opened }
        ensures { result ≡ (side_at self.now.links side).group }
    {
        if self.is_live(side) {
            self.sides[side.number()].group
        } else {
            None
        }
    }

    /// Puts a live side into a group, or takes it out of its own. Constant; takes no memory.
    ///
    /// Libevent: event2/bufferevent.h, `bufferevent_add_to_rate_limit_group` and `bufferevent_remove_from_rate_limit_group`;
    /// "Bufferevents: advanced topics".
    pub fn set_group(&mut self, side: SideId, group: Option<u32>)
        requires opened { side.link < self.old.links.opened }
        requires live { (side_at self.old.links side).live ≡ true }
        ensures { self.new.links ≡ change_side side (λ x. record x { group = group }) self.old.links }
    {
        self.readable = 0;
        let own = &mut self.sides[side.number()];
        own.group = group;
    }
}
