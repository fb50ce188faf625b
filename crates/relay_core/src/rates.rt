// What limits and groups leave to sides, and what they lose as bytes are moved.
ghost use Rattle.std.specs.Prelude.{◌≡◌, ℕ, ◌<◌, ◌≤◌, ◌+◌, ◌==◌, ◌&&◌, ◌||◌, true, length, IfSome, is_some};
ghost use Rattle.ev_types.specs.Sides.{number};
ghost use Rattle.rate_group.specs.Steps.{share_in, spent, left};
ghost use Rattle.relay_model.specs.Plain.{side_at};
ghost use Rattle.relay_model.specs.Rooms.{at_most};
ghost use Rattle.relay_state.specs.Opening.{joined_where};
ghost use Rattle.relay_state.specs.Rooms.{allowance, share, within_rates};
ghost use Rattle.relay_state.specs.State.{gauges_after};
ghost use Rattle.relay_sides.specs.KeptLimits.{IsAllowed};
ghost use Rattle.relay_core.specs.Fires.{SameFire};
ghost use Rattle.resting_links.specs.RestingValue.{HasPlaces, Wakes};

use crate::ctl::Ctl;
use ev_types::SideId;
use rate_group::Groups;
use relay_sides::Dir;
use resting_links::RestingLinks;

/// A number of bytes, or less where less is allowed.
fn at_most(most: Option<u64>, count: usize) -> usize
    ensures { result ≡ at_most most count }
{
    match most {
        None => count,
        Some(most) => count.min(most as usize),
    }
}

/// A side moved so many bytes in a direction: its group loses them, where it is in one.
fn spend_share(groups: &mut Groups, side: u64, dir: Dir, count: u64)
    requires { IsAllowed count (share_in side dir groups.old.value) }
    ensures { groups.new.value ≡ spent side dir count groups.old.value }
{
    if groups.share(side, dir).is_some() {
        groups.spend(side, dir, count);
    }
}

/// A link is watched, where that is told.
fn watch_where(resting: &mut RestingLinks, link: u32, told: bool)
    requires { HasPlaces (link + 1) resting.old }
    ensures more { Wakes resting.old resting.new }
    ensures there { told ≡ true → resting.new.watched.has link ≡ true }
    ensures no_other { (n : ℕ) → resting.new.watched.has n ≡ (resting.old.watched.has n || (n == link && told)) }
{
    if told {
        resting.watch(link as usize);
    }
}

/// A side joins a group, in room that was made before, where there is one to join.
pub(crate) fn join_where(groups: &mut Groups, group: Option<u32>, side: SideId)
    requires known { IfSome group (λ n. n < length groups.old.value.groups) }
    requires room { IfSome group (λ _. 0 < groups.old.spare) }
    ensures value { groups.new.value ≡ joined_where group side groups.old.value }
    ensures room { groups.old.spare ≤ groups.new.spare + 1 }
{
    if let Some(group) = group {
        groups.change(group, side.number() as u64).unwrap();
    }
}

/// A side is in no group any more.
pub(crate) fn leave(groups: &mut Groups, side: SideId)
    ensures { groups.new.value ≡ left (number side) groups.old.value }
{
    let _ = groups.leave(side.number() as u64);
}

impl Ctl {
    /// What limit and group leave of a number of bytes to move at a live side.
    pub(crate) fn within_rates(&self, side: SideId, dir: Dir, count: usize) -> usize
        requires opened { side.link < self.now.state.plain.opened }
        requires live { (side_at self.now.state.plain side).live ≡ true }
        ensures { result ≡ within_rates self.now.state side dir count }
    {
        if count == 0 || self.untimed {
            return count;
        }
        let own = at_most(self.sides.allowance(side, dir, self.time), count);
        at_most(self.groups.share(side.number() as u64, dir), own)
    }

    /// Whether a side is live and has a limit.
    fn is_limited(&self, side: SideId, dir: Dir) -> bool
        requires { side.link < self.now.state.plain.opened }
        ensures { result ≡ ((side_at self.now.state.plain side).live && is_some (allowance self.now.state side dir)) }
    {
        self.sides.is_live(side) && self.sides.allowance(side, dir, self.time).is_some()
    }

    /// The side moves so many bytes in a direction, no more than limit and group leave it. Where there is neither, nothing changes.
    pub(crate) fn spend(&mut self, side: SideId, dir: Dir, count: usize)
        requires opened { side.link < self.old.state.plain.opened }
        requires own { IsAllowed count (allowance self.old.state side dir) }
        requires shared { IsAllowed count (share self.old.state side dir) }
        ensures state { self.new.state
            ≡ (let s = self.old.state in
            record s { gauges = gauges_after side dir count s; groups = spent (number side) dir count s.groups }) }
        ensures fire { SameFire self.old self.new }
        ensures reads { self.new.spare_reads ≡ self.old.spare_reads }
        ensures watched { (n : ℕ) → self.new.watched.has n ≡ (self.old.watched.has n
            || (n == side.link && (side_at self.old.state.plain side).live && is_some (allowance self.old.state side dir))) }
    {
        if self.untimed {
            return;
        }
        let limited = self.is_limited(side, dir);
        watch_where(&mut self.resting, side.link, limited);
        self.sides.spend(side, dir, count as u64, self.time);
        spend_share(&mut self.groups, side.number() as u64, dir, count as u64);
    }
}
