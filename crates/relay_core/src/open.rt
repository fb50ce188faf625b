// Opening links.
ghost use Rattle.std.specs.Prelude.{◌≡◌, ◌+◌, ◌<◌, ◌≤◌, ◌||◌, nat_le, nat_lt, true, length, OnOk, IsOk};
ghost use Rattle.relay_state.specs.Opening.{after_opened};
ghost use Rattle.relay_sides.specs.Opening.{limits_in};
ghost use Rattle.relay_core.specs.Pairs.{HasPairs};
ghost use Rattle.relay_core.specs.SettingsView.{near_of, far_of};

use crate::ask::MOST_ASKS;
use crate::rate_groups::RateGroups;
use crate::rates::join_where;
use crate::relay::Relay;
use ev_types::{NoMemory, Settings, Side, SideId};
use rate_group::Groups;
use relay_sides::{NewSide, SpareLimits};

impl Relay {
    /// How many links were opened. The relay keeps two sides and two directions for each of them. Constant; takes no memory.
    ///
    /// Own.
    pub fn opened(&self) -> u32
        ensures count { result ≡ self.now.state.plain.opened }
        ensures pairs { HasPairs self.now.state }
    {
        self.ctl.sides.opened()
    }

    /// Whether fewer links were opened than the settings allow. Constant; takes no memory.
    pub fn can_open(&self) -> bool
        ensures { result ≡ nat_lt self.now.state.plain.opened self.now.state.settings.links }
    {
        self.ctl.sides.opened() < self.ctl.settings.links
    }

    /// Makes room for one link more, with its limits and memberships. It is also refused where 2^32 - 1 links were opened, and where
    /// 2^30 - 1 are kept whole. Takes no memory where there is such room; constant, but where the room grows.
    pub fn reserve_link(&mut self) -> Result<(), NoMemory>
        ensures state { self.new.state ≡ self.old.state }
        ensures room { OnOk result (0 < self.new.spare_links) }
        ensures there { 0 < self.old.spare_links → IsOk result }
    {
        let ctl = &mut self.ctl;
        ctl.asks = MOST_ASKS;
        reserve_rates(
            &ctl.settings,
            &ctl.given,
            &mut ctl.spare_limits,
            &mut ctl.groups,
        )?;
        ctl.resting.lengthen(ctl.sides.opened() as usize + 1)?;
        ctl.grouped.lengthen(ctl.sides.opened() as usize + 1)?;
        ctl.sides.reserve_link()
    }

    /// Opens the next link, in room that was made before. Its In end is connected; whether its Out end is, is told. Takes
    /// no memory; constant.
    pub fn open(&mut self, connected: bool)
        requires allowed { self.old.state.plain.opened < self.old.state.settings.links }
        requires room { 0 < self.old.spare_links }
        ensures { self.new.state ≡ after_opened self.old.state connected }
    {
        let ctl = &mut self.ctl;
        let settings = ctl.settings;
        let near = near_side(&settings, ctl.given.in_group);
        let far = far_side(&settings, ctl.given.out_group, connected);
        let first = SideId {
            link: ctl.sides.opened(),
            side: Side::In,
        };
        ctl.asks = MOST_ASKS;
        ctl.resting.watch(first.link as usize);
        ctl.grouped.insert(first.link as usize);
        ctl.sides
            .open(near, far, ctl.time, ctl.turns, &mut ctl.spare_limits);
        join_where(&mut ctl.groups, near.group, first);
        join_where(&mut ctl.groups, far.group, first.peer());
    }
}

/// How many limits a new link has.
fn limits_of_link(settings: &Settings) -> usize
    ensures { result ≡ limits_in settings.now.in_rate + limits_in settings.now.out_rate }
{
    usize::from(settings.in_rate.is_some()) + usize::from(settings.out_rate.is_some())
}

/// Makes memory for the limits of one link more, and room for its sides in the groups.
fn reserve_rates(
    settings: &Settings,
    given: &RateGroups,
    spare: &mut SpareLimits,
    groups: &mut Groups,
) -> Result<(), NoMemory>
    ensures value { groups.new.value ≡ groups.old.value }
    ensures more { spare.old ≤ spare.new }
    ensures limits { OnOk result (limits_in settings.now.in_rate + limits_in settings.now.out_rate ≤ spare.new) }
    ensures members { OnOk result (nat_le (length given.now.groups.items) 0 || nat_le 2 groups.new.spare ≡ true) }
    ensures there { limits_in settings.now.in_rate + limits_in settings.now.out_rate ≤ spare.old →
        nat_le (length given.now.groups.items) 0 || nat_le 2 groups.old.spare ≡ true → IsOk result }
{
    spare.reserve(limits_of_link(settings))?;
    if !given.groups.is_empty() && groups.reserve_members(2).is_err() {
        return Err(NoMemory);
    }
    Ok(())
}

/// What the In side of the next link gets. Its end is connected.
fn near_side(settings: &Settings, group: Option<u32>) -> NewSide
    ensures { result ≡ near_of settings.now group }
{
    NewSide {
        marks: settings.in_marks,
        timeouts: settings.in_timeouts,
        read: settings.in_read,
        write: settings.in_write,
        limit: settings.in_rate,
        group,
        connected: true,
    }
}

/// What its Out side gets.
fn far_side(settings: &Settings, group: Option<u32>, connected: bool) -> NewSide
    ensures { result ≡ far_of settings.now group connected }
{
    NewSide {
        marks: settings.out_marks,
        timeouts: settings.out_timeouts,
        read: settings.out_read,
        write: settings.out_write,
        limit: settings.out_rate,
        group,
        connected,
    }
}
