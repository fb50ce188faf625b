// The relay's state.
ghost use Rattle.std.specs.Prelude.{◌≡◌, ◌<◌, ◌≤◌, ◌^◌, true, None, [], length, map, IfOk};
ghost use Rattle.std.specs.List.{All};
ghost use Rattle.ev_types.specs.Usual.{no_timeouts};
ghost use Rattle.relay_state.specs.State.{new_state, new_groups};
ghost use Rattle.relay_core.specs.GivenGroups.{group_given, settings_given, AreGroups};
ghost use Rattle.relay_waits.specs.WaitsValue.{hooks_of};

use crate::ask::MOST_ASKS;
use crate::ctl::Ctl;
use crate::rate_groups::RateGroups;
use ev_types::{NoMemory, Settings, Side, SideId, Timeouts};
use number_set::NumberSet;
use rate_group::Groups;
use relay_pool::LinkPool;
use relay_sides::SpareLimits;
use relay_waits::Waits;
use resting_links::RestingLinks;
use std::alloc::Global;
use std::marker::Model;

/// The relay: links with their sides, what waits, and the hook that runs. Calls on a side ask that its link was opened. What a call
/// answers, and the state after it, is said by its contract.
///
/// Own; it does what libevent's sample le-proxy does.
#[derive(Drop)]
pub struct Relay {
    pub(crate) ctl: Ctl,
}

impl Model for Relay {
    ghost use Rattle.relay_core.specs.RelayValue.{RelayValue};
    ghost use Rattle.std.specs.Coded.{codes};
    ghost use Rattle.number_set.specs.Code.{number_set_code};

    ghost Value = { RelayValue };

    ghost coded = { Prim.hlevel (codes, number_set_code) };

    ghost view = { λ r. r.ctl };
}

/// Whether no side gets a timeout or a limit as its link opens, and there are no groups.
fn is_untimed(settings: &Settings, given: &RateGroups) -> bool
    ensures timeouts { result ≡ true → (settings.now.in_timeouts ≡ no_timeouts) × (settings.now.out_timeouts ≡ no_timeouts) }
    ensures rates { result ≡ true → (settings.now.in_rate ≡ None) × (settings.now.out_rate ≡ None) }
    ensures groups { result ≡ true → given.now.groups.items ≡ [] }
{
    settings.in_timeouts == Timeouts::none()
        && settings.out_timeouts == Timeouts::none()
        && settings.in_rate.is_none()
        && settings.out_rate.is_none()
        && given.groups.is_empty()
}

/// Makes the groups of a run, at time 0.
fn made_groups(alloc: Global, given: &RateGroups) -> Result<Groups, NoMemory>
    requires few { length given.now.groups.items ≤ 2 ^ 32 }
    requires shares { All (λ x. 0 < x.share) given.now.groups.items }
    ensures { IfOk result (λ groups. groups.value ≡ new_groups (map group_given given.now.groups.items)) }
{
    let mut groups = Groups::new(alloc);
    match groups.make_all(&given.groups, 0) {
        Ok(()) => Ok(groups),
        Err(_) => Err(NoMemory),
    }
}

impl Relay {
    /// A relay with no link at time 0, and its groups. The list says of each of the first sides whether it has a hook. Refused for want of
    /// memory; takes some for each place of the list and for each group, and none where there is none. Linear in both.
    pub fn new(
        alloc: Global,
        settings: Settings,
        given: RateGroups,
        hooked: Vec<bool>,
    ) -> Result<Relay, NoMemory>
        requires { AreGroups given }
        ensures { IfOk result (λ relay. relay.state ≡ new_state (settings_given settings given (hooks_of hooked.items))) }
    {
        let groups = made_groups(alloc, &given)?;
        let untimed = is_untimed(&settings, &given);
        let ctl = Ctl {
            settings,
            given,
            untimed,
            time: 0,
            turns: 0,
            sides: LinkPool::new(alloc),
            groups,
            spare_limits: SpareLimits::new(alloc),
            waits: Waits::new(alloc, hooked)?,
            me: SideId {
                link: 0,
                side: Side::In,
            },
            asks: MOST_ASKS,
            stopped: false,
            log: Vec::new(alloc),
            resting: RestingLinks::new(alloc),
            grouped: NumberSet::new(alloc),
        };
        Ok(Relay { ctl })
    }

    /// The sides of all links that were opened, and the directions between them, as the state has them: what is so of a side, why it is
    /// faulty, and what was counted of it. Some of it may be asked only while a side of the link is live. Constant; takes no memory.
    ///
    /// Own.
    pub fn sides(&self) -> &LinkPool
        ensures opened { result.now.links.opened ≡ self.now.state.plain.opened }
        ensures sides { result.now.links.sides ≡ self.now.state.plain.sides }
        ensures flows { result.now.links.flows ≡ self.now.state.plain.flows }
        ensures lanes { result.now.links.lanes ≡ self.now.state.lanes }
    {
        &self.ctl.sides
    }

    /// The state as hooks are lent it, to be asked and not to be changed. Constant; takes no memory.
    ///
    /// Own.
    pub fn ctl(&self) -> &Ctl
        ensures { result.now ≡ self.now }
    {
        &self.ctl
    }

    /// Milliseconds. It never falls. Constant; takes no memory.
    pub fn time(&self) -> u64
        ensures { result ≡ self.now.state.plain.time }
    {
        self.ctl.time
    }
}
