// The rate groups that a run is started with.
ghost use Rattle.std.specs.Prelude.{◌≡◌, [], None};

use rate_group::GroupSet;
use std::alloc::Global;

/// The rate groups of a run, by their numbers, and those that the In and the Out sides join as their links open. None is no group. Each
/// number is asked to be that of a group, and each share to be above 0.
///
/// Libevent: event2/bufferevent.h, `bufferevent_rate_limit_group_new` and `bufferevent_add_to_rate_limit_group`; "Bufferevents: advanced
/// topics".
#[derive(Drop)]
pub struct RateGroups {
    pub groups: Vec<GroupSet>,
    pub in_group: Option<u32>,
    pub out_group: Option<u32>,
}

impl RateGroups {
    /// No group. Takes no memory; constant.
    ///
    /// Own.
    pub fn none(alloc: Global) -> RateGroups
        ensures groups { result.groups.items ≡ [] }
        ensures in_group { result.in_group ≡ None }
        ensures out_group { result.out_group ≡ None }
    {
        RateGroups {
            groups: Vec::new(alloc),
            in_group: None,
            out_group: None,
        }
    }
}
