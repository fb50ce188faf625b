// Groups and their members. The invariants:
// 1. each group counts its members;
// 2. each member is in a group that was made.
// The clause `called` of a call says that it is one of those over which the laws of laws.rt go.
ghost use Rattle.std.specs.Prelude.{◌≡◌, ◌≤◌, ◌<◌, ◌+◌, ◌-◌, ◌^◌, [], All, length, map, slice_index, slice_index_or, slice_set};
ghost use Rattle.std.specs.Prelude.{slice_get, IfOk, IsOk};
ghost use Rattle.std.specs.Prelude.{OnOk, OnErr};
ghost use Rattle.std.specs.Option.{option_map, IsSomeAnd};

use crate::fault::GroupFault;
use crate::group::Group;
use crate::group_list::{drop_member, first_gain, move_member, push_all, refill_all, spend_at};
use crate::group_set::GroupSet;
use indexmap::IndexMap;
use std::alloc::Global;
use std::marker::Model;
use token_bucket::{Dir, LimitCfg};

/// Groups whose members share a limit. Groups have numbers from 0 in the order in which they were made; members are numbers of the
/// caller's, each in at most one group. A group has one bucket, which keeps what it owes when its members leave.
///
/// Libevent: event2/bufferevent.h, `bufferevent_rate_limit_group`; "Bufferevents: advanced topics", setting rate limits on a group.
/// Differs: a member may move its part of what is left and not the least share alone; a suspended group goes on at a refill; members
/// have no order of their own, and none is drawn by chance.
#[derive(Drop)]
pub struct Groups {
    groups: Vec<Group>,
    members: IndexMap<u64, u32>,
}

impl Model for Groups {
    ghost use Rattle.rate_group.specs.GroupValue.{GroupsKept};

    ghost Value = { GroupsKept };

    ghost use Rattle.rate_group.specs.GroupView.{groups_kept, HasCounts};

    ghost view = { groups_kept };

    ghost invariant = { HasCounts };
}

impl Groups {
    ghost use Rattle.token_bucket.specs.Levels.{signed};
    ghost use Rattle.token_bucket.specs.Limit.{fault_of};
    ghost use Rattle.rate_group.specs.Gains.{first_moment, waiting_gains};
    ghost use Rattle.rate_group.specs.Steps.{with_group, with_groups, joined, left, share_in, spent, all_refilled, lane_of};
    ghost use Rattle.rate_group.specs.Refusals.{Refuses, new_group_refusal, join_refusal, change_refusal, leave_refusal};
    ghost use Rattle.rate_group.specs.GroupsCalls.{GroupsCall, IsCalled, MakingsLead};

    /// No groups and no members. Takes no memory; the cost is constant.
    pub fn new(alloc: Global) -> Groups
        ensures { result.value ≡ record { groups = []; members = [] } }
    {
        Groups {
            groups: Vec::new(alloc),
            members: IndexMap::new(alloc),
        }
    }

    /// Makes a group under a limit, at a moment in milliseconds, and answers its number. Its bucket starts at the rates. The share is
    /// what each member may move at least while the group isn't suspended, lowered to the smaller rate; it is refused where it is 0.
    /// The cost is constant, or in the number of groups where memory is taken.
    ///
    /// Libevent: `bufferevent_rate_limit_group_new`, `bufferevent_rate_limit_group_set_min_share`.
    pub fn new_group(&mut self, cfg: LimitCfg, share: u64, now: u64) -> Result<u32, GroupFault>
        ensures refused { Refuses result (new_group_refusal share self.old.value) }
        ensures number { IfOk result (λ n. n ≡ length self.old.value.groups) }
        ensures ok { OnOk result (self.new.value ≡ with_group cfg share now self.old.value) }
        ensures err { OnErr result (self.new.value ≡ self.old.value) }
        ensures called { IsCalled (GroupsCall.NewGroup cfg share now result) self.old.value self.new.value }
        ensures room { self.new.spare ≡ self.old.spare }
    {
        if share == 0 {
            return Err(GroupFault::BadShare);
        }
        let number = self.groups.len();
        if number > u32::MAX as usize {
            return Err(GroupFault::Spent);
        }
        self.groups.push(Group::new(cfg, share, now))?;
        Ok(number as u32)
    }

    /// Makes all these groups at a moment, in order, as calls of `new_group` do. It is asked that each share is above 0 and that there are
    /// then at most 2^32 groups. Out of memory is the only fault, and none of them is made then. The cost is in the number of groups that
    /// are made, and of all groups where memory is taken.
    ///
    /// Own.
    pub fn make_all(&mut self, sets: &[GroupSet], now: u64) -> Result<(), GroupFault>
        requires shares { All (λ s. 0 < s.share) sets.now }
        requires numbers { length self.old.value.groups + length sets.now ≤ 2 ^ 32 }
        ensures refused { Refuses result None }
        ensures ok { OnOk result (self.new.value ≡ with_groups now sets.now self.old.value) }
        ensures called { OnOk result (MakingsLead now sets.now self.old.value self.new.value) }
        ensures err { OnErr result (self.new.value ≡ self.old.value) }
        ensures room { self.new.spare ≡ self.old.spare }
    {
        push_all(&mut self.groups, sets, now)?;
        Ok(())
    }

    /// Makes room for so many members more, which then join without memory. The cost is constant, or in the number of members where
    /// memory is taken. Out of memory is the only fault.
    ///
    /// Own.
    pub fn reserve_members(&mut self, count: usize) -> Result<(), GroupFault>
        ensures refused { Refuses result None }
        ensures value { self.new.value ≡ self.old.value }
        ensures ok { OnOk result (count ≤ self.new.spare) }

        // With that much room to spare it isn't out of memory.
        ensures succeeds { count ≤ self.old.spare → IsOk result }
        ensures room { self.old.spare ≤ self.new.spare }
    {
        self.members.reserve(count)?;
        Ok(())
    }

    /// Puts a member into a group. The cost is constant, or in the number of members where memory is taken.
    ///
    /// Libevent: `bufferevent_add_to_rate_limit_group`.
    pub fn join(&mut self, group: u32, member: u64) -> Result<(), GroupFault>
        ensures refused { Refuses result (join_refusal group member self.old.value) }
        ensures ok { OnOk result (self.new.value ≡ joined group member self.old.value) }
        ensures err { OnErr result (self.new.value ≡ self.old.value) }
        ensures called { IsCalled (GroupsCall.Join group member result) self.old.value self.new.value }

        // With room to spare it isn't out of memory, and it uses up at most one place.
        ensures succeeds { join_refusal group member self.old.value ≡ None → 0 < self.old.spare → IsOk result }
        ensures room { self.old.spare ≤ self.new.spare + 1 }
    {
        if group as usize >= self.groups.len() {
            return Err(GroupFault::NoGroup);
        }
        if self.members.contains_key(&member) {
            return Err(GroupFault::AlreadyMember);
        }
        self.change(group, member)
    }

    /// Moves a member to a group, out of the one that it was in. Nothing changes for a member of that group; a member of none joins.
    /// The cost is constant, or in the number of members where memory is taken.
    pub fn change(&mut self, group: u32, member: u64) -> Result<(), GroupFault>
        ensures refused { Refuses result (change_refusal group self.old.value) }
        ensures ok { OnOk result (self.new.value ≡ joined group member self.old.value) }
        ensures err { OnErr result (self.new.value ≡ self.old.value) }
        ensures called { IsCalled (GroupsCall.Change group member result) self.old.value self.new.value }

        // With room to spare it isn't out of memory, and it uses up at most one place.
        ensures succeeds { change_refusal group self.old.value ≡ None → 0 < self.old.spare → IsOk result }
        ensures room { self.old.spare ≤ self.new.spare + 1 }
    {
        if group as usize >= self.groups.len() {
            return Err(GroupFault::NoGroup);
        }
        let before = self.members.insert(member, group)?;
        let all = self.members.len();
        move_member(&mut self.groups, before, group as usize, all as u64);
        Ok(())
    }

    /// Takes a member out of its group. The group's bucket stays as it is. Takes no memory; the cost is in the number of members that
    /// joined after it.
    ///
    /// Libevent: `bufferevent_remove_from_rate_limit_group`.
    pub fn leave(&mut self, member: u64) -> Result<(), GroupFault>
        ensures refused { fault_of result ≡ leave_refusal member self.old.value }
        ensures ok { OnOk result (self.new.value ≡ left member self.old.value) }
        ensures err { OnErr result (self.new.value ≡ self.old.value) }
        ensures called { IsCalled (GroupsCall.Leave member result) self.old.value self.new.value }
        ensures room { self.old.spare ≤ self.new.spare }
    {
        let Some(group) = self.members.shift_remove(&member) else {
            return Err(GroupFault::NotMember);
        };
        drop_member(&mut self.groups, group as usize);
        Ok(())
    }

    /// What a member may move in a direction: 0 while its group is suspended, else the group's level divided by the number of members,
    /// and no less than the least share. None exactly for no member. Takes no memory; the cost is constant.
    pub fn share(&self, member: u64, dir: Dir) -> Option<u64>
        ensures { result ≡ share_in member dir self.now.value }
    {
        let Some(group) = self.members.get(&member) else {
            return None;
        };
        Some(self.groups[*group as usize].share(dir))
    }

    /// Takes n bytes that a member moved from its group's bucket. The group is suspended in the direction where nothing is left. It is
    /// asked that n is at most the member's share. Takes no memory; the cost is constant.
    pub fn spend(&mut self, member: u64, dir: Dir, n: u64)
        requires { IsSomeAnd (share_in member dir self.old.value) (λ share. n ≤ share) }
        ensures value { self.new.value ≡ spent member dir n self.old.value }
        ensures called { IsCalled (GroupsCall.Spend member dir n) self.old.value self.new.value }
        ensures room { self.new.spare ≡ self.old.spare }
    {
        let Some(group) = self.members.get(&member) else {
            return;
        };
        let at = *group as usize;
        spend_at(&mut self.groups, at, dir, n);
    }

    /// Adds to all groups what the ticks bring that began since their last refill, up to their bursts. A suspended direction that then
    /// has the least share goes on. A moment before the last one brings nothing. Takes no memory; the cost is in the number of groups.
    pub fn refill(&mut self, now: u64)
        ensures value { self.new.value ≡ all_refilled now self.old.value }
        ensures called { IsCalled (GroupsCall.Refill now) self.old.value self.new.value }
        ensures room { self.new.spare ≡ self.old.spare }
    {
        refill_all(&mut self.groups, now);
    }

    /// The bytes of a group in a direction, below 0 where members moved more than there was. None exactly for no group. Takes no memory;
    /// the cost is constant.
    pub fn level(&self, group: u32, dir: Dir) -> Option<i64>
        ensures { result ≡ option_map (λ g. signed (lane_of g dir).level) (slice_get self.now.value.groups group) }
    {
        Some(self.groups.get(group as usize)?.level(dir))
    }

    /// Whether a group is suspended in a direction, so that its members move nothing there. None exactly for no group. Takes no memory;
    /// the cost is constant.
    ///
    /// Libevent: bufferevent-internal.h, `read_suspended` and `write_suspended` of a rate limit group.
    pub fn is_suspended(&self, group: u32, dir: Dir) -> Option<bool>
        ensures { result ≡ option_map (λ g. (lane_of g dir).suspended) (slice_get self.now.value.groups group) }
    {
        Some(self.groups.get(group as usize)?.is_suspended(dir))
    }

    /// The earliest moment at which a suspended group gains again, of those that have members: the start of the next tick of its limit.
    /// None exactly where no such group is suspended. It is asked that the time is at most 2^62 ms. Takes no memory; the cost is in the
    /// number of groups.
    ///
    /// Own.
    pub fn gains_at(&self, time: u64) -> Option<u64>
        requires { time ≤ 2 ^ 62 }
        ensures { result ≡ first_moment (waiting_gains time 0 self.now.value.members self.now.value.groups) }
    {
        first_gain(&self.groups, time)
    }
}
