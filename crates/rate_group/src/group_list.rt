// One group of a list, or each of them, or more of them. Which one is left to the groups.
ghost use Rattle.std.specs.Prelude.{◌≡◌, ◌≤◌, ◌<◌, ◌+◌, ◌-◌, ◌^◌, ◌++◌, ℕ, All, List, OnOk, OnErr, length, map, slice_index_or, slice_set};
ghost use Rattle.std.specs.Option.{option_to_list};
ghost use Rattle.rate_group.specs.GroupList.{group_values, counts_of, gains_counted, one_of, Counted, CountsMove, HasMember, IsWithinShare};
ghost use Rattle.rate_group.specs.Gains.{first_moment};
ghost use Rattle.rate_group.specs.Steps.{all_made, changed_at, spent_in, refilled_to};

use crate::group::Group;
use crate::group_set::GroupSet;
use std::alloc::AllocError;
use token_bucket::Dir;

/// Counts one member more in a group, of so many members of all groups.
fn add_member(groups: &mut [Group], at: usize, all: u64)
    requires at { at < length groups.old }
    requires room { slice_index_or (counts_of groups.old) at 0 < all }
    ensures values { group_values groups.new ≡ group_values groups.old }
    ensures counts { counts_of groups.new ≡ slice_set (counts_of groups.old) at (slice_index_or (counts_of groups.old) at 0 + 1) }
{
    groups[at].join(all);
}

/// Counts one member less in a group.
pub(crate) fn drop_member(groups: &mut [Group], at: usize)
    requires at { at < length groups.old }
    requires some { 0 < slice_index_or (counts_of groups.old) at 0 }
    ensures values { group_values groups.new ≡ group_values groups.old }
    ensures counts { counts_of groups.new ≡ slice_set (counts_of groups.old) at (slice_index_or (counts_of groups.old) at 0 - 1) }
{
    groups[at].leave();
}

/// Counts a member in a group, and no more in the one that it was in. There are so many members of all groups.
pub(crate) fn move_member(groups: &mut [Group], before: Option<u32>, at: usize, all: u64)
    requires at { at < length groups.old }
    requires before { HasMember groups.old before }
    requires room { slice_index_or (counts_of groups.old) at 0 < all + one_of at before }
    ensures values { group_values groups.new ≡ group_values groups.old }
    ensures long { length groups.new ≡ length groups.old }
    ensures counts { CountsMove groups.old groups.new before at }
{
    if let Some(before) = before {
        drop_member(groups, before as usize);
    }
    add_member(groups, at, all);
}

/// Takes bytes from the bucket of a group.
pub(crate) fn spend_at(groups: &mut [Group], at: usize, dir: Dir, n: u64)
    requires at { at < length groups.old }
    requires within { IsWithinShare groups.old at dir n }
    ensures values { group_values groups.new ≡ changed_at at (spent_in dir n) (group_values groups.old) }
    ensures counts { counts_of groups.new ≡ counts_of groups.old }
{
    groups[at].spend(dir, n);
}

/// Refills each group.
pub(crate) fn refill_all(groups: &mut [Group], now: u64)
    ensures values { group_values groups.new ≡ map (refilled_to now) (group_values groups.old) }
    ensures counts { counts_of groups.new ≡ counts_of groups.old }
{
    for group in groups.iter_mut() {
        group.refill(now);
    }
}

/// Makes all these groups, with no members. Where memory is out, none is made.
pub(crate) fn push_all(
    groups: &mut Vec<Group>,
    sets: &[GroupSet],
    now: u64,
) -> Result<(), AllocError>
    requires { All (λ s. 0 < s.share) sets.now }
    ensures ok { OnOk result (group_values groups.new.items ≡ group_values groups.old.items ++ all_made now sets.now) }
    ensures err { OnErr result (groups.new.items ≡ groups.old.items) }
    ensures counted { (members : List (ℕ × ℕ)) → Counted groups.old.items members → Counted groups.new.items members }
{
    groups.reserve(sets.len())?;
    for set in sets {
        groups.push(Group::new(set.cfg, set.share, now)).unwrap();
    }
    Ok(())
}

/// The earlier of two moments, where there are two.
fn earlier(first: Option<u64>, other: Option<u64>) -> Option<u64>
    ensures { result ≡ first_moment (option_to_list first ++ option_to_list other) }
{
    match (first, other) {
        (Some(a), Some(b)) => Some(a.min(b)),
        (Some(a), None) => Some(a),
        (None, other) => other,
    }
}

/// When the first of the suspended groups with members gains again.
pub(crate) fn first_gain(groups: &[Group], time: u64) -> Option<u64>
    requires { time ≤ 2 ^ 62 }
    ensures { result ≡ first_moment (gains_counted time groups.now) }
{
    let mut first = None;
    for group in groups {
        first = earlier(first, group.gains_at(time));
    }
    first
}
