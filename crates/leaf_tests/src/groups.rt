// Groups over lists of calls, beside numbers that were worked out by hand.
ghost use Rattle.std.specs.Prelude.{◌≡◌, []};

use rate_group::{Dir, GroupFault, GroupSet, Groups, LimitCfg};
use std::alloc::Global;

/// A member reads so many bytes, or its share. Answers how many.
fn read(groups: &mut Groups, member: u64, n: u64) -> u64 {
    let Some(share) = groups.share(member, Dir::Read) else {
        return 0;
    };
    let n = n.min(share);
    groups.spend(member, Dir::Read, n);
    n
}

/// What three members read of 100 bytes a tick with a least share of 64, and the level.
fn read_all(groups: &mut Groups) -> ([u64; 3], Option<i64>) {
    let got = [
        read(groups, 0, 100),
        read(groups, 2, 100),
        read(groups, 4, 100),
    ];
    (got, groups.level(0, Dir::Read))
}

/// Three members read, a tick begins, two of them leave, another tick begins, and all read again.
fn three_members(
    groups: &mut Groups,
    limit: LimitCfg,
) -> Result<[([u64; 3], Option<i64>); 3], GroupFault> {
    groups.new_group(limit, 64, 0)?;
    groups.join(0, 0)?;
    groups.join(0, 2)?;
    groups.change(0, 4)?;
    let first = read_all(groups);
    groups.refill(1_000);
    let second = read_all(groups);
    groups.leave(0)?;
    groups.leave(2)?;
    groups.refill(2_000);
    Ok([first, second, read_all(groups)])
}

/// Makes a limit of 100 bytes a tick of 1,000 ms.
fn hundred() -> Option<LimitCfg> {
    LimitCfg::new(100, 100, 100, 100, 1_000).ok()
}

/// What three members read, where nothing was refused.
fn run(alloc: Global) -> Option<[([u64; 3], Option<i64>); 3]> {
    let limit = hundred()?;
    let mut groups = Groups::new(alloc);
    let answer = three_members(&mut groups, limit);
    drop(groups);
    answer.ok()
}

#[test]
fn a_group_is_overdrawn_by_less_than_a_least_share(rt: HostRuntime) {
    let wanted = [
        ([64, 64, 0], Some(-28)),
        ([64, 64, 0], Some(-56)),
        ([0, 0, 0], Some(44)),
    ];
    assert_eq!(rt; run(rt.alloc()), Some(wanted));
}

/// The refusals of calls that name no group, no member or one in a group already, and of a share of 0.
fn refusals(groups: &mut Groups, limit: LimitCfg) -> Result<[bool; 4], GroupFault> {
    groups.new_group(limit, 1, 0)?;
    groups.join(0, 9)?;
    Ok([
        groups.new_group(limit, 0, 0) == Err(GroupFault::BadShare),
        groups.join(1, 9) == Err(GroupFault::NoGroup),
        groups.join(0, 9) == Err(GroupFault::AlreadyMember),
        groups.leave(8) == Err(GroupFault::NotMember),
    ])
}

/// Whether each call is refused as it should be.
fn run_refusals(alloc: Global) -> Option<[bool; 4]> {
    let limit = hundred()?;
    let mut groups = Groups::new(alloc);
    let answer = refusals(&mut groups, limit);
    drop(groups);
    answer.ok()
}

#[test]
fn calls_on_groups_are_refused_by_name(rt: HostRuntime) {
    assert_eq!(rt; run_refusals(rt.alloc()), Some([true; 4]));
}

/// Two groups are made at 300 ms, and two members join the second, in room that was made before: what the second of them may read, and
/// when its group gains again, as it joined and once both read their shares.
fn second_of_two(
    groups: &mut Groups,
    limit: LimitCfg,
) -> Result<[(Option<u64>, Option<u64>); 2], GroupFault>
    requires new { groups.old.value.groups ≡ [] }
{
    let sets = [
        GroupSet {
            cfg: limit,
            share: 7,
        },
        GroupSet {
            cfg: limit,
            share: 64,
        },
    ];
    groups.make_all(&sets, 300)?;
    groups.reserve_members(2)?;
    groups.join(1, 5)?;
    groups.change(1, 6)?;
    let joined = (groups.share(6, Dir::Read), groups.gains_at(300));
    read(groups, 5, 64);
    read(groups, 6, 64);
    Ok([joined, (groups.share(6, Dir::Read), groups.gains_at(300))])
}

/// What is left to the second member, where nothing was refused.
fn run_second_of_two(alloc: Global) -> Option<[(Option<u64>, Option<u64>); 2]> {
    let limit = hundred()?;
    let mut groups = Groups::new(alloc);
    let answer = second_of_two(&mut groups, limit);
    drop(groups);
    answer.ok()
}

#[test]
fn a_suspended_group_tells_when_it_gains_again(rt: HostRuntime) {
    let wanted = [(Some(64), None), (Some(0), Some(1_000))];
    assert_eq!(rt; run_second_of_two(rt.alloc()), Some(wanted));
}
