// A limit for each client and one for all of them together: buckets and a rate group.

use rate_group::{Dir, Groups, LimitCfg};
use std::alloc::Global;
use std::io::Print;
use token_bucket::Bucket;

/// Two clients that send as fast as they may, over four ticks of a second.
pub fn two_clients(rt: &impl Print, alloc: Global) -> anyhow::Result<()> {
    let mut groups = Groups::new(alloc);
    let answer = four_ticks(rt, &mut groups);
    drop(groups);
    answer
}

// The groups are lent, so that they are let go at one place. A client may read 600 bytes a second, and both together 1,000.
fn four_ticks(rt: &impl Print, groups: &mut Groups) -> anyhow::Result<()> {
    let own = LimitCfg::new(600, 1_200, 600, 1_200, 1_000)?;
    let all = LimitCfg::new(1_000, 2_000, 1_000, 2_000, 1_000)?;
    let group = groups.new_group(all, 100, 0)?;
    groups.join(group, 7)?;
    groups.join(group, 8)?;
    let mut first = Bucket::start(&own, 0);
    let mut second = Bucket::start(&own, 0);
    for now in [0u64, 1_000, 2_000, 3_000] {
        groups.refill(now);
        let a = read_most(groups, 7, &mut first, &own, now);
        let b = read_most(groups, 8, &mut second, &own, now);
        println!(rt; "at {now} ms the clients read {a} and {b} bytes")?;
    }
    Ok(())
}

/// What a client reads at a moment: as much as its own bucket and its share of the group's let it.
fn read_most(
    groups: &mut Groups,
    client: u64,
    bucket: &mut Bucket,
    own: &LimitCfg,
    now: u64,
) -> u64 {
    bucket.refill(own, now);
    let Some(share) = groups.share(client, Dir::Read) else {
        return 0;
    };
    let count = share.min(bucket.allowance(Dir::Read));
    bucket.spend(Dir::Read, count);
    groups.spend(client, Dir::Read, count);
    count
}
