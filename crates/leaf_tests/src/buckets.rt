// Buckets over lists of calls, beside levels that were worked out by hand.

use token_bucket::{Bucket, Dir, LimitCfg, LimitFault};

/// What is done to a bucket's reading.
#[derive(Clone, Copy)]
enum Call {
    Refill(u64),
    Take(u64),
}

/// Takes so many bytes, or what is left.
fn take(bucket: &mut Bucket, n: u64) {
    let n = n.min(bucket.allowance(Dir::Read));
    bucket.spend(Dir::Read, n);
}

/// The calls of one bucket with a rate of 10, a burst of 25 and ticks of 1,000 ms, and the level after each.
const ROWS: [(Call, i64); 10] = [
    (Call::Take(4), 6),
    (Call::Refill(1_999), 6),
    (Call::Take(60), 0),
    (Call::Refill(2_000), 10),
    (Call::Refill(2_000), 10),
    (Call::Refill(1_000), 10),
    (Call::Refill(3_500), 20),
    (Call::Take(1), 19),
    (Call::Refill(4_000), 25),
    (Call::Refill(90_000), 25),
];

/// Whether each call leaves the level of its row.
fn follows_rows(limit: &LimitCfg) -> bool {
    let mut bucket = Bucket::start(limit, 1_500);
    for (call, level) in ROWS {
        match call {
            Call::Refill(now) => bucket.refill(limit, now),
            Call::Take(n) => take(&mut bucket, n),
        }
        if bucket.level(Dir::Read) != level || bucket.level(Dir::Write) != 7 {
            return false;
        }
    }
    true
}

#[test]
fn a_bucket_gains_per_tick_and_not_per_refill(rt: HostRuntime) {
    let answer = LimitCfg::new(10, 25, 7, 7, 1_000).map(|limit| follows_rows(&limit));
    assert_eq!(rt; answer, Ok(true));
}

/// The levels before a limit takes the place of another one, and after.
fn levels_about_change(now: u64) -> Result<(i64, i64), LimitFault> {
    let first = LimitCfg::new(10, 25, 10, 25, 1_000)?;
    let next = LimitCfg::new(4, 4, 4, 4, 10)?;
    let mut bucket = Bucket::start(&first, 0);
    bucket.refill(&first, now);
    let before = bucket.level(Dir::Write);
    bucket.change(&next, now);
    bucket.refill(&next, now);
    Ok((before, bucket.level(Dir::Write)))
}

#[test]
fn another_limit_cuts_a_fuller_bucket(rt: HostRuntime) {
    assert_eq!(rt; levels_about_change(9_000), Ok((25, 4)));
}
