// A group as it is to be made.

use token_bucket::LimitCfg;

/// A group as it is to be made: the limit that its members share, and the least share of one of them, in bytes.
///
/// Libevent: event2/bufferevent.h, `bufferevent_rate_limit_group_new` and `bufferevent_rate_limit_group_set_min_share`; "Bufferevents:
/// advanced topics".
#[derive(Clone, Copy, Debug, PartialEq, Eq)]
pub struct GroupSet {
    pub cfg: LimitCfg,
    pub share: u64,
}
