//! Limits on rates, and buckets: a signed number of bytes a direction. No sides, groups or clocks: those stand above.
#![tactic(auto)]

mod bucket;
mod laws;
mod level;
mod limit;

pub use bucket::{Bucket, MAX_DEBT};
pub use laws::{change_keeps_less, lets_through_at_most, level_is_least};
pub use limit::{Dir, LimitCfg, LimitFault, MAX_BURST, MAX_TICK_MS};
