//! The limit of a side, with its two buckets. Which side it is, and what becomes due, is left to the relay.
#![tactic(auto)]

mod limit;

pub use limit::{MAX_TIME, SideLimit};
