//! That each step which a relay makes is what the model does: where the relay stands for a trace, it stands for the longer one. Over
//! any marks, timeouts, filters, hooks, limits and groups. `specs/Meaning.antt` says what it is to stand for a trace. The steps of the
//! relay's
//! code are lemmas, which that code cites; those of hooks, buckets and groups stand on functions that do nothing.
#![tactic(auto)]

mod bucket_laws;
mod hook_laws;

pub use bucket_laws::{
    gauges_tell_levels, groups_tell_levels, groups_tell_shares, running_is_least,
};
pub use hook_laws::{
    asks_are_stood_for, dispatches_are_stood_for, fires_are_stood_for, stops_are_left,
    waits_are_hooked,
};
