//! Groups that share a limit: who is a member, what each may move, and when a group is suspended. Members are numbers. Who moves
//! next is left to the caller.
#![tactic(auto)]

mod fault;
mod group;
mod group_list;
mod group_set;
mod groups;
mod laws;

pub use fault::GroupFault;
pub use group_set::GroupSet;
pub use groups::Groups;
pub use laws::{
    group_keeps_rate, group_level_is_least, groups_keep_rates, levels_follow_from_calls,
    members_follow_from_calls, shares_follow_from_calls, suspensions_follow_from_calls,
};
pub use token_bucket::{Dir, LimitCfg};
