//! The relay's own state, and the calls that make its changes: links with their sides, the bytes on their way, marks, timeouts and timers,
//! limits and rate groups, passing and closing; and hooks, which are lent that state and may ask for changes of it. It reaches no port,
//! keeps no trace and decides no order: the drive above does that.
//!
//! The whole state is `State` of `relay_state`, and the definitions of its changes stand there. Each call's contract says
//! the state after it; `specs/RelayView.antt` says how the code keeps it.
#![tactic(auto)]

mod ask;
mod asks;
mod close;
mod count;
mod ctl;
mod expiry;
mod fault;
mod fire;
mod halts;
mod hook;
mod open;
mod pass;
mod questions;
mod rate_groups;
mod rates;
mod relay;
mod room;
mod serve;
mod watched;

pub use close::Closing;
pub use ctl::Ctl;
pub use ev_types::{LinkCount, Marks, PlanLine, Settings, Timeouts};
pub use fault::AskFault;
pub use halts::Halts;
pub use hook::Hook;
pub use rate_group::GroupSet;
pub use rate_groups::RateGroups;
pub use relay::Relay;
pub use relay_pool::LinkPool;
pub use relay_sides::{Counts, Lengths, SideFlags};
pub use room::Wants;
