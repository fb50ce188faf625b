//! The order of a turn: the port's calls, the changes of the relay that they lead to, and the entries of the trace. No
//! rule on bytes stands here.
//!
//! A turn has seven phases: clock, begin, poll, serve, dispatch, pass and close. Hooks are called in dispatch alone. A link at which
//! nothing is to be done is left alone.
#![tactic(auto)]

mod accept;
mod agenda;
mod ask;
mod bounds;
mod close;
mod dispatch;
mod drive;
mod fault;
mod naming;
mod pass;
mod poll;
mod run;
mod seats;
mod serve;
mod touch;
mod turn;

pub use bounds::{new_drive_is_within, turns_are_bounded, within_is_not_worn};
pub use drive::Drive;
pub use fault::{DriveFault, TurnEnd};
pub use relay_core::{Ctl, GroupSet, Hook, LinkCount, RateGroups, Settings};
pub use seats::Seats;
