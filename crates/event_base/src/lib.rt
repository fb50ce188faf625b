//! Which events a turn fires, in which order and with which flags. It moves no bytes and reads no clock.
#![tactic(auto)]

mod base;
mod deadlines;
mod event;
mod fault;
mod laws;
mod ready;
mod rousing;

pub use base::Base;
pub use event::{READ, SIGNAL, TIMEOUT, WRITE};
pub use fault::BaseFault;
pub use laws::{
    deleted_events_are_quiet, freed_events_are_gone, persistent_timers_are_set_again,
    timers_fire_in_order,
};
pub use prio_queue::MAX_PRIORITIES;
