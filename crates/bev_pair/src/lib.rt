//! Two bufferevents of which one reads what the other writes. Which calls of a program make bytes move is left to it.
#![tactic(auto)]

mod fault;
mod passing;

pub use fault::PairFault;
pub use passing::{count, flush_event, transfer};
