//! The callbacks that are due: one pending entry an owner, with joined reasons, and the batch that is being called.
//!
//! Owners are numbers. What they are, and what a call does, stands elsewhere.
#![tactic(auto)]

mod due;
mod reasons;

pub use due::Due;
pub use ev_types::{Flags, NoMemory, Why};
pub use reasons::Reasons;
