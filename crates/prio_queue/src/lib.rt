//! Keys by priority, in each queue in the order of activation. It knows no flags and no time.
#![tactic(auto)]

mod active;
mod fault;

pub use active::{Active, MAX_PRIORITIES};
pub use fault::PrioFault;
