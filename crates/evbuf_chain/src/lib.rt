//! Bytes of a buffer in order, with the marks of the references that were added to it. No freezing, callbacks or lines.
#![tactic(auto)]

mod chain;
mod chunk;
mod chunks;
mod ends;
mod fault;
mod laws;
mod moves;
mod own;
mod queue;
mod reading;
mod stack;

pub use chain::Chain;
pub use fault::ChainFault;
pub use laws::tickets_are_handed_out_once;
