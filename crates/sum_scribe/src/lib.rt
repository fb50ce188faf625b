//! A scribe that sums what the trace of a run says, in place of keeping it.
#![tactic(auto)]

mod add;
mod scribe;

pub use scribe::SumScribe;
