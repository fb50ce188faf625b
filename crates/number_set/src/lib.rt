//! Sets of numbers below a length that grows, kept as bits. What the numbers stand for is left to others.
#![tactic(auto)]

mod bits;
mod levels;
mod set;
mod walk;
mod words;

pub use set::NumberSet;
pub use walk::Walk;
