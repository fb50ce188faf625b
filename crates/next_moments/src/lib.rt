//! For each number below a length a moment or none, and which number comes first. What the numbers stand for is left to others.
#![tactic(auto)]

mod moments;
mod tree;

pub use moments::Moments;
