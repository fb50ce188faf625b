//! Which links are watched, and when the others are to be watched again: for each side of a link that is not watched a moment or none. What
//! a moment stands for, and what is watched for, is left to others.
#![tactic(auto)]

mod resting;

pub use resting::RestingLinks;
