//! Tests of the crates at the bottom, over their public calls. Nothing stands on this crate, and nothing but tests stands in it.
#![tactic(auto)]

#[cfg(test)]
mod base;
#[cfg(test)]
mod buckets;
#[cfg(test)]
mod groups;
#[cfg(test)]
mod moments;
#[cfg(test)]
mod queues;
#[cfg(test)]
mod sets;
#[cfg(test)]
mod slow_timers;
#[cfg(test)]
mod timers;
#[cfg(test)]
mod values;
