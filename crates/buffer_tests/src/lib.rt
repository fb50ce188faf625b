//! Tests of the buffers, over their public calls. Nothing stands on this crate, and nothing but tests stands in it.
#![tactic(auto)]

#[cfg(test)]
mod buffers;
#[cfg(test)]
mod chains;
#[cfg(test)]
mod lines;
#[cfg(test)]
mod places;
#[cfg(test)]
mod slices;
