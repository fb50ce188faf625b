//! Tests of the relay's code below the drive: whole links with their calls in order, and the sides with their bytes. There is no code
//! here but tests, over public calls.
#![tactic(auto)]

#[cfg(test)]
mod calls;
#[cfg(test)]
mod fires;
#[cfg(test)]
mod links;
#[cfg(test)]
mod pool;
#[cfg(test)]
mod rates;
#[cfg(test)]
mod runs;
#[cfg(test)]
mod sides;
