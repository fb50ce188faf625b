//! Tests of the port that the relay asks of the outside, of its implementations and of what stands beside it, over public calls
//! alone. They catch what no clause says: that a call succeeds while there is memory, and what real sockets do.
#![tactic(auto)]

#[cfg(test)]
mod acts;
#[cfg(test)]
mod failed_calls;
#[cfg(test)]
mod loopback;
#[cfg(test)]
mod scripts;
#[cfg(test)]
mod shortage;
#[cfg(test)]
mod sockets;
#[cfg(test)]
mod steps;
#[cfg(test)]
mod streams;
#[cfg(test)]
mod tables;
#[cfg(test)]
mod turns;
