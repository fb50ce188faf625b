//! Tests of the bufferevents: filters of a stream, what is due, bufferevents, their sockets, pairs and filters, and the world that
//! holds them. There is no code here but tests, over public calls.
#![tactic(auto)]

#[cfg(test)]
mod blocks;
#[cfg(test)]
mod bufferevents;
#[cfg(test)]
mod by_number;
#[cfg(test)]
mod callbacks;
#[cfg(test)]
mod chunks;
#[cfg(test)]
mod due;
#[cfg(test)]
mod filters;
#[cfg(test)]
mod lent;
#[cfg(test)]
mod pairs;
#[cfg(test)]
mod sockets;
#[cfg(test)]
mod streams;
#[cfg(test)]
mod worlds;
