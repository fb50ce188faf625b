//! Bytes in order, in one block. No marks, references or refusals of a buffer.
#![tactic(auto)]

mod byte_queue;

pub use byte_queue::ByteQueue;
