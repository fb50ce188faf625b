//! Bufferevents: two buffers with flags, marks, timeouts and references. No reading, writing, filtering or pairing.
#![tactic(auto)]

mod bev;
mod chained;
mod event;
mod fault;
mod own_buffer;
mod spare_room;
mod state;

pub use bev::Bev;
pub use event::{EOF, ERROR, READING, TIMEOUT, WRITING};
pub use fault::BevFault;
pub use spare_room::SpareRoom;
pub use state::BevState;
pub use token_bucket::Dir;
