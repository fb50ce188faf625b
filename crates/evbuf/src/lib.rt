//! Evbuffers: bytes in order with frozen ends, size callbacks and the tickets of references. No searching, no owner.
#![tactic(auto)]

mod buffers;
mod callback;
mod callback_list;
mod evbuffer;
mod fault;
mod place;
mod size_callbacks;

pub use buffers::Buffers;
pub use callback::{Report, SizeCallback};
pub use evbuffer::Evbuffer;
pub use fault::BufFault;
pub use place::Place;
