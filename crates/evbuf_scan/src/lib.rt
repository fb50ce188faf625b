//! Searching of an evbuffer: for bytes, and for the ends of lines. Only `readln` changes a buffer.
#![tactic(auto)]

mod eol;
mod laws;
mod look;
mod take;

pub use eol::Eol;
pub use laws::places_are_first;
pub use look::{search, search_eol};
pub use take::{peek, readln};
