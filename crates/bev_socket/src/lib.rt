//! How many bytes a bufferevent over a socket may read and write, and what results of reads and writes make of it. No socket.
#![tactic(auto)]

mod event;
mod result;
mod room;

pub use result::{ended, failed, timed_out, took_read, took_write};
pub use room::{MOST_AT_ONCE, READ_MARK, room_read, room_write};
