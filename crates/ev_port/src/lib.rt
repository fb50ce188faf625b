//! The outside of the relay: where text comes from and goes to, who keeps the trace, and the port that reaches
//! the connections. Each is a trait with its meanings; beside them stand sources and sinks over memory and over the
//! toolchain's streams, and a scribe that keeps nothing. There is no port here, and no socket.
#![tactic(auto)]

mod log;
mod mark_want;
mod memory;
mod mute;
mod port;
mod scribe;
mod standard;
mod stream;
mod stream_laws;
mod table;
mod want_word;

pub use ev_types::{Addr, ConnAnswer, ReadAnswer, WriteAnswer};
pub use log::{LogStep, TraceLog};
pub use mark_want::MarkWant;
pub use memory::{MemSink, MemSource};
pub use mute::Mute;
pub use port::{Accepted, Polled, Port, Started, Want};
pub use scribe::Scribe;
pub use standard::{StdSink, StdSource};
pub use stream::{Given, Sink, Source, Taken};
pub use stream_laws::{given_joins, taken_joins};
pub use table::WantTable;
pub use want_word::WantWord;
