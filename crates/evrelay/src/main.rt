//! Relays between two addresses over real sockets.
//!
//! `relay_told` does all that the program does; `main` hands it the words, the port and the streams, and hands on its status.
#![tactic(auto)]

mod last;
mod lines;
mod program;
mod ring;
#[cfg(test)]
mod tests;
mod want_lines;

use command_words::program_words;
use ev_port::StdSink;
use mio_port::MioPort;
use program::relay_told;
use std::io;
use std::process::ExitCode;
use told_port::TellingPort;

fn main(rt: HostRuntime) -> ExitCode {
    let words = program_words(&rt);
    let mut port = TellingPort::new(MioPort::new(&rt));
    let mut sink = StdSink::new(io::writer(&rt));
    let mut errors = StdSink::new(rt.stderr());
    ExitCode::from(relay_told(&rt, rt.alloc(), words, &mut port, &mut sink, &mut errors))
}
