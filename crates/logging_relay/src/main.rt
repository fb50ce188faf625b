//! A relay to copy from: over real sockets as evrelay is, with timeouts, and with a scribe that logs on standard error how each side of
//! each link ended.
#![tactic(auto)]

mod end_log;
mod program;
mod relaying;

use command_words::program_words;
use end_log::EndLog;
use ev_port::StdSink;
use ev_types::Status;
use mio_port::MioPort;
use program::run;
use program_end::finish;
use std::io;
use std::process::ExitCode;

fn main(rt: HostRuntime) -> ExitCode {
    let words = program_words(&rt);
    let mut port = MioPort::new(&rt);
    let mut sink = StdSink::new(io::writer(&rt));
    let mut errors = StdSink::new(rt.stderr());
    let Ok(mut log) = EndLog::new(rt.alloc(), StdSink::new(rt.stderr())) else {
        return ExitCode::from(finish(&mut errors, Status::Memory));
    };
    ExitCode::from(run(
        &rt,
        rt.alloc(),
        words,
        &mut port,
        &mut sink,
        &mut log,
        &mut errors,
    ))
}
