//! Plays a recorded script: from standard input to standard output.
//!
//! `play_program` does all that the program does; `main` hands it the words and the streams, and hands on its status.
#![tactic(auto)]

mod big;
mod closing;
mod hooks;
mod input;
mod outcome;
mod play;
mod program;
mod run;
mod status;
mod summary;
mod turns;

use command_words::program_words;
use ev_port::{StdSink, StdSource};
use ev_types::Status;
use hooks::{PLANNED_SIDES, hand_in};
use program::play_program;
use program_end::finish;
use relay_drive::Hook;
use script_hook::ScriptHook;
use std::io;
use std::process::ExitCode;

fn main(rt: HostRuntime) -> ExitCode {
    let words = program_words(&rt);
    let mut source = StdSource::new(rt.reader());
    let mut sink = StdSink::new(io::writer(&rt));
    let mut errors = StdSink::new(rt.stderr());
    let mut hooks: Vec<Box<dyn Hook>> = Vec::new(rt.alloc());
    for _ in 0..PLANNED_SIDES {
        let Ok(hook) = Box::new(rt.alloc(), ScriptHook::new(rt.alloc())) else {
            return ExitCode::from(finish(&mut errors, Status::Memory));
        };
        let Ok(()) = hand_in(&mut hooks, hook) else {
            return ExitCode::from(finish(&mut errors, Status::Memory));
        };
    }
    ExitCode::from(play_program(
        rt.alloc(),
        words,
        &mut source,
        &mut sink,
        &mut errors,
        hooks,
    ))
}
