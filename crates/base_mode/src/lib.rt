//! The mode that plays a script on an event base and writes what each line answers.
#![tactic(auto)]

mod acts;
mod answer;
mod command;
mod halt;
mod line;
mod plans;
mod play;
mod read;
mod run;
mod stop;

pub use command::{Command, Delay, Reaction};
pub use play::{Played, play_base};
pub use read::{BaseScript, read_base_script};
