//! The mode that plays a script on sixteen evbuffers and writes what each line answers.
#![tactic(auto)]

mod answer;
mod fault;
mod keyword;
mod laws;
mod line;
mod moves;
mod play;
mod player;
mod read;
mod step;
mod tell;

pub use fault::ModeFault;
pub use laws::scripts_are_never_spent;
pub use play::play_buffers;
