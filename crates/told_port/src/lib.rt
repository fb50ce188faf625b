//! A port that tells, over any port: what was asked of it and what it answered, from the calls themselves. What it tells exists in
//! proofs alone, so it costs nothing when it runs.
#![tactic(auto)]

mod call;
mod log;
mod telling_port;

pub use call::{Call, CallWith, TablePoll};
pub use log::CallLog;
pub use telling_port::TellingPort;
