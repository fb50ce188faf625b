//! Ports that wait for nothing: one that answers by a script, and one that wraps it and fails at one call.
#![tactic(auto)]

mod end_tally;
mod fail_port;
mod kept_line;
mod laws;
mod port_tally;
mod script_end;
mod script_links;
mod script_port;
mod script_turns;
mod turns_log;

pub use fail_port::{FailPort, PortCall};
pub use laws::{
    lines_bring_bytes, none_waits_on, pending_is_scripted, reads_lose_nothing,
    spelled_scripts_name_opened_links, vouched_is_played,
};
pub use script_port::ScriptPort;
