//! The hook that a script plans: at the n-th fire for a kind of reason it asks what the lines for that kind and number say. It tells
//! what it heard, what it asked and its plan.
#![tactic(auto)]

mod ask;
mod fire_counts;
mod hook_log;
mod script_hook;
mod sorted_lines;

pub use script_hook::ScriptHook;
