//! The script of a run that is generated in place of being read: so many links, with 3,000 bytes each.
#![tactic(auto)]

mod generator;
mod laws;
mod lines;
mod script;

pub use laws::{big_groups_are_set, big_scripts_are_big, big_scripts_are_drainable};
pub use script::big_script;
