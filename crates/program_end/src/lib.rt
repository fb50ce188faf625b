//! How a program over the relay ends: the report's lines, a text written to a sink, the line on standard error, the status of the
//! process. What a program does stands above.
#![tactic(auto)]

mod complaint;
mod output;
mod report;
mod status;

pub use complaint::{complain, finish};
pub use output::{WriteFailed, write_text};
pub use report::link_lines;
pub use status::{fault_status, process_status};
