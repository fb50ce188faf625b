//! A relay over a port: links are opened as connections come, and turns are made until so many were opened as the words say and
//! none is open. Then a report is written. What the port is, and who keeps the trace, is the caller's.
#![tactic(auto)]

mod report;
mod run;
mod top;

pub use run::relay;
pub use top::serve;
