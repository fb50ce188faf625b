//! The names, flags, answers and settings of the relay, the lines of a script, the entries of a trace, and the tape that keeps it.
//!
//! These are values alone. What they mean for a run is said by the crates above.
#![tactic(auto)]

mod act;
mod addr;
mod answer;
mod entry;
mod filter;
mod memory;
mod plan_line;
mod route;
mod settings;
mod side;
mod status;
mod tape;
mod turn_line;
mod why;

pub use act::Act;
pub use addr::Addr;
pub use answer::{AskAnswer, ConnAnswer, ReadAnswer, WriteAnswer};
pub use entry::Entry;
pub use filter::{FilterKind, Mode};
pub use memory::NoMemory;
pub use plan_line::PlanLine;
pub use route::Route;
pub use settings::{Marks, Settings, Timeouts};
pub use side::{BevId, Side, SideId};
pub use status::{LinkCount, LinkState, Status};
pub use tape::Tape;
pub use token_bucket::{Dir, LimitCfg};
pub use turn_line::{ByteList, TurnLine};
pub use why::{Cause, Flags, Why, WhyKind};
