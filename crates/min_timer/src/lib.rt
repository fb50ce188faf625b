//! Deadlines in order: timers that wait, and the first that is due. What an expiry means stands elsewhere.
#![tactic(auto)]

mod due;
mod fault;
mod heap;
mod key;
mod laws;
mod sift;
mod timer;
mod timers;

pub use fault::TimerFault;
pub use key::TimerKey;
pub use laws::{handles_are_new, handles_stay_gone};
pub use timers::Timers;
